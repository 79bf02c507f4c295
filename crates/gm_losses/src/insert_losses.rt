//! What an `insert` would take away.

ghost use Rattle.std.specs.Prelude.{◌≡◌, IfOk, Some};
ghost use Rattle.gm_shelf.specs.Keeping.{Looks};
ghost use Rattle.gm_losses.specs.FreeImages.{TellsLost};
ghost use Rattle.gm_losses.specs.Losses.{AreLosses};

use crate::free_image::{FreeImage, free_image, is_database};
use crate::loss::{Loss, list_of};
use crate::scan::first_data;
use gm_apply::Watch;
use gm_commands::{Command, NewComponent};
use gm_metadata::Label;
use gm_shelf::{Shelf, ShelfFault};
use gm_state::State;
use std::alloc::Global;

// What is lost of an image that can be inserted.
fn lost_of<H: Shelf, W: Watch>(
    shelf: &mut H,
    provider: Label,
    image: &FreeImage,
    watch: &mut W,
) -> Result<Option<Loss>, ShelfFault>
    requires size { H.size shelf.old provider ≡ Some image.now.sectors }
    ensures lost { H.honest shelf.old →
        IfOk result (TellsLost provider ((H.view shelf.old).seen provider) image.now) }
    ensures looks { Looks H.Shelf shelf.old shelf.new result }
{
    if is_database(&image.first) {
        return Ok(Some(Loss::Database { provider }));
    }
    match first_data(shelf, provider, image.sectors, watch)? {
        None => Ok(None),
        Some(place) => Ok(Some(Loss::Data { provider, place })),
    }
}

/// What an `insert` would take away. The watch is told how far its image was read. `Device` if a
/// sector of it can't be read, or `Memory`.
pub(crate) fn losses_of_insert<H: Shelf, W: Watch>(
    alloc: Global,
    shelf: &mut H,
    state: &State,
    new: &NewComponent,
    watch: &mut W,
) -> Result<Vec<Loss>, ShelfFault>
    ensures losses { H.honest shelf.old → IfOk result (λ list. AreLosses state.now
        (H.size shelf.old) (H.view shelf.old).seen (Command.Insert new.now) list.items) }
    ensures looks { Looks H.Shelf shelf.old shelf.new result }
{
    if state.mirror(new.name).is_none() {
        return Ok(Vec::new(alloc));
    }
    let Some(image) = free_image(shelf, state, new.provider)? else {
        return Ok(Vec::new(alloc));
    };
    let lost = lost_of(shelf, new.provider, &image, watch)?;
    Ok(list_of(alloc, lost)?)
}
