//! What a `label` would take away.

ghost use Rattle.std.specs.Prelude.{◌≡◌, ◌++◌, ◌∷◌, [], IfOk, OnOk, if◌then◌else◌};
ghost use Rattle.gm_shelf.specs.Keeping.{Looks};
ghost use Rattle.gm_losses.specs.FreeImages.{lost_of};
ghost use Rattle.gm_losses.specs.Losses.{AreLosses};

use crate::free_image::{FreeImage, free_image, is_blank, is_database};
use crate::loss::Loss;
use gm_commands::{Command, NewMirror};
use gm_metadata::Label;
use gm_shelf::{Shelf, ShelfFault};
use gm_state::State;
use std::alloc::{AllocError, Global};

// Adds a loss, if it is one.
fn push_if(list: &mut Vec<Loss>, loss: Loss, is: bool) -> Result<(), AllocError>
    ensures { OnOk result (list.new.items ≡ list.old.items ++ (if is then loss ∷ [] else [])) }
{
    if is {
        list.push(loss)?;
    }
    Ok(())
}

// What is lost of an image that can be labelled.
fn lost_of(alloc: Global, provider: Label, image: &FreeImage) -> Result<Vec<Loss>, AllocError>
    ensures { IfOk result (λ list. list.items ≡ lost_of provider image.now) }
{
    let mut list = Vec::new(alloc);
    push_if(
        &mut list,
        Loss::Database { provider },
        is_database(&image.first),
    )?;
    push_if(
        &mut list,
        Loss::LastSector { provider },
        !is_blank(&image.last),
    )?;
    Ok(list)
}

/// What a `label` would take away. `Device` if a sector of its image can't be read, or `Memory`.
pub(crate) fn losses_of_label<H: Shelf>(
    alloc: Global,
    shelf: &mut H,
    state: &State,
    new: &NewMirror,
) -> Result<Vec<Loss>, ShelfFault>
    ensures losses { H.honest shelf.old → IfOk result (λ list. AreLosses state.now
        (H.size shelf.old) (H.view shelf.old).seen (Command.Label new.now) list.items) }
    ensures looks { Looks H.Shelf shelf.old shelf.new result }
{
    if state.mirror(new.name).is_some() {
        return Ok(Vec::new(alloc));
    }
    match free_image(shelf, state, new.provider)? {
        None => Ok(Vec::new(alloc)),
        Some(image) => Ok(lost_of(alloc, new.provider, &image)?),
    }
}
