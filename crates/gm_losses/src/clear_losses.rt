//! What a `clear` would take away.

ghost use Rattle.std.specs.Prelude.{◌≡◌, IfOk};
ghost use Rattle.gm_metadata.specs.Reading.{decode_of};
ghost use Rattle.gm_shelf.specs.Keeping.{Looks};
ghost use Rattle.gm_losses.specs.ClearedImages.{is_needed, is_outdated, needed_by};
ghost use Rattle.gm_losses.specs.Losses.{AreLosses};

use crate::free_image::has_wrong_size;
use crate::loss::{Loss, list_of};
use crate::whole_images::is_in_use;
use gm_commands::Command;
use gm_metadata::{Label, Metadata, decode};
use gm_shelf::{Shelf, ShelfFault, read_last};
use gm_state::{Mirror, State};
use std::alloc::Global;

// Whether a registered mirror is that of the metadata, and has a greater genid.
fn is_outdated(registered: Option<Mirror>, metadata: &Metadata) -> bool
    ensures { result ≡ is_outdated registered metadata.now }
{
    match registered {
        Some(mirror) => mirror.mid == metadata.mid && metadata.genid < mirror.genid,
        None => false,
    }
}

// Whether a mirror may need an image that says this.
fn is_needed(state: &State, metadata: &Metadata) -> bool
    ensures { result ≡ is_needed state.now metadata.now }
{
    is_in_use(metadata) && !is_outdated(state.mirror(metadata.name), metadata)
}

// What is said of an image by its last sector.
fn needed_by(state: &State, provider: Label, last: &[u8; 512]) -> Option<Loss>
    ensures { result ≡ needed_by state.now provider (decode_of last.now) }
{
    let metadata = decode(last).ok()?;
    if !is_needed(state, &metadata) {
        return None;
    }
    Some(Loss::Member {
        provider,
        mirror: metadata.name,
    })
}

/// What a `clear` would take away. `Device` if the last sector can't be read, or `Memory`.
pub(crate) fn losses_of_clear<H: Shelf>(
    alloc: Global,
    shelf: &mut H,
    state: &State,
    provider: Label,
) -> Result<Vec<Loss>, ShelfFault>
    ensures losses { H.honest shelf.old → IfOk result (λ list. AreLosses state.now
        (H.size shelf.old) (H.view shelf.old).seen (Command.Clear provider) list.items) }
    ensures looks { Looks H.Shelf shelf.old shelf.new result }
{
    let Some(sectors) = shelf.sectors(provider) else {
        return Ok(Vec::new(alloc));
    };
    if has_wrong_size(sectors) || state.component(provider).is_some() {
        return Ok(Vec::new(alloc));
    }
    let Some(last) = read_last(shelf, provider)? else {
        return Ok(Vec::new(alloc));
    };
    Ok(list_of(alloc, needed_by(state, provider, &last))?)
}
