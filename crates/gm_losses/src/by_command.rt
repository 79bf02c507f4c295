//! All losses of a command.

ghost use Rattle.std.specs.Prelude.{IfOk};
ghost use Rattle.gm_shelf.specs.Keeping.{Looks};
ghost use Rattle.gm_state.specs.Records.{IsState};
ghost use Rattle.gm_losses.specs.Losses.{AreLosses};

use crate::clear_losses::losses_of_clear;
use crate::copies::{losses_of_destroy, losses_of_leaving};
use crate::insert_losses::losses_of_insert;
use crate::intact::losses_of_lost;
use crate::label_losses::losses_of_label;
use crate::left_images::losses_of_adopt;
use crate::loss::Loss;
use gm_apply::Watch;
use gm_commands::Command;
use gm_shelf::{Shelf, ShelfFault};
use gm_state::State;
use std::alloc::Global;

// The records of a state keep its rules.
fn keeps_rules(state: &State)
    ensures { IsState state.now }
{
    let _mirrors = state.mirrors();
}

/// What a command would take away for good, by the records of a state and the images of a shelf, in
/// byte order of providers; of one provider a database before the last sector. Nothing is written.
///
/// Nothing is told of a command that is refused because of its mirror or its image: of a `label` or
/// an `adopt` of a name that is registered, of the others if it isn't; of a `label`, an `insert` or
/// a `clear` of an image that isn't there, has a size that isn't allowed, or is a component, nor of
/// the first two if it carries metadata; of what is no component of the mirror; and of an `adopt`
/// unless all named images are of one mirror of that name.
///
/// An `insert` reads its image up to the first data, and the watch is told of each run of zeros.
/// An `adopt` reads the last sector of each image, and compares the data of those that it names and
/// that are ACTIVE, of which the watch is told too. A `label`, a `clear` or a `lost` reads sectors
/// of those that it names. `Device` if one of these can't be read, or `Memory`.
pub fn losses<H: Shelf, W: Watch>(
    alloc: Global,
    shelf: &mut H,
    state: &State,
    command: &Command,
    watch: &mut W,
) -> Result<Vec<Loss>, ShelfFault>
    ensures losses { H.honest shelf.old → IfOk result (λ list. AreLosses state.now
        (H.size shelf.old) (H.view shelf.old).seen command.now list.items) }
    ensures state { IsState state.now }
    ensures looks { Looks H.Shelf shelf.old shelf.new result }
{
    keeps_rules(state);
    match command {
        Command::Label(new) => losses_of_label(alloc, shelf, state, new),
        Command::Insert(new) => losses_of_insert(alloc, shelf, state, new, watch),
        Command::Remove { name, provider } | Command::Deactivate { name, provider } => {
            Ok(losses_of_leaving(alloc, state, *name, *provider)?)
        }
        Command::Clear { provider } => losses_of_clear(alloc, shelf, state, *provider),
        Command::Destroy { name } => Ok(losses_of_destroy(alloc, state, *name)?),
        Command::Lost { name, providers } => losses_of_lost(alloc, shelf, state, *name, providers),
        Command::Adopt { name, providers } => {
            losses_of_adopt(alloc, shelf, state, *name, providers, watch)
        }
        _ => Ok(Vec::new(alloc)),
    }
}
