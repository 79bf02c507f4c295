//! The images that a `lost` would give up though nothing is amiss with them.

ghost use Rattle.std.specs.Prelude.{◌↔◌, IfOk, IsTrue};
ghost use Rattle.gm_shelf.specs.Keeping.{Looks};
ghost use Rattle.gm_state.specs.declared.records.Mirror.{Mirror};
ghost use Rattle.gm_state.specs.Intents.{IsOf};
ghost use Rattle.gm_state.specs.Records.{IsState};
ghost use Rattle.gm_looks.specs.Audits.{IsAsRegistered};
ghost use Rattle.gm_losses.specs.Losses.{AreLosses};

use crate::loss::Loss;
use gm_commands::{Command, Providers};
use gm_looks::standing_of_component;
use gm_metadata::Label;
use gm_refusals::is_on_any;
use gm_shelf::{Shelf, ShelfFault};
use gm_state::{Component, State};
use std::alloc::Global;

// Whether the image of a component of the state is there, and as it is registered.
fn is_intact<H: Shelf>(
    shelf: &mut H,
    state: &State,
    component: &Component,
) -> Result<bool, ShelfFault>
    ensures intact { H.honest shelf.old → IfOk result (λ is. (m : Mirror)
        → IsOf state.now m component.now → IsTrue is
        ↔ IsAsRegistered (H.size shelf.old) (H.view shelf.old).seen m component.now) }
    ensures state { IsState state.now }
    ensures looks { Looks H.Shelf shelf.old shelf.new result }
{
    let Some(mirror) = state.mirror(component.mirror) else {
        return Ok(false);
    };
    let standing = standing_of_component(shelf, &mirror, component)?;
    Ok(standing.is_as_registered())
}

/// What a `lost` would take away: the images of those components of the mirror that it names which
/// are there, and as they are registered. `Device` if a last sector can't be read, or `Memory`.
pub(crate) fn losses_of_lost<H: Shelf>(
    alloc: Global,
    shelf: &mut H,
    state: &State,
    name: Label,
    providers: &Providers,
) -> Result<Vec<Loss>, ShelfFault>
    ensures losses { H.honest shelf.old → IfOk result (λ list. AreLosses state.now
        (H.size shelf.old) (H.view shelf.old).seen (Command.Lost name providers.now) list.items) }
    ensures looks { Looks H.Shelf shelf.old shelf.new result }
{
    let named = providers.as_slice();
    let members = state.members(alloc, name)?;
    let mut list = Vec::new(alloc);
    for component in &members {
        if !is_on_any(named, component) {
            continue;
        }
        if !is_intact(shelf, state, component)? {
            continue;
        }
        let provider = component.provider;
        list.push(Loss::Intact { provider })?;
    }
    Ok(list)
}
