//! Which components stand otherwise than they are registered, and how. Nothing is written.

ghost use Rattle.std.specs.Prelude.{◌≡◌, IfOk};
ghost use Rattle.gm_shelf.specs.Keeping.{Looks};
ghost use Rattle.gm_state.specs.declared.records.Mirror.{Mirror};
ghost use Rattle.gm_state.specs.Intents.{IsOf};
ghost use Rattle.gm_state.specs.Records.{IsState};
ghost use Rattle.gm_looks.specs.Standings.{IsOfComponent};
ghost use Rattle.gm_looks.specs.Unlikes.{is_meant, IsUnlike};

use crate::standing::Standing;
use crate::standings::standing_of_component;
use gm_commands::Command;
use gm_metadata::Label;
use gm_refusals::is_about;
use gm_shelf::{Shelf, ShelfFault};
use gm_state::{Component, State};
use std::alloc::Global;

/// The components that a look is at.
#[derive(Clone, Copy)]
pub enum Meant<'a> {
    /// All.
    All,
    /// Those that a command is about: of the mirror that it names, and on the providers that it
    /// names, but for those that it gives up as lost.
    By(&'a Command),
}

impl Meant<'_> {
    // Whether this component is one of them.
    fn has(self, component: &Component) -> bool
        ensures { result ≡ is_meant self.entry component.now }
    {
        match self {
            Meant::All => true,
            Meant::By(command) => is_about(command, component),
        }
    }
}

/// A component whose image isn't as it is registered, and how it stands instead.
#[derive(Clone, Copy, Debug, PartialEq, Eq)]
pub struct Unlike {
    pub provider: Label,
    pub standing: Standing,
}

// How the image of a component of the state stands; `Member`, which no state has, if it has no
// mirror.
fn standing_in<H: Shelf>(
    shelf: &mut H,
    state: &State,
    component: &Component,
) -> Result<Standing, ShelfFault>
    ensures stands { H.honest shelf.old → IfOk result (λ standing. IsState state.now → (m : Mirror)
        → IsOf state.now m component.now
        → IsOfComponent (H.size shelf.old) (H.view shelf.old).seen m component.now standing) }
    ensures looks { Looks H.Shelf shelf.old shelf.new result }
{
    let Some(mirror) = state.mirror(component.mirror) else {
        return Ok(Standing::Member);
    };
    let standing = standing_of_component(shelf, &mirror, component)?;
    Ok(standing)
}

/// The components of a state that are meant and whose images aren't as they are registered, in byte
/// order of their providers, each with how it stands. `Device` if a last sector can't be read, or
/// `Memory`.
pub fn unlike_shelf<H: Shelf>(
    alloc: Global,
    shelf: &mut H,
    state: &State,
    meant: Meant<'_>,
) -> Result<Vec<Unlike>, ShelfFault>
    ensures unlike { H.honest shelf.old → IfOk result (λ list.
        IsUnlike (is_meant meant.entry) state.now (H.size shelf.old) (H.view shelf.old).seen
        list.items) }
    ensures state { IsState state.now }
    ensures looks { Looks H.Shelf shelf.old shelf.new result }
{
    let mut list = Vec::new(alloc);
    for component in state.components() {
        if !meant.has(component) {
            continue;
        }
        let standing = standing_in(shelf, state, component)?;
        if standing.is_as_registered() {
            continue;
        }
        let provider = component.provider;
        list.push(Unlike { provider, standing })?;
    }
    Ok(list)
}
