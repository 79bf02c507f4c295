//! How images stand. Nothing is written.

ghost use Rattle.std.specs.Prelude.{◌≡◌, ◌↔◌, Some, IsNone, IfOk, IfSome};
ghost use Rattle.gm_shelf.specs.Keeping.{Looks};
ghost use Rattle.gm_state.specs.Lookups.{at_component};
ghost use Rattle.gm_state.specs.Records.{IsState};
ghost use Rattle.gm_looks.specs.Standings.{IsBySize, IsOfCleared, IsOfComponent, IsOfNamed};

use crate::said::{said, said_of_mirrors};
use crate::standing::Standing;
use gm_metadata::{Label, encode, same};
use gm_shelf::{Shelf, ShelfFault, read_last};
use gm_state::{Component, Mirror, State, metadata};

/// How the image of a component stands by its size alone: `Absent` or `AnotherSize`, or nothing if
/// it is there with the size that is registered. No sector is read.
pub(crate) fn standing_by_size<H: Shelf>(shelf: &H, component: &Component) -> Option<Standing>
    ensures its_size { IsNone result
        ↔ (H.size shelf.now component.now.provider ≡ Some component.now.sectors) }
    ensures other { IfSome result (IsBySize (H.size shelf.now) component.now) }
{
    match shelf.sectors(component.provider) {
        Some(sectors) if sectors == u64::from(component.sectors) => None,
        None | Some(0) => Some(Standing::Absent),
        Some(_) => Some(Standing::AnotherSize),
    }
}

/// How the image of a component of the mirror stands. Of an image in another size no sector is
/// read. `Device` if its last sector can't be read.
pub fn standing_of_component<H: Shelf>(
    shelf: &mut H,
    mirror: &Mirror,
    component: &Component,
) -> Result<Standing, ShelfFault>
    ensures stands { H.honest shelf.old → IfOk result (IsOfComponent (H.size shelf.old)
        (H.view shelf.old).seen mirror.now component.now) }
    ensures looks { Looks H.Shelf shelf.old shelf.new result }
{
    if let Some(standing) = standing_by_size(shelf, component) {
        return Ok(standing);
    }
    let Some(last) = read_last(shelf, component.provider)? else {
        return Ok(Standing::Absent);
    };
    let registered = metadata(mirror, component);
    if same(&last, &encode(&registered)) {
        return Ok(Standing::AsRegistered);
    }
    Ok(said(&registered, &last))
}

/// How an image stands that is to be cleared. `Device` if its last sector can't be read.
pub fn standing_of_cleared<H: Shelf>(
    shelf: &mut H,
    state: &State,
    provider: Label,
) -> Result<Standing, ShelfFault>
    ensures stands { H.honest shelf.old → IfOk result (IsOfCleared state.now
        (H.size shelf.old) (H.view shelf.old).seen provider) }
    ensures looks { Looks H.Shelf shelf.old shelf.new result }
{
    let Some(last) = read_last(shelf, provider)? else {
        return Ok(Standing::Absent);
    };
    if same(&last, &[0; 512]) {
        return Ok(Standing::Zero);
    }
    Ok(said_of_mirrors(state.mirrors(), &last))
}

// The component on a provider, and its mirror.
fn component_and_mirror(state: &State, provider: Label) -> Option<(Mirror, Component)>
    ensures value { result ≡ at_component state.now provider (λ m k. (m, k)) }
    ensures state { IsState state.now }
{
    let component = state.component(provider)?;
    let mirror = state.mirror(component.mirror)?;
    Some((mirror, component))
}

/// How an image stands that is copied from or to, or takes metadata: as a component, if it is one.
/// `Device` if its last sector can't be read.
pub fn standing_of_named<H: Shelf>(
    shelf: &mut H,
    state: &State,
    provider: Label,
) -> Result<Standing, ShelfFault>
    ensures stands { H.honest shelf.old → IfOk result (IsOfNamed state.now
        (H.size shelf.old) (H.view shelf.old).seen provider) }
    ensures looks { Looks H.Shelf shelf.old shelf.new result }
{
    match component_and_mirror(state, provider) {
        Some((mirror, component)) => {
            let standing = standing_of_component(shelf, &mirror, &component)?;
            Ok(standing)
        }
        None => {
            let standing = standing_of_cleared(shelf, state, provider)?;
            Ok(standing.without_zero())
        }
    }
}
