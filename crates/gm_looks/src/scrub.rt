//! Which ACTIVE components hold other data than their mirror's source. Nothing is written.

ghost use Rattle.std.specs.Prelude.{◌≡◌, ◌↔◌, Some, IsTrue, IfOk, IfSome, IfNone};
ghost use Rattle.gm_shelf.specs.Keeping.{Looks};
ghost use Rattle.gm_lists.specs.Ordered.{Has};
ghost use Rattle.gm_state.specs.declared.records.Mirror.{Mirror};
ghost use Rattle.gm_state.specs.Records.{IsState};
ghost use Rattle.gm_state.specs.Sources.{goes_first};
ghost use Rattle.gm_looks.specs.Scrubs.{IsActiveOf, IsAskedFor, IsScrub, IsSourceOfMirror, MayHaveFlaw};

use crate::standings::standing_by_size;
use gm_apply::{Watch, differing_sectors};
use gm_metadata::Label;
use gm_shelf::{Shelf, ShelfFault};
use gm_state::{Component, Mirror, State, source};
use std::alloc::Global;

/// What is amiss of a component's data.
#[derive(Clone, Copy, Debug, PartialEq, Eq)]
pub enum Flaw {
    /// Its image, or that of its mirror's source, isn't there with the size that is registered.
    Uncompared,
    /// So many of its data sectors aren't the source's, of which that is the first.
    Differs { sectors: u64, first: u64 },
}

/// An ACTIVE component that doesn't hold its mirror's data.
#[derive(Clone, Copy, Debug, PartialEq, Eq)]
pub struct Scrubbed {
    pub provider: Label,
    pub flaw: Flaw,
}

// Whether the one is the source before the other.
fn goes_first(a: &Component, b: &Component) -> bool
    ensures { result ≡ goes_first a.now b.now }
{
    b.priority < a.priority || a.priority == b.priority && a.provider < b.provider
}

// The source of an ACTIVE component's mirror: the component, or where a copy to it would come from.
fn source_of_mirror(state: &State, component: &Component) -> Component
    ensures { IsState state.now → (m : Mirror) → IsActiveOf state.now m component.now
        → IsSourceOfMirror state.now m result }
{
    let Some(name) = source(state, component.provider) else {
        return *component;
    };
    let Some(other) = state.component(name) else {
        return *component;
    };
    if goes_first(&other, component) {
        other
    } else {
        *component
    }
}

// Whether a mirror of this name is asked for.
fn is_asked_for(asked: &Option<Label>, name: Label) -> bool
    ensures { (m : Mirror) → m.name ≡ name → IsTrue result ↔ IsAskedFor asked.now m }
{
    match asked {
        None => true,
        Some(one) => *one == name,
    }
}

// The mirror of a component, if the component is ACTIVE, and the mirror asked for.
fn asked_mirror(state: &State, component: &Component, asked: &Option<Label>) -> Option<Mirror>
    requires { Has state.now.components component.now }
    ensures some { IfSome result (λ m. IsActiveOf state.now m component.now
        × IsAskedFor asked.now m) }
    ensures none { IfNone result ((m : Mirror) → IsActiveOf state.now m component.now
        → IsAskedFor asked.now m → ⊥) }
{
    let mirror = state.mirror(component.mirror);
    if component.disk.is_active() && is_asked_for(asked, component.mirror) {
        mirror
    } else {
        None
    }
}

// Whether the image of a component is there with the size that is registered.
fn has_its_size<H: Shelf>(shelf: &H, component: &Component) -> bool
    ensures { IsTrue result
        ↔ (H.size shelf.now component.now.provider ≡ Some component.now.sectors) }
{
    standing_by_size(shelf, component).is_none()
}

// What is amiss of an ACTIVE component of a mirror.
fn flaw_of<H: Shelf, W: Watch>(
    shelf: &mut H,
    state: &State,
    mirror: &Mirror,
    component: &Component,
    watch: &mut W,
) -> Result<Option<Flaw>, ShelfFault>
    requires state { IsState state.now }
    requires active { IsActiveOf state.now mirror.now component.now }
    ensures told { H.honest shelf.old → IfOk result (MayHaveFlaw state.now (H.size shelf.old)
        (H.view shelf.old).seen mirror.now component.now) }
    ensures looks { Looks H.Shelf shelf.old shelf.new result }
{
    let source = source_of_mirror(state, component);
    if !has_its_size(shelf, &source) || !has_its_size(shelf, component) {
        return Ok(Some(Flaw::Uncompared));
    }
    if source.provider == component.provider {
        return Ok(None);
    }
    let sectors = u64::from(mirror.data_sectors);
    let found = differing_sectors(shelf, source.provider, component.provider, sectors, watch)?;
    if found.first < sectors {
        return Ok(Some(Flaw::Differs {
            sectors: found.sectors,
            first: found.first,
        }));
    }
    Ok(None)
}

/// The ACTIVE components that hold other data than their mirror's source, in byte order of their
/// providers, each with what is amiss: of this mirror, or of all if none is named. A mirror's
/// source is its ACTIVE component with the greatest priority, among equals the one with the least
/// name. The watch is told how far it is. `Device` if a sector can't be read, or `Memory`.
pub fn scrub_shelf<H: Shelf, W: Watch>(
    alloc: Global,
    shelf: &mut H,
    state: &State,
    asked: &Option<Label>,
    watch: &mut W,
) -> Result<Vec<Scrubbed>, ShelfFault>
    ensures scrub { H.honest shelf.old → IfOk result (λ list.
        IsScrub state.now (H.size shelf.old) (H.view shelf.old).seen asked.now list.items) }
    ensures looks { Looks H.Shelf shelf.old shelf.new result }
{
    let mut list = Vec::new(alloc);
    for component in state.components() {
        let Some(mirror) = asked_mirror(state, component, asked) else {
            continue;
        };
        let Some(flaw) = flaw_of(shelf, state, &mirror, component, watch)? else {
            continue;
        };
        let provider = component.provider;
        list.push(Scrubbed { provider, flaw })?;
    }
    Ok(list)
}
