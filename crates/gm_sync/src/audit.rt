//! Which mirrors are passed over: those of which an image isn't as it is registered.

ghost use Rattle.std.specs.Prelude.{◌≡◌, true, false, filter, IfErr, IfOk};
ghost use Rattle.gm_registry.specs.Registry.{DiskKept};
ghost use Rattle.gm_bench.specs.Benches.{progress_of, registry_of, shelf_of};
ghost use Rattle.gm_bench.specs.Phases.{TakesCommands};
ghost use Rattle.gm_sync.specs.Faults.{FailsFilling, IsNone};
ghost use Rattle.gm_sync.specs.Filling.{IsPassedOverAt, KeepsMedia};
ghost use Rattle.gm_sync.specs.Scopes.{PassesNone, has_image, is_component_of, is_named_beside, mirrors_of};

use crate::passed_over::PassedOver;
use crate::scope::Scope;
use gm_bench::{Bench, BenchFault};
use gm_metadata::Label;
use gm_shelf::Shelf;
use gm_state::{Mirror, State};
use sqlite::Alter;
use std::alloc::{AllocError, Global};

// Whether the component on a provider is of a mirror that is meant.
fn is_named_beside(state: &State, scope: Scope, provider: Label) -> bool
    ensures { result ≡ is_named_beside scope state.now provider }
{
    match state.component(provider) {
        Some(component) => scope.is_beside(&component),
        None => false,
    }
}

// Those of the names that are components of mirrors that are meant.
fn those_beside(
    alloc: Global,
    state: &State,
    scope: Scope,
    names: &[Label],
) -> Result<Vec<Label>, AllocError>
    ensures { IfOk result (λ found. found.items
        ≡ filter (λ p. is_named_beside scope state.now p) names.now) }
{
    names
        .iter()
        .copied()
        .filter(|name| is_named_beside(state, scope, *name))
        .collect(alloc)
}

// Whether the component on a provider is the mirror's.
fn is_component_of(state: &State, mirror: &Mirror, provider: Label) -> bool
    ensures { result ≡ is_component_of state.now mirror.now provider }
{
    match state.component(provider) {
        Some(component) => component.mirror == mirror.name,
        None => false,
    }
}

// Whether one of the images is of a component of the mirror.
fn has_image(state: &State, images: &[Label], mirror: &Mirror) -> bool
    ensures { result ≡ has_image state.now images.now mirror.now }
{
    images
        .iter()
        .any(|image| is_component_of(state, mirror, *image))
}

// The mirrors of which one is, in byte order.
fn mirrors_of(alloc: Global, state: &State, images: &[Label]) -> Result<Vec<Label>, AllocError>
    ensures { IfOk result (λ found. found.items ≡ mirrors_of state.now images.now) }
{
    state
        .mirrors()
        .iter()
        .filter(|mirror| has_image(state, images, mirror))
        .map(|mirror| mirror.name)
        .collect(alloc)
}

// What is passed over if an audit lists these names.
fn passed_over_for(
    alloc: Global,
    state: &State,
    scope: Scope,
    names: &[Label],
) -> Result<PassedOver, AllocError>
    ensures images { IfOk result (λ passed. passed.images.items
        ≡ filter (λ p. is_named_beside scope state.now p) names.now) }
    ensures mirrors { IfOk result (λ passed. passed.mirrors.items
        ≡ mirrors_of state.now passed.images.items) }
{
    let images = those_beside(alloc, state, scope, names)?;
    let mirrors = mirrors_of(alloc, state, &images)?;
    Ok(PassedOver { mirrors, images })
}

/// The mirrors that are meant, and of which an image isn't as it is registered; none unless an
/// audit is asked for. It writes nothing, and reads the registry once if all images are.
pub(crate) fn amiss<S: Alter, H: Shelf>(
    alloc: Global,
    bench: &mut Bench<S, H>,
    scope: &Scope,
    audits: bool,
) -> Result<PassedOver, BenchFault>
    requires { TakesCommands (progress_of bench.old) }
    ensures phase { TakesCommands (progress_of bench.new) }
    ensures looks { KeepsMedia S.Store H.Shelf bench.old bench.new result }
    ensures told { audits ≡ true → H.honest (shelf_of bench.old)
        → DiskKept S.Store (registry_of bench.new)
        → IfOk result (IsPassedOverAt S.Store H.Shelf bench.old scope.now) }
    ensures unasked { audits ≡ false → IfOk result PassesNone }
    ensures faults { IfErr result (FailsFilling S.Store H.Shelf IsNone bench.old bench.new) }
{
    if !audits {
        return Ok(PassedOver::none(alloc));
    }
    let names = bench.audit(alloc)?;
    if names.is_empty() {
        return Ok(PassedOver::none(alloc));
    }
    let state = bench.view(alloc)?;
    match passed_over_for(alloc, &state, *scope, &names) {
        Ok(passed) => Ok(passed),
        Err(_) => Err(BenchFault::Memory),
    }
}
