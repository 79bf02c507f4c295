//! What a mirror would be left with by a command that takes a component out of it, or drops all.

ghost use Rattle.std.specs.Prelude.{◌≡◌, IfOk, filter};
ghost use Rattle.std.specs.List.{list_any};
ghost use Rattle.gm_metadata.specs.Images.{Image, Sizes};
ghost use Rattle.gm_refusals.specs.Applies.{is_being_filled};
ghost use Rattle.gm_losses.specs.Copies.{goes, one_alone, only_copy, stays};
ghost use Rattle.gm_losses.specs.Losses.{AreLosses};

use crate::loss::{Loss, list_of};
use gm_commands::Command;
use gm_metadata::Label;
use gm_state::{Component, Disk, State};
use std::alloc::{AllocError, Global};

// Whether the component is ACTIVE, and on this provider.
fn goes(provider: Label, component: &Component) -> bool
    ensures { result ≡ goes provider component.now }
{
    component.disk.is_active() && component.provider == provider
}

// Whether it is ACTIVE, and on another one.
fn stays(provider: Label, component: &Component) -> bool
    ensures { result ≡ stays provider component.now }
{
    component.disk.is_active() && component.provider != provider
}

// Whether it is STALE or SYNCHRONIZING.
fn is_being_filled(component: &Component) -> bool
    ensures { result ≡ is_being_filled component.now.disk }
{
    matches!(component.disk, Disk::Copying { .. })
}

// Whether one of the components goes.
fn any_goes(components: &[Component], provider: Label) -> bool
    ensures { result ≡ list_any (goes provider) components.now }
{
    components.iter().any(|k| goes(provider, k))
}

// Whether one of them is being filled.
fn any_being_filled(components: &[Component]) -> bool
    ensures { result ≡ list_any (λ k. is_being_filled k.disk) components.now }
{
    components.iter().any(|k| is_being_filled(k))
}

// The provider of the component, if there is just one.
fn one_alone(components: &[Component]) -> Option<Label>
    ensures { result ≡ one_alone components.now }
{
    match components {
        [component] => Some(component.provider),
        _ => None,
    }
}

// The ACTIVE components that stay if the one on this provider goes.
fn staying(
    alloc: Global,
    members: &[Component],
    provider: Label,
) -> Result<Vec<Component>, AllocError>
    ensures { IfOk result (λ v. v.items ≡ filter (stays provider) members.now) }
{
    members
        .iter()
        .copied()
        .filter(|k| stays(provider, k))
        .collect(alloc)
}

// The one ACTIVE component that would stay alone if the one on this provider goes, which is ACTIVE,
// while others are being filled.
fn only_copy(
    alloc: Global,
    members: &[Component],
    provider: Label,
) -> Result<Option<Label>, AllocError>
    ensures { IfOk result (λ found. found ≡ only_copy members.now provider) }
{
    if any_goes(members, provider) && any_being_filled(members) {
        let staying = staying(alloc, members, provider)?;
        return Ok(one_alone(&staying));
    }
    Ok(None)
}

/// What a `remove` or a `deactivate` of this component would take away.
pub(crate) fn losses_of_leaving(
    alloc: Global,
    state: &State,
    name: Label,
    provider: Label,
) -> Result<Vec<Loss>, AllocError>
    ensures remove { IfOk result (λ list. (size : Sizes) (seen : Image) → AreLosses state.now
        size seen (Command.Remove name provider) list.items) }
    ensures deactivate { IfOk result (λ list. (size : Sizes) (seen : Image) → AreLosses state.now
        size seen (Command.Deactivate name provider) list.items) }
{
    let members = state.members(alloc, name)?;
    match only_copy(alloc, &members, provider)? {
        None => list_of(alloc, None),
        Some(provider) => list_of(alloc, Some(Loss::OnlyCopy { provider })),
    }
}

/// What a `destroy` of this mirror would take away.
pub(crate) fn losses_of_destroy(
    alloc: Global,
    state: &State,
    name: Label,
) -> Result<Vec<Loss>, AllocError>
    ensures { IfOk result (λ list. (size : Sizes) (seen : Image) → AreLosses state.now size seen
        (Command.Destroy name) list.items) }
{
    let components = state.members(alloc, name)?.len() as u64;
    if components > 1 {
        return list_of(alloc, Some(Loss::Mirror { components }));
    }
    list_of(alloc, None)
}
