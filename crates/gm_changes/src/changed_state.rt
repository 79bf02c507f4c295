//! The records with a change made.

ghost use Rattle.std.specs.Prelude.{◌≡◌, ◌≤◌, IfOk, IfSome, IfNone, filter, length, not};
ghost use Rattle.std.specs.List.{list_any, prefix_len};
ghost use Rattle.gm_metadata.specs.Images.{same_label};
ghost use Rattle.gm_state.specs.Records.{IsState, name as name_of, provider as provider_of};
ghost use Rattle.gm_lists.specs.Ordered.{Ascends, label_lt, put, put_all, without};
ghost use Rattle.gm_changes.specs.Decides.{changed_by, put_some, without_some};

use crate::change::Change;
use crate::members::{components_left, others_of};
use gm_metadata::Label;
use gm_state::{Component, Mirror, State, put};
use std::alloc::{AllocError, Global};

/// The state with the change made; `None` if the records would break a rule.
pub fn changed_by(
    alloc: Global,
    state: &State,
    change: &Change,
) -> Result<Option<State>, AllocError>
    ensures some { IfOk result (λ o. IfSome o (λ s. s ≡ changed_by change.now state.now)) }
    ensures none { IfOk result (λ o. IfNone o (IsState (changed_by change.now state.now) → ⊥)) }
{
    let left = mirrors_left(alloc, state.mirrors(), change.gone_mirror())?;
    let mirrors = with_some(alloc, left, change.mirror())?;
    let left = components_left(alloc, state.components(), change.gone_components())?;
    let components = with_all(alloc, left, change.components())?;
    Ok(State::new(mirrors, components))
}

fn other_mirrors(alloc: Global, mirrors: &[Mirror], name: Label) -> Result<Vec<Mirror>, AllocError>
    ensures { IfOk result (λ v. v.items ≡ without name_of name mirrors.now) }
{
    mirrors
        .iter()
        .copied()
        .filter(|m| m.name != name)
        .collect(alloc)
}

fn mirrors_left(
    alloc: Global,
    mirrors: &[Mirror],
    gone: Option<Label>,
) -> Result<Vec<Mirror>, AllocError>
    ensures { IfOk result (λ v. v.items ≡ without_some gone mirrors.now) }
{
    match gone {
        None => Ok(mirrors.to_vec(alloc)?),
        Some(name) => other_mirrors(alloc, mirrors, name),
    }
}

fn place_of(mirrors: &[Mirror], name: Label) -> usize
    ensures value { result ≡ prefix_len (λ m. label_lt m.name name) mirrors.now }
    ensures within { result ≤ length mirrors.now }
{
    mirrors.iter().take_while(|m| m.name < name).count()
}

// With a mirror in place of the one of its name.
fn with_mirror(alloc: Global, mirrors: &[Mirror], new: Mirror) -> Result<Vec<Mirror>, AllocError>
    requires { Ascends name_of mirrors.now }
    ensures { IfOk result (λ v. v.items ≡ put name_of new mirrors.now) }
{
    let mut all = other_mirrors(alloc, mirrors, new.name)?;
    let at = place_of(&all, new.name);
    all.insert(at, new)?;
    Ok(all)
}

fn with_some(
    alloc: Global,
    mirrors: Vec<Mirror>,
    new: Option<Mirror>,
) -> Result<Vec<Mirror>, AllocError>
    requires { Ascends name_of mirrors.items }
    ensures { IfOk result (λ v. v.items ≡ put_some new mirrors.items) }
{
    match new {
        None => Ok(mirrors),
        Some(mirror) => with_mirror(alloc, &mirrors, mirror),
    }
}

// With a component in place of the one on its provider.
fn with_component(
    alloc: Global,
    components: &[Component],
    new: Component,
) -> Result<Vec<Component>, AllocError>
    requires { Ascends provider_of components.now }
    ensures { IfOk result (λ v. v.items ≡ put provider_of new components.now) }
{
    let mut all = others_of(alloc, components, new.provider)?;
    put(&mut all, new)?;
    Ok(all)
}

pub(crate) fn with_all(
    alloc: Global,
    mut components: Vec<Component>,
    added: &[Component],
) -> Result<Vec<Component>, AllocError>
    requires { Ascends provider_of components.items }
    ensures { IfOk result (λ v. v.items ≡ put_all provider_of added.now components.items) }
{
    for component in added {
        components = with_component(alloc, &components, *component)?;
    }
    Ok(components)
}
