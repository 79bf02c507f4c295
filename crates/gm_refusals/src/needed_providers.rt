//! The providers that a command needs to know of before it is decided.

ghost use Rattle.std.specs.Prelude.{◌≡◌, ◌++◌, IfOk, OnOk, map, filter};
ghost use Rattle.gm_state.specs.Records.{Records, provider};
ghost use Rattle.gm_refusals.specs.Applies.{name_of, looked_at, is_member_of, is_awaited};
ghost use Rattle.gm_refusals.specs.PartOf.{IsPartOf};
ghost use Rattle.gm_refusals.specs.WorldFacts.{needed_by};

use crate::predicates::{is_awaited, is_member_of, looked_at, name_of};
use gm_commands::Command;
use gm_metadata::Label;
use gm_state::{Component, State};
use std::alloc::{AllocError, Global};

fn seen(alloc: Global, command: &Command) -> Result<Vec<Label>, AllocError>
    ensures { IfOk result (λ v. v.items ≡ looked_at command.now) }
{
    looked_at(command).iter().copied().collect(alloc)
}

fn of_mirror(
    alloc: Global,
    components: &[Component],
    command: &Command,
) -> Result<Vec<Label>, AllocError>
    ensures { IfOk result (λ v. v.items ≡ map provider (filter (λ k. is_awaited command.now k)
        (filter (λ k. is_member_of (name_of command.now) k) components.now))) }
{
    let name = name_of(command);
    components
        .iter()
        .filter(|k| is_member_of(name, k))
        .filter(|k| is_awaited(command, k))
        .map(|k| k.provider)
        .collect(alloc)
}

fn all_needed(alloc: Global, state: &State, command: &Command) -> Result<Vec<Label>, AllocError>
    ensures { IfOk result (λ v. v.items ≡ needed_by state.now command.now) }
{
    let mut names = seen(alloc, command)?;
    let mirror = of_mirror(alloc, state.components(), command)?;
    names.extend_from_slice(&mirror)?;
    Ok(names)
}

/// The providers of which a command needs facts: those that it looks at, as it names them, and
/// after them those of the components of its mirror that it waits for, in byte order.
pub fn needed(alloc: Global, state: &State, command: &Command) -> Result<Vec<Label>, AllocError>
    ensures all { IfOk result (λ v. v.items ≡ needed_by state.now command.now) }
    // From the command's part of a state, all that the whole needs.
    ensures whole { IfOk result (λ v. (s : Records) → IsPartOf state.now command.now s
        → v.items ≡ needed_by s command.now) }
{
    Ok(all_needed(alloc, state, command)?)
}
