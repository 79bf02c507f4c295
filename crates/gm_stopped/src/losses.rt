//! Which intents a loss left that came while others were pending, and which command was stopped.

ghost use Rattle.std.specs.Prelude.{◌≡◌, IfOk, slice_get};
ghost use Rattle.std.specs.List.{list_all};
ghost use Rattle.gm_stopped.specs.Losses.{before_loss, before_own, is_own, stopped_by};

use crate::stopped::Stopped;
use gm_commands::Command;
use gm_metadata::Label;
use gm_state::{Intent, State};
use std::alloc::{AllocError, Global};

// Whether the intent writes the metadata of a component of the mirror.
fn is_own(state: &State, name: Label, intent: &Intent) -> bool
    ensures { result ≡ is_own state.now name intent.now }
{
    match *intent {
        Intent::Meta { provider } => match state.component(provider) {
            Some(component) => component.mirror == name,
            None => false,
        },
        _ => false,
    }
}

// Whether each of these does.
fn are_own(state: &State, name: Label, intents: &[Intent]) -> bool
    ensures { result ≡ list_all (is_own state.now name) intents.now }
{
    intents.iter().all(|intent| is_own(state, name, intent))
}

// How many intents come before the last ones, if those write the metadata of the mirror's
// components, so many.
fn before_own(state: &State, name: Label, intents: &[Intent], count: usize) -> Option<usize>
    ensures { result ≡ before_own state.now name intents.now count }
{
    if intents.len() < count {
        return None;
    }
    let left = intents.len() - count;
    if are_own(state, name, &intents[left..]) {
        Some(left)
    } else {
        None
    }
}

// How many of these intents were pending before the last of the accepted commands, if that is a
// loss: all but those that it left itself, the metadata of its mirror's components. `None` if it
// is no loss, or these aren't the last ones.
fn before_loss(
    alloc: Global,
    state: &State,
    intents: &[Intent],
    command: &Command,
) -> Result<Option<usize>, AllocError>
    ensures { IfOk result (λ left. left ≡ before_loss state.now intents.now command.now) }
{
    match command {
        Command::Lost { name, .. } => {
            let members = state.members(alloc, *name)?;
            let own = members.as_slice();
            Ok(before_own(state, *name, intents, own.len()))
        }
        _ => Ok(None),
    }
}

// How many of these commands, the newest first, are losses that left intents before their own.
fn losses_passed(
    alloc: Global,
    state: &State,
    intents: &[Intent],
    commands: &[Command],
) -> Result<usize, AllocError>
    ensures { IfOk result (λ n. stopped_by state.now intents.now commands.now
        ≡ record { command = slice_get commands.now n; losses = n }) }
{
    let mut left = intents;
    let mut passed = 0;
    for command in commands {
        match before_loss(alloc, state, left, command)? {
            Some(before) if 0 < before => {
                left = &left[..before];
                passed += 1;
            }
            _ => return Ok(passed),
        }
    }
    Ok(passed)
}

/// Which command was stopped, of those that were accepted last, the newest first, where these
/// intents are pending and the state is the one that is registered since: the first that isn't a
/// loss which left intents before its own. `None` if all are.
pub fn stopped_by(
    alloc: Global,
    state: &State,
    intents: &[Intent],
    mut commands: Vec<Command>,
) -> Result<Stopped, AllocError>
    ensures { IfOk result (λ it. it ≡ stopped_by state.now intents.now commands.items) }
{
    let losses = losses_passed(alloc, state, intents, &commands)?;
    let command = if losses < commands.len() {
        Some(commands.swap_remove(losses))
    } else {
        None
    };
    Ok(Stopped { command, losses })
}
