//! The images that a command is about.

ghost use Rattle.std.specs.Prelude.{◌++◌, ◌≡◌, IfOk, filter, map};
ghost use Rattle.gm_refusals.specs.Applies.{is_about, providers_of};
ghost use Rattle.gm_state.specs.Records.{provider};

use gm_commands::Command;
use gm_metadata::Label;
use gm_refusals::{is_about, providers_of};
use gm_state::{Component, State};
use std::alloc::{AllocError, Global};

// The images that a command names.
fn named(alloc: Global, command: &Command) -> Result<Vec<Label>, AllocError>
    ensures { IfOk result (λ images. images.items ≡ providers_of command.now) }
{
    providers_of(command).iter().copied().collect(alloc)
}

// The images of those of these components that a command is about.
fn of_components(
    alloc: Global,
    components: &[Component],
    command: &Command,
) -> Result<Vec<Label>, AllocError>
    ensures { IfOk result (λ images. images.items
        ≡ map provider (filter (λ k. is_about command.now k) components.now)) }
{
    components
        .iter()
        .filter(|k| is_about(command, k))
        .map(|k| k.provider)
        .collect(alloc)
}

/// The images that a command is about: those that it names, and those of its mirror's components.
pub fn images_of(alloc: Global, state: &State, command: &Command) -> Result<Vec<Label>, AllocError>
    ensures { IfOk result (λ images. images.items ≡ providers_of command.now
        ++ map provider (filter (λ k. is_about command.now k) state.now.components)) }
{
    let mut images = named(alloc, command)?;
    let components = of_components(alloc, state.components(), command)?;
    images.extend_from_slice(&components)?;
    Ok(images)
}
