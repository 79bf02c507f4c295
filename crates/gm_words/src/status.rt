//! The text of a status: how the mirrors stand, a line each, and below it a line for each
//! component.

ghost use Rattle.std.specs.Prelude.{◌≡◌, ◌++◌, IfOk, OnOk};
ghost use Rattle.std.specs.String.{string_bytes};
ghost use Rattle.gm_state.specs.States.{state_by};
ghost use Rattle.gm_words.specs.Status.{block, component_line, mirror_line, progress, status_text};

use crate::lines::push_left_in_15;
use gm_state::{Component, ComponentState, Mirror, MirrorState, State, active_count, state_by};
use std::alloc::{AllocError, Global};

// Appends how far a component is that is to be filled.
fn push_progress(
    text: &mut String,
    state: ComponentState,
    held: u32,
    all: u32,
) -> Result<(), AllocError>
    ensures { OnOk result
        (string_bytes text.new ≡ string_bytes text.old ++ progress state held all) }
{
    match state {
        ComponentState::Active | ComponentState::Inactive => Ok(()),
        ComponentState::Stale | ComponentState::Synchronizing => write!(text, " {held} of {all}"),
    }
}

// Appends the line of a component.
fn push_component_line(
    text: &mut String,
    mirror: &Mirror,
    component: &Component,
) -> Result<(), AllocError>
    ensures { OnOk result (string_bytes text.new
        ≡ string_bytes text.old ++ component_line mirror.now component.now) }
{
    let state = state_by(mirror.flags, component.disk);
    let state_name = state.name();
    text.push_str("  ")?;
    push_left_in_15(text, component.provider)?;
    write!(text, " {state_name}")?;
    push_progress(text, state, component.disk.held(), mirror.data_sectors)?;
    text.push('\n')
}

// Appends the line of a mirror that has these components.
fn push_mirror_line(
    text: &mut String,
    mirror: &Mirror,
    members: &[Component],
) -> Result<(), AllocError>
    ensures { OnOk result (string_bytes text.new
        ≡ string_bytes text.old ++ mirror_line mirror.now members.now) }
{
    let all = mirror.all;
    let active = active_count(members);
    let state_name = MirrorState::of_active(active, all).name();
    push_left_in_15(text, mirror.name)?;
    writeln!(text, " {state_name} {active}/{all}")
}

// Appends a mirror, and below it its components.
fn push_block(text: &mut String, mirror: &Mirror, members: &[Component]) -> Result<(), AllocError>
    ensures { OnOk result (string_bytes text.new
        ≡ string_bytes text.old ++ block mirror.now members.now) }
{
    push_mirror_line(text, mirror, members)?;
    for component in members {
        push_component_line(text, mirror, component)?;
    }
    Ok(())
}

/// How each mirror stands, in byte order of names, and below it each of its components; `no
/// mirrors` if there is none. The form is this project's own, after `gmirror status`.
pub fn status_text(alloc: Global, state: &State) -> Result<String, AllocError>
    ensures { IfOk result (λ text. string_bytes text ≡ status_text state.now) }
{
    if state.mirrors().is_empty() {
        return String::from_str(alloc, "no mirrors\n");
    }
    let mut text = String::new(alloc);
    for mirror in state.mirrors() {
        let members = state.members(alloc, mirror.name)?;
        push_block(&mut text, mirror, &members)?;
    }
    Ok(text)
}
