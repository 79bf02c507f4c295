//! What filling components needs, told before it begins.

use gm_commands::MAX_COMMANDS;
use gm_state::{Component, ComponentState, State, component_state};
use gm_sync::Scope;
use std::io::Write;

// From so many accepted commands on, a new registry is due.
const DUE: u64 = 80_000;

// How many sectors an advance copies at most.
const STRETCH: u64 = 256;

// How many commands fill a component, if it is SYNCHRONIZING.
fn stretches(state: &State, component: &Component) -> u64 {
    let Some(mirror) = state.mirror(component.mirror) else {
        return 0;
    };
    match component_state(state, component.provider) {
        Some(ComponentState::Synchronizing) => {
            let left = mirror.data_sectors.saturating_sub(component.disk.held());
            u64::from(left).div_ceil(STRETCH)
        }
        _ => 0,
    }
}

/// How many commands fill all that is meant.
pub(crate) fn needed(state: &State, scope: &Scope) -> u64 {
    let mut sum = 0u64;
    for component in state.components() {
        if scope.has(component) {
            sum = sum.saturating_add(stretches(state, component));
        }
    }
    sum
}

/// Says which of the components that are meant wait for a rebuild.
pub(crate) fn name_stale<E: Write>(complaints: &mut E, state: &State, scope: &Scope) {
    for component in state.components() {
        if !scope.has(component) {
            continue;
        }
        if let Some(ComponentState::Stale) = component_state(state, component.provider) {
            let name = component.provider.as_str();
            let _ = writeln!(complaints, "{name} is STALE: rebuild lets it be filled");
        }
    }
}

/// Whether the registry takes as many commands as are needed. If it doesn't, it says so.
pub(crate) fn has_room<E: Write>(complaints: &mut E, needed: u64, accepted: u64) -> bool {
    let room = u64::from(MAX_COMMANDS).saturating_sub(accepted);
    if needed <= room {
        return true;
    }
    let _ = writeln!(
        complaints,
        "this takes {needed} commands, and the registry takes {room} more: renew it first"
    );
    false
}

/// Says so if a new registry is due.
pub(crate) fn name_due<E: Write>(complaints: &mut E, accepted: u64) {
    if accepted >= DUE {
        let _ = writeln!(
            complaints,
            "the registry has {accepted} of {MAX_COMMANDS} commands: renew it soon"
        );
    }
}
