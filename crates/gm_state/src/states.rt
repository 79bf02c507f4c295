//! The named states of components and mirrors, as `gmirror status` shows them.

ghost use Rattle.std.specs.Prelude.{◌≡◌, ◌&&◌, count_by};
ghost use Rattle.gm_metadata.specs.Images.{same_label};
ghost use Rattle.gm_state.specs.Lookups.{is_active};
ghost use Rattle.gm_state.specs.Records.{members};
ghost use Rattle.gm_state.specs.States.{active_count, component_state, component_state_name, mirror_state_name, state_among, state_by, state_of_active};

use crate::records::{Component, Disk, Mirror};
use crate::state::State;
use gm_metadata::{Label, MirrorFlags};

/// The state of a component.
#[derive(Clone, Copy, Debug, PartialEq, Eq)]
pub enum ComponentState {
    /// It holds the mirror's data.
    Active,
    /// It is to be copied to, and waits for a rebuild.
    Stale,
    /// It is being copied to.
    Synchronizing,
    /// It takes no part.
    Inactive,
}

/// The state of a mirror.
#[derive(Clone, Copy, Debug, PartialEq, Eq)]
pub enum MirrorState {
    /// As many components are ACTIVE as it has in all.
    Complete,
    Degraded,
}

impl ComponentState {
    /// Its name in texts.
    pub fn name(self) -> &'static str
        ensures { result.now ≡ component_state_name self }
    {
        match self {
            ComponentState::Active => "ACTIVE",
            ComponentState::Stale => "STALE",
            ComponentState::Synchronizing => "SYNCHRONIZING",
            ComponentState::Inactive => "INACTIVE",
        }
    }
}

impl MirrorState {
    /// The state of a mirror of which so many components are ACTIVE.
    pub fn of_active(active: usize, all: u8) -> MirrorState
        ensures { result ≡ state_of_active active all }
    {
        if active == usize::from(all) {
            MirrorState::Complete
        } else {
            MirrorState::Degraded
        }
    }

    /// Its name in texts.
    pub fn name(self) -> &'static str
        ensures { result.now ≡ mirror_state_name self }
    {
        match self {
            MirrorState::Complete => "COMPLETE",
            MirrorState::Degraded => "DEGRADED",
        }
    }
}

/// How many of these components are ACTIVE.
pub fn active_count(members: &[Component]) -> usize
    ensures { result ≡ active_count members.now }
{
    members.iter().filter(|k| k.disk.is_active()).count()
}

/// The state of a mirror that has these components.
pub fn state_among(mirror: &Mirror, members: &[Component]) -> MirrorState
    ensures { result ≡ state_among mirror.now members.now }
{
    MirrorState::of_active(active_count(members), mirror.all)
}

// How many of these components are ACTIVE and of the mirror of this name.
fn active_of(components: &[Component], name: Label) -> usize
    ensures { result ≡ count_by (λ k. same_label k.mirror name && is_active k.disk) components.now }
{
    components
        .iter()
        .filter(|k| k.mirror == name && k.disk.is_active())
        .count()
}

/// The state of a mirror with the components that it has in the state.
#[tactic(auto, using(crate::proofs::Counted::count_among))]
pub fn mirror_state(state: &State, mirror: &Mirror) -> MirrorState
    ensures { result ≡ state_among mirror.now (members state.now.components mirror.now.name) }
{
    MirrorState::of_active(active_of(state.components(), mirror.name), mirror.all)
}

/// The state of a component that is so, of a mirror with these flags.
pub fn state_by(flags: MirrorFlags, disk: Disk) -> ComponentState
    ensures { result ≡ state_by flags disk }
{
    match disk {
        Disk::Inactive => ComponentState::Inactive,
        Disk::InSync => ComponentState::Active,
        Disk::Copying { forced, held: _ } => {
            if flags.no_autosync && !forced {
                ComponentState::Stale
            } else {
                ComponentState::Synchronizing
            }
        }
    }
}

/// The state of a component; `None` if the provider is no component.
pub fn component_state(state: &State, provider: Label) -> Option<ComponentState>
    ensures { result ≡ component_state state.now provider }
{
    let component = state.component(provider)?;
    let mirror = state.mirror(component.mirror)?;
    Some(state_by(mirror.flags, component.disk))
}
