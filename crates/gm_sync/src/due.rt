//! Which components are due to be filled.

ghost use Rattle.std.specs.Prelude.{◌≡◌};
ghost use Rattle.gm_sync.specs.Scopes.{is_due, is_filling, is_next, next_of};

use crate::passed_over::PassedOver;
use crate::scope::Scope;
use gm_state::{Component, ComponentState, State, component_state};

/// The components that are due: those that are meant, of mirrors that aren't passed over.
#[derive(Drop)]
pub(crate) struct Due {
    pub(crate) scope: Scope,
    pub(crate) passed_over: PassedOver,
}

// Whether a component is SYNCHRONIZING.
fn is_filling(state: &State, component: &Component) -> bool
    ensures { result ≡ is_filling state.now component.now }
{
    match component_state(state, component.provider) {
        Some(ComponentState::Synchronizing) => true,
        _ => false,
    }
}

impl Due {
    // Whether a component is due.
    fn has(&self, component: &Component) -> bool
        ensures { result ≡ is_due self.now component.now.mirror component.now.provider }
    {
        self.scope.has(component) && !self.passed_over.has(component.mirror)
    }

    /// Whether a component is due and SYNCHRONIZING.
    pub(crate) fn is_next(&self, state: &State, component: &Component) -> bool
        ensures { result ≡ is_next self.now state.now component.now }
    {
        self.has(component) && is_filling(state, component)
    }

    /// The first such component.
    pub(crate) fn next_of(&self, state: &State) -> Option<Component>
        ensures { result ≡ next_of self.now state.now }
    {
        state
            .components()
            .iter()
            .copied()
            .find(|component| self.is_next(state, component))
    }
}
