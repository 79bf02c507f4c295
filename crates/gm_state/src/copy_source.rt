//! Where a copy comes from.

ghost use Rattle.std.specs.Prelude.{◌≡◌, Option, None, option_map};
ghost use Rattle.gm_state.specs.Sources.{lends_to, source_of, IsSource};
ghost use Rattle.gm_state.specs.BestSource.{better, best_of};

use crate::records::Component;
use crate::state::State;
use gm_metadata::Label;

fn lends_to(target: &Component, component: &Component) -> bool
    ensures { result ≡ lends_to target.now component.now }
{
    component.mirror == target.mirror
        && (component.disk.is_active() && component.provider != target.provider)
}

fn better(target: &Component, best: Option<Component>, component: &Component) -> Option<Component>
    ensures { result ≡ better target.now best component.now }
{
    match best {
        None => {
            if lends_to(target, component) {
                Some(*component)
            } else {
                None
            }
        }
        Some(known) => {
            if lends_to(target, component) && known.priority < component.priority {
                Some(*component)
            } else {
                Some(known)
            }
        }
    }
}

fn best_in(components: &[Component], target: &Component) -> Option<Component>
    ensures { result ≡ best_of target.now None components.now }
{
    let mut best = None;
    for k in components {
        best = better(target, best, k);
    }
    best
}

fn name_of(component: Option<Component>) -> Option<Label>
    ensures { result ≡ option_map (λ k. k.provider) component }
{
    Some(component?.provider)
}

/// The source of a copy to the target: the ACTIVE component of its mirror other than itself with
/// the greatest priority, among equals the one with the least name. `None` if there is none, or
/// the target is no component.
pub fn source(state: &State, target: Label) -> Option<Label>
    ensures best { IsSource state.now target result }
    ensures value { result ≡ source_of state.now target }
{
    let target = state.component(target)?;
    name_of(best_in(state.components(), &target))
}
