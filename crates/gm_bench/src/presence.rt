//! Whether the images that pending intents need are there.

ghost use Rattle.std.specs.Prelude.{◌≡◌};
ghost use Rattle.gm_bench.specs.Presence.{serves, is_present, absent_among, providers_in, first_absent};

use gm_metadata::Label;
use gm_shelf::Shelf;
use gm_state::{Component, Intent, State};

fn serves(component: Option<Component>, sectors: Option<u64>) -> bool
    ensures { result ≡ serves component sectors }
{
    match sectors {
        None => false,
        Some(sectors) => match component {
            None => 0 < sectors,
            Some(component) => sectors == u64::from(component.sectors),
        },
    }
}

fn is_present<H: Shelf>(shelf: &H, state: &State, provider: Label) -> bool
    ensures { result ≡ is_present state.now (H.size shelf.now) provider }
{
    serves(state.component(provider), shelf.sectors(provider))
}

fn absent_of<H: Shelf>(shelf: &H, state: &State, intent: &Intent) -> Option<Label>
    ensures { result ≡ absent_among state.now (H.size shelf.now) (providers_in intent.now) }
{
    let (first, second) = match *intent {
        Intent::Meta { provider }
        | Intent::Clear { provider }
        | Intent::Dirty { provider }
        | Intent::Patch {
            provider,
            first: _,
            end: _,
        } => (provider, provider),
        Intent::Copy { source, target, .. } => (target, source),
    };
    if !is_present(shelf, state, first) {
        return Some(first);
    }
    if !is_present(shelf, state, second) {
        return Some(second);
    }
    None
}

/// The first provider of the intents, a copy's target before its source, that isn't there with a
/// sector or, as a component, with its registered size.
pub(crate) fn first_absent<H: Shelf>(shelf: &H, state: &State, intents: &[Intent]) -> Option<Label>
    ensures { result ≡ first_absent state.now (H.size shelf.now) intents.now }
{
    for intent in intents {
        if let Some(provider) = absent_of(shelf, state, intent) {
            return Some(provider);
        }
    }
    None
}
