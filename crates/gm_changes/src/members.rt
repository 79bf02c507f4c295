//! What the changes of several commands are made of: components of a mirror that stay, or that are
//! put.

ghost use Rattle.std.specs.Option.{ForSome};
ghost use Rattle.std.specs.Prelude.{◌≡◌, ◌-◌, ◌<◌, [], ◌∷◌, Some, None, IfOk, false, not, filter, ◌^◌, IsSome};
ghost use Rattle.gm_changes.specs.After.{freshened};
ghost use Rattle.gm_changes.specs.Decides.{no_change};
ghost use Rattle.gm_lists.specs.Ordered.{without};
ghost use Rattle.gm_refusals.specs.Applies.{is_on_any};
ghost use Rattle.gm_refusals.specs.Facts.{size_in};
ghost use Rattle.gm_state.specs.Records.{provider as provider_of};
ghost use Rattle.gm_state.specs.declared.intents.Intent.TheVariants as intents;
ghost use Rattle.gm_state.specs.declared.intents.Reply.TheVariants as replies;
ghost use Rattle.gm_state.specs.declared.records.Component.{Component};

use crate::change::Change;
use gm_metadata::Label;
use gm_refusals::{Facts, is_inactive, is_on_any};
use gm_state::{Component, Disk, Intent, Reply};
use std::alloc::{AllocError, Global};

// A component that is to be copied to, and holds nothing yet.
pub(crate) const NOT_BEGUN: Disk = Disk::Copying {
    forced: false,
    held: 0,
};

pub(crate) fn others_of(
    alloc: Global,
    components: &[Component],
    provider: Label,
) -> Result<Vec<Component>, AllocError>
    ensures { IfOk result (λ v. v.items ≡ without provider_of provider components.now) }
{
    components
        .iter()
        .copied()
        .filter(|k| k.provider != provider)
        .collect(alloc)
}

/// Those of the components that are on none of the providers.
pub(crate) fn components_left(
    alloc: Global,
    components: &[Component],
    gone: &[Label],
) -> Result<Vec<Component>, AllocError>
    ensures { IfOk result (λ v. v.items ≡ filter (λ k. not (is_on_any gone.now k)) components.now) }
{
    components
        .iter()
        .copied()
        .filter(|k| !is_on_any(gone, k))
        .collect(alloc)
}

/// One component in place of the one on its provider.
pub(crate) fn replaced(alloc: Global, new: Component) -> Result<Change, AllocError>
    ensures { IfOk result (λ ch. ch ≡ record no_change {
      components = new ∷ [];
      intents = intents.Meta new.provider ∷ [];
    }) }
{
    Ok(Change {
        components: vec![in alloc; new]?,
        intents: vec![in alloc;
            Intent::Meta {
                provider: new.provider
            },
        ]?,
        ..Change::nothing(alloc)
    })
}

/// A component of a mirror that has a new syncid.
pub(crate) fn freshened(syncid: u32, component: Component) -> Component
    ensures { result ≡ freshened syncid component }
{
    if is_inactive(&component) {
        component
    } else {
        Component {
            syncid,
            ..component
        }
    }
}

// How many sectors a provider has that is there.
pub(crate) fn sectors_of(facts: &Facts, provider: Label) -> u32
    requires there { IsSome (size_in facts.now provider) }
    requires fits { ForSome (size_in facts.now provider) (λ n. n < 2 ^ 32) }
    ensures { size_in facts.now provider ≡ Some result }
{
    facts.size(provider).unwrap() as u32
}
