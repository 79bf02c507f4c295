//! The change of label: a new mirror with its component.

ghost use Rattle.std.specs.Prelude.{◌≡◌, ◌-◌, ◌<◌, [], ◌∷◌, Some, None, IfOk};
ghost use Rattle.gm_changes.specs.Decides.{no_change};
ghost use Rattle.gm_changes.specs.After.{new_mirror, first_component};
ghost use Rattle.gm_state.specs.declared.intents.Intent.TheVariants as intents;
ghost use Rattle.gm_state.specs.declared.intents.Reply.TheVariants as replies;
ghost use Rattle.gm_state.specs.declared.records.Component.{Component};

use crate::change::Change;
use gm_commands::NewMirror;
use gm_state::{Component, Disk, Intent, Mirror, Reply};
use std::alloc::{AllocError, Global};

// The count that a mirror begins with.
const FIRST_SYNCID: u32 = 1;

/// The record of a new mirror on a provider of so many sectors.
pub(crate) fn new_mirror(new: &NewMirror, sectors: u32) -> Mirror
    ensures { result ≡ new_mirror new.now sectors }
{
    Mirror {
        name: new.name,
        mid: new.mid,
        all: 1,
        genid: 0,
        syncid: FIRST_SYNCID,
        slice: new.slice.bytes(),
        balance: new.balance.balance(),
        data_sectors: sectors.saturating_sub(1),
        flags: new.flags,
    }
}

/// The record of its component.
pub(crate) fn first_component(new: &NewMirror, sectors: u32) -> Component
    ensures { result ≡ first_component new.now sectors }
{
    Component {
        provider: new.provider,
        mirror: new.name,
        did: new.did,
        syncid: FIRST_SYNCID,
        priority: 0,
        disk: Disk::InSync,
        hardcoded: new.hardcoded,
        sectors,
    }
}

/// A new mirror with its component.
pub(crate) fn labelled(
    alloc: Global,
    mirror: Mirror,
    first: Component,
) -> Result<Change, AllocError>
    ensures { IfOk result (λ ch. ch ≡ record no_change {
      mirror = Some mirror;
      components = first ∷ [];
      intents = intents.Meta first.provider ∷ [];
    }) }
{
    Ok(Change {
        mirror: Some(mirror),
        components: vec![in alloc; first]?,
        intents: vec![in alloc;
            Intent::Meta {
                provider: first.provider
            },
        ]?,
        ..Change::nothing(alloc)
    })
}
