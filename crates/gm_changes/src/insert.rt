//! The change of insert: a mirror has one component more, which is still to be filled.

ghost use Rattle.std.specs.Prelude.{◌≡◌, ◌+◌, ◌-◌, ◌<◌, [], ◌∷◌, Some, None, IfOk, false};
ghost use Rattle.gm_changes.specs.After.{spare, metas};
ghost use Rattle.gm_changes.specs.Decides.{no_change};
ghost use Rattle.gm_changes.specs.PartChange.{IsMade};
ghost use Rattle.gm_commands.specs.declared.command.Command.TheVariants as commands;
ghost use Rattle.gm_lists.specs.Ordered.{Has, put};
ghost use Rattle.gm_metadata.specs.Images.{same_label};
ghost use Rattle.gm_refusals.specs.PartOf.{IsGoodButCount};
ghost use Rattle.gm_refusals.specs.Seen.{seen_in};
ghost use Rattle.gm_state.specs.Records.{provider as provider_of};
ghost use Rattle.gm_state.specs.declared.intents.Reply.TheVariants as replies;
ghost use Rattle.gm_state.specs.declared.records.Component.{Component};

use crate::change::{Change, push_metas};
use crate::members::{NOT_BEGUN, sectors_of};
use gm_commands::NewComponent;
use gm_refusals::Facts;
use gm_state::{Component, Mirror, Reply, State, put};
use std::alloc::{AllocError, Global};

/// The record of a component that is still to be filled.
pub(crate) fn spare(mirror: &Mirror, new: &NewComponent, sectors: u32) -> Component
    ensures { result ≡ spare mirror.now new.now sectors }
{
    Component {
        provider: new.provider,
        mirror: mirror.name,
        did: new.did,
        syncid: mirror.syncid,
        priority: new.priority,
        disk: NOT_BEGUN,
        hardcoded: new.hardcoded,
        sectors,
    }
}

/// One more component; `members` are those of before.
pub(crate) fn inserted(
    alloc: Global,
    mirror: Mirror,
    mut members: Vec<Component>,
    spare: Component,
) -> Result<Change, AllocError>
    requires room { mirror.all < 255 }
    requires fresh { (k : Component) → Has members.items k
        → same_label k.provider spare.provider ≡ false }
    ensures { IfOk result (λ ch. ch ≡ record no_change {
      mirror = Some (record mirror { all = mirror.all + 1 });
      components = spare ∷ [];
      intents = metas (put provider_of spare members.items);
    }) }
{
    put(&mut members, spare)?;
    let mut intents = Vec::new(alloc);
    push_metas(&mut intents, &members)?;
    Ok(Change {
        mirror: Some(Mirror {
            all: mirror.all + 1,
            ..mirror
        }),
        components: vec![in alloc; spare]?,
        intents,
        ..Change::nothing(alloc)
    })
}

pub(crate) fn insert(
    alloc: Global,
    part: &State,
    facts: &Facts,
    new: &NewComponent,
) -> Result<Change, AllocError>
    requires { IsGoodButCount part.now (seen_in facts.now)
        (commands.Insert new.now) }
    ensures { IfOk result (λ ch. IsMade part.now (seen_in facts.now)
        (commands.Insert new.now) ch) }
{
    let mirror = part.mirror(new.name).unwrap();
    let sectors = sectors_of(facts, new.provider);
    let spare = spare(&mirror, new, sectors);
    let members = part.members(alloc, new.name)?;
    Ok(inserted(alloc, mirror, members, spare)?)
}
