//! The change of destroy: a mirror is dropped with its components.

ghost use Rattle.std.specs.Prelude.{◌≡◌, ◌-◌, ◌<◌, [], Some, None, IfOk, map};
ghost use Rattle.gm_changes.specs.After.{clears_of};
ghost use Rattle.gm_changes.specs.Decides.{no_change};
ghost use Rattle.gm_changes.specs.PartChange.{IsMade};
ghost use Rattle.gm_commands.specs.declared.command.Command.TheVariants as commands;
ghost use Rattle.gm_refusals.specs.PartOf.{IsGoodButCount};
ghost use Rattle.gm_refusals.specs.Seen.{seen_in};
ghost use Rattle.gm_state.specs.Records.{provider as provider_of};
ghost use Rattle.gm_state.specs.declared.intents.Reply.TheVariants as replies;
ghost use Rattle.gm_state.specs.declared.records.Component.{Component};

use crate::change::{Change, push_clears};
use gm_metadata::Label;
use gm_refusals::Facts;
use gm_state::{Component, Reply, State};
use std::alloc::{AllocError, Global};

fn providers_of(alloc: Global, components: &[Component]) -> Result<Vec<Label>, AllocError>
    ensures { IfOk result (λ v. v.items ≡ map provider_of components.now) }
{
    components.iter().map(|k| k.provider).collect(alloc)
}

/// A mirror that is dropped with its components.
pub(crate) fn destroyed(
    alloc: Global,
    name: Label,
    members: &[Component],
) -> Result<Change, AllocError>
    ensures { IfOk result (λ ch. ch ≡ record no_change {
      gone_mirror = Some name;
      gone_components = map provider_of members.now;
      intents = clears_of members.now;
    }) }
{
    let gone_components = providers_of(alloc, members)?;
    let mut intents = Vec::new(alloc);
    push_clears(&mut intents, members)?;
    Ok(Change {
        gone_mirror: Some(name),
        gone_components,
        intents,
        ..Change::nothing(alloc)
    })
}

pub(crate) fn destroy(
    alloc: Global,
    part: &State,
    facts: &Facts,
    name: Label,
) -> Result<Change, AllocError>
    requires { IsGoodButCount part.now (seen_in facts.now)
        (commands.Destroy name) }
    ensures { IfOk result (λ ch. IsMade part.now (seen_in facts.now)
        (commands.Destroy name) ch) }
{
    let members = part.members(alloc, name)?;
    Ok(destroyed(alloc, name, &members)?)
}
