//! The change of forget: a mirror counts the components that it has.

ghost use Rattle.std.specs.Prelude.{◌≡◌, ◌<◌, [], Some, None, IfOk, length};
ghost use Rattle.gm_changes.specs.After.{metas};
ghost use Rattle.gm_changes.specs.Decides.{no_change};
ghost use Rattle.gm_changes.specs.PartChange.{IsMade};
ghost use Rattle.gm_commands.specs.declared.command.Command.TheVariants as commands;
ghost use Rattle.gm_refusals.specs.PartOf.{IsGoodButCount};
ghost use Rattle.gm_refusals.specs.Seen.{seen_in};
ghost use Rattle.gm_state.specs.declared.intents.Reply.TheVariants as replies;

use crate::change::{Change, push_metas};
use gm_metadata::Label;
use gm_refusals::Facts;
use gm_state::{Component, Mirror, Reply, State};
use std::alloc::{AllocError, Global};

/// A mirror that counts the components that it has.
pub(crate) fn forgotten(
    alloc: Global,
    mirror: Mirror,
    members: &[Component],
) -> Result<Change, AllocError>
    requires { length members.now < 256 }
    ensures { IfOk result (λ ch. ch ≡ record no_change {
      mirror = Some (record mirror { all = length members.now });
      intents = metas members.now;
    }) }
{
    let mut intents = Vec::new(alloc);
    push_metas(&mut intents, members)?;
    Ok(Change {
        mirror: Some(Mirror {
            all: members.len() as u8,
            ..mirror
        }),
        intents,
        ..Change::nothing(alloc)
    })
}

pub(crate) fn forget(
    alloc: Global,
    part: &State,
    facts: &Facts,
    name: Label,
) -> Result<Change, AllocError>
    requires { IsGoodButCount part.now (seen_in facts.now)
        (commands.Forget name) }
    ensures { IfOk result (λ ch. IsMade part.now (seen_in facts.now)
        (commands.Forget name) ch) }
{
    let mirror = part.mirror(name).unwrap();
    let members = part.members(alloc, name)?;
    Ok(forgotten(alloc, mirror, &members)?)
}
