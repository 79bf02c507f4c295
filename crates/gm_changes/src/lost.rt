//! The change of lost: components whose images won't come back are dropped.

ghost use Rattle.std.specs.Prelude.{◌≡◌, ◌+◌, ◌-◌, ◌<◌, [], Some, None, IfOk, not, filter};
ghost use Rattle.gm_changes.specs.After.{metas};
ghost use Rattle.gm_changes.specs.Decides.{no_change};
ghost use Rattle.gm_changes.specs.PartChange.{IsMade};
ghost use Rattle.gm_commands.specs.declared.command.Command.TheVariants as commands;
ghost use Rattle.gm_refusals.specs.Applies.{is_on_any};
ghost use Rattle.gm_refusals.specs.PartOf.{IsGoodButCount};
ghost use Rattle.gm_refusals.specs.Seen.{seen_in};
ghost use Rattle.gm_state.specs.declared.intents.Reply.TheVariants as replies;
ghost use Rattle.gm_state.specs.declared.records.Component.{Component};

use crate::change::{Change, push_metas};
use crate::members::components_left;
use gm_commands::Providers;
use gm_metadata::Label;
use gm_refusals::{Facts, is_on_any};
use gm_state::{Component, Mirror, Reply, State};
use std::alloc::{AllocError, Global};

/// Components whose images won't come back are dropped; `members` are those of before.
pub(crate) fn lost(
    alloc: Global,
    mirror: Mirror,
    members: &[Component],
    providers: &[Label],
) -> Result<Change, AllocError>
    requires { mirror.genid < 4294967295 }
    ensures { IfOk result (λ ch. ch ≡ record no_change {
      mirror = Some (record mirror { genid = mirror.genid + 1 });
      gone_components = providers.now;
      intents = metas (filter (λ k. not (is_on_any providers.now k)) members.now);
    }) }
{
    let left = components_left(alloc, members, providers)?;
    let mut intents = Vec::new(alloc);
    push_metas(&mut intents, &left)?;
    Ok(Change {
        mirror: Some(Mirror {
            genid: mirror.genid + 1,
            ..mirror
        }),
        gone_components: providers.to_vec(alloc)?,
        intents,
        ..Change::nothing(alloc)
    })
}

pub(crate) fn lose(
    alloc: Global,
    part: &State,
    facts: &Facts,
    name: Label,
    providers: &Providers,
) -> Result<Change, AllocError>
    requires { IsGoodButCount part.now (seen_in facts.now)
        (commands.Lost name providers.now) }
    ensures { IfOk result (λ ch. IsMade part.now (seen_in facts.now)
        (commands.Lost name providers.now) ch) }
{
    let mirror = part.mirror(name).unwrap();
    let members = part.members(alloc, name)?;
    Ok(lost(alloc, mirror, &members, providers.as_slice())?)
}
