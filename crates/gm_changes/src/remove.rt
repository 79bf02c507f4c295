//! The change of remove: a mirror has one component less, whose metadata are wiped out.

ghost use Rattle.std.specs.Prelude.{◌≡◌, ◌-◌, ◌<◌, [], ◌∷◌, Some, None, IfOk};
ghost use Rattle.gm_changes.specs.After.{metas};
ghost use Rattle.gm_changes.specs.Decides.{no_change};
ghost use Rattle.gm_changes.specs.PartChange.{IsMade};
ghost use Rattle.gm_commands.specs.declared.command.Command.TheVariants as commands;
ghost use Rattle.gm_lists.specs.Ordered.{without};
ghost use Rattle.gm_refusals.specs.PartOf.{IsGoodButCount};
ghost use Rattle.gm_refusals.specs.Seen.{seen_in};
ghost use Rattle.gm_state.specs.Records.{provider as provider_of};
ghost use Rattle.gm_state.specs.declared.intents.Intent.TheVariants as intents;
ghost use Rattle.gm_state.specs.declared.intents.Reply.TheVariants as replies;
ghost use Rattle.gm_state.specs.declared.records.Component.{Component};

use crate::change::{Change, push_metas};
use crate::members::others_of;
use gm_metadata::Label;
use gm_refusals::Facts;
use gm_state::{Component, Intent, Mirror, Reply, State};
use std::alloc::{AllocError, Global};

/// One component less; `members` are those of before.
pub(crate) fn removed(
    alloc: Global,
    mirror: Mirror,
    members: &[Component],
    provider: Label,
) -> Result<Change, AllocError>
    requires { 0 < mirror.all }
    ensures { IfOk result (λ ch. ch ≡ record no_change {
      mirror = Some (record mirror { all = mirror.all - 1 });
      gone_components = provider ∷ [];
      intents = intents.Clear provider ∷ metas (without provider_of provider members.now);
    }) }
{
    let others = others_of(alloc, members, provider)?;
    let mut intents = vec![in alloc; Intent::Clear { provider }]?;
    push_metas(&mut intents, &others)?;
    Ok(Change {
        mirror: Some(Mirror {
            all: mirror.all - 1,
            ..mirror
        }),
        gone_components: vec![in alloc; provider]?,
        intents,
        ..Change::nothing(alloc)
    })
}

pub(crate) fn remove(
    alloc: Global,
    part: &State,
    facts: &Facts,
    name: Label,
    provider: Label,
) -> Result<Change, AllocError>
    requires { IsGoodButCount part.now (seen_in facts.now)
        (commands.Remove name provider) }
    ensures { IfOk result (λ ch. IsMade part.now (seen_in facts.now)
        (commands.Remove name provider) ch) }
{
    let mirror = part.mirror(name).unwrap();
    let members = part.members(alloc, name)?;
    Ok(removed(alloc, mirror, &members, provider)?)
}
