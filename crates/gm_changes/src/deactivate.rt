//! The change of deactivate: a component is taken out of use, and the others count a sync more.

ghost use Rattle.std.specs.Prelude.{◌≡◌, ◌+◌, ◌<◌, [], Some, None, IfOk, map};
ghost use Rattle.gm_changes.specs.After.{metas, deactivated};
ghost use Rattle.gm_changes.specs.Decides.{no_change};
ghost use Rattle.gm_changes.specs.PartChange.{IsMade};
ghost use Rattle.gm_commands.specs.declared.command.Command.TheVariants as commands;
ghost use Rattle.gm_refusals.specs.PartOf.{IsGoodButCount};
ghost use Rattle.gm_refusals.specs.Seen.{seen_in};
ghost use Rattle.gm_state.specs.declared.intents.Reply.TheVariants as replies;

use crate::change::{Change, push_metas};
use crate::members::freshened;
use gm_metadata::Label;
use gm_refusals::Facts;
use gm_state::{Component, Disk, Mirror, Reply, State};
use std::alloc::{AllocError, Global};

// A component of a mirror of which the one on the provider is taken out of use.
fn one_deactivated(syncid: u32, provider: Label, component: Component) -> Component
    ensures { result ≡ deactivated syncid provider component }
{
    if component.provider == provider {
        Component {
            disk: Disk::Inactive,
            ..component
        }
    } else {
        freshened(syncid, component)
    }
}

fn all_deactivated(
    alloc: Global,
    members: &[Component],
    syncid: u32,
    provider: Label,
) -> Result<Vec<Component>, AllocError>
    ensures { IfOk result (λ v. v.items ≡ map (deactivated syncid provider) members.now) }
{
    members
        .iter()
        .map(|k| one_deactivated(syncid, provider, *k))
        .collect(alloc)
}

/// One component out of use; `members` are those of before.
pub(crate) fn deactivated(
    alloc: Global,
    mirror: Mirror,
    members: &[Component],
    provider: Label,
) -> Result<Change, AllocError>
    requires { mirror.syncid < 4294967295 }
    ensures { IfOk result (λ ch. ch ≡ record no_change {
      mirror = Some (record mirror { syncid = mirror.syncid + 1 });
      components = map (deactivated (mirror.syncid + 1) provider) members.now;
      intents = metas (map (deactivated (mirror.syncid + 1) provider) members.now);
    }) }
{
    let syncid = mirror.syncid + 1;
    let components = all_deactivated(alloc, members, syncid, provider)?;
    let mut intents = Vec::new(alloc);
    push_metas(&mut intents, &components)?;
    Ok(Change {
        mirror: Some(Mirror { syncid, ..mirror }),
        components,
        intents,
        ..Change::nothing(alloc)
    })
}

pub(crate) fn deactivate(
    alloc: Global,
    part: &State,
    facts: &Facts,
    name: Label,
    provider: Label,
) -> Result<Change, AllocError>
    requires { IsGoodButCount part.now (seen_in facts.now)
        (commands.Deactivate name provider) }
    ensures { IfOk result (λ ch. IsMade part.now (seen_in facts.now)
        (commands.Deactivate name provider) ch) }
{
    let mirror = part.mirror(name).unwrap();
    let members = part.members(alloc, name)?;
    Ok(deactivated(alloc, mirror, &members, provider)?)
}
