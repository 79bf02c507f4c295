//! The change of configure: a mirror and its components are set otherwise.

ghost use Rattle.std.specs.Prelude.{◌≡◌, ◌<◌, [], Some, None, IfOk, map};
ghost use Rattle.gm_changes.specs.After.{metas, configured_flags, configured_mirror, configured, priority_by};
ghost use Rattle.gm_changes.specs.Decides.{no_change};
ghost use Rattle.gm_changes.specs.PartChange.{IsMade};
ghost use Rattle.gm_commands.specs.declared.command.Command.TheVariants as commands;
ghost use Rattle.gm_refusals.specs.PartOf.{IsGoodButCount};
ghost use Rattle.gm_refusals.specs.Seen.{seen_in};
ghost use Rattle.gm_state.specs.declared.intents.Reply.TheVariants as replies;

use crate::change::{Change, push_metas};
use gm_commands::{Preference, Settings};
use gm_metadata::{Label, MirrorFlags};
use gm_refusals::Facts;
use gm_state::{Component, Mirror, Reply, State};
use std::alloc::{AllocError, Global};

fn configured_flags(settings: &Settings, flags: MirrorFlags) -> MirrorFlags
    ensures { result ≡ configured_flags settings.now flags }
{
    MirrorFlags {
        no_autosync: settings.autosync.map_or(flags.no_autosync, |on| !on),
        no_failsync: settings.failsync.map_or(flags.no_failsync, |on| !on),
    }
}

fn configured_mirror(settings: &Settings, mirror: Mirror) -> Mirror
    ensures { result ≡ configured_mirror settings.now mirror }
{
    Mirror {
        slice: settings.slice.map_or(mirror.slice, |slice| slice.bytes()),
        balance: settings
            .balance
            .map_or(mirror.balance, |word| word.balance()),
        flags: configured_flags(settings, mirror.flags),
        ..mirror
    }
}

fn priority_by(preference: Option<Preference>, component: &Component) -> u8
    ensures { result ≡ priority_by preference component.now }
{
    match preference {
        Some(preference) if component.provider == preference.provider => preference.priority,
        _ => component.priority,
    }
}

fn one_configured(settings: &Settings, component: Component) -> Component
    ensures { result ≡ configured settings.now component }
{
    Component {
        priority: priority_by(settings.preference, &component),
        hardcoded: settings.hardcode.unwrap_or(component.hardcoded),
        ..component
    }
}

fn all_configured(
    alloc: Global,
    settings: &Settings,
    members: &[Component],
) -> Result<Vec<Component>, AllocError>
    ensures { IfOk result (λ v. v.items ≡ map (configured settings.now) members.now) }
{
    members
        .iter()
        .map(|k| one_configured(settings, *k))
        .collect(alloc)
}

/// A mirror and its components set otherwise; `members` are those of before.
pub(crate) fn configured(
    alloc: Global,
    settings: &Settings,
    mirror: Mirror,
    members: &[Component],
) -> Result<Change, AllocError>
    ensures { IfOk result (λ ch. ch ≡ record no_change {
      mirror = Some (configured_mirror settings.now mirror);
      components = map (configured settings.now) members.now;
      intents = metas (map (configured settings.now) members.now);
    }) }
{
    let components = all_configured(alloc, settings, members)?;
    let mut intents = Vec::new(alloc);
    push_metas(&mut intents, &components)?;
    Ok(Change {
        mirror: Some(configured_mirror(settings, mirror)),
        components,
        intents,
        ..Change::nothing(alloc)
    })
}

pub(crate) fn configure(
    alloc: Global,
    part: &State,
    facts: &Facts,
    name: Label,
    settings: &Settings,
) -> Result<Change, AllocError>
    requires { IsGoodButCount part.now (seen_in facts.now)
        (commands.Configure name settings.now) }
    ensures { IfOk result (λ ch. IsMade part.now (seen_in facts.now)
        (commands.Configure name settings.now) ch) }
{
    let mirror = part.mirror(name).unwrap();
    let members = part.members(alloc, name)?;
    Ok(configured(alloc, settings, mirror, &members)?)
}
