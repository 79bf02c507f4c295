//! The change of patch: sectors are laid over a mirror's data.

ghost use Rattle.std.specs.Prelude.{◌≡◌, ◌+◌, ◌<◌, ◌^◌, ◌++◌, [], Some, None, IfOk, OnOk, flat_map, length, map};
ghost use Rattle.gm_changes.specs.After.{active_of, freshened, patching};
ghost use Rattle.gm_changes.specs.Decides.{no_change};
ghost use Rattle.gm_changes.specs.PartChange.{IsMade};
ghost use Rattle.gm_commands.specs.declared.command.Command.TheVariants as commands;
ghost use Rattle.gm_refusals.specs.PartOf.{IsGoodButCount};
ghost use Rattle.gm_refusals.specs.Seen.{seen_in};
ghost use Rattle.gm_state.specs.declared.intents.Reply.TheVariants as replies;

use crate::change::Change;
use crate::members::freshened;
use gm_commands::Sectors;
use gm_metadata::Label;
use gm_refusals::Facts;
use gm_state::{Component, Intent, Mirror, Reply, State};
use std::alloc::{AllocError, Global};

fn all_freshened(
    alloc: Global,
    members: &[Component],
    syncid: u32,
) -> Result<Vec<Component>, AllocError>
    ensures { IfOk result (λ v. v.items ≡ map (freshened syncid) members.now) }
{
    members.iter().map(|k| freshened(syncid, *k)).collect(alloc)
}

// Adds what lays sectors over those of the component from first to end - 1.
fn push_patching(
    intents: &mut Vec<Intent>,
    first: u32,
    end: u32,
    component: &Component,
) -> Result<(), AllocError>
    ensures { OnOk result (intents.new.items
        ≡ intents.old.items ++ patching first end component.now) }
{
    let provider = component.provider;
    intents.push(Intent::Dirty { provider })?;
    intents.push(Intent::Patch {
        provider,
        first,
        end,
    })?;
    intents.push(Intent::Meta { provider })?;
    Ok(())
}

// Adds the same for each of the components that is ACTIVE.
fn push_patches(
    intents: &mut Vec<Intent>,
    first: u32,
    end: u32,
    components: &[Component],
) -> Result<(), AllocError>
    ensures { OnOk result (intents.new.items
        ≡ intents.old.items ++ flat_map (patching first end) (active_of components.now)) }
{
    for k in components {
        if k.disk.is_active() {
            push_patching(intents, first, end, k)?;
        }
    }
    Ok(())
}

/// Sectors laid over the data from the first one on; `members` are those of before.
pub(crate) fn patched(
    alloc: Global,
    mirror: Mirror,
    members: &[Component],
    first: u32,
    sectors: &[[u8; 512]],
) -> Result<Change, AllocError>
    requires another { mirror.syncid < 4294967295 }
    requires within { first + length sectors.now < 2 ^ 32 }
    ensures { IfOk result (λ ch. ch ≡ record no_change {
      mirror = Some (record mirror { syncid = mirror.syncid + 1 });
      components = map (freshened (mirror.syncid + 1)) members.now;
      intents = flat_map (patching first (first + length sectors.now))
          (active_of (map (freshened (mirror.syncid + 1)) members.now));
      bytes = sectors.now;
    }) }
{
    let syncid = mirror.syncid + 1;
    let components = all_freshened(alloc, members, syncid)?;
    let mut intents = Vec::new(alloc);
    push_patches(
        &mut intents,
        first,
        first + sectors.len() as u32,
        &components,
    )?;
    Ok(Change {
        mirror: Some(Mirror { syncid, ..mirror }),
        components,
        intents,
        bytes: sectors.iter().copied().collect(alloc)?,
        ..Change::nothing(alloc)
    })
}

pub(crate) fn patch(
    alloc: Global,
    part: &State,
    facts: &Facts,
    name: Label,
    first: u32,
    sectors: &Sectors,
) -> Result<Change, AllocError>
    requires { IsGoodButCount part.now (seen_in facts.now)
        (commands.Patch name first sectors.now) }
    ensures { IfOk result (λ ch. IsMade part.now (seen_in facts.now)
        (commands.Patch name first sectors.now) ch) }
{
    let mirror = part.mirror(name).unwrap();
    let members = part.members(alloc, name)?;
    Ok(patched(alloc, mirror, &members, first, sectors.as_slice())?)
}
