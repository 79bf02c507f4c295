//! The change of advance: the next stretch of a mirror's data is copied to a component that is to
//! be filled.

ghost use Rattle.std.specs.Prelude.{◌≡◌, ◌+◌, ◌<◌, ◌^◌, [], ◌∷◌, None, IfOk};
ghost use Rattle.gm_changes.specs.After.{advanced, filling, holding, reach};
ghost use Rattle.gm_changes.specs.Decides.{no_change};
ghost use Rattle.gm_changes.specs.PartChange.{IsMade};
ghost use Rattle.gm_commands.specs.declared.command.Command.TheVariants as commands;
ghost use Rattle.gm_refusals.specs.PartOf.{IsGoodButCount};
ghost use Rattle.gm_refusals.specs.Seen.{seen_in};
ghost use Rattle.gm_state.specs.Lookups.{held_of};
ghost use Rattle.gm_state.specs.declared.intents.Reply.TheVariants as replies;

use crate::change::Change;
use gm_metadata::Label;
use gm_refusals::Facts;
use gm_state::{Component, Disk, Intent, Mirror, Reply, State, source};
use std::alloc::{AllocError, Global};

// How many sectors a stretch has at most.
const STRETCH: u32 = 256;

/// How many of the mirror's data sectors the component holds after its next stretch.
pub(crate) fn reach(mirror: &Mirror, component: &Component) -> u32
    requires { held_of component.now.disk + 256 < 2 ^ 32 }
    ensures { result ≡ reach mirror.now component.now }
{
    let next = component.disk.held() + STRETCH;
    if next < mirror.data_sectors {
        next
    } else {
        mirror.data_sectors
    }
}

// How the data of a component stand that is filled, and holds so many sectors by now.
fn holding(mirror: &Mirror, held: u32, disk: Disk) -> Disk
    ensures { result ≡ holding mirror.now held disk }
{
    match disk {
        Disk::Copying { forced: _, held: _ } if held == mirror.data_sectors => Disk::InSync,
        Disk::Copying { forced, held: _ } => Disk::Copying { forced, held },
        Disk::InSync => Disk::InSync,
        Disk::Inactive => Disk::Inactive,
    }
}

/// A component that holds so many sectors by now.
pub(crate) fn filled(mirror: &Mirror, held: u32, component: Component) -> Component
    ensures { result ≡ record component { disk = holding mirror.now held component.disk } }
{
    Component {
        disk: holding(mirror, held, component.disk),
        ..component
    }
}

/// A component to which its next stretch is copied from the source.
pub(crate) fn advanced(
    alloc: Global,
    mirror: &Mirror,
    component: Component,
    source: Label,
) -> Result<Change, AllocError>
    requires { held_of component.disk + 256 < 2 ^ 32 }
    ensures { IfOk result (λ ch. ch ≡ record no_change {
      components = advanced mirror.now component ∷ [];
      intents = filling mirror.now component source;
      reply = replies.Copied (reach mirror.now component) mirror.now.data_sectors;
    }) }
{
    let target = component.provider;
    let first = component.disk.held();
    let end = reach(mirror, &component);
    Ok(Change {
        components: vec![in alloc; filled(mirror, end, component)]?,
        intents: vec![in alloc;
            Intent::Copy {
                source,
                target,
                first,
                end,
            },
            Intent::Meta { provider: target },
        ]?,
        reply: Reply::Copied {
            held: end,
            total: mirror.data_sectors,
        },
        ..Change::nothing(alloc)
    })
}

pub(crate) fn advance(
    alloc: Global,
    part: &State,
    facts: &Facts,
    name: Label,
    provider: Label,
) -> Result<Change, AllocError>
    requires { IsGoodButCount part.now (seen_in facts.now)
        (commands.Advance name provider) }
    ensures { IfOk result (λ ch. IsMade part.now (seen_in facts.now)
        (commands.Advance name provider) ch) }
{
    let mirror = part.mirror(name).unwrap();
    let component = part.component(provider).unwrap();
    let source = source(part, provider).unwrap();
    Ok(advanced(alloc, &mirror, component, source)?)
}
