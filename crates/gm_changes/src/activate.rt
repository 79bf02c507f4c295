//! The change of activate: a component is taken into use again, and is to be filled anew.

ghost use Rattle.std.specs.Prelude.{◌≡◌, ◌<◌, IfOk};
ghost use Rattle.gm_changes.specs.After.{activated};
ghost use Rattle.gm_changes.specs.PartChange.{IsMade};
ghost use Rattle.gm_commands.specs.declared.command.Command.TheVariants as commands;
ghost use Rattle.gm_refusals.specs.PartOf.{IsGoodButCount};
ghost use Rattle.gm_refusals.specs.Seen.{seen_in};

use crate::change::Change;
use crate::members::{NOT_BEGUN, replaced};
use gm_metadata::Label;
use gm_refusals::Facts;
use gm_state::{Component, Mirror, State};
use std::alloc::{AllocError, Global};

/// A component that is taken into use again.
pub(crate) fn activated(mirror: &Mirror, component: Component) -> Component
    ensures { result ≡ activated mirror.now component }
{
    Component {
        disk: NOT_BEGUN,
        syncid: mirror.syncid,
        ..component
    }
}

pub(crate) fn activate(
    alloc: Global,
    part: &State,
    facts: &Facts,
    name: Label,
    provider: Label,
) -> Result<Change, AllocError>
    requires { IsGoodButCount part.now (seen_in facts.now)
        (commands.Activate name provider) }
    ensures { IfOk result (λ ch. IsMade part.now (seen_in facts.now)
        (commands.Activate name provider) ch) }
{
    let mirror = part.mirror(name).unwrap();
    let component = part.component(provider).unwrap();
    Ok(replaced(alloc, activated(&mirror, component))?)
}
