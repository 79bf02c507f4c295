//! The change of rebuild: a component is to be filled anew.

ghost use Rattle.std.specs.Prelude.{◌≡◌, ◌<◌, IfOk};
ghost use Rattle.gm_changes.specs.After.{rebuilt};
ghost use Rattle.gm_changes.specs.PartChange.{IsMade};
ghost use Rattle.gm_commands.specs.declared.command.Command.TheVariants as commands;
ghost use Rattle.gm_refusals.specs.PartOf.{IsGoodButCount};
ghost use Rattle.gm_refusals.specs.Seen.{seen_in};

use crate::change::Change;
use crate::members::replaced;
use gm_metadata::Label;
use gm_refusals::Facts;
use gm_state::{Component, Disk, State};
use std::alloc::{AllocError, Global};

// A component that is to be copied to, even if the mirror doesn't fill its components by itself.
const FORCED: Disk = Disk::Copying {
    forced: true,
    held: 0,
};

/// A component that is to be filled anew.
pub(crate) fn rebuilt(component: Component) -> Component
    ensures { result ≡ rebuilt component }
{
    Component {
        disk: FORCED,
        ..component
    }
}

pub(crate) fn rebuild(
    alloc: Global,
    part: &State,
    facts: &Facts,
    name: Label,
    provider: Label,
) -> Result<Change, AllocError>
    requires { IsGoodButCount part.now (seen_in facts.now)
        (commands.Rebuild name provider) }
    ensures { IfOk result (λ ch. IsMade part.now (seen_in facts.now)
        (commands.Rebuild name provider) ch) }
{
    let component = part.component(provider).unwrap();
    Ok(replaced(alloc, rebuilt(component))?)
}
