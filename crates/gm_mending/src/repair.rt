//! The command that writes registered last sectors again: a `configure` that changes nothing.

ghost use Rattle.std.specs.Prelude.{◌≡◌, not};
ghost use Rattle.gm_changes.specs.After.{configured, configured_mirror};
ghost use Rattle.gm_state.specs.declared.records.Component.{Component};
ghost use Rattle.gm_state.specs.declared.records.Mirror.{Mirror};
ghost use Rattle.gm_state.specs.Lookups.{at_component};
ghost use Rattle.gm_mending.specs.Repair.{autosync_alone, repair_of};

use gm_commands::{Command, Settings, words_of};
use gm_metadata::Label;
use gm_state::{Component, Mirror, State};
use std::alloc::{AllocError, Global};

/// The component whose image is to be mended, and its mirror.
#[derive(Clone, Copy)]
pub(crate) struct Target {
    pub(crate) mirror: Mirror,
    pub(crate) component: Component,
}

/// The component on an image; `None` if no mirror has one there.
pub(crate) fn target_of(state: &State, image: Label) -> Option<Target>
    ensures { result
        ≡ at_component state.now image (λ m k. record { mirror = m; component = k }) }
{
    let component = state.component(image)?;
    let mirror = state.mirror(component.mirror)?;
    Some(Target { mirror, component })
}

// Sets whether a mirror fills its components by itself, and nothing else.
fn autosync_alone(fills: bool) -> Settings
    ensures { result ≡ autosync_alone fills }
{
    Settings {
        balance: None,
        slice: None,
        autosync: Some(fills),
        failsync: None,
        hardcode: None,
        preference: None,
    }
}

/// Whether a mirror fills its components by itself.
pub(crate) fn fills_by_itself(mirror: &Mirror) -> bool
    ensures { result ≡ not mirror.now.flags.no_autosync }
{
    !mirror.flags.no_autosync
}

/// The command that sets of a mirror what it already has.
pub(crate) fn repair_of(mirror: &Mirror) -> Command
    ensures { result ≡ repair_of mirror.now }
{
    Command::Configure {
        name: mirror.name,
        settings: autosync_alone(fills_by_itself(mirror)),
    }
}

/// The command leaves its mirror and each component as they are registered.
pub fn a_repair_changes_no_record()
    ensures mirror { (m : Mirror)
        → configured_mirror (autosync_alone (not m.flags.no_autosync)) m ≡ m }
    ensures component { (m : Mirror) (k : Component)
        → configured (autosync_alone (not m.flags.no_autosync)) k ≡ k }
{}

/// What the command sets, if its words are kept under a key: what the mirror has, or the other, if
/// that was so when the command was accepted.
pub(crate) fn set_before(alloc: Global, mirror: &Mirror, kept: &str) -> Result<bool, AllocError> {
    let now = fills_by_itself(mirror);
    let other = Command::Configure {
        name: mirror.name,
        settings: autosync_alone(!now),
    };
    Ok((words_of(alloc, &other)?.as_str() == kept) != now)
}

/// The words of the command that sets this.
pub(crate) fn repair_words<'a>(
    alloc: Global,
    name: &'a Label,
    fills: bool,
) -> Result<Vec<&'a str>, AllocError> {
    let value = if fills { "on" } else { "off" };
    let mut words = Vec::new(alloc);
    words.push("configure")?;
    words.push("--autosync")?;
    words.push(value)?;
    words.push("--")?;
    words.push(name.as_str())?;
    Ok(words)
}
