//! An advance that goes on: its next stretches are copied with the first, each under a further key.

ghost use Rattle.std.specs.Prelude.{◌≡◌, ◌+◌, ◌<◌, ◌^◌, None, OnOk, Some};
ghost use Rattle.gm_changes.specs.Stretches.{IsUnfilled, copied_to, stretch_reply, stretched, to_end};
ghost use Rattle.gm_state.specs.Lookups.{held_of};

use crate::advance::{filled, reach};
use crate::change::{Change, Further};
use gm_state::{Component, Disk, Intent, MAX_SECTORS, Mirror, Reply};
use std::alloc::{AllocError, Global};

// A copy that ends there, or any other intent.
fn to_end(intent: Intent, end: u32) -> Intent
    ensures { result ≡ to_end end intent }
{
    match intent {
        Intent::Copy {
            source,
            target,
            first,
            end: _,
        } => Intent::Copy {
            source,
            target,
            first,
            end,
        },
        other => other,
    }
}

// Has the first of the intents copy as far as this, if it copies.
fn copy_to(intents: &mut Vec<Intent>, end: u32)
    ensures { intents.new.items ≡ copied_to end intents.old.items }
{
    if let Some(first) = intents.get_mut(0) {
        *first = to_end(*first, end);
    }
}

impl Change {
    /// The component that an advance puts, if data are still to be copied to it.
    pub fn unfilled(&self) -> Option<Component>
        ensures some { (k : Component) → result ≡ Some k → IsUnfilled self.now k }
        ensures none { result ≡ None → (k : Component) → IsUnfilled self.now k → ⊥ }
    {
        if self.components.len() != 1 {
            return None;
        }
        let component = self.components[0];
        match component.disk {
            Disk::Copying { forced: _, held } if held < MAX_SECTORS => Some(component),
            _ => None,
        }
    }

    /// Has the next stretch of a component copied too, under a further key: the component of the
    /// mirror that the change puts.
    pub fn stretch(
        &mut self,
        alloc: Global,
        mirror: &Mirror,
        component: Component,
        key: String,
    ) -> Result<(), AllocError>
        requires { held_of component.disk + 256 < 2 ^ 32 }
        ensures { OnOk result (self.new ≡ stretched mirror.now component
            (record { key = key; reply = stretch_reply mirror.now component }) self.old) }
    {
        let end = reach(mirror, &component);
        let reply = Reply::Copied {
            held: end,
            total: mirror.data_sectors,
        };
        self.components = vec![in alloc; filled(mirror, end, component)]?;
        copy_to(&mut self.intents, end);
        self.further.push(Further { key, reply })?;
        Ok(())
    }
}
