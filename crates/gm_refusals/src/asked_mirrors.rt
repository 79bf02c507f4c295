//! The part of the records that a command asks for: what is decided on it is what is decided on
//! them all.

ghost use Rattle.std.specs.Prelude.{◌≡◌, ◌==◌, ℕ, List};
ghost use Rattle.std.specs.List.{list_any};
ghost use Rattle.gm_commands.specs.declared.command.Command.{Command};
ghost use Rattle.gm_state.specs.Records.{Records, IsState};
ghost use Rattle.gm_refusals.specs.PartOf.{is_named, is_called, part_of};

use crate::predicates::{has_mid, name_of};
use gm_commands::Command;
use gm_state::Mirror;

/// A part of a state is a state.
pub fn a_part_is_a_state()
    ensures { (s : Records) (c : Command) (mids : List ℕ) → IsState s → IsState (part_of s c mids) }
{}

fn is_named(command: &Command, mirror: &Mirror) -> bool
    ensures { result ≡ is_named command.now mirror.now }
{
    match name_of(command) {
        None => false,
        Some(name) => mirror.name == name,
    }
}

fn is_further(mids: &[u32], mirror: &Mirror) -> bool
    ensures { result ≡ list_any (λ mid. mirror.now.mid == mid) mids.now }
{
    mids.iter().any(|mid| mirror.mid == *mid)
}

/// Whether the command names the mirror or gives its mid, or that is one of the further mids.
pub fn is_called(command: &Command, mids: &[u32], mirror: &Mirror) -> bool
    ensures { result ≡ is_called command.now mids.now mirror.now }
{
    is_named(command, mirror) || has_mid(command, mirror) || is_further(mids, mirror)
}
