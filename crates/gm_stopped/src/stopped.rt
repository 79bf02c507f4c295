//! Which command was stopped, and how its writes need an image.

ghost use Rattle.std.specs.Prelude.{◌≡◌};
ghost use Rattle.gm_stopped.specs.Leavings.{takes_in};

use gm_commands::Command;
use gm_metadata::Label;

/// The command whose writes are pending: the last that was accepted, before the losses that came
/// after it while its writes were pending.
#[derive(Debug, Drop)]
pub struct Stopped {
    /// `None` if it isn't known: then no image passes for its sake.
    pub command: Option<Command>,
    /// How many losses came after it.
    pub losses: usize,
}

/// How a pending write needs an image.
#[derive(Clone, Copy, Debug, PartialEq, Eq)]
pub enum Role {
    /// Metadata, a mark or bytes are written to it.
    Written,
    /// Its last sector is wiped.
    Cleared,
    /// Data are copied from it.
    Source,
    /// Data are copied to it, from this sector on.
    Target { first: u32 },
}

impl Stopped {
    /// Whether the command takes an image into a mirror that had no metadata before.
    pub(crate) fn takes_in(&self, provider: Label) -> bool
        ensures { result ≡ takes_in self.now.command provider }
    {
        match &self.command {
            Some(Command::Label(new)) => new.provider == provider,
            Some(Command::Insert(new)) => new.provider == provider,
            _ => false,
        }
    }
}
