//! Why there is no last sector.

ghost use Rattle.std.specs.Prelude.{◌≡◌};
ghost use Rattle.gm_dump.specs.Refusals.{refusal_number};

/// Why a last sector can't be printed.
#[derive(Clone, Copy, Debug, PartialEq, Eq)]
pub enum DumpRefusal {
    /// The folder has no such image.
    Absent,
    /// The image has no sectors.
    WrongSize,
}

impl DumpRefusal {
    /// Its number among the refusals of commands.
    pub fn number(self) -> u8
        ensures { result ≡ refusal_number self }
    {
        match self {
            DumpRefusal::Absent => 8,
            DumpRefusal::WrongSize => 28,
        }
    }
}
