//! The two schemas of a registry.

ghost use Rattle.std.specs.Prelude.{◌≡◌};
ghost use Rattle.gm_registry.specs.Opening.{number_of};

/// A schema of a registry.
#[derive(Clone, Copy, Debug, PartialEq, Eq)]
pub(crate) enum Edition {
    /// Five tables, without one of bytes to be laid.
    First,
    /// All six: this one is made, read and written.
    Second,
}

impl Edition {
    /// Its number in `about`.
    pub(crate) fn number(self) -> u64
        ensures { result ≡ number_of self }
    {
        match self {
            Edition::First => 1,
            Edition::Second => 2,
        }
    }
}
