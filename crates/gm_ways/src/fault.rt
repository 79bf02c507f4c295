//! Why steps can't be judged.

use std::alloc::AllocError;

/// Why steps can't be judged.
#[derive(Clone, Copy, Debug, PartialEq, Eq)]
pub enum WayFault {
    Memory,
    /// A command would leave records that break a rule.
    Broken,
}

impl From<AllocError> for WayFault {
    ghost use Rattle.std.specs.Prelude.{◌≡◌};
    ghost use Rattle.gm_ways.specs.declared.fault.WayFault.TheVariants.{Memory};

    ghost from_gives = { λ cause fault. fault ≡ Memory };

    fn from(_: AllocError) -> Self {
        WayFault::Memory
    }
}
