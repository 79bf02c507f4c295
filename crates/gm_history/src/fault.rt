//! Why accepted commands aren't told.

ghost use Rattle.std.specs.Prelude.{◌≡◌};

use gm_rows::StoreFault;
use std::alloc::AllocError;

/// Why accepted commands aren't told, or not all of them.
#[derive(Clone, Copy, Debug, PartialEq, Eq)]
pub enum HistoryFault {
    /// The store failed, or want of memory.
    Store(StoreFault),
    /// The output failed.
    Output,
}

impl From<StoreFault> for HistoryFault {
    ghost use Rattle.gm_history.specs.declared.fault.HistoryFault.TheVariants.{Store};

    ghost from_gives = { λ cause fault. fault ≡ Store cause };

    fn from(cause: StoreFault) -> Self {
        HistoryFault::Store(cause)
    }
}

impl From<AllocError> for HistoryFault {
    ghost use Rattle.gm_rows.specs.declared.fault.StoreFault.TheVariants.{Memory};
    ghost use Rattle.gm_history.specs.declared.fault.HistoryFault.TheVariants.{Store};

    ghost from_gives = { λ cause fault. fault ≡ Store Memory };

    fn from(_: AllocError) -> Self {
        HistoryFault::Store(StoreFault::Memory)
    }
}
