//! Why a call of the bench fails.

ghost use Rattle.std.specs.Prelude.{◌≡◌};
ghost use Rattle.gm_bench.specs.Faults.{fault_number, of_store, of_shelf, IsOfMedia, IsOfRegistry, IsOfCall};

use gm_metadata::Label;
use gm_rows::StoreFault;
use gm_shelf::ShelfFault;

/// Why the bench didn't do a call. After any of these but `Closed` and `Absent` the bench is
/// closed: every call is answered `Closed` until it is opened again.
#[derive(Clone, Copy, Debug, PartialEq, Eq, thiserror::Error)]
pub enum BenchFault {
    /// Memory was refused.
    #[error("F1 memory")]
    Memory,
    /// The registry's store refused the call, or failed.
    #[error("F2 store")]
    Store,
    /// A device of the shelf failed.
    #[error("F3 disk")]
    Disk,
    /// An earlier fault closed the bench.
    #[error("F4 reopen first")]
    Closed,
    /// An opening finds that the image of a pending intent isn't there, has no sectors or another
    /// size.
    #[error("F5 absent {0}")]
    Absent(Label),
    /// The store holds no registry, or one whose tables don't say a state.
    #[error("F6 registry unreadable")]
    Unreadable,
}

impl BenchFault {
    /// Its number, 1 to 6, as texts and answers print it.
    pub fn number(self) -> u8
        ensures { result ≡ fault_number self }
    {
        match self {
            BenchFault::Memory => 1,
            BenchFault::Store => 2,
            BenchFault::Disk => 3,
            BenchFault::Closed => 4,
            BenchFault::Absent(_) => 5,
            BenchFault::Unreadable => 6,
        }
    }

    /// What a fault of the registry is to the bench.
    pub(crate) fn of_store(fault: StoreFault) -> BenchFault
        ensures value { result ≡ of_store fault }
        ensures registry { IsOfRegistry result }
        ensures call { IsOfCall result }
    {
        match fault {
            StoreFault::Memory => BenchFault::Memory,
            StoreFault::Store => BenchFault::Store,
            StoreFault::Unreadable => BenchFault::Unreadable,
        }
    }

    /// What a fault of the shelf is to the bench, which names only providers and sectors that are
    /// there.
    pub(crate) fn of_shelf(fault: ShelfFault) -> BenchFault
        ensures value { result ≡ of_shelf fault }
        ensures not_store { result ≡ BenchFault.Store → ⊥ }
        ensures media { IsOfMedia result }
        ensures call { IsOfCall result }
    {
        match fault {
            ShelfFault::Memory => BenchFault::Memory,
            ShelfFault::Absent | ShelfFault::Range | ShelfFault::Device => BenchFault::Disk,
        }
    }
}

impl From<ShelfFault> for BenchFault {
    ghost use Rattle.gm_bench.specs.Faults.{of_shelf};

    ghost from_gives = { λ cause fault. fault ≡ of_shelf cause };

    fn from(cause: ShelfFault) -> Self {
        BenchFault::of_shelf(cause)
    }
}

impl From<StoreFault> for BenchFault {
    ghost use Rattle.gm_bench.specs.Faults.{of_store};

    ghost from_gives = { λ cause fault. fault ≡ of_store cause };

    fn from(cause: StoreFault) -> Self {
        BenchFault::of_store(cause)
    }
}
