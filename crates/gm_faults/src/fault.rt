//! A fault that ends the program.

ghost use Rattle.std.specs.Prelude.{◌≡◌};

use gm_bench::BenchFault;
use gm_history::HistoryFault;
use gm_process::Failure;
use gm_registry::StoreFault;
use gm_shelf::ShelfFault;
use std::alloc::AllocError;
use std::{fmt, io};

/// A fault that ends the program. It prints as the line on standard error, without its line feed.
#[derive(Clone, Copy, Debug, PartialEq, Eq)]
pub enum Fault {
    /// A fault of the bench, or one that it has as well: want of memory, a disk that failed.
    Bench(BenchFault),
    /// The standard streams or the folder failed.
    InputOrOutput,
}

impl Fault {
    /// Want of memory.
    pub const MEMORY: Fault = Fault::Bench(BenchFault::Memory);
}

impl fmt::Display for Fault {
    fn fmt<W: fmt::Write>(&self, f: &mut fmt::Formatter<W>) -> fmt::Result {
        match self {
            Fault::Bench(fault) => write!(f, "gmbench: {fault}"),
            Fault::InputOrOutput => f.write_str("gmbench: input or output"),
        }
    }
}

impl From<AllocError> for Fault {
    ghost use Rattle.gm_bench.specs.declared.fault.BenchFault.TheVariants.{Memory};
    ghost use Rattle.gm_faults.specs.declared.fault.Fault.TheVariants.{Bench};

    ghost from_gives = { λ cause fault. fault ≡ Bench Memory };

    fn from(_: AllocError) -> Self {
        Fault::MEMORY
    }
}

impl From<io::Error> for Fault {
    fn from(error: io::Error) -> Self {
        match error.kind() {
            io::ErrorKind::OutOfMemory => Fault::MEMORY,
            _ => Fault::InputOrOutput,
        }
    }
}

impl From<ShelfFault> for Fault {
    ghost use Rattle.gm_bench.specs.Faults.{of_shelf};
    ghost use Rattle.gm_faults.specs.declared.fault.Fault.TheVariants.{Bench};

    ghost from_gives = { λ cause fault. fault ≡ Bench (of_shelf cause) };

    fn from(cause: ShelfFault) -> Self {
        Fault::Bench(match cause {
            ShelfFault::Memory => BenchFault::Memory,
            ShelfFault::Absent | ShelfFault::Range | ShelfFault::Device => BenchFault::Disk,
        })
    }
}

impl From<StoreFault> for Fault {
    ghost use Rattle.gm_bench.specs.Faults.{of_store};
    ghost use Rattle.gm_faults.specs.declared.fault.Fault.TheVariants.{Bench};

    ghost from_gives = { λ cause fault. fault ≡ Bench (of_store cause) };

    fn from(cause: StoreFault) -> Self {
        Fault::Bench(match cause {
            StoreFault::Memory => BenchFault::Memory,
            StoreFault::Store => BenchFault::Store,
            StoreFault::Unreadable => BenchFault::Unreadable,
        })
    }
}

impl From<Failure> for Fault {
    ghost use Rattle.gm_faults.specs.Faults.{of_failure};

    ghost from_gives = { λ cause fault. fault ≡ of_failure cause };

    fn from(cause: Failure) -> Self {
        match cause {
            Failure::Memory => Fault::MEMORY,
            Failure::Disk => Fault::Bench(BenchFault::Disk),
            Failure::InputOrOutput => Fault::InputOrOutput,
        }
    }
}

impl From<HistoryFault> for Fault {
    ghost use Rattle.gm_faults.specs.Faults.{of_history};

    ghost from_gives = { λ cause fault. fault ≡ of_history cause };

    fn from(cause: HistoryFault) -> Self {
        match cause {
            HistoryFault::Store(fault) => Fault::from(fault),
            HistoryFault::Output => Fault::InputOrOutput,
        }
    }
}

impl From<BenchFault> for Fault {
    ghost use Rattle.gm_faults.specs.declared.fault.Fault.TheVariants.{Bench};

    ghost from_gives = { λ cause fault. fault ≡ Bench cause };

    fn from(cause: BenchFault) -> Self {
        Fault::Bench(cause)
    }
}
