//! Why a replacement goes no further.

use gm_bench::BenchFault;
use gm_faults::Fault;
use gm_ways::WayFault;
use std::alloc::AllocError;
use std::io;

/// Why a replacement goes no further.
#[derive(Debug)]
pub(crate) enum Stopped {
    /// A command of it was refused, and its answer is printed.
    Refused,
    Fault(Fault),
}

impl From<Fault> for Stopped {
    fn from(fault: Fault) -> Self {
        Stopped::Fault(fault)
    }
}

impl From<BenchFault> for Stopped {
    fn from(fault: BenchFault) -> Self {
        Stopped::Fault(Fault::from(fault))
    }
}

impl From<AllocError> for Stopped {
    fn from(error: AllocError) -> Self {
        Stopped::Fault(Fault::from(error))
    }
}

impl From<io::Error> for Stopped {
    fn from(error: io::Error) -> Self {
        Stopped::Fault(Fault::from(error))
    }
}

impl From<WayFault> for Stopped {
    fn from(fault: WayFault) -> Self {
        Stopped::Fault(Fault::Bench(match fault {
            WayFault::Memory => BenchFault::Memory,
            WayFault::Broken => BenchFault::Unreadable,
        }))
    }
}
