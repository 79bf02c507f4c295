//! What can fail around the program.

ghost use Rattle.std.specs.Prelude.{◌≡◌};

use gm_shelf::ShelfFault;
use std::alloc::AllocError;
use std::io;

/// A failure of what surrounds the program.
#[derive(Clone, Copy, Debug, PartialEq, Eq)]
pub enum Failure {
    /// Memory was refused.
    Memory,
    /// An image can't be read.
    Disk,
    /// The standard streams or the folder failed.
    InputOrOutput,
}

impl From<AllocError> for Failure {
    ghost use Rattle.gm_process.specs.declared.failure.Failure.TheVariants.{Memory};

    ghost from_gives = { λ cause failure. failure ≡ Memory };

    fn from(_: AllocError) -> Self {
        Failure::Memory
    }
}

impl From<io::Error> for Failure {
    fn from(error: io::Error) -> Self {
        match error.kind() {
            io::ErrorKind::OutOfMemory => Failure::Memory,
            _ => Failure::InputOrOutput,
        }
    }
}

impl From<ShelfFault> for Failure {
    ghost use Rattle.gm_process.specs.Failures.{of_shelf};

    ghost from_gives = { λ cause failure. failure ≡ of_shelf cause };

    fn from(cause: ShelfFault) -> Self {
        match cause {
            ShelfFault::Memory => Failure::Memory,
            ShelfFault::Absent | ShelfFault::Range | ShelfFault::Device => Failure::Disk,
        }
    }
}
