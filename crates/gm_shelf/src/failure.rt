//! Why a call on the file of an image failed.

ghost use Rattle.std.specs.Prelude.{◌≡◌, ◌↔◌, None};
ghost use Rattle.gm_shelf.specs.FileFaults.{WantsMemory};

use gm_metadata::Label;
use std::alloc::AllocFailed;
use std::io::{self, ErrorKind};

/// Why an image couldn't be read or written.
#[derive(Clone, Copy, Debug, PartialEq, Eq)]
pub enum Cause {
    /// Since the folder was read another file took its name, or its length changed.
    Replaced,
    /// No file has its name any more.
    Gone,
    /// The user who runs the program may not.
    Forbidden,
    /// Its medium is read-only.
    ReadOnly,
    /// Its medium, or the user's share of it, is full.
    Full,
    /// The system lets this process write no file as long.
    TooLong,
    /// The device failed, or the system says anything else.
    Device,
}

/// Which image couldn't be read or written, and why.
#[derive(Clone, Copy, Debug, PartialEq, Eq)]
pub struct ImageFailure {
    pub image: Label,
    pub cause: Cause,
}

/// Why a call on a file wasn't done.
#[derive(Drop)]
pub(crate) enum FileFault {
    /// The file isn't the one that the folder showed.
    Replaced,
    System(io::Error),
}

impl From<io::Error> for FileFault {
    ghost use Rattle.gm_shelf.specs.declared.failure.FileFault.TheVariants.{System};

    ghost from_gives = { λ error fault. fault ≡ System error };

    fn from(error: io::Error) -> Self {
        FileFault::System(error)
    }
}

impl<T: Drop> From<AllocFailed<T>> for FileFault {
    fn from(_: AllocFailed<T>) -> Self {
        FileFault::System(io::Error::from(ErrorKind::OutOfMemory))
    }
}

// What the system's answer tells of a file.
fn system_cause(kind: ErrorKind) -> Cause {
    match kind {
        ErrorKind::NotFound => Cause::Gone,
        ErrorKind::PermissionDenied => Cause::Forbidden,
        ErrorKind::ReadOnlyFilesystem => Cause::ReadOnly,
        ErrorKind::StorageFull | ErrorKind::QuotaExceeded => Cause::Full,
        ErrorKind::FileTooLarge => Cause::TooLong,
        _ => Cause::Device,
    }
}

/// Why a file failed; `None` if nothing failed but that memory was refused.
pub(crate) fn cause_of(fault: &FileFault) -> Option<Cause>
    ensures { (result ≡ None) ↔ WantsMemory fault.now }
{
    match fault {
        FileFault::Replaced => Some(Cause::Replaced),
        FileFault::System(error) => match error.kind() {
            ErrorKind::OutOfMemory => None,
            kind => Some(system_cause(kind)),
        },
    }
}
