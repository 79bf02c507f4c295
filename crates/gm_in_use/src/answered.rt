//! What the system answers, as far as it does.

ghost use Rattle.std.specs.Prelude.{◌≡◌, ◌≢◌, Ok, Some, None, IfOk, IfErr, MatchResult};
ghost use Rattle.std.specs.IoError.{error_kind};
ghost use Rattle.std.specs.declared.io.ErrorKind.TheVariants.{OutOfMemory};

use std::alloc::AllocError;
use std::fs;
use std::io::{self, ErrorKind};

/// An answer of the system, or nothing if it gave none: only want of memory is told.
pub(crate) fn answered<T>(answer: io::Result<T>) -> Result<Option<T>, AllocError>
    ensures told { IfOk answer (λ told. result ≡ Ok (Some told)) }
    ensures untold { IfErr answer (λ error. MatchResult result
        (λ told. (told ≡ None) × (error_kind error ≢ OutOfMemory))
        (λ _. error_kind error ≡ OutOfMemory)) }
{
    match answer {
        Ok(told) => Ok(Some(told)),
        Err(error) if error.kind() == ErrorKind::OutOfMemory => Err(AllocError),
        Err(_) => Ok(None),
    }
}

/// The text of a file of the system; nothing if it can't be read, or isn't UTF-8.
pub(crate) fn text_at(rt: &HostRuntime, path: &str) -> Result<Option<String>, AllocError> {
    answered(fs::read_to_string(rt, path))
}
