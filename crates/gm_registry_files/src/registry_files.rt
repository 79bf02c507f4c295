//! The files of a registry: its own, and those that SQLite puts beside it.

ghost use Rattle.std.specs.Prelude.{◌≢◌, IfErr};

use crate::beside::BESIDE;
use gm_registry::StoreFault;
use gm_shelf::{FileId, FileShelf};
use std::fs;
use std::io::{self, ErrorKind};

// What is told of a registry's file, by what the system says of it: never that its tables say no
// state.
pub(crate) fn file_fault(error: io::Error) -> StoreFault
    ensures { result ≢ StoreFault.Unreadable }
{
    match error.kind() {
        ErrorKind::OutOfMemory => StoreFault::Memory,
        _ => StoreFault::Store,
    }
}

/// Whether something lies where a registry is to be, by whatever path it is named. What the system
/// doesn't say isn't there may be.
pub fn is_there(rt: &HostRuntime, registry: &str) -> bool {
    match fs::metadata(rt, registry) {
        Err(e) => e.kind() != ErrorKind::NotFound,
        Ok(_) => true,
    }
}

/// How long a registry's own file is, in bytes. `Store` if it can't be looked at.
pub fn length_of(rt: &HostRuntime, registry: &str) -> Result<u64, StoreFault>
    ensures { IfErr result (λ fault. fault ≢ StoreFault.Unreadable) }
{
    match fs::metadata(rt, registry) {
        Ok(found) => Ok(found.len()),
        Err(e) => Err(file_fault(e)),
    }
}

// The files of a registry that is there: its own, by whatever path it is named, and those that
// SQLite puts beside it.
fn files_of(rt: &HostRuntime, registry: &str) -> io::Result<Vec<FileId>> {
    let real = fs::canonicalize(rt, registry)?;
    let mut files = Vec::new(rt.alloc());
    files.push(FileId::of(&fs::metadata(rt, real.as_str())?))?;
    for suffix in BESIDE {
        let path = format!(in rt.alloc(); "{}{suffix}", real.as_str())?;
        match fs::symlink_metadata(rt, path.as_str()) {
            Ok(found) => files.push(FileId::of(&found))?,
            Err(e) if e.kind() == ErrorKind::NotFound => {}
            Err(e) => return Err(e),
        }
    }
    Ok(files)
}

/// Leaves the files of a registry out of the images among which they may lie. `Store` if they can't
/// be looked at.
pub fn leave_out_registry(
    rt: &HostRuntime,
    registry: &str,
    shelf: &mut FileShelf<HostRuntime>,
) -> Result<(), StoreFault>
    ensures { IfErr result (λ fault. fault ≢ StoreFault.Unreadable) }
{
    match files_of(rt, registry) {
        Ok(files) => {
            shelf.leave_out(&files);
            Ok(())
        }
        Err(e) => Err(file_fault(e)),
    }
}
