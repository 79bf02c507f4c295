//! The files of a registry, opened to be read alone, under locks that others who read may share.

ghost use Rattle.std.specs.Prelude.{IsTrue, IfOk};

use gm_overlay::{OverlayDisk, disk_over};
use gm_shelf::FileId;
use os::RangeLock;
use sqlite::Files;
use sqlite_disk::Disk;
use std::alloc::Global;
use std::fs::{self, File};
use std::io::{self, ErrorKind};
use std::os::fd::AsRawFd;
use std::os::unix::fs::FileExt;

// Where SQLite's locks lie in a file, in bytes: the pending, the reserved and the shared lock.
const LOCKS: u64 = 1 << 30;

const LOCK_BYTES: u64 = 512;

/// A registry's own file, and its log, if it has one. They stay locked as long as these are there.
#[derive(Drop)]
pub(crate) struct SharedFiles {
    pub file: File,
    pub log: Option<File>,
}

/// Opens a regular file to be read, under a lock that others who read may hold as well.
/// `WouldBlock` if another program holds one that keeps readers away.
pub(crate) fn open_shared(rt: &HostRuntime, path: &str) -> io::Result<File> {
    let named = fs::symlink_metadata(rt, path)?;
    if !named.is_file() {
        return Err(io::Error::from(ErrorKind::Unsupported));
    }
    let file = File::open(rt, path)?;
    if FileId::of(&file.metadata()?) != FileId::of(&named) {
        return Err(io::Error::from(ErrorKind::Unsupported));
    }
    if os::try_lock_range(file.as_raw_fd(), RangeLock::Shared, LOCKS, LOCK_BYTES) != 0 {
        return Err(io::Error::from_raw_os_error(os::errno()));
    }
    Ok(file)
}

/// The log of a registry at a path without a link, or none.
pub(crate) fn log_of(rt: &HostRuntime, path: &str) -> io::Result<Option<File>> {
    let log = format!(in rt.alloc(); "{path}-wal")?;
    match open_shared(rt, log.as_str()) {
        Ok(file) => Ok(Some(file)),
        Err(e) if e.kind() == ErrorKind::NotFound => Ok(None),
        Err(e) => Err(e),
    }
}

/// The two files of a registry at a path without a link.
pub(crate) fn shared_files(rt: &HostRuntime, path: &str) -> io::Result<SharedFiles> {
    Ok(SharedFiles {
        file: open_shared(rt, path)?,
        log: log_of(rt, path)?,
    })
}

/// The two files as disks, to which only memory is written.
pub(crate) fn disks_over(
    alloc: Global,
    shared: SharedFiles,
    key: u64,
) -> io::Result<Files<OverlayDisk>>
    ensures log { IfOk result (λ files. IsTrue (⟦<OverlayDisk as Disk>⟧.is_usable files.log)) }
    ensures db { IfOk result (λ files. IsTrue (⟦<OverlayDisk as Disk>⟧.is_usable files.db)) }
{
    Ok(Files {
        log: disk_over(alloc, shared.log, true, key)?,
        db: disk_over(alloc, Some(shared.file), false, key)?,
    })
}

// The first byte of a file that has one.
fn first_byte(rt: &HostRuntime, path: &str) -> io::Result<u8> {
    let mut first = [0];
    File::open(rt, path)?.read_exact_at(&mut first, 0)?;
    Ok(first[0])
}

/// Whether something is beside a registry that SQLite would have to play back first, or that only
/// has the name of a rollback journal. One that is empty or begins with a zero holds nothing.
pub(crate) fn has_journal(rt: &HostRuntime, path: &str) -> io::Result<bool> {
    let journal = format!(in rt.alloc(); "{path}-journal")?;
    match fs::symlink_metadata(rt, journal.as_str()) {
        Ok(found) if !found.is_file() => Ok(true),
        Ok(found) if found.len() == 0 => Ok(false),
        Ok(_) => Ok(first_byte(rt, journal.as_str())? != 0),
        Err(e) if e.kind() == ErrorKind::NotFound => Ok(false),
        Err(e) => Err(e),
    }
}
