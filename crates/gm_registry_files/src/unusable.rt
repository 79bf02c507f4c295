//! Why a registry can't be opened, by a look at its files, and what is no registry for certain.

use crate::shared::{has_journal, open_shared};
use gm_process::Trouble;
use std::alloc::Global;
use std::fs::{self, File, Metadata, OpenOptions};
use std::io::{self, ErrorKind, Read};
use std::os::unix::fs::MetadataExt;

/// Why a registry can't be opened.
#[derive(Clone, Copy, Debug, PartialEq, Eq)]
pub enum StoreCause {
    /// Nothing has its path.
    Missing,
    /// Nothing has its path, and nothing could be made there.
    NotMade,
    /// The folder isn't there in which it would be made.
    NoFolder,
    /// Something that is no regular file has its path.
    NotAFile,
    /// It has a second name, under which SQLite would look for another log.
    SecondName,
    /// The user who runs the program may not.
    Forbidden,
    /// Its medium is read-only.
    ReadOnly,
    /// Its medium is full.
    Full,
    /// Another program has it open.
    InUse,
    /// It has a rollback journal, or something else has the name of one.
    Journal,
    /// No database begins as it does.
    NoDatabase,
    /// It is empty, or as a stop leaves one while it is made.
    Empty,
    /// It is empty or away, and its log may hold commands.
    LogAlone,
    /// Another file has the name of its log.
    OtherLog,
    /// It is a database with other tables.
    Foreign,
    /// It failed while it was open, and nothing more is known.
    Failed,
}

impl StoreCause {
    /// What is told of it, of a registry at this path; nothing if memory is refused.
    pub fn trouble(self, alloc: Global, registry: &str) -> Option<Trouble> {
        let path = String::from_str(alloc, registry).ok()?;
        Some(Trouble::new(self.sentence(), path))
    }

    // The sentence, with PATH in the place of the registry's.
    fn sentence(self) -> &'static str {
        match self {
            StoreCause::Missing => "there is no registry at PATH",
            StoreCause::NotMade => "there is no registry at PATH, and none can be made there",
            StoreCause::NoFolder => "there is no folder for a registry at PATH",
            StoreCause::NotAFile => "PATH isn't a regular file",
            StoreCause::SecondName => "PATH has a second name, by a hard link",
            StoreCause::Forbidden => "PATH may not be read and written by this user",
            StoreCause::ReadOnly => "PATH is on a medium that can't be written",
            StoreCause::Full => "PATH is on a medium that is full",
            StoreCause::InUse => "another program has PATH open",
            StoreCause::Journal => "PATH has a rollback journal: open it with sqlite3 first",
            StoreCause::NoDatabase => "PATH isn't a registry: no database begins as it does",
            StoreCause::Empty => "PATH holds no registry: it is empty, or its making was stopped",
            StoreCause::LogAlone => "PATH holds no registry, but its log may hold commands of one",
            StoreCause::OtherLog => "PATH-wal isn't a registry's log: another file has its name",
            StoreCause::Foreign => "PATH is a database of another program",
            StoreCause::Failed =>
                "PATH can't be read or written: its medium may be full; or it is no registry",
        }
    }
}

// What a database begins with.
const HEADER: [u8; 16] = *b"SQLite format 3\0";

// Whether a registry never begins with these bytes: one is neither the header's, nor the zero that
// a machine which stopped may have left in its place.
fn is_foreign(first: &[u8]) -> bool {
    first
        .iter()
        .zip(HEADER.iter())
        .any(|(found, wanted)| *found != *wanted && *found != 0)
}

/// Whether a file is no registry, by its first bytes. One that can't be read may be one.
pub fn is_no_database(rt: &HostRuntime, registry: &str) -> bool {
    let mut first = [0; 16];
    let Ok(count) = first_bytes(rt, registry, &mut first) else {
        return false;
    };
    is_foreign(&first[..count.min(16)])
}

// Reads the first bytes of a regular file, and says how many there are.
fn first_bytes(rt: &HostRuntime, registry: &str, out: &mut [u8; 16]) -> io::Result<usize> {
    if !fs::metadata(rt, registry)?.is_file() {
        return Ok(0);
    }
    File::open(rt, registry)?.read(out)
}

// Whether another program holds a lock on a file that keeps a reader away.
fn is_in_use(rt: &HostRuntime, path: &str) -> io::Result<bool> {
    match open_shared(rt, path) {
        Ok(_) => Ok(false),
        Err(e) if e.kind() == ErrorKind::WouldBlock => Ok(true),
        Err(e) => Err(e),
    }
}

/// Why nothing is found at a path.
pub(crate) fn cause_of_none(rt: &HostRuntime, registry: &str) -> StoreCause {
    let folder = match registry.rsplit_once('/') {
        None | Some(("", _)) => return StoreCause::Missing,
        Some((folder, _)) => folder,
    };
    match fs::metadata(rt, folder) {
        Err(e) if e.kind() == ErrorKind::NotFound => StoreCause::NoFolder,
        _ => StoreCause::Missing,
    }
}

// What the system's answer tells of a path.
fn cause_of_error(rt: &HostRuntime, registry: &str, error: &io::Error) -> Option<StoreCause> {
    match error.kind() {
        ErrorKind::NotFound => Some(cause_of_none(rt, registry)),
        ErrorKind::PermissionDenied => Some(StoreCause::Forbidden),
        ErrorKind::ReadOnlyFilesystem => Some(StoreCause::ReadOnly),
        ErrorKind::StorageFull | ErrorKind::QuotaExceeded => Some(StoreCause::Full),
        _ => None,
    }
}

// Why a file with these attributes is none for a registry.
fn cause_of_kind(found: &Metadata) -> Option<StoreCause> {
    if !found.is_file() {
        return Some(StoreCause::NotAFile);
    }
    if found.nlink() > 1 {
        return Some(StoreCause::SecondName);
    }
    None
}

// What there is at the path of a registry without a link.
fn cause_at(rt: &HostRuntime, path: &str) -> io::Result<Option<StoreCause>> {
    if let Some(cause) = cause_of_kind(&fs::metadata(rt, path)?) {
        return Ok(Some(cause));
    }
    if is_in_use(rt, path)? {
        return Ok(Some(StoreCause::InUse));
    }
    if has_journal(rt, path)? {
        return Ok(Some(StoreCause::Journal));
    }
    if is_no_database(rt, path) {
        return Ok(Some(StoreCause::NoDatabase));
    }
    // Nothing is written: it is only asked whether it might be.
    OpenOptions::new().read(true).write(true).open(rt, path)?;
    Ok(None)
}

/// Why a registry couldn't be opened, as far as a look at its files tells that now.
pub fn store_cause(rt: &HostRuntime, registry: &str) -> Option<StoreCause> {
    let found = match fs::canonicalize(rt, registry) {
        Ok(real) => cause_at(rt, real.as_str()),
        Err(e) => Err(e),
    };
    match found {
        Ok(cause) => cause,
        Err(e) => cause_of_error(rt, registry, &e),
    }
}
