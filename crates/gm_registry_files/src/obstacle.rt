//! What is in the way of a registry, by a look at its files before one is opened to be written.
//! Nothing is written, and nothing is put beside them.

ghost use Rattle.std.specs.Prelude.{◌≡◌, ◌↔◌, IsTrue, Some};
ghost use Rattle.gm_registry_files.specs.Obstacles.{obstacle_of};

use crate::foreign::foreign_fault;
use crate::log::{LogKind, kind_of_log};
use crate::registry_files::file_fault;
use crate::shared::{SharedFiles, disks_over, log_of, shared_files};
use crate::unopened::records_of;
use crate::unusable::{StoreCause, cause_of_none, is_no_database, store_cause};
use gm_opener::is_blank;
use gm_registry::StoreFault;
use sqlite::{Error, ErrorCode};
use std::fs;
use std::hash::{BuildHasher, RandomState};
use std::io::{self, ErrorKind};

/// What is in the way of a registry.
#[derive(Clone, Copy, Debug)]
pub struct Obstacle {
    /// What is told of it.
    pub fault: StoreFault,
    /// Why, if that is known.
    pub cause: Option<StoreCause>,
}

impl Obstacle {
    /// Whether another program has it open, so that it may be tried again.
    pub fn is_in_use(&self) -> bool
        ensures { IsTrue result ↔ (self.now.cause ≡ Some StoreCause.InUse) }
    {
        matches!(self.cause, Some(StoreCause::InUse))
    }
}

/// What a registry's own file is.
#[derive(Clone, Copy, Debug, PartialEq, Eq)]
pub enum FileKind {
    /// Nothing has its name.
    Missing,
    /// It is empty, or as a stop leaves one while it is made.
    Blank,
    /// Anything else: SQLite's crate says whether it is a database.
    Database,
}

// What is in the way, by what the two files of a registry are, and whether one is made if there is
// none.
fn obstacle_of(file: FileKind, log: LogKind, makes: bool) -> Option<StoreCause>
    ensures { result ≡ obstacle_of file log makes }
{
    match (file, log) {
        (FileKind::Missing, _) if !makes => Some(StoreCause::Missing),
        (_, LogKind::Other) => Some(StoreCause::OtherLog),
        (FileKind::Database, _) => None,
        (_, LogKind::Filled) => Some(StoreCause::LogAlone),
        (_, LogKind::Empty) if makes => None,
        (_, LogKind::Empty) => Some(StoreCause::Empty),
    }
}

// What a registry's own file is.
fn file_kind(rt: &HostRuntime, shared: SharedFiles) -> io::Result<FileKind> {
    let key = RandomState::new(rt)?.hash_one(&0u8);
    let mut files = disks_over(rt.alloc(), shared, key)?;
    match is_blank(rt.alloc(), &mut files) {
        Ok(true) => Ok(FileKind::Blank),
        Ok(false) => Ok(FileKind::Database),
        Err(Error::SqliteFailure(ErrorCode::OutOfMemory)) => {
            Err(io::Error::from(ErrorKind::OutOfMemory))
        }
        Err(_) => Err(io::Error::from(ErrorKind::Other)),
    }
}

// What the two files of a registry are. If there is none, its log would be beside its path.
fn kinds_at(rt: &HostRuntime, registry: &str) -> io::Result<(FileKind, LogKind)> {
    match fs::canonicalize(rt, registry) {
        Ok(real) => {
            let shared = shared_files(rt, real.as_str())?;
            let log = kind_of_log(&shared.log)?;
            Ok((file_kind(rt, shared)?, log))
        }
        Err(e) if e.kind() == ErrorKind::NotFound => {
            let log = log_of(rt, registry)?;
            Ok((FileKind::Missing, kind_of_log(&log)?))
        }
        Err(e) => Err(e),
    }
}

// What is in the way in the files of a registry, which are closed again.
fn cause_in(rt: &HostRuntime, registry: &str, makes: bool) -> io::Result<Option<StoreCause>> {
    if is_no_database(rt, registry) {
        return Ok(Some(StoreCause::NoDatabase));
    }
    let (file, log) = kinds_at(rt, registry)?;
    match obstacle_of(file, log, makes) {
        Some(StoreCause::Missing) => Ok(Some(cause_of_none(rt, registry))),
        cause => Ok(cause),
    }
}

// Why the files of a registry can't be looked at.
fn cause_of(rt: &HostRuntime, registry: &str, error: &io::Error) -> Option<StoreCause> {
    match error.kind() {
        ErrorKind::WouldBlock => Some(StoreCause::InUse),
        _ => store_cause(rt, registry),
    }
}

// What is in the way of a registry, which is made if there is none, or isn't.
fn obstacle_at(rt: &HostRuntime, registry: &str, makes: bool) -> Option<Obstacle> {
    match cause_in(rt, registry, makes) {
        Ok(cause) => Some(Obstacle {
            fault: StoreFault::Store,
            cause: Some(cause?),
        }),
        Err(e) => Some(Obstacle {
            cause: cause_of(rt, registry, &e),
            fault: file_fault(e),
        }),
    }
}

// Whether an opening finds a log, or something else of that name. Of a file that isn't there, none
// is looked for.
fn has_log(rt: &HostRuntime, registry: &str) -> io::Result<bool> {
    let real = fs::canonicalize(rt, registry)?;
    let log = format!(in rt.alloc(); "{}-wal", real.as_str())?;
    match fs::symlink_metadata(rt, log.as_str()) {
        Ok(_) => Ok(true),
        Err(e) if e.kind() == ErrorKind::NotFound => Ok(false),
        Err(e) => Err(e),
    }
}

// What an opening would say of a file that has no log, since that would make one first.
fn unlogged_obstacle(rt: &HostRuntime, registry: &str) -> Option<Obstacle> {
    if has_log(rt, registry).unwrap_or(true) {
        return None;
    }
    let fault = records_of(rt, registry).err()?;
    Some(Obstacle {
        fault,
        cause: store_cause(rt, registry),
    })
}

/// What is in the way of a registry that is to be opened, and made if there is none, or isn't: also
/// a database of another program. Of a file that has no log, it is what an opening would say.
pub fn obstacle_to_opening(rt: &HostRuntime, registry: &str, makes: bool) -> Option<Obstacle> {
    if let Some(found) = obstacle_at(rt, registry, makes) {
        return Some(found);
    }
    match foreign_fault(rt, registry) {
        Some(fault) => Some(Obstacle {
            fault,
            cause: Some(StoreCause::Foreign),
        }),
        None => unlogged_obstacle(rt, registry),
    }
}

/// What is in the way of a registry that is only to be read.
pub fn obstacle_to_reading(rt: &HostRuntime, registry: &str) -> Option<Obstacle> {
    obstacle_at(rt, registry, false)
}
