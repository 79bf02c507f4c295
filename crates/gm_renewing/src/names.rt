//! The names of the files that a renewal goes by. All lie in the folder of the registry.

use std::alloc::{AllocError, Global};
use std::fs;
use std::io::{self, ErrorKind};

/// The paths of a renewal.
#[derive(Drop)]
pub(crate) struct Names {
    /// The registry's own file, by no link.
    pub registry: String,
    /// The new registry while it is made.
    pub made: String,
    /// The copy of the old registry while it is made, and until the new one has its name.
    pub kept: String,
    /// The folder of all of them.
    pub folder: String,
}

// The path of the log that SQLite puts beside a database.
pub(crate) fn log_of(alloc: Global, database: &str) -> Result<String, AllocError> {
    format!(in alloc; "{database}-wal")
}

// The path of a registry's file: where its link leads, if it is one.
fn file_of(rt: &HostRuntime, registry: &str) -> io::Result<String> {
    if fs::symlink_metadata(rt, registry)?.is_symlink() {
        let real = fs::canonicalize(rt, registry)?;
        return Ok(String::from_str(rt.alloc(), real.as_str())?);
    }
    Ok(String::from_str(rt.alloc(), registry)?)
}

// The folder in which a file lies.
fn folder_of(path: &str) -> &str {
    match path.rsplit_once('/') {
        None => ".",
        Some(("", _)) => "/",
        Some((folder, _)) => folder,
    }
}

// Whether nothing has this path.
fn is_free(rt: &HostRuntime, path: &str) -> io::Result<bool> {
    match fs::symlink_metadata(rt, path) {
        Ok(_) => Ok(false),
        Err(e) if e.kind() == ErrorKind::NotFound => Ok(true),
        Err(e) => Err(e),
    }
}

impl Names {
    /// Those of the renewal of a registry, which is there.
    pub fn of(rt: &HostRuntime, registry: &str) -> io::Result<Names> {
        let alloc = rt.alloc();
        let registry = file_of(rt, registry)?;
        let path = registry.as_str();
        let made = format!(in alloc; "{path}.new")?;
        let kept = format!(in alloc; "{path}.kept")?;
        let folder = String::from_str(alloc, folder_of(path))?;
        Ok(Names {
            registry,
            made,
            kept,
            folder,
        })
    }

    /// Whether a renewal was stopped when the new registry had its name already, and the copy of
    /// the old one was still to get its own: then nothing else is left of it.
    pub fn is_nearly_done(&self, rt: &HostRuntime) -> io::Result<bool> {
        Ok(!is_free(rt, self.kept.as_str())? && is_free(rt, self.made.as_str())?)
    }

    /// The path that the old registry gets: the registry's own, a dot, and the first number from 1
    /// on that is free.
    pub fn free(&self, rt: &HostRuntime) -> io::Result<String> {
        for number in 1..=u32::MAX {
            let path = format!(in rt.alloc(); "{}.{number}", self.registry.as_str())?;
            if is_free(rt, path.as_str())? {
                return Ok(path);
            }
        }
        Err(io::Error::from(ErrorKind::AlreadyExists))
    }
}
