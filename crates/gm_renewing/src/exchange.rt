//! The files of a renewal: how the new registry gets the old one's name. At every moment a whole
//! registry has it, the old one or the new one, also after the machine stopped.

use crate::names::{Names, log_of};
use gm_registry_files::is_no_database;
use std::fs::{self, File, OpenOptions, Permissions};
use std::io::{self, ErrorKind};
use std::os::unix::fs::{MetadataExt, OpenOptionsExt, PermissionsExt, fchown};

// Waits until the names in a folder are on its disk.
fn sync_folder(rt: &HostRuntime, folder: &str) -> io::Result<()> {
    File::open(rt, folder)?.sync_all()
}

// Removes a file, if it is there.
fn remove(rt: &HostRuntime, path: &str) -> io::Result<()> {
    match fs::remove_file(rt, path) {
        Err(e) if e.kind() == ErrorKind::NotFound => Ok(()),
        done => done,
    }
}

// Removes the log of a registry that is closed: its file alone holds everything.
fn remove_log(rt: &HostRuntime, database: &str) -> io::Result<()> {
    remove(rt, log_of(rt.alloc(), database)?.as_str())
}

// Takes it that the user may not, as if that weren't asked for.
fn unless_denied(done: io::Result<()>) -> io::Result<()> {
    match done {
        Err(e) if e.kind() == ErrorKind::PermissionDenied => Ok(()),
        done => done,
    }
}

// Gives a file the mode of another one, and its owner and group if this user may.
fn give_access(from: &File, to: &File) -> io::Result<()> {
    let found = from.metadata()?;
    unless_denied(fchown(to, None, Some(found.gid())))?;
    unless_denied(fchown(to, Some(found.uid()), None))?;
    to.set_permissions(Permissions::from_mode(found.mode() & 0o777))
}

// Copies a file to a path that is free, with its mode and owner, and waits until the copy is on its
// disk.
fn copy(rt: &HostRuntime, from: &str, to: &str) -> io::Result<()> {
    let mut source = File::open(rt, from)?;
    let mut target = OpenOptions::new()
        .write(true)
        .create_new(true)
        .mode(0o600)
        .open(rt, to)?;
    io::copy(&mut source, &mut target)?;
    give_access(&source, &target)?;
    target.sync_all()
}

// Gives the new registry the old one's mode and owner.
fn like_the_old(rt: &HostRuntime, names: &Names) -> io::Result<()> {
    let old = File::open(rt, names.registry.as_str())?;
    let new = File::open(rt, names.made.as_str())?;
    give_access(&old, &new)?;
    new.sync_all()
}

// Whether a renewal may have left what is there: a database, or the beginning of one.
fn is_left(rt: &HostRuntime, path: &str) -> io::Result<bool> {
    Ok(fs::symlink_metadata(rt, path)?.is_file() && !is_no_database(rt, path))
}

// Removes what a renewal that stopped left under a name of its own; `AlreadyExists` if something
// else has that name, which is left.
fn clear(rt: &HostRuntime, path: &str) -> io::Result<()> {
    match is_left(rt, path) {
        Ok(true) => remove(rt, path),
        Ok(false) => Err(io::Error::from(ErrorKind::AlreadyExists)),
        Err(e) if e.kind() == ErrorKind::NotFound => Ok(()),
        Err(e) => Err(e),
    }
}

/// Removes what a renewal left that stopped before the new registry had its name. The copy of the
/// old one goes first: without the new one it says that this has its name. `AlreadyExists` if
/// something else has one of these names.
pub(crate) fn clear_left(rt: &HostRuntime, names: &Names) -> io::Result<()> {
    clear(rt, names.kept.as_str())?;
    sync_folder(rt, names.folder.as_str())?;
    remove_log(rt, names.made.as_str())?;
    clear(rt, names.made.as_str())
}

// Gives the copy of the old registry its name, once the new one has its own, and says which.
fn name_kept(rt: &HostRuntime, names: &Names) -> io::Result<String> {
    let path = names.free(rt)?;
    fs::rename(rt, names.kept.as_str(), path.as_str())?;
    sync_folder(rt, names.folder.as_str())?;
    Ok(path)
}

/// Finishes a renewal that was stopped when the new registry had its name already, and says at
/// which path the old one is kept. None if there is no such renewal. `AlreadyExists` if something
/// else has the name of that copy.
pub(crate) fn name_left(rt: &HostRuntime, names: &Names) -> io::Result<Option<String>> {
    if !names.is_nearly_done(rt)? {
        return Ok(None);
    }
    if !is_left(rt, names.kept.as_str())? {
        return Err(io::Error::from(ErrorKind::AlreadyExists));
    }
    Ok(Some(name_kept(rt, names)?))
}

/// Removes the new registry and the copy of the old one, if the new one didn't get its name. What
/// can't be removed is left to the next renewal.
pub(crate) fn drop_unused(rt: &HostRuntime, names: &Names) {
    if let Ok(false) = names.is_nearly_done(rt) {
        let _ = clear_left(rt, names);
    }
}

/// Puts the new registry in the place of the old one, of which a copy stays, and says under which
/// path. Both are closed, and nobody else has them open meanwhile.
pub(crate) fn exchange(rt: &HostRuntime, names: &Names) -> io::Result<String> {
    remove_log(rt, names.registry.as_str())?;
    remove_log(rt, names.made.as_str())?;
    like_the_old(rt, names)?;
    copy(rt, names.registry.as_str(), names.kept.as_str())?;
    sync_folder(rt, names.folder.as_str())?;
    fs::rename(rt, names.made.as_str(), names.registry.as_str())?;
    sync_folder(rt, names.folder.as_str())?;
    name_kept(rt, names)
}
