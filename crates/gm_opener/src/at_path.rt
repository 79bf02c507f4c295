//! The database of the two files at a path.

ghost use Rattle.std.specs.Prelude.{◌≡◌, ◌⊎◌, true, false, None, IsTrue, IfErr, IfOk, IfSome};
ghost use Rattle.gm_opener.specs.Opened.{IsReady, IsUnopened, Leaves, TakesIn};
ghost use Rattle.sqlite.specs.Files.{file_state, IsCleanLeft};
ghost use Rattle.sqlite.specs.Opening.{is_open_error};
ghost use Rattle.sqlite.specs.State.{HasCleanDisk};
ghost use Rattle.sqlite_std_file.specs.File.{file_is_usable, IsFresh};
ghost use Rattle.sqlite_wal.specs.Files.{image_at};

use crate::opened::open_files;
use sqlite::{Connection, Error, ErrorCode, FileStore, Files, Leftover, Options};
use sqlite_disk::Start;
use sqlite_std_file::{FileFrom, OpenError as PathError};
use std::hash::{BuildHasher, RandomState};
use std::io::ErrorKind;

const CANNOT_OPEN: Error = Error::SqliteFailure(ErrorCode::CannotOpen);

const NO_MEMORY: Error = Error::SqliteFailure(ErrorCode::OutOfMemory);

// The two files at a path, which are locked as long as these are there. SQLite takes two kinds of
// names for no path.
fn files_at<S: Start>(rt: &HostRuntime, path: &str, start: S) -> Result<Files<FileFrom<S>>, Error>
    ensures log { IfOk result (λ files. IsTrue (file_is_usable S.Start files.log)) }
    ensures db { IfOk result (λ files. IsTrue (file_is_usable S.Start files.db)) }
    ensures fresh { IfOk result (λ files. IsFresh true files.log × IsFresh false files.db) }
    ensures unopened { IfErr result IsUnopened }
{
    if path == ":memory:" || path.starts_with("file:") {
        return Err(CANNOT_OPEN);
    }
    match sqlite_std_file::open(rt, path, start) {
        Ok(files) => Ok(files),
        Err(PathError::Busy) => Err(Error::SqliteFailure(ErrorCode::DatabaseBusy)),
        Err(PathError::OutOfMemory) => Err(NO_MEMORY),
        Err(PathError::Io(error)) if error.kind() == ErrorKind::OutOfMemory => Err(NO_MEMORY),
        Err(_) => Err(CANNOT_OPEN),
    }
}

// Settings with a seed of their own.
fn options(rt: &HostRuntime) -> Result<Options, Error>
    ensures { IfErr result IsUnopened }
{
    let random = RandomState::new(rt).map_err(|_| CANNOT_OPEN)?;
    Ok(Options::new(random.hash_one(&0u8)))
}

/// Opens the database at a path, or makes it, where `S` says what the files hold. `DatabaseBusy` if
/// another program has it open, `DiskFull` if there is no room for it. An error comes with what is
/// left of the files, if they were opened.
pub fn open_store<S: Start>(
    rt: &HostRuntime,
    path: &str,
    start: S,
) -> Result<Connection<FileStore<FileFrom<S>>>, (Error, Option<Leftover<FileFrom<S>>>)>
    ensures ready { IfOk result IsReady }
    ensures found { IfOk result (λ c. HasCleanDisk (file_state c)
        → TakesIn (image_at S.Start) (file_state c)) }
    ensures named { IfErr result (λ e. IsTrue (is_open_error e.0)) }
    ensures unopened { IfErr result (λ e. e.1 ≡ None → IsUnopened e.0) }
    ensures unharmed { IfErr result (λ e. IfSome e.1 (λ left.
        (files : _) × IsFresh true files.log × IsFresh false files.db
        × (IsCleanLeft left → Leaves files left))) }
{
    let options = match options(rt) {
        Ok(options) => options,
        Err(error) => return Err((error, None)),
    };
    let files = match files_at(rt, path, start) {
        Ok(files) => files,
        Err(error) => return Err((error, None)),
    };
    match open_files(rt.alloc(), files, options) {
        Ok(store) => Ok(store),
        Err((error, left)) => Err((error, Some(left))),
    }
}
