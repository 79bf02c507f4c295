//! A database without a table, made in files that hold none.

ghost use Rattle.std.specs.Prelude.{◌≡◌, [], IsTrue, IfErr, IfOk};
ghost use Rattle.gm_opener.specs.Opened.{IsBlank, IsMade, IsMadeIn, IsReady, Leaves};
ghost use Rattle.sqlite.specs.Files.{file_state, image_of, IsCleanLeft};
ghost use Rattle.sqlite.specs.Opening.{is_open_error};
ghost use Rattle.sqlite.specs.State.{HasCleanDisk};
ghost use Rattle.sqlite_store.specs.FileStore.{view};
ghost use Rattle.sqlite_store.specs.Unopened.{files_of, state_of, wanted_by, AreUsable, Creates};
ghost use Rattle.sqlite_wal.specs.Reads.{AreClean};

use crate::blank::page_size;
use sqlite::{Connection, Error, ErrorCode, FileStore, Files, Leftover, Options};
use sqlite_disk::Disk;
use sqlite_pager::Pager;
use sqlite_store::{OpenError, Unopened};
use std::alloc::{AllocFailed, Global};

// Why a database wasn't made in these files.
fn making_error(error: OpenError, is_full: bool) -> Error
    ensures { IsTrue (is_open_error result) }
{
    Error::SqliteFailure(match error {
        OpenError::OutOfMemory => ErrorCode::OutOfMemory,
        OpenError::Io if is_full => ErrorCode::DiskFull,
        OpenError::Io => ErrorCode::SystemIoFailure,
        OpenError::Full => ErrorCode::DiskFull,
        OpenError::Refused => ErrorCode::DatabaseCorrupt,
    })
}

// The files, of which nothing was read yet, for a database without a table.
fn unopened<D: Disk>(
    alloc: Global,
    files: Files<D>,
    options: Options,
) -> Result<Unopened<D>, Files<D>>
    ensures files { IfOk result (λ it. files_of it ≡ (files.log, files.db)) }
    ensures size { IfOk result (λ it. (state_of it).page_size ≡ 2048) }
    ensures none { IfOk result (λ it. wanted_by it ≡ []) }
    ensures back { IfErr result (λ left. (left.log ≡ files.log) × (left.db ≡ files.db)) }
{
    let pager = match Pager::new(alloc, files, page_size(), options) {
        Ok(pager) => pager,
        Err(AllocFailed { value }) => return Err(value),
    };
    match Unopened::new(alloc, pager, &[]) {
        Ok(unopened) => Ok(unopened),
        Err(AllocFailed { value }) => Err(value.close()),
    }
}

// Writes the first page.
fn create<D: Disk>(files: Unopened<D>) -> Result<FileStore<D>, (Error, Unopened<D>)>
    requires usable { AreUsable files }
    requires none { wanted_by files ≡ [] }
    ensures made { IfOk result (λ store. IsTrue (view store).is_clean → IsMade store) }
    ensures clean { IfOk result (λ store. IsTrue (view store).is_clean
        → IsTrue (state_of files).is_clean) }
    ensures named { IfErr result (λ e. IsTrue (is_open_error e.0)) }
    ensures left { IfErr result (λ e. IsTrue (state_of e.1).is_clean
        → IsTrue (state_of files).is_clean) }
    ensures kept { IfErr result (λ e. IsTrue (state_of e.1).is_clean
        → Creates files (state_of e.1)) }
{
    match files.create() {
        Ok(store) => Ok(store),
        Err((error, left)) => {
            let is_full = left.tally().refused != 0;
            Err((making_error(error, is_full), left))
        }
    }
}

// The store of a database that is made in these files.
fn make_store<D: Disk>(
    alloc: Global,
    files: Files<D>,
    options: Options,
) -> Result<FileStore<D>, (Error, Leftover<D>)>
    requires log { IsTrue (D.Disk.is_usable files.log) }
    requires db { IsTrue (D.Disk.is_usable files.db) }
    requires blank { AreClean D.Disk files.log files.db → IsBlank (image_of D.Disk files) }
    ensures made { IfOk result (λ store. IsTrue (view store).is_clean → IsMade store) }
    ensures clean { IfOk result (λ store. IsTrue (view store).is_clean
        → AreClean D.Disk files.log files.db) }
    ensures named { IfErr result (λ e. IsTrue (is_open_error e.0)) }
    ensures unharmed { IfErr result (λ e. IsCleanLeft e.1 → Leaves files e.1) }
{
    match unopened(alloc, files, options) {
        Ok(unopened) => match create(unopened) {
            Ok(store) => Ok(store),
            Err((error, left)) => Err((error, Leftover::Unopened(left))),
        },
        Err(files) => {
            let error = Error::SqliteFailure(ErrorCode::OutOfMemory);
            Err((error, Leftover::Files(files)))
        }
    }
}

/// Makes a database without a table in files that hold none, and opens it.
pub(crate) fn make<D: Disk + Drop>(
    alloc: Global,
    files: Files<D>,
    options: Options,
) -> Result<Connection<FileStore<D>>, (Error, Leftover<D>)>
    requires log { IsTrue (D.Disk.is_usable files.log) }
    requires db { IsTrue (D.Disk.is_usable files.db) }
    requires blank { AreClean D.Disk files.log files.db → IsBlank (image_of D.Disk files) }
    ensures ready { IfOk result IsReady }
    ensures made { IfOk result (λ c. HasCleanDisk (file_state c) → IsMadeIn files c) }
    ensures named { IfErr result (λ e. IsTrue (is_open_error e.0)) }
    ensures unharmed { IfErr result (λ e. IsCleanLeft e.1 → Leaves files e.1) }
{
    let store = make_store(alloc, files, options)?;
    match Connection::over(alloc, store) {
        Ok(store) => Ok(store),
        Err((error, store)) => Err((error, Leftover::Store(store))),
    }
}
