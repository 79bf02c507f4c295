//! Whether two files hold no database yet.

ghost use Rattle.std.specs.Prelude.{◌≡◌, ◌↔◌, IsTrue, IfErr, IfOk};
ghost use Rattle.gm_opener.specs.Opened.{IsBlank};
ghost use Rattle.sqlite.specs.Files.{image_of};
ghost use Rattle.sqlite.specs.Opening.{is_open_error};
ghost use Rattle.sqlite_wal.specs.PageSize.{bytes_of};
ghost use Rattle.sqlite_wal.specs.Reads.{AreClean, OnlyReads};

use sqlite::{Error, ErrorCode, Files};
use sqlite_disk::Disk;
use sqlite_pager::PageSize;
use sqlite_pool::probe_blank;
use std::alloc::Global;

/// How many bytes a page has in a database that is made.
const PAGE_BYTES: usize = 2_048;

/// The length of a page in a database that is made.
pub(crate) fn page_size() -> PageSize
    ensures { bytes_of result ≡ 2048 }
{
    PageSize::new(PAGE_BYTES).unwrap()
}

/// Whether these files hold no database yet: they are empty, or as a stop leaves them while one is
/// made. Nothing is written.
pub fn is_blank<D: Disk>(alloc: Global, files: &mut Files<D>) -> Result<bool, Error>
    requires log { IsTrue (D.Disk.is_usable files.old.log) }
    requires db { IsTrue (D.Disk.is_usable files.old.db) }
    ensures blank { IfOk result (λ b. AreClean D.Disk files.new.log files.new.db
        → (IsTrue b ↔ IsBlank (image_of D.Disk files.old))) }
    ensures named { IfErr result (λ e. IsTrue (is_open_error e)) }
    ensures log { OnlyReads D.Disk files.old.log files.new.log }
    ensures db { OnlyReads D.Disk files.old.db files.new.db }
{
    match probe_blank(alloc, files, page_size(), false) {
        Ok(blank) => Ok(blank),
        Err(sqlite_pager::Error::OutOfMemory) => {
            Err(Error::SqliteFailure(ErrorCode::OutOfMemory))
        }
        Err(_) => Err(Error::SqliteFailure(ErrorCode::SystemIoFailure)),
    }
}
