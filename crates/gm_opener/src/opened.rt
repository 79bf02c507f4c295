//! The database of two files, opened, or made if they hold none.

ghost use Rattle.std.specs.Prelude.{IsTrue, IfErr, IfOk};
ghost use Rattle.gm_opener.specs.Opened.{IsReady, Leaves, Takes};
ghost use Rattle.sqlite.specs.Files.{file_state, IsCleanLeft};
ghost use Rattle.sqlite.specs.Opening.{is_open_error};
ghost use Rattle.sqlite.specs.State.{HasCleanDisk};

use crate::blank::is_blank;
use crate::making::make;
use sqlite::{Connection, Error, FileStore, Files, Leftover, Options};
use sqlite_disk::Disk;
use std::alloc::Global;

/// Opens the database that these files hold, or makes one without a table if they hold none. An
/// error comes with what is left of the files.
pub fn open_files<D: Disk + Drop>(
    alloc: Global,
    mut files: Files<D>,
    options: Options,
) -> Result<Connection<FileStore<D>>, (Error, Leftover<D>)>
    requires log { IsTrue (D.Disk.is_usable files.log) }
    requires db { IsTrue (D.Disk.is_usable files.db) }
    ensures ready { IfOk result IsReady }
    ensures found { IfOk result (λ c. HasCleanDisk (file_state c) → Takes files c) }
    ensures named { IfErr result (λ e. IsTrue (is_open_error e.0)) }
    ensures unharmed { IfErr result (λ e. IsCleanLeft e.1 → Leaves files e.1) }
{
    match is_blank(alloc, &mut files) {
        Ok(true) => make(alloc, files, options),
        Ok(false) => Connection::open_files(alloc, files, options),
        Err(error) => Err((error, Leftover::Files(files))),
    }
}
