//! The commands that a registry has accepted, told without an opening: its files are opened for
//! reading alone, as for any look, and no file is written.

ghost use Rattle.std.specs.Prelude.{◌≡◌, IsTrue};

use crate::registry_files::file_fault;
use crate::unopened::files_of;
use gm_command_line::Recalling;
use gm_history::{HistoryFault, tell_history};
use gm_opener::open_files;
use gm_registry::{Registry, StoreFault};
use sqlite::{Alter, Connection, Files, Options};
use sqlite_disk::Disk;
use std::alloc::Global;
use std::hash::{BuildHasher, RandomState};
use std::io::Write;

/// Why accepted commands aren't told.
#[derive(Clone, Copy, Debug)]
pub enum Untold {
    /// The registry's files couldn't be taken: nothing was written yet.
    Closed(StoreFault),
    /// It, or the output, failed.
    Failed(HistoryFault),
}

// How many commands a registry accepted; no more than may be.
fn accepted_in<S: Alter>(registry: &mut Registry<S>) -> Result<u32, StoreFault> {
    let accepted = registry.accepted()?;
    u32::try_from(accepted).map_err(|_| StoreFault::Unreadable)
}

// Tells what is asked for of the commands in a store, which is given back: to drop a whole one is
// dear to prove.
fn tell_store<S: Alter, O: Write>(
    alloc: Global,
    store: Connection<S>,
    asked: &Recalling,
    output: &mut O,
) -> (Result<bool, HistoryFault>, Connection<S>) {
    if !store.is_autocommit() {
        return (Err(HistoryFault::Store(StoreFault::Store)), store);
    }
    match Registry::open(store) {
        Ok(mut registry) => {
            let accepted = accepted_in(&mut registry);
            let mut store = registry.close();
            match accepted {
                Ok(accepted) => {
                    let told = tell_history(alloc, &mut store, accepted, asked, output);
                    (told, store)
                }
                Err(fault) => (Err(HistoryFault::Store(fault)), store),
            }
        }
        Err(e) => (Err(HistoryFault::Store(e.fault)), e.store),
    }
}

// The same of a registry in two files. They are given back.
fn tell_files<D: Disk + Drop, O: Write>(
    alloc: Global,
    files: Files<D>,
    options: Options,
    asked: &Recalling,
    output: &mut O,
) -> (Result<bool, HistoryFault>, Files<D>)
    requires log { IsTrue (D.Disk.is_usable files.log) }
    requires db { IsTrue (D.Disk.is_usable files.db) }
{
    match open_files(alloc, files, options) {
        Ok(store) => {
            let (told, store) = tell_store(alloc, store, asked, output);
            (told, store.into_store().close())
        }
        Err((error, left)) => {
            let fault = HistoryFault::Store(StoreFault::from(error));
            (Err(fault), left.into_files())
        }
    }
}

/// Writes what is asked for of the commands that a registry accepted, as it stands, and answers
/// whether any is told. `Closed` as `records_of` fails if there is no such file, if another program
/// has it open, or if its journal holds anything.
pub fn tell_commands<O: Write>(
    rt: &HostRuntime,
    registry: &str,
    asked: &Recalling,
    output: &mut O,
) -> Result<bool, Untold> {
    let random = RandomState::new(rt).map_err(|e| Untold::Closed(file_fault(e)))?;
    let files = files_of(rt, registry, random.hash_one(&0u8)).map_err(|e| Untold::Closed(file_fault(
        e,
    )))?;
    let options = Options::new(random.hash_one(&1u8));
    let (told, files) = tell_files(rt.alloc(), files, options, asked, output);
    match told {
        Ok(told) => Ok(told),
        // The files find no room only if memory was refused.
        Err(HistoryFault::Store(_)) if files.tally().refused != 0 => {
            Err(Untold::Failed(HistoryFault::Store(StoreFault::Memory)))
        }
        Err(fault) => Err(Untold::Failed(fault)),
    }
}
