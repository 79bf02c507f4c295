//! A registry that is read without an opening: its files are opened for reading alone, and whatever
//! SQLite writes stays in memory, so that no file is written, not even SQLite's log.

ghost use Rattle.std.specs.Prelude.{◌≡◌, ◌≢◌, IsTrue, IfOk, IfErr};
ghost use Rattle.gm_state.specs.Rows.{Tables};
ghost use Rattle.gm_registry.specs.Registry.{DiskKept, HasTables};
ghost use Rattle.gm_registry_files.specs.Wholes.{IsTold};

use crate::registry_files::file_fault;
use crate::shared::{disks_over, has_journal, shared_files};
use gm_opener::open_files;
use gm_overlay::OverlayDisk;
use gm_pending::stopped_in;
use gm_registry::{Loaded, Registry, StoreFault};
use gm_stopped::Stopped;
use sqlite::{Alter, Connection, Files, Options};
use sqlite_disk::Disk;
use std::alloc::Global;
use std::fs;
use std::hash::{BuildHasher, RandomState};
use std::io::{self, ErrorKind};

// The two files of a registry, which stay open and locked as long as these are there. They fail if
// there is a journal that holds anything: the registry is as it stands only once that is rolled
// back.
pub(crate) fn files_of(rt: &HostRuntime, registry: &str, key: u64) -> io::Result<Files<OverlayDisk>>
    ensures log { IfOk result (λ files. IsTrue (⟦<OverlayDisk as Disk>⟧.is_usable files.log)) }
    ensures db { IfOk result (λ files. IsTrue (⟦<OverlayDisk as Disk>⟧.is_usable files.db)) }
{
    let real = fs::canonicalize(rt, registry)?;
    let shared = shared_files(rt, real.as_str())?;
    if has_journal(rt, real.as_str())? {
        return Err(io::Error::from(ErrorKind::Unsupported));
    }
    disks_over(rt.alloc(), shared, key)
}

/// What a registry holds, how many commands it has accepted, and of which its writes are pending,
/// if any are.
#[derive(Drop)]
pub struct Whole {
    pub loaded: Loaded,
    pub accepted: u64,
    pub stopped: Stopped,
}

// What the calls of a registry tell of it.
#[derive(Drop)]
struct Told {
    loaded: Loaded,
    accepted: u64,
}

// Reads what the calls of a registry tell of it.
fn read_told<S: Alter>(alloc: Global, registry: &mut Registry<S>) -> Result<Told, StoreFault>
    ensures { DiskKept S.Store registry.new → IfOk result (λ told. (t : Tables)
        → HasTables S.Store registry.old t → IsTold t told) }
{
    let loaded = registry.load(alloc)?;
    let accepted = registry.accepted()?;
    Ok(Told { loaded, accepted })
}

// Reads which command's writes are pending beside that.
fn with_stopped<S: Alter>(
    alloc: Global,
    store: &mut Connection<S>,
    told: Result<Told, StoreFault>,
) -> Result<Whole, StoreFault> {
    let Told { loaded, accepted } = told?;
    let stopped = stopped_in(alloc, store, &loaded.state, &loaded.intents)?;
    Ok(Whole {
        loaded,
        accepted,
        stopped,
    })
}

// Reads all of a registry in a store, which is given back: to drop a whole one is dear to prove.
fn read_store<S: Alter>(
    alloc: Global,
    store: Connection<S>,
) -> (Result<Whole, StoreFault>, Connection<S>) {
    if !store.is_autocommit() {
        return (Err(StoreFault::Store), store);
    }
    match Registry::open(store) {
        Ok(mut registry) => {
            let told = read_told(alloc, &mut registry);
            let mut store = registry.close();
            (with_stopped(alloc, &mut store, told), store)
        }
        Err(e) => (Err(e.fault), e.store),
    }
}

// The same of a registry in two files. They are given back.
fn read_files<D: Disk + Drop>(
    alloc: Global,
    files: Files<D>,
    options: Options,
) -> (Result<Whole, StoreFault>, Files<D>)
    requires log { IsTrue (D.Disk.is_usable files.log) }
    requires db { IsTrue (D.Disk.is_usable files.db) }
{
    match open_files(alloc, files, options) {
        Ok(store) => {
            let (whole, store) = read_store(alloc, store);
            (whole, store.into_store().close())
        }
        Err((error, left)) => (Err(StoreFault::from(error)), left.into_files()),
    }
}

/// What a registry holds as it stands. `Store` if there is no such file, if another program has it
/// open, or if its journal holds anything; `Unreadable` if an opening would say so.
pub fn records_of(rt: &HostRuntime, registry: &str) -> Result<Whole, StoreFault> {
    let random = RandomState::new(rt).map_err(file_fault)?;
    let files = files_of(rt, registry, random.hash_one(&0u8)).map_err(file_fault)?;
    let options = Options::new(random.hash_one(&1u8));
    let (whole, files) = read_files(rt.alloc(), files, options);
    match whole {
        // The files find no room only if memory was refused.
        Err(_) if files.tally().refused != 0 => Err(StoreFault::Memory),
        whole => whole,
    }
}
