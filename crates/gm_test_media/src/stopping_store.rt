//! A store of two files on disks in memory that stop.

ghost use Rattle.std.specs.Prelude.{◌≡◌, IfOk};
ghost use Rattle.sqlite_disk.specs.Fuse.{inner_of, calls_left};
ghost use Rattle.sqlite_disk.specs.Memory.{memory_bytes};

use sqlite::{Connection, Files, MemStore};
use sqlite_disk::{Crash, Disk, Fuse, Memory};
use std::alloc::Global;
use std::test::Fail;

/// What the two files of a store hold.
#[derive(Drop)]
pub struct StoreBytes {
    pub log: Vec<u8>,
    pub db: Vec<u8>,
}

/// How many calls each file serves before it stops.
#[derive(Clone, Copy)]
pub struct Calls {
    pub log: u64,
    pub db: u64,
}

/// No file stops.
pub const ALL: Calls = Calls {
    log: u64::MAX,
    db: u64::MAX,
};

// A disk with these bytes that serves so many calls.
fn disk(alloc: Global, bytes: &[u8], calls: u64) -> Result<Fuse<Memory>, Fail>
    ensures { IfOk result (λ d. calls_left d ≡ calls) }
{
    let mut disk = Memory::new(alloc);
    disk.write_at(0, bytes)?;
    if !disk.may_be_used() {
        return Err("a sync failed")?;
    }
    disk.sync()?;
    Ok(Fuse::new(disk, calls))
}

impl StoreBytes {
    /// Two empty files.
    pub fn new(alloc: Global) -> StoreBytes {
        StoreBytes {
            log: Vec::new(alloc),
            db: Vec::new(alloc),
        }
    }

    /// What files hold now.
    pub fn of(alloc: Global, files: &Files<Fuse<Memory>>) -> Result<StoreBytes, Fail>
        ensures log { IfOk result (λ b. b.log.items ≡ memory_bytes (inner_of files.now.log)) }
        ensures db { IfOk result (λ b. b.db.items ≡ memory_bytes (inner_of files.now.db)) }
    {
        Ok(StoreBytes {
            log: files.log.inner().bytes().to_vec(alloc)?,
            db: files.db.inner().bytes().to_vec(alloc)?,
        })
    }

    /// Files with these bytes, of which each serves so many calls.
    pub fn files(&self, alloc: Global, calls: Calls) -> Result<Files<Fuse<Memory>>, Fail>
        ensures log { IfOk result (λ f. calls_left f.log ≡ calls.log) }
        ensures db { IfOk result (λ f. calls_left f.db ≡ calls.db) }
    {
        Ok(Files {
            log: disk(alloc, self.log.as_slice(), calls.log)?,
            db: disk(alloc, self.db.as_slice(), calls.db)?,
        })
    }
}

/// A store in memory that doesn't stop.
pub fn memory(alloc: Global) -> Result<Connection<MemStore>, Fail> {
    Ok(Connection::open_in_memory(alloc)?)
}
