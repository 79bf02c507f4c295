//! A database of another program under a registry's name, which is left as it is.

use crate::unopened::records_of;
use gm_registry::StoreFault;
use std::fs::{self, File};
use std::io::{self, Read};

// How many bytes of a file are looked at. A registry's first page, which lists its tables, is no
// longer.
const HEAD_BYTES: usize = 4096;

// Where the number of cells is in the first page, in bytes: big-endian.
const CELLS_AT: usize = 103;

// What the first page of a registry has.
const FIRST_TABLE: &[u8] = b"CREATE TABLE about(";

// Reads the first bytes of a regular file, and says how many there are.
fn head_of(rt: &HostRuntime, registry: &str, out: &mut [u8; HEAD_BYTES]) -> io::Result<usize> {
    if !fs::metadata(rt, registry)?.is_file() {
        return Ok(0);
    }
    File::open(rt, registry)?.read(out)
}

// Whether the first page of a database lists something, and not the tables of a registry.
fn lists_others(head: &[u8]) -> bool {
    let cells = head.get(CELLS_AT..CELLS_AT.saturating_add(2));
    let lists_any = cells.is_some_and(|cells| cells != [0, 0].as_slice());
    lists_any
        && !head
            .windows(FIRST_TABLE.len())
            .any(|found| found == FIRST_TABLE)
}

/// Why an opening of a registry would be refused that seems to be another program's database:
/// `Unreadable` or `Store`, as an opening says. `None` if it is a registry, or may become one.
/// Nothing is written, and nothing is put beside it.
pub(crate) fn foreign_fault(rt: &HostRuntime, registry: &str) -> Option<StoreFault> {
    let mut head = [0; HEAD_BYTES];
    let count = head_of(rt, registry, &mut head).ok()?;
    if !lists_others(head.get(..count)?) {
        return None;
    }
    records_of(rt, registry).err()
}
