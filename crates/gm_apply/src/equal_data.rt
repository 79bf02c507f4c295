//! Compares the first sectors of two providers, by runs.

ghost use Rattle.std.specs.Prelude.{◌≡◌, ◌≢◌, ◌≤◌, ◌<◌, ◌+◌, ◌^◌, ℕ, length};
ghost use Rattle.gm_shelf.specs.Disk.{sector_of};
ghost use Rattle.gm_apply.specs.Calls.{CountsFirst, CountsReach, CountsRun};
ghost use Rattle.gm_apply.specs.EqualData.{reach_of};

use crate::copy::RUN;
use crate::watch::Watch;
use gm_metadata::{Label, same};
use gm_shelf::{Shelf, ShelfFault};

/// How many first sectors of two runs are equal.
pub(crate) fn equal_first(a: &[[u8; 512]], b: &[[u8; 512]]) -> usize
    requires lengths { length a.now ≡ length b.now }
    ensures within { result ≤ length a.now }
    ensures equal { (k : ℕ) → k < result → sector_of a.now k ≡ sector_of b.now k }
    ensures differs { result < length a.now → sector_of a.now result ≢ sector_of b.now result }
{
    for index in 0..a.len() {
        if !same(&a[index], &b[index]) {
            return index;
        }
    }
    a.len()
}

// How many first sectors of a run are equal. Its two buffers are 128 KiB of the stack: those are
// taken while it compares, and by no other function that this one might be made a part of.
#[inline(never)]
fn compare_run<H: Shelf>(
    shelf: &mut H,
    source: Label,
    provider: Label,
    first: u64,
    sectors: usize,
) -> Result<usize, ShelfFault>
    requires one_run { sectors ≤ 128 }
    requires fits { first + sectors < 2 ^ 64 }
    ensures { CountsRun H.Shelf shelf.old shelf.new result source provider first sectors }
{
    let mut wanted = [[0; 512]; RUN];
    let mut held = [[0; 512]; RUN];
    let wanted = &mut wanted[..sectors];
    let held = &mut held[..sectors];
    shelf.read_run(source, first, wanted)?;
    shelf.read_run(provider, first, held)?;
    Ok(equal_first(wanted, held))
}

// How many of so many first sectors are equal, run by run up to the first one that differs. The
// watch is told of each run.
fn compare_runs<H: Shelf, W: Watch>(
    shelf: &mut H,
    source: Label,
    provider: Label,
    reach: u64,
    watch: &mut W,
) -> Result<u64, ShelfFault>
    ensures { CountsFirst H.Shelf shelf.old shelf.new result source provider reach }
{
    let mut place = 0;
    while place < reach {
        let sectors = (reach - place).min(RUN as u64);
        let equal = compare_run(shelf, source, provider, place, sectors as usize)? as u64;
        if equal < sectors {
            return Ok(place + equal);
        }
        place += sectors;
        watch.compared(provider, place, reach);
    }
    Ok(place)
}

// How far two providers are compared.
fn reach_of<H: Shelf>(shelf: &H, source: Label, provider: Label, limit: u64) -> u64
    ensures { result ≡ reach_of (H.size shelf.now) source provider limit }
{
    let source = shelf.sectors(source).unwrap_or(0);
    let provider = shelf.sectors(provider).unwrap_or(0);
    limit.min(source.min(provider))
}

/// How many first sectors of two providers are equal, counted up to a limit and to the ends of
/// both. A provider that isn't there has none. One that is compared with itself isn't read. The
/// watch is told of each run.
pub fn equal_sectors<H: Shelf, W: Watch>(
    shelf: &mut H,
    source: Label,
    provider: Label,
    limit: u64,
    watch: &mut W,
) -> Result<u64, ShelfFault>
    ensures { CountsReach H.Shelf shelf.old shelf.new result source provider limit }
{
    let reach = reach_of(shelf, source, provider, limit);
    if provider == source {
        return Ok(reach);
    }
    compare_runs(shelf, source, provider, reach, watch)
}
