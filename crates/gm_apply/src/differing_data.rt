//! Counts by how many of their first sectors two providers differ, by runs.

ghost use Rattle.std.specs.Prelude.{◌≡◌, ◌≤◌, ◌<◌, ◌+◌, ◌^◌, ℕ, length};
ghost use Rattle.gm_shelf.specs.Disk.{sector_of};
ghost use Rattle.gm_apply.specs.Calls.{TellsDifference, TellsRun};
ghost use Rattle.gm_apply.specs.DifferingData.{IsDifference, IsWithin, count_differing};

use crate::copy::RUN;
use crate::equal_data::equal_first;
use crate::watch::Watch;
use gm_metadata::{Label, same};
use gm_shelf::{Shelf, ShelfFault};

/// How two providers differ within so many first sectors.
#[derive(Clone, Copy, Debug, PartialEq, Eq)]
pub struct Difference {
    /// How many of those sectors differ.
    pub sectors: u64,
    /// The first that does; if none does, how many were compared.
    pub first: u64,
}

// How many sectors of two runs differ, of which so many first ones are equal.
fn count_differing(a: &[[u8; 512]], b: &[[u8; 512]], equal: usize) -> u64
    requires lengths { length a.now ≡ length b.now }
    requires within { equal ≤ length a.now }
    requires equal { (k : ℕ) → k < equal → sector_of a.now k ≡ sector_of b.now k }
    ensures count { result ≡ count_differing (sector_of a.now) (sector_of b.now) (length a.now) }
    ensures within { result ≤ length a.now }
{
    let mut sectors = 0;
    for index in equal..a.len() {
        if !same(&a[index], &b[index]) {
            sectors += 1;
        }
    }
    sectors
}

// How two runs differ.
fn difference_of(a: &[[u8; 512]], b: &[[u8; 512]]) -> Difference
    requires lengths { length a.now ≡ length b.now }
    ensures told { IsDifference (sector_of a.now) (sector_of b.now) (length a.now) result }
    ensures within { IsWithin (length a.now) result }
{
    let equal = equal_first(a, b);
    Difference {
        sectors: count_differing(a, b, equal),
        first: equal as u64,
    }
}

// How a run of two providers differs, which is read into these.
fn compare_run<H: Shelf>(
    shelf: &mut H,
    source: Label,
    provider: Label,
    first: u64,
    wanted: &mut [[u8; 512]],
    held: &mut [[u8; 512]],
) -> Result<Difference, ShelfFault>
    requires lengths { length wanted.old ≡ length held.old }
    requires fits { first + length wanted.old < 2 ^ 64 }
    ensures { TellsRun H.Shelf shelf.old shelf.new result source provider first
        (length wanted.old) }
{
    shelf.read_run(source, first, wanted)?;
    shelf.read_run(provider, first, held)?;
    Ok(difference_of(wanted, held))
}

impl Difference {
    // How two providers differ, of which so many first sectors do so, and the run after those as
    // the other says.
    fn then(self, place: u64, run: Difference) -> Difference
        requires sectors { self.sectors + run.sectors < 2 ^ 64 }
        requires place { place + run.first < 2 ^ 64 }
        ensures sectors { result.sectors ≡ self.sectors + run.sectors }
        ensures before { self.first < place → result.first ≡ self.first }
        ensures behind { place ≤ self.first → result.first ≡ place + run.first }
    {
        Difference {
            sectors: self.sectors + run.sectors,
            first: if self.first < place {
                self.first
            } else {
                place + run.first
            },
        }
    }
}

/// By how many of so many first sectors two providers differ, and which is the first of those. The
/// watch is told of each run. The two buffers of a run are 128 KiB of the stack, taken while it
/// compares, and by no other function that this one might be made a part of.
#[inline(never)]
pub fn differing_sectors<H: Shelf, W: Watch>(
    shelf: &mut H,
    source: Label,
    provider: Label,
    sectors: u64,
    watch: &mut W,
) -> Result<Difference, ShelfFault>
    ensures { TellsDifference H.Shelf shelf.old shelf.new result source provider sectors }
{
    let mut wanted = [[0; 512]; RUN];
    let mut held = [[0; 512]; RUN];
    let mut found = Difference {
        sectors: 0,
        first: 0,
    };
    let mut place = 0;
    while place < sectors {
        let length = (sectors - place).min(RUN as u64);
        let wanted = &mut wanted[..length as usize];
        let held = &mut held[..length as usize];
        let run = compare_run(shelf, source, provider, place, wanted, held)?;
        found = found.then(place, run);
        place += length;
        watch.compared(provider, place, sectors);
    }
    Ok(found)
}
