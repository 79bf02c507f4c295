//! Looks for the first data of an image, by runs.

ghost use Rattle.std.specs.Prelude.{◌≡◌, ◌≤◌, ◌<◌, ◌+◌, Some, length, IfOk, IfSome, IsSomeAnd};
ghost use Rattle.gm_shelf.specs.Disk.{sector_of};
ghost use Rattle.gm_shelf.specs.Keeping.{Looks};
ghost use Rattle.gm_apply.specs.DifferingData.{sectors_from};
ghost use Rattle.gm_losses.specs.FreeImages.{TellsFirst};

use gm_apply::Watch;
use gm_metadata::{Label, same};
use gm_shelf::{Shelf, ShelfFault};

// How many sectors are read at once.
const RUN: usize = 128;

// Which sector of a run is the first that isn't all zeros.
fn first_in(run: &[[u8; 512]]) -> Option<u64>
    ensures { TellsFirst (sector_of run.now) (length run.now) result }
{
    for index in 0..run.len() {
        if !same(&run[index], &[0; 512]) {
            return Some(index as u64);
        }
    }
    None
}

// The same of a run of an image that is read into these, counted from its first sector.
fn first_in_run<H: Shelf>(
    shelf: &mut H,
    provider: Label,
    first: u64,
    run: &mut [[u8; 512]],
) -> Result<Option<u64>, ShelfFault>
    requires there { IsSomeAnd (H.size shelf.old provider) (λ n. first + length run.old ≤ n) }
    ensures told { H.honest shelf.old → IfOk result (TellsFirst
        (sectors_from (H.view shelf.old).seen provider first) (length run.old)) }
    ensures within { IfOk result (λ found. IfSome found (λ n. n < length run.old)) }
    ensures looks { Looks H.Shelf shelf.old shelf.new result }
{
    shelf.read_run(provider, first, run)?;
    Ok(first_in(run))
}

/// The first of an image's so many sectors that isn't all zeros. The watch is told of each run of
/// zeros. `Device` if a sector can't be read. The buffer of a run is 64 KiB of the stack, taken
/// while it reads, and by no other function that this one might be made a part of.
#[inline(never)]
pub(crate) fn first_data<H: Shelf, W: Watch>(
    shelf: &mut H,
    provider: Label,
    sectors: u64,
    watch: &mut W,
) -> Result<Option<u64>, ShelfFault>
    requires size { H.size shelf.old provider ≡ Some sectors }
    ensures told { H.honest shelf.old →
        IfOk result (TellsFirst ((H.view shelf.old).seen provider) sectors) }
    ensures looks { Looks H.Shelf shelf.old shelf.new result }
{
    let mut run = [[0; 512]; RUN];
    let mut place = 0;
    while place < sectors {
        let length = (sectors - place).min(RUN as u64);
        let run = &mut run[..length as usize];
        if let Some(found) = first_in_run(shelf, provider, place, run)? {
            return Ok(Some(place + found));
        }
        place += length;
        watch.compared(provider, place, sectors);
    }
    Ok(None)
}
