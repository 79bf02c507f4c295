//! Copies sectors of one provider to another, by runs.

ghost use Rattle.std.specs.Prelude.{◌≡◌, ◌≤◌, ◌<◌, ◌+◌, ◌^◌, [], length};
ghost use Rattle.gm_state.specs.declared.intents.Intent.TheVariants.{Copy};
ghost use Rattle.gm_apply.specs.Calls.{Fills, FillsSynced, WritesRun};

use gm_metadata::{Label, same};
use gm_shelf::{Shelf, ShelfFault};

/// How many sectors a run has, but for the last one, which may have fewer.
pub(crate) const RUN: usize = 128;

// Writes a stretch of sectors, if there are any.
pub(crate) fn write_stretch<H: Shelf>(
    shelf: &mut H,
    target: Label,
    first: u64,
    sectors: &[[u8; 512]],
) -> Result<(), ShelfFault>
    ensures { WritesRun H.Shelf shelf.old shelf.new result target first sectors.now [] }
{
    if !sectors.is_empty() {
        shelf.write_run(target, first, sectors)?;
    }
    Ok(())
}

// Writes a run of sectors over those that the target holds: only the stretches that differ.
fn write_changes<H: Shelf>(
    shelf: &mut H,
    target: Label,
    first: u64,
    held: &[[u8; 512]],
    run: &[[u8; 512]],
) -> Result<(), ShelfFault>
    requires lengths { length held.now ≡ length run.now }
    requires fits { first + length run.now < 2 ^ 64 }
    ensures { WritesRun H.Shelf shelf.old shelf.new result target first run.now held.now }
{
    let mut from = 0;
    for index in 0..run.len() {
        if same(&held[index], &run[index]) {
            write_stretch(shelf, target, first + from as u64, &run[from..index])?;
            from = index + 1;
        }
    }
    write_stretch(shelf, target, first + from as u64, &run[from..])?;
    Ok(())
}

// Copies a run of so many sectors. Its two buffers are 128 KiB of the stack: those are taken while
// it copies, and by no other function that this one might be made a part of.
#[inline(never)]
fn copy_run<H: Shelf>(
    shelf: &mut H,
    source: Label,
    target: Label,
    first: u64,
    sectors: usize,
) -> Result<(), ShelfFault>
    requires one_run { sectors ≤ 128 }
    requires fits { first + sectors < 2 ^ 64 }
    ensures { Fills H.Shelf shelf.old shelf.new result
        (Copy source target first (first + sectors)) [] }
{
    let mut held = [[0; 512]; RUN];
    let mut run = [[0; 512]; RUN];
    let held = &mut held[..sectors];
    let run = &mut run[..sectors];
    shelf.read_run(target, first, held)?;
    shelf.read_run(source, first, run)?;
    write_changes(shelf, target, first, held, run)?;
    Ok(())
}

// Copies the sectors first to end - 1 run by run, and leaves them to be synced.
fn copy_runs<H: Shelf>(
    shelf: &mut H,
    source: Label,
    target: Label,
    first: u64,
    end: u64,
) -> Result<(), ShelfFault>
    ensures { Fills H.Shelf shelf.old shelf.new result (Copy source target first end) [] }
{
    let mut place = first;
    while place < end {
        let sectors = (end - place).min(RUN as u64);
        copy_run(shelf, source, target, place, sectors as usize)?;
        place += sectors;
    }
    Ok(())
}

/// Copies the sectors first to end - 1 of the source to the same places of the target, then syncs
/// the target.
pub(crate) fn copy_sectors<H: Shelf>(
    shelf: &mut H,
    source: Label,
    target: Label,
    first: u64,
    end: u64,
) -> Result<(), ShelfFault>
    ensures { FillsSynced H.Shelf shelf.old shelf.new result (Copy source target first end) [] }
{
    copy_runs(shelf, source, target, first, end)?;
    shelf.sync(target)?;
    Ok(())
}
