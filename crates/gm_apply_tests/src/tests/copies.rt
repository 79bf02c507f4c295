//! Copies by runs: what they ask of a shelf, and what they leave. A run is 128 sectors.

use super::{add, applies, label, must, must_hold, try_apply};
use gm_shelf::{FaultShelf, MemShelf, Shelf};
use gm_state::Intent;
use gm_test_media::{CallCounts, CountingShelf};
use std::process::Abort;

// The sectors of a, each of one byte of its own, and those of b: as a's but for these places, which
// hold 0xff. After them b has a sector more.
fn two_images(rt: &(impl Abort + AllocGlobal), sectors: u8, differing: &[u8]) -> MemShelf {
    let mut a = Vec::new(rt.alloc());
    let mut b = Vec::new(rt.alloc());
    for place in 0..sectors {
        a.push([place; 512]).expect(rt, "no memory");
        let byte = if differing.contains(&place) {
            0xff
        } else {
            place
        };
        b.push([byte; 512]).expect(rt, "no memory");
    }
    b.push([0xee; 512]).expect(rt, "no memory");
    let mut shelf = MemShelf::new(rt.alloc());
    add(rt, &mut shelf, "a", a);
    add(rt, &mut shelf, "b", b);
    shelf
}

fn copies<H: Shelf>(rt: &(impl Abort + AllocGlobal), shelf: &mut H, first: u32, end: u32) {
    applies(rt, shelf, &copy(rt, first, end));
}

fn copy(rt: &impl Abort, first: u32, end: u32) -> [Intent; 1] {
    [Intent::Copy {
        source: label(rt, "a"),
        target: label(rt, "b"),
        first,
        end,
    }]
}

fn calls(reads: u64, writes: u64, written: u64) -> CallCounts {
    CallCounts {
        reads,
        writes,
        written,
        syncs: 1,
    }
}

// What a copy asks of the shelf: of how many sectors, which of them differ, from which place on and
// up to which; so many reads and writes, and so many sectors in the writes.
type Case = (u8, &'static [u8], [u32; 2], [u64; 3]);

// Equal sectors are not written; a stretch that differs is at once; an equal sector parts two
// stretches, and so does the end of a run: 131 sectors are a run of 128 and one of 3. Neither what
// stands before the first place nor what stands from the end on is copied, and an empty copy syncs.
const CASES: [Case; 19] = [
    (1, &[], [0, 1], [2, 0, 0]),
    (5, &[], [0, 5], [2, 0, 0]),
    (128, &[], [0, 128], [2, 0, 0]),
    (129, &[], [0, 129], [4, 0, 0]),
    (1, &[0], [0, 1], [2, 1, 1]),
    (128, &[0], [0, 128], [2, 1, 1]),
    (128, &[127], [0, 128], [2, 1, 1]),
    (5, &[1, 2, 3], [0, 5], [2, 1, 3]),
    (5, &[0, 1, 2, 3, 4], [0, 5], [2, 1, 5]),
    (3, &[0, 2], [0, 3], [2, 2, 2]),
    (7, &[0, 1, 3, 4, 5], [0, 7], [2, 2, 5]),
    (7, &[1, 3, 6], [0, 7], [2, 3, 3]),
    (131, &[127, 128], [0, 131], [4, 2, 2]),
    (131, &[130], [0, 131], [4, 1, 1]),
    (134, &[1, 2, 130, 133], [2, 133], [4, 2, 2]),
    (134, &[1, 2, 3, 4], [4, 134], [4, 1, 1]),
    (3, &[1], [1, 1], [0, 0, 0]),
    (3, &[1], [2, 1], [0, 0, 0]),
    (3, &[1], [3, 3], [0, 0, 0]),
];

// Each sector of b is that of a, but for those that differ and aren't copied.
fn must_have_copied<H: Shelf>(rt: &impl Abort, shelf: &mut H, case: Case) {
    let (sectors, differing, [first, end], _) = case;
    for place in 0..sectors {
        let is_left = u32::from(place) < first || u32::from(place) >= end;
        let byte = if is_left && differing.contains(&place) {
            0xff
        } else {
            place
        };
        must_hold(rt, shelf, "b", u64::from(place), byte);
    }
    must_hold(rt, shelf, "b", u64::from(sectors), 0xee);
}

#[test]
fn a_copy_writes_what_differs_at_once(rt: HostRuntime) {
    for case in CASES {
        let (sectors, differing, [first, end], [reads, writes, written]) = case;
        let mut shelf = CountingShelf::new(two_images(&rt, sectors, differing));
        copies(&rt, &mut shelf, first, end);
        let asked = calls(reads, writes, written);
        must(&rt, shelf.calls == asked, "other calls");
        must_have_copied(&rt, &mut shelf.inner, case);
    }
}

// What a crash by this pick leaves of the second sector of b.
fn must_leave(rt: &impl Abort, shelf: &MemShelf, pick: u32, byte: u8) {
    let mut image = shelf.crash_image(&[pick]).expect(rt, "no memory");
    must_hold(rt, &mut image, "b", 1, byte);
}

// A sector that is equal, but was never synced, is fixed though it isn't written: no crash takes it
// back.
#[test]
fn equal_sectors_are_synced(rt: HostRuntime) {
    let mut images = two_images(&rt, 3, &[1]);
    let written = images.write(label(&rt, "b"), 1, &[1; 512]);
    must(&rt, written.is_ok(), "not written");
    must_leave(&rt, &images, 0, 0xff);
    let mut shelf = CountingShelf::new(images);
    copies(&rt, &mut shelf, 0, 3);
    must(&rt, shelf.calls == calls(2, 0, 0), "other calls");
    must_leave(&rt, &shelf.inner, 0, 1);
}

fn must_have<H: Shelf>(rt: &impl Abort, shelf: &mut H, bytes: &[u8; 5]) {
    for (place, byte) in bytes.iter().enumerate() {
        must_hold(rt, shelf, "b", place as u64, *byte);
    }
}

// What b holds of a copy that was stopped at this call, after a crash by these picks.
fn left_at(nth: u64, picks: [u32; 2]) -> [u8; 5] {
    let zeroth = nth == 12 || nth > 9 && picks[0] == 1;
    let second = nth == 12 || nth > 10 && picks[1] == 1;
    [
        if zeroth { 0 } else { 0xff },
        1,
        if second { 2 } else { 0xff },
        3,
        0xee,
    ]
}

// It holds this, and the copy made anew ends as it would have.
fn leads_on<H: Shelf>(rt: &(impl Abort + AllocGlobal), image: &mut H, left: &[u8; 5]) {
    must_have(rt, image, left);
    copies(rt, image, 0, 4);
    must_have(rt, image, &[0, 1, 2, 3, 0xee]);
}

// A copy of four sectors, two of which differ, that is stopped at this call.
fn stopped_at(rt: &(impl Abort + AllocGlobal), nth: u64) -> MemShelf {
    let mut stops = FaultShelf::stop_from(two_images(rt, 4, &[0, 2]), nth);
    let done = try_apply(rt, &mut stops, &copy(rt, 0, 4));
    must(rt, done.is_ok() == (nth == 12), "another end");
    stops.into_inner()
}

// It makes eleven calls: the reads 1 to 4 of b and 5 to 8 of a, a write of sector 0 and one of
// sector 2, and a sync, so that the twelfth is never made.
#[test]
fn a_copy_that_stops_leads_on(rt: HostRuntime) {
    for nth in 1..13u64 {
        let shelf = stopped_at(&rt, nth);
        for picks in [[0, 0], [0, 1], [1, 0], [1, 1]] {
            let image = shelf.crash_image(&picks);
            let left = left_at(nth, picks);
            leads_on(&rt, &mut image.expect(&rt, "no memory"), &left);
        }
    }
}
