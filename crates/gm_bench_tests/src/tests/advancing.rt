//! Advances: one whose shelf stops at each of its calls in turn, and what its target then claims;
//! what is written if sectors are equal, and what an opening carries out.

use super::{ADVANCE, MANY, ask, got, in_memory, inserted, must, serving, stopping, unlike};
use gm_bench::Answer;
use gm_metadata::{Metadata, encode};
use gm_shelf::{MemShelf, Shelf};
use gm_state::Reply;
use gm_test_bench::{
    Asked, IN_SYNC, INSERT, SYNCHRONIZING, is_over, is_stopped, metadata, must_hold, of_two, open,
    try_accept,
};
use gm_test_media::{add, sector};
use sqlite::{Alter, Connection, MemStore};
use std::process::Abort;

// Both are in sync, and hold the data of a.img.
fn must_be_in_sync<H: Shelf>(rt: &impl Abort, shelf: &mut H, priority: u8) {
    let first = got(rt, metadata(1, 2, IN_SYNC));
    let second = Metadata {
        priority,
        ..got(rt, metadata(2, 2, IN_SYNC))
    };
    got(rt, must_hold(shelf, Some(first), Some(second)));
}

// What b.img says of itself before anything is opened again: nothing more than before, or that it
// is in sync, and then it holds the data.
fn claims_what_it_holds<H: Shelf>(rt: &impl Abort, shelf: &mut H) {
    let last = got(rt, sector(shelf, "b.img", 3));
    if last == encode(&got(rt, metadata(2, 2, IN_SYNC))) {
        must_be_in_sync(rt, shelf, 0);
    } else {
        let before = encode(&got(rt, metadata(2, 2, SYNCHRONIZING)));
        must(rt, last == before, "another claim");
    }
}

// An advance whose shelf stops from its nth call on; whether the stop came, and both media.
fn stop_at(rt: &(impl Abort + AllocGlobal), nth: u64) -> (bool, Connection<MemStore>, MemShelf) {
    let (store, shelf) = inserted(rt);
    ask(rt, store, stopping(shelf, nth), ADVANCE)
}

// Which of three sectors a crash leaves as they were synced, by the bits of a number.
fn picks(number: u32) -> [u32; 3] {
    [number % 2, number / 2 % 2, number / 4 % 2]
}

// Such an image claims what it holds, and holds the data after the same advance.
fn is_made_whole<S: Alter + Drop, H: Shelf + Drop>(
    rt: &(impl Abort + AllocGlobal),
    store: Connection<S>,
    mut shelf: H,
    asked: Asked,
) {
    claims_what_it_holds(rt, &mut shelf);
    let mut shelf = got(rt, is_over(rt.alloc(), store, shelf, asked));
    must_be_in_sync(rt, &mut shelf, 0);
}

// One that stops there, and then crashes so; whether the stop came.
fn crash_at(rt: &(impl Abort + AllocGlobal), nth: u64, number: u32) -> bool {
    let (came, store, shelf) = stop_at(rt, nth);
    let left = shelf.crash_image(&picks(number)).expect(rt, "no memory");
    let asked = Asked {
        was_done: !came,
        ..ADVANCE
    };
    is_made_whole(rt, store, serving(left), asked);
    came
}

// One that stops there, and then crashes in each way.
fn crash_at_each(rt: &(impl Abort + AllocGlobal), nth: u64) -> bool {
    let mut came = false;
    for number in 0..8 {
        came = crash_at(rt, nth, number);
    }
    came
}

#[test]
fn a_stop_within_an_advance_leaves_no_false_claim(rt: HostRuntime) {
    let mut ended = false;
    for nth in 1..MANY {
        if !ended {
            ended = !crash_at_each(&rt, nth);
        }
    }
    must(&rt, ended, "no run ended");
}

// Whether the first three sectors of b.img are those of a.img.
fn are_equal<H: Shelf>(rt: &impl Abort, shelf: &mut H) -> bool {
    let mut equal = true;
    for place in 0u64..3 {
        let first = got(rt, sector(shelf, "a.img", place));
        equal = equal && got(rt, sector(shelf, "b.img", place)) == first;
    }
    equal
}

// Whether all data are written, and none is sure to stay.
fn are_unsynced(rt: &impl Abort, shelf: &mut MemShelf) -> bool {
    let mut unsynced = are_equal(rt, shelf);
    for pick in 0u32..2 {
        let mut image = shelf.crash_image(&[pick, pick]).expect(rt, "no memory");
        unsynced = unsynced && !are_equal(rt, &mut image);
    }
    unsynced
}

// The opening over a shelf whose data are written and not synced: one sector is written, the last
// one of b.img, and the data are there in every image that a crash may then leave.
fn writes_no_data<S: Alter + Drop>(
    rt: &(impl Abort + AllocGlobal),
    store: Connection<S>,
    shelf: MemShelf,
) {
    let bench = got(rt, open(rt.alloc(), store, serving(shelf)));
    must(rt, bench.redone() == 2, "another count of what was pending");
    let (_, counted) = bench.close();
    must(rt, counted.calls.written == 1, "data were written again");
    let shelf = counted.inner.into_inner();
    for number in 0..8 {
        let image = shelf.crash_image(&picks(number));
        must_be_in_sync(rt, &mut image.expect(rt, "no memory"), 0);
    }
}

#[test]
fn what_was_written_and_not_synced_is_not_written_again(rt: HostRuntime) {
    let mut found = 0u64;
    for nth in 1..MANY {
        let (_, store, mut shelf) = stop_at(&rt, nth);
        if are_unsynced(&rt, &mut shelf) {
            found = found.saturating_add(1);
            writes_no_data(&rt, store, shelf);
        }
    }
    must(&rt, found == 1, "another number of such stops");
}

// Two images of 258 sectors, which differ in the last byte of sector 256 alone.
fn long(rt: &(impl Abort + AllocGlobal)) -> MemShelf {
    let mut shelf = MemShelf::new(rt.alloc());
    for (name, byte) in [("a.img", 7u8), ("b.img", 8)] {
        let mut sectors = vec![in rt.alloc(); [7u8; 512]; 256].expect(rt, "no memory");
        let mut differing = [7; 512];
        differing[511] = byte;
        sectors.push(differing).expect(rt, "no memory");
        sectors.push([0; 512]).expect(rt, "no memory");
        got(rt, add(&mut shelf, name, sectors));
    }
    shelf
}

// An advance by this key and number, after which so many sectors are held, writes so many.
fn writes<S: Alter + Drop, H: Shelf + Drop>(
    rt: &(impl Abort + AllocGlobal),
    store: Connection<S>,
    shelf: H,
    asked: Asked,
    written: u64,
) -> (Connection<S>, H) {
    let mut bench = got(rt, open(rt.alloc(), store, serving(shelf)));
    let stopped = got(rt, is_stopped(rt.alloc(), &mut bench, asked));
    let (store, counted) = bench.close();
    must(rt, !stopped && counted.calls.written == written, asked.key);
    (store, counted.inner.into_inner())
}

// The first stretch writes what b.img then says, the second the sector that differs too.
#[test]
fn an_advance_writes_the_sectors_that_differ(rt: HostRuntime) {
    let made = of_two(rt.alloc(), in_memory(&rt), serving(long(&rt)), INSERT);
    let (mut store, shelf) = got(&rt, made);
    let mut shelf = shelf.inner.into_inner();
    for (key, number, held, written) in [("k3", 3u64, 256u32, 1u64), ("k4", 4, 257, 2)] {
        let asked = Asked {
            key,
            number,
            reply: Reply::Copied { held, total: 257 },
            ..ADVANCE
        };
        (store, shelf) = writes(&rt, store, shelf, asked, written);
    }
    let copied = got(&rt, sector(&mut shelf, "b.img", 256));
    must(&rt, copied[511] == 7, "not copied");
}

// An advance that is accepted and not carried out is made at the next opening.
fn is_made_at_the_opening<S: Alter + Drop, H: Shelf + Drop>(
    rt: &(impl Abort + AllocGlobal),
    store: Connection<S>,
    shelf: H,
) -> H {
    let mut bench = got(rt, open(rt.alloc(), store, shelf));
    let asked = try_accept(rt.alloc(), &mut bench, ADVANCE.key, ADVANCE.words);
    let done = got(rt, asked) == Ok(Answer::Done(3, ADVANCE.reply));
    let (store, mut shelf) = bench.close();
    must(rt, done && !are_equal(rt, &mut shelf), "not accepted alone");
    let (_, shelf) = got(rt, open(rt.alloc(), store, shelf)).close();
    shelf
}

// Whatever b.img is preferred to.
#[test]
fn an_accepted_advance_is_made_at_the_opening(rt: HostRuntime) {
    let preferred = "insert --did 2 --priority 255 gm0 b.img";
    for (insert, priority) in [(INSERT, 0u8), (preferred, 255)] {
        let made = of_two(rt.alloc(), in_memory(&rt), serving(unlike(&rt)), insert);
        let (store, shelf) = got(&rt, made);
        let mut shelf = is_made_at_the_opening(&rt, store, shelf);
        must_be_in_sync(&rt, &mut shelf, priority);
    }
}
