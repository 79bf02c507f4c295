//! The tests of series: what they are answered, and what a stop within one and a loss after it
//! leave.

mod answers;
mod losses;
mod stops;

use gm_bench::{Answer, Bench};
use gm_shelf::{MemShelf, Shelf};
use gm_state::Reply;
use gm_test_bench::{INSERT, of_two, open, try_accepted, try_kept};
use gm_test_media::{add, memory, sector};
use sqlite::{Alter, Connection, MemStore};
use std::process::Abort;
use std::test::Fail;

// What fails ends a test at once, here and below: so a proof has no way out of each call to go
// through, on which all that is held would be let go.
fn must(rt: &impl Abort, holds: bool, what: &str) {
    assert!(rt; holds, "{what}");
}

// What is there in place of a failure.
fn got<T>(rt: &impl Abort, outcome: Result<T, Fail>) -> T {
    match outcome {
        Ok(value) => value,
        Err(_) => panic!(rt; "it failed"),
    }
}

// How many sectors of data gm0 has: two stretches, and 18 sectors.
const DATA: u32 = 530;

// What the stretches are answered.
const COPIED: [Reply; 3] = [
    Reply::Copied {
        held: 256,
        total: DATA,
    },
    Reply::Copied {
        held: 512,
        total: DATA,
    },
    Reply::Copied {
        held: DATA,
        total: DATA,
    },
];

// The keys of the series of all three.
const KEYS: [&str; 3] = ["s1", "s2", "s3"];

// a.img and b.img, which differ in each sector of data.
fn unlike(rt: &(impl Abort + AllocGlobal)) -> MemShelf {
    let mut shelf = MemShelf::new(rt.alloc());
    for (name, byte) in [("a.img", 7u8), ("b.img", 8)] {
        let mut sectors = vec![in rt.alloc(); [byte; 512]; 530].expect(rt, "no memory");
        sectors.push([0; 512]).expect(rt, "no memory");
        got(rt, add(&mut shelf, name, sectors));
    }
    shelf
}

// gm0 of both, by k1 and k2; b.img is to be filled.
fn inserted(rt: &(impl Abort + AllocGlobal)) -> (Connection<MemStore>, MemShelf) {
    let store = got(rt, memory(rt.alloc()));
    got(rt, of_two(rt.alloc(), store, unlike(rt), INSERT))
}

// How many of the first, the middle and the last sector of data b.img has by now.
fn held<H: Shelf>(rt: &impl Abort, shelf: &mut H) -> u64 {
    let mut held = 0u64;
    for place in [0u64, 300, 529] {
        let copied = got(rt, sector(shelf, "b.img", place));
        held = held.saturating_add(u64::from(copied == [7; 512]));
    }
    held
}

// How many commands a bench has accepted.
fn accepted<S: Alter, H: Shelf>(rt: &impl Abort, bench: &mut Bench<S, H>) -> u64 {
    match try_accepted(bench) {
        Ok(count) => count,
        Err(_) => panic!(rt; "a fault"),
    }
}

// What is kept under a key: the number of its command, and what that was answered.
fn kept<S: Alter, H: Shelf>(
    rt: &impl Abort,
    bench: &mut Bench<S, H>,
    key: &str,
) -> Option<(u64, Reply)> {
    match try_kept(bench, key) {
        Ok(Some(kept)) => {
            must(
                rt,
                kept.words.as_str() == "advance gm0 b.img",
                "other words",
            );
            Some((kept.number, kept.reply))
        }
        Ok(None) => None,
        Err(_) => panic!(rt; "a fault"),
    }
}
