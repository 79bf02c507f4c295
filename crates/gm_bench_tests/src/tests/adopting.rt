//! An adoption whose shelf stops at each of its calls in turn, and what is found after it.

use super::{MANY, ask, got, in_memory, must, serving, stopping};
use gm_metadata::encode;
use gm_shelf::{MemShelf, Shelf};
use gm_state::Reply;
use gm_test_bench::{Asked, IN_SYNC, SYNCHRONIZING, is_over, metadata, must_say};
use gm_test_media::add;
use sqlite::{Alter, Connection};
use std::process::Abort;

const ADOPT: Asked = Asked {
    key: "k1",
    words: "adopt gm0 a.img b.img",
    number: 1,
    reply: Reply::Plain,
    was_done: false,
};

// a.img and b.img of gm0, which both say that they are in sync, and differ in one byte.
fn differing(rt: &(impl Abort + AllocGlobal)) -> MemShelf {
    let mut shelf = MemShelf::new(rt.alloc());
    for (name, did, byte) in [("a.img", 1u32, 3u8), ("b.img", 2, 2)] {
        let mut third = [3; 512];
        third[77] = byte;
        let last = encode(&got(rt, metadata(did, 2, IN_SYNC)));
        let sectors = [[1; 512], [2; 512], third, last];
        let sectors = Vec::from_slice(rt.alloc(), &sectors).expect(rt, "no memory");
        got(rt, add(&mut shelf, name, sectors));
    }
    shelf
}

// After an adoption b.img no longer says that it is in sync.
fn are_adopted<S: Alter + Drop, H: Shelf + Drop>(
    rt: &(impl Abort + AllocGlobal),
    store: Connection<S>,
    shelf: H,
    asked: Asked,
) {
    let mut shelf = got(rt, is_over(rt.alloc(), store, shelf, asked));
    for (name, did, flags) in [("a.img", 1u32, IN_SYNC), ("b.img", 2, SYNCHRONIZING)] {
        let said = got(rt, metadata(did, 2, flags));
        got(rt, must_say(&mut shelf, name, Some(said)));
    }
}

// One whose shelf stops from its nth call on; whether the stop came.
fn stop_at(rt: &(impl Abort + AllocGlobal), nth: u64) -> bool {
    let shelf = stopping(differing(rt), nth);
    let (came, store, shelf) = ask(rt, in_memory(rt), shelf, ADOPT);
    let left = shelf.crash_image(&[0, 0]).expect(rt, "no memory");
    let asked = Asked {
        was_done: !came,
        ..ADOPT
    };
    are_adopted(rt, store, serving(left), asked);
    came
}

#[test]
fn a_stopped_adoption_is_carried_out_or_not_begun(rt: HostRuntime) {
    let mut ended = false;
    for nth in 1..MANY {
        if !ended {
            ended = !stop_at(&rt, nth);
        }
    }
    must(&rt, ended, "no run ended");
}
