//! The tests: stops of the shelf within an adoption, an advance and a patch; what an advance
//! writes; which phases the calls of a bench lead through; and what tells of a bench.

mod adopting;
mod advancing;
mod looking;
mod patching;
mod phases;

use gm_shelf::{FaultShelf, MemShelf, Shelf};
use gm_state::Reply;
use gm_test_bench::{Asked, INSERT, is_stopped, of_two, open};
use gm_test_media::{CountingShelf, add, memory};
use sqlite::{Alter, Connection, MemStore};
use std::process::Abort;
use std::test::Fail;

// A command is over long before it makes so many calls of the shelf.
const MANY: u64 = 60;

// The third command of gm0, which fills b.img.
const ADVANCE: Asked = Asked {
    key: "k3",
    words: "advance gm0 b.img",
    number: 3,
    reply: Reply::Copied { held: 3, total: 3 },
    was_done: false,
};

// What fails ends a test at once, here and below: so a proof has no way out of each call to go
// through, on which all that is held would be let go.
fn must(rt: &impl Abort, holds: bool, what: &str) {
    assert!(rt; holds, "{what}");
}

// What is there in place of a failure.
fn got<T>(rt: &impl Abort, outcome: Result<T, Fail>) -> T {
    match outcome {
        Ok(value) => value,
        Err(_) => panic!(rt; "it failed"),
    }
}

fn in_memory(rt: &(impl Abort + AllocGlobal)) -> Connection<MemStore> {
    got(rt, memory(rt.alloc()))
}

// a.img and b.img of four sectors, whose data differ in each sector: those of a.img are 1, 2 and 3,
// those of b.img 101, 102 and 103.
fn unlike(rt: &(impl Abort + AllocGlobal)) -> MemShelf {
    let mut shelf = MemShelf::new(rt.alloc());
    for (name, first) in [("a.img", 1u8), ("b.img", 101)] {
        let sectors = [[first; 512], [first + 1; 512], [first + 2; 512], [0; 512]];
        let sectors = Vec::from_slice(rt.alloc(), &sectors).expect(rt, "no memory");
        got(rt, add(&mut shelf, name, sectors));
    }
    shelf
}

// Each bench is over a shelf that counts what is done to it and may stop, so that a bench over one
// kind of shelf is all that LLVM compiles.
type Watched<H> = CountingShelf<FaultShelf<H>>;

// One that serves each call.
fn serving<H: Shelf>(shelf: H) -> Watched<H> {
    CountingShelf::new(FaultShelf::stop_from(shelf, u64::MAX))
}

// One that serves no call from the nth on.
fn stopping<H: Shelf>(shelf: H, nth: u64) -> Watched<H> {
    CountingShelf::new(FaultShelf::stop_from(shelf, nth))
}

// gm0 of both, by k1 and k2; b.img is to be filled.
fn inserted(rt: &(impl Abort + AllocGlobal)) -> (Connection<MemStore>, MemShelf) {
    let made = of_two(rt.alloc(), in_memory(rt), serving(unlike(rt)), INSERT);
    let (store, shelf) = got(rt, made);
    (store, shelf.inner.into_inner())
}

// A command over a shelf that may stop: whether the stop came, and both media then.
fn ask<S: Alter + Drop, H: Shelf + Drop>(
    rt: &(impl Abort + AllocGlobal),
    store: Connection<S>,
    shelf: Watched<H>,
    asked: Asked,
) -> (bool, Connection<S>, H) {
    let mut bench = got(rt, open(rt.alloc(), store, shelf));
    let came = got(rt, is_stopped(rt.alloc(), &mut bench, asked));
    let (store, shelf) = bench.close();
    (came, store, shelf.inner.into_inner())
}

// gm0 of both once b.img is filled, by k3.
fn filled(rt: &(impl Abort + AllocGlobal)) -> (Connection<MemStore>, MemShelf) {
    let (store, shelf) = inserted(rt);
    let (_, store, shelf) = ask(rt, store, serving(shelf), ADVANCE);
    (store, shelf)
}
