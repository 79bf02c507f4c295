//! Images that are lost while a series is pending: the source of its copy, while another ACTIVE
//! image is there, or its target.

use super::{COPIED, DATA, KEYS, accepted, got, held, kept, must};
use gm_bench::{Answer, Bench, SeriesAnswer, Without};
use gm_shelf::{FaultShelf, MemShelf};
use gm_state::Reply;
use gm_test_bench::{LABEL, open, runs, try_open, try_series, try_settle_waiting};
use gm_test_media::{add, label, memory, sector};
use sqlite::{Connection, MemStore};
use std::process::Abort;

// A series is over long before it makes 61 times so many calls of the shelf.
const MANY: u64 = 200;

// How far apart the calls are at which it stops.
const APART: u64 = 61;

// The commands before the series: gm0 of a.img and c.img, which are ACTIVE, and b.img, which is to
// be filled.
const BEFORE: [(&str, &str); 6] = [
    ("k1", LABEL),
    ("k2", "insert --did 2 gm0 c.img"),
    ("k3", "advance gm0 c.img"),
    ("k4", "advance gm0 c.img"),
    ("k5", "advance gm0 c.img"),
    ("k6", "insert --did 3 gm0 b.img"),
];

// What the command of this number is answered.
fn reply(number: u64) -> Reply {
    match number {
        3 => COPIED[0],
        4 => COPIED[1],
        5 => COPIED[2],
        _ => Reply::Plain,
    }
}

// An image of which each sector of data has this byte throughout.
fn put(rt: &(impl Abort + AllocGlobal), shelf: &mut MemShelf, name: &str, byte: u8) {
    let mut sectors = vec![in rt.alloc(); [byte; 512]; DATA as usize].expect(rt, "no memory");
    sectors.push([0; 512]).expect(rt, "no memory");
    got(rt, add(shelf, name, sectors));
}

// Both media after those commands.
fn before(rt: &(impl Abort + AllocGlobal)) -> (Connection<MemStore>, MemShelf) {
    let mut shelf = MemShelf::new(rt.alloc());
    for (name, byte) in [("a.img", 7u8), ("b.img", 8), ("c.img", 9)] {
        put(rt, &mut shelf, name, byte);
    }
    let store = got(rt, memory(rt.alloc()));
    let mut bench = got(rt, open(rt.alloc(), store, shelf));
    let mut number = 0u64;
    for (key, words) in BEFORE {
        number = number.saturating_add(1);
        let answer = Answer::Done(number, reply(number));
        got(rt, runs(rt.alloc(), &mut bench, key, words, answer));
    }
    bench.close()
}

// A series whose shelf serves no call from the nth on, and its settling; whether the stop came.
fn stop_series(
    rt: &(impl Abort + AllocGlobal),
    nth: u64,
) -> (bool, Connection<MemStore>, MemShelf) {
    let (store, shelf) = before(rt);
    let shelf = FaultShelf::stop_from(shelf, nth);
    match got(rt, try_open(rt.alloc(), store, shelf)) {
        Ok(mut bench) => {
            let answered = got(rt, try_series(rt.alloc(), &mut bench, &KEYS));
            let settled = got(rt, try_settle_waiting(&mut bench));
            let done = Some(SeriesAnswer {
                answer: Answer::Done(7, COPIED[2]),
                count: 3,
            });
            let stopped = answered != Ok(done) || settled.is_err();
            let (store, shelf) = bench.close();
            (stopped, store, shelf.into_inner())
        }
        Err(left) => (true, left.store, left.shelf.into_inner()),
    }
}

// What a crash leaves of the other two images, of the sectors that aren't synced nothing.
fn without(rt: &(impl Abort + AllocGlobal), shelf: &MemShelf, lost: &str) -> MemShelf {
    let mut left = shelf.crash_image(&[]).expect(rt, "no memory");
    let mut others = MemShelf::new(rt.alloc());
    for name in ["a.img", "b.img", "c.img"] {
        if name != lost {
            let sectors = sectors_of(rt, &mut left, name);
            got(rt, add(&mut others, name, sectors));
        }
    }
    others
}

// All sectors of an image.
fn sectors_of(rt: &(impl Abort + AllocGlobal), shelf: &mut MemShelf, name: &str) -> Vec<[u8; 512]> {
    let mut sectors = Vec::new(rt.alloc());
    for place in 0..u64::from(DATA).saturating_add(1) {
        let held = got(rt, sector(shelf, name, place));
        sectors.push(held).expect(rt, "no memory");
    }
    sectors
}

// Opens without an image. What is pending then is carried out, and the loss has the next number.
fn opened_without(
    rt: &(impl Abort + AllocGlobal),
    store: Connection<MemStore>,
    shelf: MemShelf,
    lost: &str,
) -> (Bench<MemStore, MemShelf>, Answer) {
    let provider = got(rt, label(lost));
    assert!(rt; store.is_autocommit());
    match Bench::open_without(rt.alloc(), store, shelf, provider, "k7") {
        Ok(Without::Opened { bench, answer }) => (bench, answer),
        Ok(Without::Refused { .. }) => panic!(rt; "refused"),
        Err(_) => panic!(rt; "a fault"),
    }
}

// Loses an image after a series that stopped at its nth call: all its commands are kept, or none.
// Whether it stopped, and how many were kept.
fn lose_after(rt: &(impl Abort + AllocGlobal), nth: u64, lost: &str) -> (bool, u64) {
    let (stopped, store, shelf) = stop_series(rt, nth);
    let others = without(rt, &shelf, lost);
    let (mut bench, answer) = opened_without(rt, store, others, lost);
    let last = accepted(rt, &mut bench);
    must(
        rt,
        answer == Answer::Done(last, Reply::Plain),
        "another answer",
    );
    let count = last.saturating_sub(7);
    must(rt, count == 0 || count == 3, "a part of a series");
    let mut number = 6u64;
    for (key, reply) in KEYS.iter().zip(COPIED) {
        number = number.saturating_add(1);
        let expected = if count == 3 {
            Some((number, reply))
        } else {
            None
        };
        must(rt, kept(rt, &mut bench, key) == expected, key);
    }
    let (_, mut shelf) = bench.close();
    let filled = lost == "a.img" && count == 3;
    must(
        rt,
        !filled || held(rt, &mut shelf) == 3,
        "it claims what it lacks",
    );
    (stopped, count)
}

// Loses an image after a series that stops at each 61st call of its shelf; some stop leaves all of
// it.
fn lose_after_each(rt: &(impl Abort + AllocGlobal), lost: &str) {
    let mut nth = 1u64;
    let mut stopped = true;
    let mut some = false;
    for _ in 0..MANY {
        if stopped {
            let (came, count) = lose_after(rt, nth, lost);
            some = some || came && count == 3;
            stopped = came;
        }
        nth = nth.saturating_add(APART);
    }
    must(rt, !stopped && some, "a stop didn't come");
}

#[test]
fn another_source_takes_the_place_of_one_that_is_lost_in_a_series(rt: HostRuntime) {
    lose_after_each(&rt, "a.img");
}

#[test]
fn the_target_of_a_series_may_be_lost(rt: HostRuntime) {
    lose_after_each(&rt, "b.img");
}
