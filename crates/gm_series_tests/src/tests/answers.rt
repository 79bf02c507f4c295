//! What a series is answered, what ends one, and that it comes to what its advances come to one by
//! one.

use super::{COPIED, KEYS, accepted, got, held, inserted, kept, must};
use gm_bench::{Answer, SeriesAnswer};
use gm_refusals::CallRefusal;
use gm_shelf::{MemShelf, Shelf};
use gm_state::Reply;
use gm_test_bench::{open, runs, try_series, try_settle_waiting};
use gm_test_media::sector;
use sqlite::{Alter, Connection};
use std::process::Abort;

// A series that is answered so, and then settled; both media after it.
fn series<S: Alter + Drop, H: Shelf + Drop>(
    rt: &(impl Abort + AllocGlobal),
    store: Connection<S>,
    shelf: H,
    keys: &[&str],
    expected: Option<SeriesAnswer>,
) -> (Connection<S>, H) {
    let mut bench = got(rt, open(rt.alloc(), store, shelf));
    let answered = got(rt, try_series(rt.alloc(), &mut bench, keys));
    must(rt, answered == Ok(expected), "another answer");
    must(
        rt,
        got(rt, try_settle_waiting(&mut bench)).is_ok(),
        "a fault",
    );
    bench.close()
}

// So many commands from the third on, of which the last is answered so.
fn done(count: u64, reply: Reply) -> Option<SeriesAnswer> {
    Some(SeriesAnswer {
        answer: Answer::Done(3, reply),
        count,
    })
}

// What is kept under each key of a series, and after it nothing.
fn keeps<S: Alter + Drop, H: Shelf + Drop>(
    rt: &(impl Abort + AllocGlobal),
    store: Connection<S>,
    shelf: H,
    count: u64,
) -> H {
    let mut bench = got(rt, open(rt.alloc(), store, shelf));
    let mut number = 2u64;
    for (key, reply) in KEYS.iter().zip(COPIED) {
        number = number.saturating_add(1);
        let expected = if number <= count.saturating_add(2) {
            Some((number, reply))
        } else {
            None
        };
        must(rt, kept(rt, &mut bench, key) == expected, key);
    }
    must(
        rt,
        accepted(rt, &mut bench) == count.saturating_add(2),
        "another count",
    );
    let (_, shelf) = bench.close();
    shelf
}

#[test]
fn a_series_is_all_its_commands_and_ends_when_the_component_is_filled(rt: HostRuntime) {
    let (store, shelf) = inserted(&rt);
    let keys = ["s1", "s2", "s3", "s4"];
    let (store, shelf) = series(&rt, store, shelf, &keys, done(3, COPIED[2]));
    let mut shelf = keeps(&rt, store, shelf, 3);
    must(&rt, held(&rt, &mut shelf) == 3, "not copied");
}

// k1 was used, `a key` isn't one, and s1 comes twice.
#[test]
fn a_series_ends_before_a_key_that_cannot_be_taken(rt: HostRuntime) {
    for bad in ["k1", "a key", "s1"] {
        let (store, shelf) = inserted(&rt);
        let keys = ["s1", bad, "s2"];
        let (store, shelf) = series(&rt, store, shelf, &keys, done(1, COPIED[0]));
        let mut shelf = keeps(&rt, store, shelf, 1);
        must(&rt, held(&rt, &mut shelf) == 1, "another count is copied");
    }
}

// A series whose first key was used for another command, and one that was accepted before.
#[test]
fn the_first_key_is_answered_as_one_command(rt: HostRuntime) {
    let (store, shelf) = inserted(&rt);
    let taken = SeriesAnswer {
        answer: Answer::Refused(CallRefusal::KeyTaken),
        count: 0,
    };
    let (store, shelf) = series(&rt, store, shelf, &["k1", "s1"], Some(taken));
    let (store, shelf) = series(&rt, store, shelf, &["s1"], done(1, COPIED[0]));
    let repeated = SeriesAnswer {
        answer: Answer::Repeated(3, COPIED[0]),
        count: 0,
    };
    let (store, shelf) = series(&rt, store, shelf, &["s1", "s2"], Some(repeated));
    keeps(&rt, store, shelf, 1);
}

#[test]
fn without_a_key_or_with_too_many_nothing_is_done(rt: HostRuntime) {
    let (store, shelf) = inserted(&rt);
    let (store, shelf) = series(&rt, store, shelf, &[], None);
    let (store, shelf) = series(&rt, store, shelf, &["s1"; 65], None);
    keeps(&rt, store, shelf, 0);
}

// Two shelves hold the same on both images.
fn must_be_alike(rt: &impl Abort, one: &mut MemShelf, other: &mut MemShelf) {
    for name in ["a.img", "b.img"] {
        for place in 0u64..531 {
            let alike = got(rt, sector(one, name, place)) == got(rt, sector(other, name, place));
            must(rt, alike, name);
        }
    }
}

#[test]
fn a_series_leaves_what_its_advances_leave_one_by_one(rt: HostRuntime) {
    let (store, shelf) = inserted(&rt);
    let (store, shelf) = series(&rt, store, shelf, &KEYS, done(3, COPIED[2]));
    let mut together = keeps(&rt, store, shelf, 3);
    let (store, shelf) = inserted(&rt);
    let mut bench = got(&rt, open(rt.alloc(), store, shelf));
    let mut number = 2u64;
    for (key, reply) in KEYS.iter().zip(COPIED) {
        number = number.saturating_add(1);
        let answer = Answer::Done(number, reply);
        got(
            &rt,
            runs(rt.alloc(), &mut bench, key, "advance gm0 b.img", answer),
        );
    }
    let (store, shelf) = bench.close();
    let mut one_by_one = keeps(&rt, store, shelf, 3);
    must_be_alike(&rt, &mut together, &mut one_by_one);
}
