//! Series whose shelf or store stops. Of the shelf each sector of a run is a call: it stops at each
//! 61st, and at the last ones in turn; the store stops at each of its calls.

use super::{COPIED, KEYS, accepted, got, held, inserted, kept, must, unlike};
use gm_bench::{Answer, BenchFault, SeriesAnswer};
use gm_opener::open_files;
use gm_shelf::{FaultShelf, MemShelf, Shelf};
use gm_state::Reply;
use gm_test_bench::{INSERT, of_two, open, try_open, try_series, try_settle_waiting};
use gm_test_media::{ALL, Calls, StoreBytes};
use sqlite::{Alter, Connection, Files, MemStore, Options};
use sqlite_disk::{Crash, Fuse, Memory};
use std::process::Abort;

// A series is over long before it makes so many calls of a file, or 61 times so many of the shelf.
const MANY: u64 = 200;

// How far apart the calls of the shelf are at which a series stops, but for the last ones.
const APART: u64 = 61;

// How far apart they are if the opening after it stops too.
const FAR_APART: u64 = 241;

// What a series of three comes to that isn't stopped.
const DONE: SeriesAnswer = SeriesAnswer {
    answer: Answer::Done(
        3,
        Reply::Copied {
            held: 530,
            total: 530,
        },
    ),
    count: 3,
};

// A series, and its settling; whether a stop came within them.
fn is_stopped<S: Alter + Drop, H: Shelf + Drop>(
    rt: &(impl Abort + AllocGlobal),
    store: Connection<S>,
    shelf: H,
) -> (Option<BenchFault>, Connection<S>, H) {
    match got(rt, try_open(rt.alloc(), store, shelf)) {
        Ok(mut bench) => {
            let fault = match got(rt, try_series(rt.alloc(), &mut bench, &KEYS)) {
                Ok(answered) => {
                    must(rt, answered == Some(DONE), "another answer");
                    got(rt, try_settle_waiting(&mut bench)).err()
                }
                Err(fault) => Some(fault),
            };
            let (store, shelf) = bench.close();
            (fault, store, shelf)
        }
        Err(left) => (Some(left.fault), left.store, left.shelf),
    }
}

// What the next opening finds: all commands of the series, and then b.img holds all; or none, and
// then it holds nothing that it claims.
fn all_or_none<S: Alter + Drop, H: Shelf + Drop>(
    rt: &(impl Abort + AllocGlobal),
    store: Connection<S>,
    shelf: H,
) -> u64 {
    let mut bench = got(rt, open(rt.alloc(), store, shelf));
    let count = accepted(rt, &mut bench).saturating_sub(2);
    must(rt, count == 0 || count == 3, "a part of a series");
    let mut number = 2u64;
    for (key, reply) in KEYS.iter().zip(COPIED) {
        number = number.saturating_add(1);
        let expected = if count == 3 {
            Some((number, reply))
        } else {
            None
        };
        must(rt, kept(rt, &mut bench, key) == expected, key);
    }
    let (_, mut shelf) = bench.close();
    must(
        rt,
        count == 0 || held(rt, &mut shelf) == 3,
        "it claims what it lacks",
    );
    count
}

// A series whose shelf serves no call from the nth on, and what a crash then leaves, which picks
// so of the sectors that aren't synced; whether the stop came.
fn stop_shelf(rt: &(impl Abort + AllocGlobal), nth: u64, picks: &[u32]) -> bool {
    let (store, shelf) = inserted(rt);
    let (fault, store, shelf) = is_stopped(rt, store, FaultShelf::stop_from(shelf, nth));
    must(
        rt,
        fault.is_none() || fault == Some(BenchFault::Disk),
        "another fault",
    );
    let left = shelf
        .into_inner()
        .crash_image(picks)
        .expect(rt, "no memory");
    let count = all_or_none(rt, store, left);
    must(
        rt,
        fault.is_some() || count == 3,
        "an acknowledged series is missing",
    );
    fault.is_some()
}

// The same of a crash that loses what isn't synced, and of one that leaves it.
fn stop_shelf_both(rt: &(impl Abort + AllocGlobal), nth: u64) -> bool {
    let lost = stop_shelf(rt, nth, &[]);
    let stays = stop_shelf(rt, nth, &[u32::MAX; 600]);
    must(rt, lost == stays, "another run");
    lost
}

// Stops a series at each 61st call of its shelf; the first of these that it doesn't come to.
fn stop_apart(rt: &(impl Abort + AllocGlobal)) -> u64 {
    let mut nth = 1u64;
    let mut stopped = true;
    for _ in 0..MANY {
        if stopped {
            stopped = stop_shelf_both(rt, nth);
        }
        if stopped {
            nth = nth.saturating_add(APART);
        }
    }
    must(rt, !stopped, "no run ended");
    nth
}

#[test]
fn a_stop_of_the_shelf_leaves_all_of_a_series_or_none(rt: HostRuntime) {
    let end = stop_apart(&rt);
    let mut stops = 0u64;
    for nth in end.saturating_sub(APART)..end {
        stops = stops.saturating_add(u64::from(stop_shelf_both(&rt, nth)));
    }
    must(&rt, stops > 0, "a stop didn't come");
}

// An opening of what a stop left, whose shelf serves no call from this one on; whether the stop
// came.
fn stop_opening(
    rt: &(impl Abort + AllocGlobal),
    store: Connection<MemStore>,
    shelf: MemShelf,
    call: u64,
) -> (bool, Connection<MemStore>, MemShelf) {
    let shelf = FaultShelf::stop_from(shelf, call);
    match got(rt, try_open(rt.alloc(), store, shelf)) {
        Ok(bench) => {
            let (store, shelf) = bench.close();
            (false, store, shelf.into_inner())
        }
        Err(left) => {
            must(rt, left.fault == BenchFault::Disk, "another fault");
            (true, left.store, left.shelf.into_inner())
        }
    }
}

// A series whose shelf serves no call from the nth on, and an opening after it, whose shelf serves
// none from another on. Each time a crash loses what isn't synced. Whether either stop came.
fn stop_twice(rt: &(impl Abort + AllocGlobal), nth: u64, call: u64) -> (bool, bool) {
    let (store, shelf) = inserted(rt);
    let (fault, store, shelf) = is_stopped(rt, store, FaultShelf::stop_from(shelf, nth));
    let left = shelf.into_inner().crash_image(&[]).expect(rt, "no memory");
    let (stopped, store, shelf) = stop_opening(rt, store, left, call);
    let left = shelf.crash_image(&[]).expect(rt, "no memory");
    let count = all_or_none(rt, store, left);
    must(
        rt,
        fault.is_some() || count == 3,
        "an acknowledged series is missing",
    );
    (fault.is_some(), stopped)
}

// Stops an opening at each 61st of its calls, after a series that stopped at its nth; whether that
// did.
fn stop_openings(rt: &(impl Abort + AllocGlobal), nth: u64) -> bool {
    let mut call = 1u64;
    let mut came = (true, true);
    for _ in 0..MANY {
        if came.1 {
            came = stop_twice(rt, nth, call);
        }
        call = call.saturating_add(APART);
    }
    must(rt, !came.1, "no opening ended");
    came.0
}

#[test]
fn a_stop_of_the_opening_after_it_leaves_all_of_a_series_or_none(rt: HostRuntime) {
    let mut nth = 1u64;
    let mut stopped = true;
    for _ in 0..MANY {
        if stopped {
            stopped = stop_openings(&rt, nth);
        }
        nth = nth.saturating_add(FAR_APART);
    }
    must(&rt, !stopped, "no run ended");
}

// What a job over files leaves of both media: as they are, or as a crash leaves them, which loses
// what isn't synced.
#[derive(Drop)]
struct Left {
    fault: Option<BenchFault>,
    stopped: bool,
    files: Files<Fuse<Memory>>,
    shelf: MemShelf,
}

// A series over files that serve so many calls, from their opening to their close.
fn run_on_files(
    rt: &(impl Abort + AllocGlobal),
    bytes: &StoreBytes,
    shelf: MemShelf,
    calls: Calls,
) -> Left {
    let files = got(rt, bytes.files(rt.alloc(), calls));
    assert!(rt; files.may_be_used());
    let store = match open_files(rt.alloc(), files, Options::new(1)) {
        Ok(store) => store,
        Err((_, left)) => {
            return Left {
                fault: Some(BenchFault::Store),
                stopped: true,
                files: left.into_files(),
                shelf,
            };
        }
    };
    let (fault, store, shelf) = is_stopped(rt, store, shelf);
    let (stopped, files) = match store.close_files() {
        Ok(files) => (false, files),
        Err((_, store)) => (true, store.close()),
    };
    Left {
        fault,
        stopped,
        files,
        shelf,
    }
}

// gm0 of both in files, by k1 and k2; b.img is to be filled.
fn inserted_in_files(rt: &(impl Abort + AllocGlobal)) -> (StoreBytes, MemShelf) {
    let files = got(rt, StoreBytes::new(rt.alloc()).files(rt.alloc(), ALL));
    assert!(rt; files.may_be_used());
    let store = match open_files(rt.alloc(), files, Options::new(1)) {
        Ok(store) => store,
        Err(_) => panic!(rt; "no store"),
    };
    let (store, shelf) = got(rt, of_two(rt.alloc(), store, unlike(rt), INSERT));
    match store.close_files() {
        Ok(files) => (got(rt, StoreBytes::of(rt.alloc(), &files)), shelf),
        Err(_) => panic!(rt; "not closed"),
    }
}

// What the next opening finds in files.
fn found_in_files(rt: &(impl Abort + AllocGlobal), bytes: &StoreBytes, shelf: MemShelf) -> u64 {
    let files = got(rt, bytes.files(rt.alloc(), ALL));
    assert!(rt; files.may_be_used());
    match open_files(rt.alloc(), files, Options::new(1)) {
        Ok(store) => all_or_none(rt, store, shelf),
        Err(_) => panic!(rt; "no store"),
    }
}

// A series whose files serve so many calls; whether a stop came. Both what the files then hold and
// what a crash leaves of them lead on.
fn stop_files(rt: &(impl Abort + AllocGlobal), calls: Calls) -> bool {
    let (bytes, shelf) = inserted_in_files(rt);
    let Left {
        fault,
        stopped,
        mut files,
        shelf,
    } = run_on_files(rt, &bytes, shelf, calls);
    must(
        rt,
        fault.is_none() || fault == Some(BenchFault::Store),
        "another fault",
    );
    let standing = got(rt, StoreBytes::of(rt.alloc(), &files));
    files.log.crash();
    files.db.crash();
    let crashed = got(rt, StoreBytes::of(rt.alloc(), &files));
    let lost = shelf.crash_image(&[]).expect(rt, "no memory");
    let least = if fault.is_none() { 3 } else { 0 };
    must(
        rt,
        found_in_files(rt, &standing, shelf) >= least,
        "a series is missing",
    );
    must(
        rt,
        found_in_files(rt, &crashed, lost) >= least,
        "a series is missing after a crash",
    );
    stopped || fault.is_some()
}

#[test]
fn a_stop_of_the_store_leaves_all_of_a_series_or_none(rt: HostRuntime) {
    for stops_at_log in [true, false] {
        let mut ended = false;
        for served in 0..MANY {
            if !ended {
                let calls = if stops_at_log {
                    Calls { log: served, ..ALL }
                } else {
                    Calls { db: served, ..ALL }
                };
                ended = !stop_files(&rt, calls);
            }
        }
        must(&rt, ended, "no run ended");
    }
}
