//! A bench that its shelf closed, since its device failed or memory is wanting: each later call
//! does nothing, and both media stay. And one that was closed between two calls.

use super::media::{Job, Media, Settles, Told, fresh, look};
use super::scripts::{ADOPTED, FILLED, LOST, PATCHED, Script};
use super::shelf_stops::{MANY, Stop, fault_of, stop_shelf, stopping};
use super::{got, must};
use gm_bench::{Bench, BenchFault, Phase};
use gm_shelf::Shelf;
use gm_test_bench::{
    open, try_accept, try_apply, try_audit, try_last, try_run, try_settle, try_view,
};
use gm_test_media::{label, memory, must_be_alike};
use sqlite::{Alter, Connection};
use std::process::Abort;

// The first four commands of the script, each accepted, carried out and settled.
const CALLS: u64 = 12;

const WORDS: &str = "label --mid 8 --did 1 gm8 c.img";

/// Each call of a bench that a fault closed.
pub(super) fn must_be_closed<S: Alter, H: Shelf>(
    rt: &(impl Abort + AllocGlobal),
    bench: &mut Bench<S, H>,
) {
    let closed = Some(BenchFault::Closed);
    must(rt, bench.phase() == Phase::Failed, "not closed");
    let accepted = got(rt, try_accept(rt.alloc(), bench, "k8", WORDS));
    must(rt, accepted.err() == closed, "accepted");
    must(rt, got(rt, try_apply(bench)).err() == closed, "carried out");
    must(rt, got(rt, try_settle(bench)).err() == closed, "settled");
    let run = got(rt, try_run(rt.alloc(), bench, "k8", WORDS));
    must(rt, run.err() == closed, "run");
    must(rt, try_view(rt.alloc(), bench).err() == closed, "viewed");
    must(rt, try_audit(rt.alloc(), bench).err() == closed, "audited");
    let last = try_last(bench, got(rt, label("a.img")));
    must(rt, last.err() == closed, "a last sector");
    must(rt, bench.phase() == Phase::Failed, "open again");
}

// A run of the script whose shelf stops so at its nth call, asked each call again if that is
// wanted, and what it leaves.
fn run_to_stop(
    rt: &(impl Abort + AllocGlobal),
    stop: Stop,
    nth: u64,
    asks_again: bool,
) -> (Told, Media) {
    let start = fresh(rt, FILLED);
    let job = Job {
        script: FILLED,
        before: 0,
        calls: CALLS,
        asks_again,
        settles: Settles::Itself,
    };
    stop_shelf(rt, &start.store, &start.shelf, job, stop, nth)
}

// Two runs with the same stop, of which one goes on with calls that are closed, leave the same;
// whether the stop came.
fn leave_the_same(rt: &(impl Abort + AllocGlobal), stop: Stop, nth: u64) -> bool {
    let (told, mut plain) = run_to_stop(rt, stop, nth, false);
    let (more, mut asked) = run_to_stop(rt, stop, nth, true);
    must(
        rt,
        more.done == told.done && more.fault == told.fault,
        "another run",
    );
    got(rt, must_be_alike(&mut plain.shelf, &mut asked.shelf));
    let same_log = plain.store.log.as_slice() == asked.store.log.as_slice();
    let same_db = plain.store.db.as_slice() == asked.store.db.as_slice();
    must(rt, same_log && same_db, "another registry");
    look(rt, &asked.store, &asked.shelf, FILLED, told.done);
    told.fault.is_some()
}

// Stops so at each call of the shelf in turn, until a run ends without a stop.
fn stop_at_each(rt: &(impl Abort + AllocGlobal), stop: Stop) {
    let mut ended = false;
    for nth in 1..MANY {
        if !ended {
            ended = !leave_the_same(rt, stop, nth);
            must(rt, !ended || nth > 20, "a stop didn't come");
        }
    }
    must(rt, ended, "no run ended");
}

// A shelf that fails once serves again; the bench stays closed all the same.
#[test]
fn a_closed_bench_does_nothing(rt: HostRuntime) {
    for stop in [
        Stop::Before,
        Stop::OnceBefore,
        Stop::OnceBehind,
        Stop::Starved,
    ] {
        stop_at_each(&rt, stop);
    }
}

// A look at a shelf that serves no call closes the bench; the registry is still viewed before.
fn closes_at_a_look<S: Alter + Drop, H: Shelf + Drop>(
    rt: &(impl Abort + AllocGlobal),
    store: Connection<S>,
    shelf: H,
    fault: BenchFault,
) {
    let mut bench = got(rt, open(rt.alloc(), store, shelf));
    must(rt, try_view(rt.alloc(), &mut bench).is_ok(), "not viewed");
    let last = try_last(&mut bench, got(rt, label("a.img")));
    must(rt, last.err() == Some(fault), "another fault");
    must_be_closed(rt, &mut bench);
}

#[test]
fn a_look_that_fails_closes(rt: HostRuntime) {
    for stop in [Stop::Before, Stop::OnceBehind, Stop::Starved] {
        let shelf = stopping(stop, FILLED.shelf(&rt), 1);
        closes_at_a_look(&rt, got(&rt, memory(rt.alloc())), shelf, fault_of(stop));
    }
}

// A script that is closed after so many calls: the opening carries out what was accepted and not
// settled.
fn closes_after(rt: &(impl Abort + AllocGlobal), script: Script, calls: u64) {
    let start = fresh(rt, script);
    let job = Job {
        script,
        before: 0,
        calls,
        asks_again: false,
        settles: Settles::Itself,
    };
    let (told, left) = stop_shelf(rt, &start.store, &start.shelf, job, Stop::Before, MANY);
    let well = told.fault.is_none() && told.done == calls.div_ceil(3);
    must(rt, well, "another count of commands");
    let found = look(rt, &left.store, &left.shelf, script, told.done);
    let is_settled = calls % 3 == 0;
    let asked = script.station(rt, told.done).writes;
    let pending = if is_settled { 0 } else { asked };
    must(
        rt,
        found.pending == pending,
        "another count of what was pending",
    );
}

#[test]
fn a_bench_that_is_closed_goes_on(rt: HostRuntime) {
    for script in [FILLED, LOST, ADOPTED, PATCHED] {
        for calls in 0..=script.length().saturating_mul(3) {
            closes_after(&rt, script, calls);
        }
    }
}
