//! Scripts whose shelf stops at each of its calls in turn, in each way, and the openings after
//! that, which stop so too: whatever a crash then leaves is found to be a station of the script.

use super::found::must_claim_truly;
use super::media::{
    Job, Left, Media, Settles, Told, copy_of, crash_image, fresh, look, perform_on_files,
};
use super::scripts::{ADOPTED, FILLED, LOST, PATCHED, Script};
use super::{got, must};
use gm_bench::BenchFault;
use gm_shelf::{FaultShelf, MemShelf, Shelf};
use gm_test_media::{ALL, StoreBytes, sector};
use std::process::Abort;

/// A script is over long before it makes so many calls of the shelf.
pub(super) const MANY: u64 = 200;

/// How a shelf stops at its nth call.
#[derive(Clone, Copy)]
pub(super) enum Stop {
    /// That call fails before it acts, and so does each later one.
    Before,
    /// It acts and fails, and each later one fails before it acts.
    Behind,
    /// It alone fails, before it acts.
    OnceBefore,
    /// It alone fails, and has acted.
    OnceBehind,
    /// As `Before`, for want of memory.
    Starved,
}

// Each way in which a device fails.
const STOPS: [Stop; 4] = [
    Stop::Before,
    Stop::Behind,
    Stop::OnceBefore,
    Stop::OnceBehind,
];

// At which calls of its shelf a script is stopped: each of these is a test's share.
#[derive(Clone, Copy)]
enum Turns {
    Odd,
    Even,
}

impl Turns {
    fn has(self, nth: u64) -> bool {
        match self {
            Turns::Odd => nth % 2 == 1,
            Turns::Even => nth % 2 == 0,
        }
    }
}

/// A shelf that stops so.
pub(super) fn stopping<H: Shelf>(stop: Stop, shelf: H, nth: u64) -> FaultShelf<H> {
    match stop {
        Stop::Before => FaultShelf::stop_from(shelf, nth),
        Stop::Behind => FaultShelf::stop_after(shelf, nth),
        Stop::OnceBefore => FaultShelf::fail_once(shelf, nth, false),
        Stop::OnceBehind => FaultShelf::fail_once(shelf, nth, true),
        Stop::Starved => FaultShelf::starve_from(shelf, nth),
    }
}

/// How a bench says that its shelf stopped so.
pub(super) fn fault_of(stop: Stop) -> BenchFault {
    match stop {
        Stop::Before | Stop::Behind | Stop::OnceBefore | Stop::OnceBehind => BenchFault::Disk,
        Stop::Starved => BenchFault::Memory,
    }
}

/// A job over media whose shelf stops so at its nth call, and what it leaves of them.
pub(super) fn stop_shelf(
    rt: &(impl Abort + AllocGlobal),
    store: &StoreBytes,
    shelf: &MemShelf,
    job: Job,
    stop: Stop,
    nth: u64,
) -> (Told, Media) {
    let files = got(rt, store.files(rt.alloc(), ALL));
    let shelf = stopping(stop, copy_of(rt, shelf), nth);
    let Left {
        told,
        stopped,
        files,
        shelf,
    } = perform_on_files(rt, files, shelf, job);
    must(rt, !stopped, "the store stopped");
    let well = told.fault.is_none() || told.fault == Some(fault_of(stop));
    must(rt, well, "another fault");
    let media = Media {
        store: got(rt, StoreBytes::of(rt.alloc(), &files)),
        shelf: shelf.into_inner(),
    };
    (told, media)
}

// Whether two shelves hold the same.
fn are_alike(rt: &impl Abort, first: &mut MemShelf, second: &mut MemShelf) -> bool {
    let mut alike = true;
    for name in ["a.img", "b.img", "c.img"] {
        for place in 0u64..4 {
            let held = got(rt, sector(first, name, place));
            alike = alike && held == got(rt, sector(second, name, place));
        }
    }
    alike
}

// Adds an image, if it isn't among these.
fn push_image(rt: &impl Abort, images: &mut Vec<MemShelf>, mut image: MemShelf) {
    let mut is_new = true;
    for other in images.iter_mut() {
        is_new = is_new && !are_alike(rt, other, &mut image);
    }
    if is_new {
        images.push(image).expect(rt, "no memory");
    }
}

// Each image that a crash may leave of a shelf, once. No more than three sectors are unsynced at a
// time, each of them written once.
fn crash_images(rt: &(impl Abort + AllocGlobal), shelf: &MemShelf) -> Vec<MemShelf> {
    let mut synced = crash_image(rt, shelf, &[]);
    let mut fourth = crash_image(rt, shelf, &[0, 0, 0, 1, 1, 1, 1, 1, 1, 1, 1, 1]);
    let alike = are_alike(rt, &mut synced, &mut fourth);
    must(rt, alike, "a fourth sector is unsynced");
    let mut images = Vec::new(rt.alloc());
    for number in 0u32..8 {
        let picks = [number % 2, number / 2 % 2, number / 4];
        push_image(rt, &mut images, crash_image(rt, shelf, &picks));
    }
    images
}

// Opens media that a stop left of a script of which so many commands were answered; how much the
// opening carried out. No image claimed a sector that it lacks before that: the opening goes over a
// copy. A store that stopped may have accepted one more.
fn visit(
    rt: &(impl Abort + AllocGlobal),
    store: &StoreBytes,
    image: &mut MemShelf,
    script: Script,
    done: u64,
) -> u64 {
    let found = look(rt, store, image, script, done);
    must_claim_truly(rt, image, script, found);
    found.pending
}

// Visits each image that a crash may leave of media; how many.
fn visit_each(rt: &(impl Abort + AllocGlobal), left: &Media, script: Script, done: u64) -> u64 {
    let mut states: u64 = 0;
    for mut image in crash_images(rt, &left.shelf) {
        visit(rt, &left.store, &mut image, script, done);
        states = states.saturating_add(1);
    }
    states
}

/// Stops an opening so at each call of its shelf in turn, until one ends, and visits what each stop
/// leaves; how many states those are. It has so many writes to carry out.
pub(super) fn stop_opening(
    rt: &(impl Abort + AllocGlobal),
    store: &StoreBytes,
    image: &MemShelf,
    opening: Job,
    stop: Stop,
    pending: u64,
) -> u64 {
    let mut states: u64 = 0;
    let mut ended = false;
    for nth in 1..MANY {
        if !ended {
            let (told, left) = stop_shelf(rt, store, image, opening, stop, nth);
            ended = told.fault.is_none();
            if ended {
                must(rt, nth > pending, "an opening without its writes");
            } else {
                let more = visit_each(rt, &left, opening.script, opening.before);
                states = states.saturating_add(more);
            }
        }
    }
    must(rt, ended, "no opening ended");
    states
}

// Stops the opening of each image that a crash may leave of media, in each way; how many states
// those are.
fn stop_openings(rt: &(impl Abort + AllocGlobal), left: &Media, script: Script, done: u64) -> u64 {
    let opening = Job {
        script,
        before: done,
        calls: 0,
        asks_again: false,
        settles: Settles::Itself,
    };
    let mut states: u64 = 0;
    for mut image in crash_images(rt, &left.shelf) {
        let pending = visit(rt, &left.store, &mut image, script, done);
        if pending > 0 {
            for stop in STOPS {
                let more = stop_opening(rt, &left.store, &image, opening, stop, pending);
                states = states.saturating_add(more);
            }
        }
    }
    states
}

// A whole script, of which each command is settled so.
fn whole(script: Script, settles: Settles) -> Job {
    match settles {
        Settles::Itself => Job {
            script,
            before: 0,
            calls: script.length().saturating_mul(3),
            asks_again: true,
            settles,
        },
        Settles::ByTheNext => Job::of_commands_in_turn(script, 0, script.length()),
    }
}

// Stops a job of a whole script so at each of these calls of its shelf, until a run ends, and the
// openings after it; how many states those are.
fn stop_job(rt: &(impl Abort + AllocGlobal), job: Job, stop: Stop, turns: Turns) -> u64 {
    let script = job.script;
    let start = fresh(rt, script);
    let mut states: u64 = 0;
    let mut ended = false;
    for nth in 1..MANY {
        if !ended && turns.has(nth) {
            let (told, left) = stop_shelf(rt, &start.store, &start.shelf, job, stop, nth);
            ended = told.fault.is_none();
            if ended {
                let came = told.done == script.length() && nth > 20;
                must(rt, came, "a stop didn't come");
            } else {
                states = states.saturating_add(visit_each(rt, &left, script, told.done));
                states = states.saturating_add(stop_openings(rt, &left, script, told.done));
            }
        }
    }
    must(rt, ended, "no run ended");
    states
}

// Stops a job so, of which there are at least so many states.
fn stop_turns_of(
    rt: &(impl Abort + AllocGlobal + Print),
    job: Job,
    stop: Stop,
    turns: Turns,
    least: u64,
) {
    let states = stop_job(rt, job, stop, turns);
    println!(rt; "{states} states behind stops of the shelf").expect(rt, "no output");
    must(rt, states >= least, "fewer states than there were");
}

// The same of a script whose commands are each settled by a call of their own.
fn stop_turns(
    rt: &(impl Abort + AllocGlobal + Print),
    script: Script,
    stop: Stop,
    turns: Turns,
    least: u64,
) {
    stop_turns_of(rt, whole(script, Settles::Itself), stop, turns, least);
}

// The same of a script each command of which settles the one before it, that one asked again and
// a refused one between them.
fn stop_turns_in_turn(
    rt: &(impl Abort + AllocGlobal + Print),
    script: Script,
    turns: Turns,
    least: u64,
) {
    stop_turns_of(
        rt,
        whole(script, Settles::ByTheNext),
        Stop::Behind,
        turns,
        least,
    );
}

// A label, an insert, an advance, a deactivate and an activate.
#[test]
fn a_shelf_that_stops_at_odd_calls_while_a_mirror_is_filled(rt: HostRuntime) {
    stop_turns(&rt, FILLED, Stop::Before, Turns::Odd, 400);
}

#[test]
fn a_shelf_that_stops_at_even_calls_while_a_mirror_is_filled(rt: HostRuntime) {
    stop_turns(&rt, FILLED, Stop::Before, Turns::Even, 400);
}

#[test]
fn a_shelf_that_acts_and_stops_at_odd_calls_while_a_mirror_is_filled(rt: HostRuntime) {
    stop_turns(&rt, FILLED, Stop::Behind, Turns::Odd, 400);
}

#[test]
fn a_shelf_that_acts_and_stops_at_even_calls_while_a_mirror_is_filled(rt: HostRuntime) {
    stop_turns(&rt, FILLED, Stop::Behind, Turns::Even, 400);
}

#[test]
fn a_shelf_that_fails_once_at_odd_calls_while_a_mirror_is_filled(rt: HostRuntime) {
    stop_turns(&rt, FILLED, Stop::OnceBefore, Turns::Odd, 400);
}

#[test]
fn a_shelf_that_fails_once_at_even_calls_while_a_mirror_is_filled(rt: HostRuntime) {
    stop_turns(&rt, FILLED, Stop::OnceBefore, Turns::Even, 400);
}

#[test]
fn a_shelf_that_acts_and_fails_once_at_odd_calls_while_a_mirror_is_filled(rt: HostRuntime) {
    stop_turns(&rt, FILLED, Stop::OnceBehind, Turns::Odd, 400);
}

#[test]
fn a_shelf_that_acts_and_fails_once_at_even_calls_while_a_mirror_is_filled(rt: HostRuntime) {
    stop_turns(&rt, FILLED, Stop::OnceBehind, Turns::Even, 400);
}

// A label, an insert, an advance, a lost and a forget.
#[test]
fn a_shelf_that_stops_at_odd_calls_while_a_component_is_lost(rt: HostRuntime) {
    stop_turns(&rt, LOST, Stop::Before, Turns::Odd, 400);
}

#[test]
fn a_shelf_that_stops_at_even_calls_while_a_component_is_lost(rt: HostRuntime) {
    stop_turns(&rt, LOST, Stop::Before, Turns::Even, 400);
}

#[test]
fn a_shelf_that_acts_and_stops_at_odd_calls_while_a_component_is_lost(rt: HostRuntime) {
    stop_turns(&rt, LOST, Stop::Behind, Turns::Odd, 400);
}

#[test]
fn a_shelf_that_acts_and_stops_at_even_calls_while_a_component_is_lost(rt: HostRuntime) {
    stop_turns(&rt, LOST, Stop::Behind, Turns::Even, 400);
}

#[test]
fn a_shelf_that_fails_once_at_odd_calls_while_a_component_is_lost(rt: HostRuntime) {
    stop_turns(&rt, LOST, Stop::OnceBefore, Turns::Odd, 400);
}

#[test]
fn a_shelf_that_fails_once_at_even_calls_while_a_component_is_lost(rt: HostRuntime) {
    stop_turns(&rt, LOST, Stop::OnceBefore, Turns::Even, 400);
}

#[test]
fn a_shelf_that_acts_and_fails_once_at_odd_calls_while_a_component_is_lost(rt: HostRuntime) {
    stop_turns(&rt, LOST, Stop::OnceBehind, Turns::Odd, 400);
}

#[test]
fn a_shelf_that_acts_and_fails_once_at_even_calls_while_a_component_is_lost(rt: HostRuntime) {
    stop_turns(&rt, LOST, Stop::OnceBehind, Turns::Even, 400);
}

// An adopt, a configure, a rebuild, an advance, a remove, a clear and a destroy.
#[test]
fn a_shelf_that_stops_at_odd_calls_while_a_mirror_is_taken_apart(rt: HostRuntime) {
    stop_turns(&rt, ADOPTED, Stop::Before, Turns::Odd, 120);
}

#[test]
fn a_shelf_that_stops_at_even_calls_while_a_mirror_is_taken_apart(rt: HostRuntime) {
    stop_turns(&rt, ADOPTED, Stop::Before, Turns::Even, 120);
}

#[test]
fn a_shelf_that_acts_and_stops_at_odd_calls_while_a_mirror_is_taken_apart(rt: HostRuntime) {
    stop_turns(&rt, ADOPTED, Stop::Behind, Turns::Odd, 120);
}

#[test]
fn a_shelf_that_acts_and_stops_at_even_calls_while_a_mirror_is_taken_apart(rt: HostRuntime) {
    stop_turns(&rt, ADOPTED, Stop::Behind, Turns::Even, 120);
}

#[test]
fn a_shelf_that_fails_once_at_odd_calls_while_a_mirror_is_taken_apart(rt: HostRuntime) {
    stop_turns(&rt, ADOPTED, Stop::OnceBefore, Turns::Odd, 120);
}

#[test]
fn a_shelf_that_fails_once_at_even_calls_while_a_mirror_is_taken_apart(rt: HostRuntime) {
    stop_turns(&rt, ADOPTED, Stop::OnceBefore, Turns::Even, 120);
}

#[test]
fn a_shelf_that_acts_and_fails_once_at_odd_calls_while_a_mirror_is_taken_apart(rt: HostRuntime) {
    stop_turns(&rt, ADOPTED, Stop::OnceBehind, Turns::Odd, 120);
}

#[test]
fn a_shelf_that_acts_and_fails_once_at_even_calls_while_a_mirror_is_taken_apart(rt: HostRuntime) {
    stop_turns(&rt, ADOPTED, Stop::OnceBehind, Turns::Even, 120);
}

// A label, an insert, an advance, a patch, a deactivate and a patch.
#[test]
fn a_shelf_that_stops_at_odd_calls_while_a_mirror_is_patched(rt: HostRuntime) {
    stop_turns(&rt, PATCHED, Stop::Before, Turns::Odd, 400);
}

#[test]
fn a_shelf_that_stops_at_even_calls_while_a_mirror_is_patched(rt: HostRuntime) {
    stop_turns(&rt, PATCHED, Stop::Before, Turns::Even, 400);
}

#[test]
fn a_shelf_that_acts_and_stops_at_odd_calls_while_a_mirror_is_patched(rt: HostRuntime) {
    stop_turns(&rt, PATCHED, Stop::Behind, Turns::Odd, 400);
}

#[test]
fn a_shelf_that_acts_and_stops_at_even_calls_while_a_mirror_is_patched(rt: HostRuntime) {
    stop_turns(&rt, PATCHED, Stop::Behind, Turns::Even, 400);
}

#[test]
fn a_shelf_that_fails_once_at_odd_calls_while_a_mirror_is_patched(rt: HostRuntime) {
    stop_turns(&rt, PATCHED, Stop::OnceBefore, Turns::Odd, 400);
}

#[test]
fn a_shelf_that_fails_once_at_even_calls_while_a_mirror_is_patched(rt: HostRuntime) {
    stop_turns(&rt, PATCHED, Stop::OnceBefore, Turns::Even, 400);
}

#[test]
fn a_shelf_that_acts_and_fails_once_at_odd_calls_while_a_mirror_is_patched(rt: HostRuntime) {
    stop_turns(&rt, PATCHED, Stop::OnceBehind, Turns::Odd, 400);
}

#[test]
fn a_shelf_that_acts_and_fails_once_at_even_calls_while_a_mirror_is_patched(rt: HostRuntime) {
    stop_turns(&rt, PATCHED, Stop::OnceBehind, Turns::Even, 400);
}

#[test]
fn a_shelf_that_stops_at_odd_calls_while_commands_settle_those_before(rt: HostRuntime) {
    stop_turns_in_turn(&rt, FILLED, Turns::Odd, 400);
}

#[test]
fn a_shelf_that_stops_at_even_calls_while_commands_settle_those_before(rt: HostRuntime) {
    stop_turns_in_turn(&rt, FILLED, Turns::Even, 400);
}

#[test]
fn a_shelf_that_stops_at_odd_calls_while_patches_settle_those_before(rt: HostRuntime) {
    stop_turns_in_turn(&rt, PATCHED, Turns::Odd, 400);
}

#[test]
fn a_shelf_that_stops_at_even_calls_while_patches_settle_those_before(rt: HostRuntime) {
    stop_turns_in_turn(&rt, PATCHED, Turns::Even, 400);
}
