//! A store of two files, of which one stops at each of its calls in turn, and what is found when it
//! is opened again.

use super::calls::{accept, accepted, load, number, open, settle};
use super::stored::stop_within_remove;
use super::{got, inserts, labels, must};
use gm_changes::Change;
use gm_opener::open_files;
use gm_registry::Registry;
use gm_test_media::{ALL, Calls, StoreBytes};
use sqlite::{Alter, Connection, Files, Options};
use sqlite_disk::{Crash, Disk};
use std::alloc::Global;
use std::process::Abort;

// A run is over long before it makes so many calls of one file.
const MANY: u64 = 400;

// What is asked of a store that is opened over files.
#[derive(Clone, Copy)]
pub(super) enum Job<'a> {
    // To load it, accept the change and settle it, as far as the store serves and says a state.
    Run(&'a Change, &'a str),
    // To run somebody else's statements.
    Edit(&'a str),
    // To tell what it holds.
    Look,
    // To make the registry that is stored as pending.
    LeavePending,
}

// How many rows are found.
#[derive(Clone, Copy, PartialEq, Eq)]
pub(super) struct Found {
    pub(super) commands: u64,
    pub(super) components: i64,
    pub(super) intents: i64,
}

// What was done of a job: what was acknowledged of a run before the stop, whether the statements
// were run, and what a look found.
#[derive(Clone, Copy)]
pub(super) struct Told {
    accepted: bool,
    settled: bool,
    edited: bool,
    pub(super) found: Option<Found>,
}

const NOTHING: Told = Told {
    accepted: false,
    settled: false,
    edited: false,
    found: None,
};

fn run_on<S: Alter>(alloc: Global, registry: &mut Registry<S>, change: &Change, key: &str) -> Told {
    let loaded = load(alloc, registry).is_ok();
    let accepted = loaded && accept(registry, change, key, "words").is_ok();
    let settled = accepted && settle(registry).is_ok();
    Told {
        accepted,
        settled,
        ..NOTHING
    }
}

fn rows_in<S: Alter>(store: &mut Connection<S>, commands: u64) -> Option<Found> {
    let components = number(store, "SELECT count(*) FROM components").ok()?;
    let intents = number(store, "SELECT count(*) FROM intents").ok()?;
    Some(Found {
        commands,
        components,
        intents,
    })
}

// Tells what a registry holds.
fn look<S: Alter + Drop>(mut registry: Registry<S>) -> (Told, Connection<S>) {
    let count = accepted(&mut registry).ok();
    let mut store = registry.close();
    let found = match count {
        Some(commands) => rows_in(&mut store, commands),
        None => None,
    };
    let told = Told { found, ..NOTHING };
    (told, store)
}

// Opens the registry for a job, unless that is somebody else's.
fn perform<S: Alter + Drop>(
    rt: &(impl Abort + AllocGlobal),
    mut store: Connection<S>,
    job: &Job<'_>,
) -> (Told, Connection<S>) {
    match job {
        Job::Edit(statements) => {
            let edited = store.execute_batch(statements).is_ok();
            let told = Told { edited, ..NOTHING };
            (told, store)
        }
        Job::LeavePending => (NOTHING, stop_within_remove(rt, store)),
        Job::Run(change, key) => match open(store) {
            Ok(mut registry) => {
                let told = run_on(rt.alloc(), &mut registry, change, key);
                (told, registry.close())
            }
            Err(fault) => (NOTHING, fault.store),
        },
        Job::Look => match open(store) {
            Ok(registry) => look(registry),
            Err(fault) => (NOTHING, fault.store),
        },
    }
}

// The same on files; they come back with whether they stopped.
fn perform_on_files<D: Disk + Drop>(
    rt: &(impl Abort + AllocGlobal),
    files: Files<D>,
    job: &Job<'_>,
) -> (Told, bool, Files<D>) {
    if !files.may_be_used() {
        return (NOTHING, true, files);
    }
    let store = match open_files(rt.alloc(), files, Options::new(1)) {
        Ok(store) => store,
        Err((_, left)) => return (NOTHING, true, left.into_files()),
    };
    let (told, store) = perform(rt, store, job);
    match store.close_files() {
        Ok(files) => (told, false, files),
        Err((_, store)) => (told, true, store.close()),
    }
}

// What a job leaves of files: as they read, and after a crash.
#[derive(Drop)]
pub(super) struct Left {
    pub(super) told: Told,
    pub(super) stopped: bool,
    pub(super) read: StoreBytes,
    pub(super) crashed: StoreBytes,
}

/// A job over copies of these files, of which each serves so many calls. No other function names a
/// store of two files.
pub(super) fn serve(
    rt: &(impl Abort + AllocGlobal),
    from: &StoreBytes,
    calls: Calls,
    job: &Job<'_>,
) -> Left {
    let files = got(rt, from.files(rt.alloc(), calls));
    let (told, stopped, mut left) = perform_on_files(rt, files, job);
    let read = got(rt, StoreBytes::of(rt.alloc(), &left));
    left.log.crash();
    left.db.crash();
    Left {
        told,
        stopped,
        read,
        crashed: got(rt, StoreBytes::of(rt.alloc(), &left)),
    }
}

/// The files after a job that doesn't stop.
fn after(rt: &(impl Abort + AllocGlobal), from: &StoreBytes, job: &Job<'_>) -> Left {
    let left = serve(rt, from, ALL, job);
    must(rt, !left.stopped, "it stopped");
    left
}

/// The files after these statements of somebody else's.
pub(super) fn edited(
    rt: &(impl Abort + AllocGlobal),
    from: &StoreBytes,
    statements: &str,
) -> StoreBytes {
    let left = after(rt, from, &Job::Edit(statements));
    must(rt, left.told.edited, "not edited");
    left.read
}

/// What is found in files that don't stop.
pub(super) fn look_at(rt: &(impl Abort + AllocGlobal), left: &StoreBytes) -> Found {
    let told = after(rt, left, &Job::Look).told;
    told.found.expect(rt, "not opened again")
}

/// A registry with one component, settled.
pub(super) fn one_command(rt: &(impl Abort + AllocGlobal)) -> StoreBytes {
    let run = Job::Run(&labels(rt), "k1");
    let left = after(rt, &StoreBytes::new(rt.alloc()), &run);
    must(rt, left.told.settled, "not settled");
    left.read
}

/// The registry that is stored as pending.
pub(super) fn left_pending(rt: &(impl Abort + AllocGlobal)) -> StoreBytes {
    after(rt, &StoreBytes::new(rt.alloc()), &Job::LeavePending).read
}

// Each command puts a component more, and asks for the metadata of all.
fn must_be_between(rt: &impl Abort, found: Found, before: u64, told: Told) {
    let count = found.commands;
    let is_known = count == before || count.checked_sub(1) == Some(before);
    must(rt, is_known, "neither before nor after");
    let is_whole = i64::try_from(count) == Ok(found.components);
    must(rt, is_whole, "half a transaction");
    let of_all = count != before && found.intents == found.components;
    must(
        rt,
        found.intents == 0 || of_all,
        "intents of no command, or some of them",
    );
    let is_kept = !told.accepted || count != before;
    must(rt, is_kept, "an acknowledged command is lost");
    let is_settled = !told.settled || found.intents == 0;
    must(rt, is_settled, "settled intents are back");
}

// One run with a stop, and whether it came; the files are checked as they read and as a crash
// leaves them.
fn stop_at(rt: &(impl Abort + AllocGlobal), from: &StoreBytes, before: u64, calls: Calls) -> bool {
    let (change, key) = if before == 0 {
        (labels(rt), "k1")
    } else {
        (inserts(rt), "k2")
    };
    let left = serve(rt, from, calls, &Job::Run(&change, key));
    must_be_between(rt, look_at(rt, &left.read), before, left.told);
    must_be_between(rt, look_at(rt, &left.crashed), before, left.told);
    left.stopped
}

// Stops at each call of the first file, then of the second, until a run ends without a stop.
fn stop_at_each(rt: &(impl Abort + AllocGlobal), from: &StoreBytes, before: u64) {
    let mut log_ended = false;
    let mut db_ended = false;
    for calls in 0..MANY {
        log_ended = log_ended || !stop_at(rt, from, before, Calls { log: calls, ..ALL });
        db_ended = db_ended || !stop_at(rt, from, before, Calls { db: calls, ..ALL });
    }
    must(rt, log_ended && db_ended, "no run ended");
}

#[test]
fn a_stop_while_a_registry_is_made(rt: HostRuntime) {
    stop_at_each(&rt, &StoreBytes::new(rt.alloc()), 0);
}

#[test]
fn a_stop_within_a_command(rt: HostRuntime) {
    stop_at_each(&rt, &one_command(&rt), 1);
}
