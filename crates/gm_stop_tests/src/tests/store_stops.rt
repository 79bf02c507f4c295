//! Scripts over a store of two files, of which one stops at each of its calls in turn, and what is
//! found when both media are opened again, also by an opening whose shelf stops.

use super::media::{
    Job, Left, Media, Settles, copy_of, crash_image, fresh, look, perform_on_files,
};
use super::scripts::{ADOPTED, FILLED, LOST, PATCHED, Script};
use super::shelf_stops::{Stop, stop_opening};
use super::{got, must};
use gm_bench::BenchFault;
use gm_shelf::MemShelf;
use gm_test_media::{ALL, Calls, StoreBytes};
use sqlite_disk::{Crash, Fuse, Memory};
use std::process::Abort;

// A run is over long before it makes so many calls of one file.
const MANY: u64 = 400;

// Which of its two files a store stops at.
#[derive(Clone, Copy)]
enum StopsAt {
    Log,
    Database,
}

// What a job leaves of both media: as they stand, and as a crash leaves them, which loses of both
// what isn't synced.
#[derive(Drop)]
struct Outcome {
    done: u64,
    fault: Option<BenchFault>,
    stopped: bool,
    standing: Media,
    crashed: Media,
}

fn outcome_of(rt: &(impl Abort + AllocGlobal), left: Left<Fuse<Memory>, MemShelf>) -> Outcome {
    let Left {
        told,
        stopped,
        mut files,
        shelf,
    } = left;
    let crashed_shelf = crash_image(rt, &shelf, &[]);
    let standing = Media {
        store: got(rt, StoreBytes::of(rt.alloc(), &files)),
        shelf,
    };
    files.log.crash();
    files.db.crash();
    let crashed = Media {
        store: got(rt, StoreBytes::of(rt.alloc(), &files)),
        shelf: crashed_shelf,
    };
    Outcome {
        done: told.done,
        fault: told.fault,
        stopped,
        standing,
        crashed,
    }
}

// A job over files that serve so many calls.
fn run_for(rt: &(impl Abort + AllocGlobal), from: &Media, calls: Calls, job: Job) -> Outcome {
    let files = got(rt, from.store.files(rt.alloc(), calls));
    outcome_of(
        rt,
        perform_on_files(rt, files, copy_of(rt, &from.shelf), job),
    )
}

// What a job leaves over files that don't stop.
fn run(rt: &(impl Abort + AllocGlobal), from: &Media, job: Job) -> Media {
    let run = run_for(rt, from, ALL, job);
    must(rt, !run.stopped && run.fault.is_none(), "it stopped");
    run.standing
}

// Looks at media that a stop of the store left, and if its opening has something to carry out,
// stops the shelf of that too; how many states those are.
fn visit(rt: &(impl Abort + AllocGlobal), left: &Media, job: Job, done: u64) -> u64 {
    let pending = look(rt, &left.store, &left.shelf, job.script, done).pending;
    let is_command = job.calls > 0;
    if pending == 0 || !is_command {
        return 1;
    }
    let opening = Job {
        before: done,
        calls: 0,
        settles: Settles::Itself,
        ..job
    };
    stop_opening(rt, &left.store, &left.shelf, opening, Stop::Behind, pending).saturating_add(1)
}

// One run with a stop: how many states it leads to, none if the stop didn't come, after which
// nothing is pending. What a crash leaves is looked at as well.
fn stop_at(rt: &(impl Abort + AllocGlobal), from: &Media, calls: Calls, job: Job) -> u64 {
    let run = run_for(rt, from, calls, job);
    let Media { store, shelf } = &run.crashed;
    let pending = look(rt, store, shelf, job.script, run.done).pending;
    if run.fault.is_none() {
        must(rt, pending == 0, "what was settled is pending again");
        if !run.stopped {
            return 0;
        }
    }
    let told = run.fault.is_none() || run.fault == Some(BenchFault::Store);
    must(rt, told, "another fault");
    visit(rt, &run.standing, job, run.done).saturating_add(1)
}

// Stops at each call of a file in turn, until a run ends without a stop; how many states those are.
fn stop_file(rt: &(impl Abort + AllocGlobal), from: &Media, job: Job, stops_at: StopsAt) -> u64 {
    let mut states: u64 = 0;
    let mut ended = false;
    for served in 0..MANY {
        if !ended {
            let calls = match stops_at {
                StopsAt::Log => Calls { log: served, ..ALL },
                StopsAt::Database => Calls { db: served, ..ALL },
            };
            let more = stop_at(rt, from, calls, job);
            ended = more == 0;
            must(rt, !ended || served > 2, "a stop didn't come");
            states = states.saturating_add(more);
        }
    }
    must(rt, ended, "no run ended");
    states
}

fn stop_each_file(rt: &(impl Abort + AllocGlobal), from: &Media, job: Job) -> u64 {
    let log = stop_file(rt, from, job, StopsAt::Log);
    log.saturating_add(stop_file(rt, from, job, StopsAt::Database))
}

// The commands of a script, each from the opening of the files to their close, and the opening
// after each that was accepted alone.
fn stop_commands(rt: &(impl Abort + AllocGlobal + Print), script: Script, least: u64) {
    let mut media = fresh(rt, script);
    let mut states: u64 = 0;
    for before in 0..script.length() {
        let command = Job {
            script,
            before,
            calls: 3,
            asks_again: true,
            settles: Settles::Itself,
        };
        let accepted = run(
            rt,
            &media,
            Job {
                calls: 1,
                ..command
            },
        );
        let opening = Job {
            before: before.saturating_add(1),
            calls: 0,
            ..command
        };
        states = states.saturating_add(stop_each_file(rt, &media, command));
        states = states.saturating_add(stop_each_file(rt, &accepted, opening));
        media = run(rt, &media, command);
    }
    println!(rt; "{states} states behind stops of the store").expect(rt, "no output");
    must(rt, states >= least, "fewer states than there were");
}

#[test]
fn a_stop_of_the_store_while_a_mirror_is_filled(rt: HostRuntime) {
    stop_commands(&rt, FILLED, 1000);
}

#[test]
fn a_stop_of_the_store_while_a_component_is_lost(rt: HostRuntime) {
    stop_commands(&rt, LOST, 1000);
}

#[test]
fn a_stop_of_the_store_while_a_mirror_is_taken_apart(rt: HostRuntime) {
    stop_commands(&rt, ADOPTED, 1000);
}

#[test]
fn a_stop_of_the_store_while_a_mirror_is_patched(rt: HostRuntime) {
    stop_commands(&rt, PATCHED, 1000);
}

// Each two commands of a script that follow each other, of which the second settles the first, from
// the opening of the files to their close.
fn stop_pairs(rt: &(impl Abort + AllocGlobal + Print), script: Script, least: u64) {
    let mut media = fresh(rt, script);
    let mut states: u64 = 0;
    for before in 0..script.length().saturating_sub(1) {
        let pair = Job::of_commands_in_turn(script, before, 2);
        states = states.saturating_add(stop_each_file(rt, &media, pair));
        media = run(rt, &media, Job::of_commands_in_turn(script, before, 1));
    }
    println!(rt; "{states} states behind stops of the store").expect(rt, "no output");
    must(rt, states >= least, "fewer states than there were");
}

#[test]
fn a_stop_of_the_store_while_commands_settle_those_before(rt: HostRuntime) {
    stop_pairs(&rt, FILLED, 1000);
}

#[test]
fn a_stop_of_the_store_while_a_loss_settles_what_was_before(rt: HostRuntime) {
    stop_pairs(&rt, LOST, 1000);
}

#[test]
fn a_stop_of_the_store_while_commands_that_take_apart_settle_those_before(rt: HostRuntime) {
    stop_pairs(&rt, ADOPTED, 1000);
}

#[test]
fn a_stop_of_the_store_while_patches_settle_those_before(rt: HostRuntime) {
    stop_pairs(&rt, PATCHED, 1000);
}
