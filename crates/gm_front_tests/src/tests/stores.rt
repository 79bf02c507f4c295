//! A bench over a store of two files: which bytes a batch leaves as they are, and a batch whose
//! store stops at each of its calls in turn.

use super::faults::{goes_on, plays};
use super::{DONE, LABEL, REFUSED, answers, got, images, must, serving, tell, try_open};
use gm_bench::{Bench, BenchFault};
use gm_front::BatchEnd;
use gm_opener::open_files;
use gm_shelf::{MemShelf, Shelf};
use gm_test_media::{ALL, Calls, StoreBytes, must_be_alike};
use sqlite::{Alter, Connection, Files, Options};
use sqlite_disk::Disk;
use std::process::Abort;

// A run is over long before it makes ten times as many calls of one file.
const MANY: u64 = 100;

// A store of two files, and the images.
#[derive(Drop)]
struct Media {
    store: StoreBytes,
    shelf: MemShelf,
}

// What is asked of a bench.
#[derive(Clone, Copy)]
enum Job {
    // The script, and if it fails these further batches or none.
    Play { and_more: bool },
    // The script again, after so many of its commands were answered as done.
    GoOn { done: u64 },
    // The label.
    Label,
    // Lines that write nothing, after the label.
    Idle,
    // These lines, which may fail.
    Try { lines: &'static str },
}

// Lines that repeat a command, and lines that are refused.
const IDLE: &str = "k1 label --mid 7 --did 1 gm0 a.img
k1 label --did 1 --mid 7 --slice 4096 gm0 a.img
k1 destroy gm0
k2 destroy gm1
k2 remove gm0 a.img
k/2 destroy gm0
k2
";

const IDLE_TOLD: &str = "k1 repeated 1
k1 repeated 1
k1 refused 3
k2 refused 5
k2 refused 17
? refused 2
k2 refused 1
";

// Does a job; how many commands of the script were answered as done.
fn serves<S: Alter, H: Shelf>(
    rt: &(impl Abort + AllocGlobal),
    bench: &mut Bench<S, H>,
    job: Job,
) -> u64 {
    match job {
        Job::Play { and_more } => {
            return plays(rt, bench, BenchFault::Store.number(), and_more);
        }
        Job::GoOn { done } => goes_on(rt, bench, done),
        Job::Label => answers(rt, bench, LABEL.as_bytes(), "k1 ok 1\n", DONE),
        Job::Idle => answers(rt, bench, IDLE.as_bytes(), IDLE_TOLD, REFUSED),
        Job::Try { lines } => {
            let ended = matches!(
                tell(rt, bench, lines.as_bytes()).end,
                Ok(BatchEnd::Ended { .. })
            );
            return if ended { 4 } else { 0 };
        }
    }
    4
}

// Opens a bench for a job. If it can't be opened nothing was done.
fn perform<S: Alter + Drop, H: Shelf + Drop>(
    rt: &(impl Abort + AllocGlobal),
    store: Connection<S>,
    shelf: H,
    job: Job,
) -> (u64, Connection<S>, H) {
    match try_open(rt, store, shelf) {
        Ok(mut bench) => {
            let done = serves(rt, &mut bench, job);
            let (store, shelf) = bench.close();
            (done, store, shelf)
        }
        Err(left) => {
            must(rt, left.fault == BenchFault::Store, "another fault");
            (0, left.store, left.shelf)
        }
    }
}

// What a job leaves, and how many commands of the script it was answered as done.
#[derive(Drop)]
struct Left<D: Disk, H> {
    done: u64,
    files: Files<D>,
    shelf: H,
}

// The same over a store of two files, which may not open or close.
fn perform_on_files<D: Disk + Drop, H: Shelf + Drop>(
    rt: &(impl Abort + AllocGlobal),
    files: Files<D>,
    shelf: H,
    job: Job,
) -> Left<D, H> {
    assert!(rt; files.may_be_used());
    let store = match open_files(rt.alloc(), files, Options::new(1)) {
        Ok(store) => store,
        Err((_, left)) => {
            let files = left.into_files();
            return Left {
                done: 0,
                files,
                shelf,
            };
        }
    };
    let (done, store, shelf) = perform(rt, store, shelf, job);
    let files = match store.close_files() {
        Ok(files) => files,
        Err((_, store)) => store.close(),
    };
    Left { done, files, shelf }
}

// Of each of the twelve sectors of the shelf what was written last.
const AS_IT_STANDS: [u32; 12] = [u32::MAX; 12];

// Does a job over copies of both media.
fn run(rt: &(impl Abort + AllocGlobal), from: &Media, calls: Calls, job: Job) -> (u64, Media) {
    let shelf = from
        .shelf
        .crash_image(&AS_IT_STANDS)
        .expect(rt, "no memory");
    let files = got(rt, from.store.files(rt.alloc(), calls));
    let Left { done, files, shelf } = perform_on_files(rt, files, serving(shelf), job);
    let store = got(rt, StoreBytes::of(rt.alloc(), &files));
    let shelf = shelf.into_inner();
    (done, Media { store, shelf })
}

fn fresh(rt: &(impl Abort + AllocGlobal)) -> Media {
    Media {
        store: StoreBytes::new(rt.alloc()),
        shelf: images(rt),
    }
}

fn must_be_the_same(rt: &impl Abort, first: &mut Media, second: &mut Media) {
    must(rt, first.store.log == second.store.log, "another log");
    must(rt, first.store.db == second.store.db, "another database");
    got(rt, must_be_alike(&mut first.shelf, &mut second.shelf));
}

#[test]
fn what_is_repeated_or_refused_changes_no_byte(rt: HostRuntime) {
    let (_, labelled) = run(&rt, &fresh(&rt), ALL, Job::Label);
    let (_, mut once) = run(&rt, &labelled, ALL, Job::Idle);
    let (_, mut twice) = run(&rt, &once, ALL, Job::Idle);
    must(&rt, once.store.db == labelled.store.db, "another database");
    must_be_the_same(&rt, &mut once, &mut twice);
}

// A script whose store stops there, and then the same lines over the media that are left; how many
// commands were answered as done.
fn stop_at(rt: &(impl Abort + AllocGlobal), from: &Media, calls: Calls) -> u64 {
    let (done, media) = run(rt, from, calls, Job::Play { and_more: true });
    run(rt, &media, ALL, Job::GoOn { done });
    done
}

// Stops at each tenth call of one of the files, until a run is answered whole.
#[test]
fn a_store_that_stops_ends_a_batch(rt: HostRuntime) {
    let from = fresh(&rt);
    let mut of_log = 0u64;
    let mut of_db = 0u64;
    for tens in 0..MANY {
        let served = tens.saturating_mul(10);
        if of_log < 4 {
            of_log = stop_at(&rt, &from, Calls { log: served, ..ALL });
        }
        if of_db < 4 {
            of_db = stop_at(&rt, &from, Calls { db: served, ..ALL });
        }
    }
    must(&rt, of_log == 4 && of_db == 4, "no run ended");
}

// How many calls of the log are served in a run that fails at some command.
const SOME: Calls = Calls { log: 40, ..ALL };

// What the further batches are handed to leaves the same bytes as one that is handed none.
#[test]
fn a_bench_that_has_failed_changes_no_byte(rt: HostRuntime) {
    let from = fresh(&rt);
    let (done, mut plain) = run(&rt, &from, SOME, Job::Play { and_more: false });
    let (again, mut more) = run(&rt, &from, SOME, Job::Play { and_more: true });
    must(&rt, done == again && done < 4, "another run");
    must_be_the_same(&rt, &mut plain, &mut more);
}

// Two commands that follow each other, and with something between them that isn't a command.
const TWO: &str = "k1 label --mid 7 --did 1 gm0 a.img\nk2 label --mid 8 --did 2 gm1 b.img\n";

const BLANK_BETWEEN: &str =
    "k1 label --mid 7 --did 1 gm0 a.img\n\nk2 label --mid 8 --did 2 gm1 b.img\n";

const WRONG_BETWEEN: &str =
    "k1 label --mid 7 --did 1 gm0 a.img\nk3 labels\nk2 label --mid 8 --did 2 gm1 b.img\n";

// The second line isn't whole yet.
const NOT_WHOLE: &str = "k1 label --mid 7 --did 1 gm0 a.img\nk2 label --mid 8 --did 2 gm1 b.img";

// How many calls of the log these lines ask for.
fn calls_of(rt: &(impl Abort + AllocGlobal), from: &Media, lines: &'static str) -> u64 {
    for log in 0..MANY {
        let (done, _) = run(rt, from, Calls { log, ..ALL }, Job::Try { lines });
        if done == 4 {
            return log;
        }
    }
    panic!(rt; "no run ended")
}

// What was done is settled by the next command, if that is the next line and whole; else by itself,
// which asks for more calls.
#[test]
fn only_a_command_that_follows_settles_the_one_before(rt: HostRuntime) {
    let from = fresh(&rt);
    let log = calls_of(&rt, &from, TWO);
    for lines in [BLANK_BETWEEN, WRONG_BETWEEN, NOT_WHOLE] {
        let (done, _) = run(&rt, &from, Calls { log, ..ALL }, Job::Try { lines });
        must(&rt, done < 4, "settled by a command that didn't follow");
    }
}
