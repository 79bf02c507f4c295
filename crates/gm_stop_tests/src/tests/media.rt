//! What a bench is opened over, a store of two files and images, and what a job leaves of both.

use super::closed::must_be_closed;
use super::found::{accepted, mirrors, with_images};
use super::scripts::{Script, key_at, reply_to};
use super::{got, must};
use gm_bench::{Answer, Bench, BenchFault, Phase};
use gm_opener::open_files;
use gm_refusals::{CallRefusal, Refusal};
use gm_shelf::{MemShelf, Shelf};
use gm_test_bench::{must_be_left, try_accept, try_apply, try_open, try_settle};
use gm_test_media::{ALL, StoreBytes};
use sqlite::{Alter, Connection, Files, Options};
use sqlite_disk::Disk;
use std::process::Abort;

// Of each unsynced sector what was written last.
const AS_IT_STANDS: [u32; 12] = [u32::MAX; 12];

/// A store of two files, and the images.
#[derive(Drop)]
pub(super) struct Media {
    pub(super) store: StoreBytes,
    pub(super) shelf: MemShelf,
}

/// When a command is settled that is carried out.
#[derive(Clone, Copy, PartialEq, Eq)]
pub(super) enum Settles {
    /// By a call of its own.
    Itself,
    /// By the accepting of the next command, and the last one of a job by a call of its own.
    ByTheNext,
}

/// So many calls of a script, each an accepting, a carrying out or a settling, after so many
/// commands of it that were done before; of none only the opening is asked. If a fault closes the
/// bench, it may be asked each call once more.
#[derive(Clone, Copy)]
pub(super) struct Job {
    pub(super) script: Script,
    pub(super) before: u64,
    pub(super) calls: u64,
    pub(super) asks_again: bool,
    pub(super) settles: Settles,
}

impl Job {
    /// One that hands in so many commands more, each of which settles the one before it.
    pub(super) fn of_commands_in_turn(script: Script, before: u64, commands: u64) -> Job {
        Job {
            script,
            before,
            calls: commands.saturating_mul(2).saturating_add(1),
            asks_again: true,
            settles: Settles::ByTheNext,
        }
    }

    // After how many commands of the script it ends.
    fn end(self) -> u64 {
        self.before.saturating_add(self.calls / 2)
    }
}

/// How many commands of a script were answered as done when a job ended, and why it ended early.
#[derive(Clone, Copy)]
pub(super) struct Told {
    pub(super) done: u64,
    pub(super) fault: Option<BenchFault>,
}

/// Media at the start of a script.
pub(super) fn fresh(rt: &(impl Abort + AllocGlobal), script: Script) -> Media {
    Media {
        store: StoreBytes::new(rt.alloc()),
        shelf: script.shelf(rt),
    }
}

/// The image that a crash leaves, if it picks so of each sector that isn't synced.
pub(super) fn crash_image(rt: &impl Abort, shelf: &MemShelf, picks: &[u32]) -> MemShelf {
    shelf.crash_image(picks).expect(rt, "no memory")
}

/// A shelf that holds the same, of which all is synced.
pub(super) fn copy_of(rt: &impl Abort, shelf: &MemShelf) -> MemShelf {
    crash_image(rt, shelf, &AS_IT_STANDS)
}

// Hands in the next command of a script; whether it was accepted.
fn accept_next<S: Alter, H: Shelf>(
    rt: &(impl Abort + AllocGlobal),
    bench: &mut Bench<S, H>,
    script: Script,
    done: u64,
) -> Result<bool, BenchFault> {
    let number = done.saturating_add(1);
    let words = script.station(rt, number).words;
    let key = key_at(rt, done);
    let answer = got(rt, try_accept(rt.alloc(), bench, key, words))?;
    let expected = Answer::Done(number, reply_to(words));
    must(rt, answer == expected, "not accepted");
    Ok(true)
}

// Hands in the last command again, and one that is refused: what waits to be settled goes on to
// wait.
fn ask_between<S: Alter, H: Shelf>(
    rt: &(impl Abort + AllocGlobal),
    bench: &mut Bench<S, H>,
    script: Script,
    done: u64,
) -> Result<(), BenchFault> {
    let words = script.station(rt, done).words;
    let key = key_at(rt, done.saturating_sub(1));
    let repeated = got(rt, try_accept(rt.alloc(), bench, key, words))?;
    let is_repeated = repeated == Answer::Repeated(done, reply_to(words));
    let refused = got(rt, try_accept(rt.alloc(), bench, "between", "destroy none"))?;
    let no_mirror = Answer::Refused(CallRefusal::ByRules(Refusal::NoMirror));
    must(rt, is_repeated && refused == no_mirror, "another answer");
    must(rt, bench.phase() == Phase::Applied, "settled between");
    Ok(())
}

// The next command, over one that is carried out.
fn accept_over<S: Alter, H: Shelf>(
    rt: &(impl Abort + AllocGlobal),
    bench: &mut Bench<S, H>,
    script: Script,
    done: u64,
) -> Result<bool, BenchFault> {
    ask_between(rt, bench, script, done)?;
    accept_next(rt, bench, script, done)
}

// The next call of a script; whether it accepted a command.
fn next_call<S: Alter, H: Shelf>(
    rt: &(impl Abort + AllocGlobal),
    bench: &mut Bench<S, H>,
    job: Job,
    done: u64,
) -> Result<bool, BenchFault> {
    let settles_it = job.settles == Settles::ByTheNext && done < job.end();
    match bench.phase() {
        Phase::Ready => accept_next(rt, bench, job.script, done),
        Phase::Pending => got(rt, try_apply(bench)).map(|()| false),
        Phase::Applied if settles_it => accept_over(rt, bench, job.script, done),
        Phase::Applied => got(rt, try_settle(bench)).map(|()| false),
        Phase::Failed => panic!(rt; "closed without a fault"),
    }
}

// So many calls of a script, as far as none fails.
fn play<S: Alter, H: Shelf>(
    rt: &(impl Abort + AllocGlobal),
    bench: &mut Bench<S, H>,
    job: Job,
) -> Told {
    let mut told = Told {
        done: job.before,
        fault: None,
    };
    for _ in 0..job.calls {
        if told.fault.is_none() {
            match next_call(rt, bench, job, told.done) {
                Ok(accepted) => told.done = told.done.saturating_add(u64::from(accepted)),
                Err(fault) => told.fault = Some(fault),
            }
        }
    }
    told
}

// Opens a bench for a job.
fn perform<S: Alter + Drop, H: Shelf + Drop>(
    rt: &(impl Abort + AllocGlobal),
    store: Connection<S>,
    shelf: H,
    job: Job,
) -> (Told, Connection<S>, H) {
    match got(rt, try_open(rt.alloc(), store, shelf)) {
        Ok(mut bench) => {
            let told = play(rt, &mut bench, job);
            if told.fault.is_some() && job.asks_again {
                must_be_closed(rt, &mut bench);
            }
            let (store, shelf) = bench.close();
            (told, store, shelf)
        }
        Err(left) => (not_begun(job, left.fault), left.store, left.shelf),
    }
}

// A job that wasn't begun, for this fault.
fn not_begun(job: Job, fault: BenchFault) -> Told {
    Told {
        done: job.before,
        fault: Some(fault),
    }
}

/// What a job leaves, and whether the store stopped.
#[derive(Drop)]
pub(super) struct Left<D: Disk, H> {
    pub(super) told: Told,
    pub(super) stopped: bool,
    pub(super) files: Files<D>,
    pub(super) shelf: H,
}

/// Opens a bench over files for a job.
pub(super) fn perform_on_files<D: Disk + Drop, H: Shelf + Drop>(
    rt: &(impl Abort + AllocGlobal),
    files: Files<D>,
    shelf: H,
    job: Job,
) -> Left<D, H> {
    assert!(rt; files.may_be_used());
    let store = match open_files(rt.alloc(), files, Options::new(1)) {
        Ok(store) => store,
        Err((_, left)) => {
            return Left {
                told: not_begun(job, BenchFault::Store),
                stopped: true,
                files: left.into_files(),
                shelf,
            };
        }
    };
    let (told, store, shelf) = perform(rt, store, shelf, job);
    let (stopped, files) = match store.close_files() {
        Ok(files) => (false, files),
        Err((_, store)) => (true, store.close()),
    };
    Left {
        told,
        stopped,
        files,
        shelf,
    }
}

/// What an opening found: how many commands of a script were accepted, and how much it carried out.
#[derive(Clone, Copy)]
pub(super) struct Found {
    pub(super) commands: u64,
    pub(super) pending: u64,
}

// What an opening finds when so many commands of a script were answered: the station of these, or
// of one more.
fn find<S: Alter + Drop, H: Shelf + Drop>(
    rt: &(impl Abort + AllocGlobal),
    mut bench: Bench<S, H>,
    script: Script,
    done: u64,
) -> Found {
    let pending = bench.redone();
    let commands = accepted(rt, &mut bench, script, done);
    let text = mirrors(rt, &mut bench);
    let (_, mut shelf) = bench.close();
    let found = with_images(rt, text, &mut shelf);
    let expected = script.station(rt, commands).found;
    must(rt, found.as_str() == expected, "another pair");
    Found { commands, pending }
}

fn look_at<S: Alter + Drop, H: Shelf + Drop>(
    rt: &(impl Abort + AllocGlobal),
    mut store: Connection<S>,
    mut shelf: H,
    script: Script,
    done: u64,
) -> Found {
    got(rt, must_be_left(rt.alloc(), &mut store, &mut shelf));
    match got(rt, try_open(rt.alloc(), store, shelf)) {
        Ok(bench) => find(rt, bench, script, done),
        Err(_) => panic!(rt; "a fault at the opening"),
    }
}

/// Opens media again, and holds them to the stations of a script of which so many commands were
/// answered.
pub(super) fn look(
    rt: &(impl Abort + AllocGlobal),
    store: &StoreBytes,
    shelf: &MemShelf,
    script: Script,
    done: u64,
) -> Found {
    let files = got(rt, store.files(rt.alloc(), ALL));
    assert!(rt; files.may_be_used());
    match open_files(rt.alloc(), files, Options::new(1)) {
        Ok(store) => look_at(rt, store, copy_of(rt, shelf), script, done),
        Err(_) => panic!(rt; "no store"),
    }
}
