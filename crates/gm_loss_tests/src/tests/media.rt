//! What a bench is opened over, a store of two files and images, how either stops, and what an
//! opening leaves of both.

use super::{got, must};
use gm_bench::{Answer, Bench, BenchFault, Phase, Without};
use gm_opener::open_files;
use gm_shelf::{FaultShelf, MemShelf, Shelf};
use gm_test_bench::{must_be_left, try_accept, try_open, try_run, try_view};
use gm_test_media::{ALL, Calls, StoreBytes, add, label, sector};
use gm_words::status_text;
use sqlite::{Alter, Connection, Files, Options};
use sqlite_disk::{Crash, Disk};
use std::process::Abort;

// Of each unsynced sector what was written last.
const AS_IT_STANDS: [u32; 12] = [u32::MAX; 12];

// The keys of the commands.
const KEYS: [&str; 6] = ["k1", "k2", "k3", "k4", "k5", "k6"];

// A mirror of three of which b.img and c.img are left.
const B_AND_C_OF_THREE: &str = "gm0             DEGRADED 2/3
  b.img           ACTIVE
  c.img           ACTIVE
";

/// A store of two files, and the images that are there.
#[derive(Drop)]
pub(super) struct Media {
    pub(super) store: StoreBytes,
    pub(super) shelf: MemShelf,
}

/// What a bench is asked.
#[derive(Clone, Copy)]
pub(super) enum Job {
    /// Commands, a line each, under k1 and so on: the last is accepted alone, and the others are
    /// carried out.
    Accept(&'static str),
    /// An opening that shows the mirror without a.img.
    Look,
    /// An opening without a.img, under a key.
    Lose(&'static str),
}

/// What a job comes to.
#[derive(Clone, Copy, PartialEq, Eq)]
pub(super) enum Came {
    /// It is opened, and so many intents were pending.
    Opened(u64),
    /// It is opened without the provider, the loss is answered so, and so many intents were
    /// pending.
    Lost(Answer, u64),
    /// The loss is refused by this number.
    Refused(u8),
    /// A fault.
    Failed(BenchFault),
}

/// How media stop.
#[derive(Clone, Copy)]
pub(super) struct Stops {
    /// How many calls each file of the store serves.
    pub(super) files: Calls,
    /// From which call on the shelf fails.
    pub(super) nth: u64,
    /// Whether that call acts before it fails. No later one does.
    pub(super) acts: bool,
}

/// Neither stops.
pub(super) const NEVER: Stops = Stops {
    files: ALL,
    nth: u64::MAX,
    acts: false,
};

/// What a job comes to, and what it leaves: whether the store stopped, both media as they stand,
/// and the store as a crash leaves it.
#[derive(Drop)]
pub(super) struct Left {
    pub(super) came: Came,
    pub(super) stopped: bool,
    pub(super) media: Media,
    pub(super) crashed: StoreBytes,
}

/// The image that a crash leaves, if it picks so of each sector that isn't synced.
pub(super) fn crash_image(rt: &impl Abort, shelf: &MemShelf, picks: &[u32]) -> MemShelf {
    shelf.crash_image(picks).expect(rt, "no memory")
}

// A shelf that holds the same, of which all is synced.
fn copy_of(rt: &impl Abort, shelf: &MemShelf) -> MemShelf {
    crash_image(rt, shelf, &AS_IT_STANDS)
}

// Runs the command at this place, or accepts it alone.
fn hand_in<S: Alter, H: Shelf>(
    rt: &(impl Abort + AllocGlobal),
    bench: &mut Bench<S, H>,
    place: usize,
    words: &str,
    alone: bool,
) {
    let key = KEYS.get(place).copied().expect(rt, "no key");
    let outcome = if alone {
        got(rt, try_accept(rt.alloc(), bench, key, words))
    } else {
        got(rt, try_run(rt.alloc(), bench, key, words))
    };
    let answer = outcome.expect(rt, "a fault");
    let number = (place as u64).saturating_add(1);
    let well = matches!(answer, Answer::Done(given, _) if given == number);
    must(rt, well, words);
}

fn hand_in_all<S: Alter, H: Shelf>(
    rt: &(impl Abort + AllocGlobal),
    bench: &mut Bench<S, H>,
    commands: &str,
) {
    let count = commands.split('\n').count();
    let mut place = 0usize;
    for words in commands.split('\n') {
        let next = place.saturating_add(1);
        hand_in(rt, bench, place, words, next == count);
        place = next;
    }
}

// A status shows the mirror without a.img.
fn shows_the_others<S: Alter, H: Shelf>(rt: &(impl Abort + AllocGlobal), bench: &mut Bench<S, H>) {
    let state = try_view(rt.alloc(), bench).expect(rt, "no view");
    let status = status_text(rt.alloc(), &state).expect(rt, "no memory");
    must(rt, status.as_str() == B_AND_C_OF_THREE, "other mirrors");
}

// Opens a bench for a job that isn't a loss.
fn opened<S: Alter + Drop, H: Shelf + Drop>(
    rt: &(impl Abort + AllocGlobal),
    store: Connection<S>,
    shelf: H,
    commands: Option<&str>,
) -> (Came, Connection<S>, H) {
    match got(rt, try_open(rt.alloc(), store, shelf)) {
        Ok(mut bench) => {
            must(rt, bench.phase() == Phase::Ready, "not ready");
            match commands {
                Some(commands) => hand_in_all(rt, &mut bench, commands),
                None => shows_the_others(rt, &mut bench),
            }
            let came = Came::Opened(bench.redone());
            let (store, shelf) = bench.close();
            (came, store, shelf)
        }
        Err(left) => (Came::Failed(left.fault), left.store, left.shelf),
    }
}

// Opens a bench without a.img.
fn lost<S: Alter + Drop, H: Shelf + Drop>(
    rt: &(impl Abort + AllocGlobal),
    store: Connection<S>,
    shelf: H,
    key: &str,
) -> (Came, Connection<S>, H) {
    let provider = got(rt, label("a.img"));
    assert!(rt; store.is_autocommit());
    match Bench::open_without(rt.alloc(), store, shelf, provider, key) {
        Ok(Without::Opened { bench, answer }) => {
            must(rt, bench.phase() == Phase::Ready, "not ready");
            let came = Came::Lost(answer, bench.redone());
            let (store, shelf) = bench.close();
            (came, store, shelf)
        }
        Ok(Without::Refused { why, store, shelf }) => (Came::Refused(why.number()), store, shelf),
        Err(left) => (Came::Failed(left.fault), left.store, left.shelf),
    }
}

fn perform<S: Alter + Drop, H: Shelf + Drop>(
    rt: &(impl Abort + AllocGlobal),
    store: Connection<S>,
    shelf: H,
    job: Job,
) -> (Came, Connection<S>, H) {
    match job {
        Job::Accept(commands) => opened(rt, store, shelf, Some(commands)),
        Job::Look => opened(rt, store, shelf, None),
        Job::Lose(key) => lost(rt, store, shelf, key),
    }
}

// A job over files, and whether the store stopped.
fn perform_on_files<D: Disk + Drop, H: Shelf + Drop>(
    rt: &(impl Abort + AllocGlobal),
    files: Files<D>,
    shelf: H,
    job: Job,
) -> (Came, bool, Files<D>, H) {
    assert!(rt; files.may_be_used());
    let store = match open_files(rt.alloc(), files, Options::new(1)) {
        Ok(store) => store,
        Err((_, left)) => {
            return (
                Came::Failed(BenchFault::Store),
                true,
                left.into_files(),
                shelf,
            );
        }
    };
    let (came, store, shelf) = perform(rt, store, shelf, job);
    match store.close_files() {
        Ok(files) => (came, false, files, shelf),
        Err((_, store)) => (came, true, store.close(), shelf),
    }
}

/// A job over copies of both media that stop so. No other function names the store and the shelf
/// that a bench is opened over.
pub(super) fn serve(
    rt: &(impl Abort + AllocGlobal),
    (store, shelf): (&StoreBytes, &MemShelf),
    stops: Stops,
    job: Job,
) -> Left {
    let files = got(rt, store.files(rt.alloc(), stops.files));
    let copy = copy_of(rt, shelf);
    let shelf = if stops.acts {
        FaultShelf::stop_after(copy, stops.nth)
    } else {
        FaultShelf::stop_from(copy, stops.nth)
    };
    let (came, stopped, mut files, shelf) = perform_on_files(rt, files, shelf, job);
    let media = Media {
        store: got(rt, StoreBytes::of(rt.alloc(), &files)),
        shelf: shelf.into_inner(),
    };
    files.log.crash();
    files.db.crash();
    Left {
        came,
        stopped,
        media,
        crashed: got(rt, StoreBytes::of(rt.alloc(), &files)),
    }
}

/// A job over copies of both media that don't stop, and what it leaves of them.
pub(super) fn perform_over(
    rt: &(impl Abort + AllocGlobal),
    store: &StoreBytes,
    shelf: &MemShelf,
    job: Job,
) -> (Came, Media) {
    let left = serve(rt, (store, shelf), NEVER, job);
    must(rt, !left.stopped, "the store stopped");
    (left.came, left.media)
}

/// What is pending in media is what a stop left: no image that it names is strange.
pub(super) fn must_be_of_a_stop(
    rt: &(impl Abort + AllocGlobal),
    store: &StoreBytes,
    shelf: &MemShelf,
) {
    let files = got(rt, store.files(rt.alloc(), ALL));
    assert!(rt; files.may_be_used());
    let Ok(mut store) = open_files(rt.alloc(), files, Options::new(1)) else {
        panic!(rt; "no store");
    };
    let mut shelf = copy_of(rt, shelf);
    got(rt, must_be_left(rt.alloc(), &mut store, &mut shelf));
}

// All four sectors of an image.
fn sectors_of(rt: &(impl Abort + AllocGlobal), shelf: &mut MemShelf, name: &str) -> Vec<[u8; 512]> {
    let mut sectors = Vec::new(rt.alloc());
    for place in 0u64..4 {
        let held = got(rt, sector(shelf, name, place));
        sectors.push(held).expect(rt, "no memory");
    }
    sectors
}

/// These images after commands, a line each, under k1 and so on, of which the last is accepted
/// alone; then a.img is gone.
pub(super) fn behind(
    rt: &(impl Abort + AllocGlobal),
    shelf: &MemShelf,
    commands: &'static str,
) -> Media {
    let store = StoreBytes::new(rt.alloc());
    let (came, mut all) = perform_over(rt, &store, shelf, Job::Accept(commands));
    must(rt, came == Came::Opened(0), "not handed in");
    let mut shelf = MemShelf::new(rt.alloc());
    for name in ["b.img", "c.img"] {
        let sectors = sectors_of(rt, &mut all.shelf, name);
        got(rt, add(&mut shelf, name, sectors));
    }
    Media {
        store: all.store,
        shelf,
    }
}
