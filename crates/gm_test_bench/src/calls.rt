//! The calls of a bench as tests make them, and what a last sector is expected to say.

use gm_bench::{Answer, Bench, BenchFault, Kept, OpenFault, Phase, SeriesAnswer, Watch};
use gm_commands::{Command, Sectors};
use gm_looks::{Scrubbed, Unlike};
use gm_metadata::{Balance, DiskFlags, Label, Metadata, MirrorFlags, encode};
use gm_pending::{Pending, pending_in};
use gm_rows::StoreFault;
use gm_shelf::Shelf;
use gm_state::{Reply, State};
use gm_stopped::strange_images;
use gm_test_media::{label, must, sector};
use gm_words::read_words;
use sqlite::{Alter, Connection};
use std::alloc::Global;
use std::test::Fail;

pub const NO_FLAGS: MirrorFlags = MirrorFlags {
    no_autosync: false,
    no_failsync: false,
};

pub const IN_SYNC: DiskFlags = DiskFlags {
    dirty: false,
    synchronizing: false,
    force_sync: false,
    inactive: false,
};

pub const SYNCHRONIZING: DiskFlags = DiskFlags {
    dirty: false,
    synchronizing: true,
    force_sync: false,
    inactive: false,
};

/// A command, what it is answered, and whether it was.
#[derive(Clone, Copy)]
pub struct Asked {
    pub key: &'static str,
    pub words: &'static str,
    pub number: u64,
    pub reply: Reply,
    pub was_done: bool,
}

/// The number that a text of a few digits says.
pub fn number(text: &str) -> u32 {
    let mut number: u32 = 0;
    for digit in text.as_bytes() {
        let value = u32::from(digit.wrapping_sub(b'0'));
        number = number.wrapping_mul(10).wrapping_add(value);
    }
    number
}

// A patch: from which sector on, the byte that each of its sectors has throughout, with commas
// between them, and the mirror.
fn patch(alloc: Global, said: &str) -> Result<Command, Fail> {
    let mut pieces = said.split(' ');
    let first = number(pieces.next().ok_or("no first sector")?);
    let mut sectors = Vec::new(alloc);
    for byte in pieces.next().ok_or("no bytes")?.split(',') {
        sectors.push([(number(byte) % 256) as u8; 512])?;
    }
    Ok(Command::Patch {
        name: label(pieces.next().ok_or("no mirror")?)?,
        first,
        data: Sectors::new(sectors).ok_or("no sectors")?,
    })
}

// The command that these words spell. A patch is said shorter, as `patch FIRST BYTES MIRROR`.
fn command(alloc: Global, words: &str) -> Result<Command, Fail> {
    if let Some(said) = words.strip_prefix("patch ") {
        return patch(alloc, said);
    }
    let mut pieces = Vec::new(alloc);
    for piece in words.split(' ') {
        pieces.push(piece)?;
    }
    Ok(read_words(alloc, &pieces)?.ok().ok_or("no command")?)
}

/// What the last sector of a component of gm0 says, if the mirror counts so many.
pub fn metadata(did: u32, all: u8, dflags: DiskFlags) -> Result<Metadata, Fail> {
    Ok(Metadata {
        name: label("gm0")?,
        mid: 7,
        did,
        all,
        genid: 0,
        syncid: 1,
        priority: 0,
        slice: 4096,
        balance: Balance::Load,
        mediasize: 1536,
        sync_offset: 0,
        mflags: NO_FLAGS,
        dflags,
        provider: None,
        provsize: 2048,
    })
}

pub fn try_open<S: Alter + Drop, H: Shelf + Drop>(
    alloc: Global,
    store: Connection<S>,
    shelf: H,
) -> Result<Result<Bench<S, H>, OpenFault<S, H>>, Fail> {
    if !store.is_autocommit() {
        return Err("within a transaction")?;
    }
    Ok(Bench::open(alloc, store, shelf))
}

/// No image that is pending in the store is one that no stop leaves so. A store without tables has
/// nothing pending.
pub fn must_be_left<S: Alter, H: Shelf>(
    alloc: Global,
    store: &mut Connection<S>,
    shelf: &mut H,
) -> Result<(), Fail> {
    let pending = match pending_in(alloc, store) {
        Ok(pending) => pending,
        Err(StoreFault::Store) => return Ok(()),
        Err(_) => return Err("what is pending can't be read")?,
    };
    let Pending {
        state,
        intents,
        stopped,
    } = pending;
    match strange_images(alloc, shelf, &state, &intents, &stopped) {
        Ok(strange) => must(strange.is_empty(), "an image that no stop leaves so"),
        Err(_) => Err("an image can't be read")?,
    }
}

/// Opens a bench. What is pending must be what a stop left.
pub fn open<S: Alter + Drop, H: Shelf + Drop>(
    alloc: Global,
    store: Connection<S>,
    shelf: H,
) -> Result<Bench<S, H>, Fail> {
    let (mut store, mut shelf) = (store, shelf);
    must_be_left(alloc, &mut store, &mut shelf)?;
    match try_open(alloc, store, shelf)? {
        Ok(bench) => Ok(bench),
        Err(left) => Err(left.fault)?,
    }
}

pub fn try_run<S: Alter, H: Shelf>(
    alloc: Global,
    bench: &mut Bench<S, H>,
    key: &str,
    words: &str,
) -> Result<Result<Answer, BenchFault>, Fail> {
    let command = command(alloc, words)?;
    match bench.phase() {
        Phase::Ready | Phase::Failed => Ok(bench.run(alloc, key, &command)),
        Phase::Pending | Phase::Applied => Err("a run in another phase")?,
    }
}

/// Runs a command that is to be answered so.
pub fn runs<S: Alter, H: Shelf>(
    alloc: Global,
    bench: &mut Bench<S, H>,
    key: &str,
    words: &str,
    answer: Answer,
) -> Result<(), Fail> {
    let given = try_run(alloc, bench, key, words)??;
    must(given == answer, "another answer")
}

pub fn try_accept<S: Alter, H: Shelf>(
    alloc: Global,
    bench: &mut Bench<S, H>,
    key: &str,
    words: &str,
) -> Result<Result<Answer, BenchFault>, Fail> {
    let command = command(alloc, words)?;
    match bench.phase() {
        Phase::Ready | Phase::Applied | Phase::Failed => Ok(bench.accept(alloc, key, &command)),
        Phase::Pending => Err("an accepting in another phase")?,
    }
}

/// Hands in the advances of b.img in gm0 under these keys, as one series.
pub fn try_series<S: Alter, H: Shelf>(
    alloc: Global,
    bench: &mut Bench<S, H>,
    keys: &[&str],
) -> Result<Result<Option<SeriesAnswer>, BenchFault>, Fail> {
    let mut texts = Vec::new(alloc);
    for key in keys {
        texts.push(String::from_str(alloc, key)?)?;
    }
    let (name, provider) = (label("gm0")?, label("b.img")?);
    match bench.phase() {
        Phase::Ready | Phase::Applied | Phase::Failed => {
            Ok(bench.hand_in_series(alloc, &texts, name, provider))
        }
        Phase::Pending => Err("a series in another phase")?,
    }
}

/// Settles what waits to be settled, if something does.
pub fn try_settle_waiting<S: Alter, H: Shelf>(
    bench: &mut Bench<S, H>,
) -> Result<Result<(), BenchFault>, Fail> {
    match bench.phase() {
        Phase::Ready | Phase::Applied | Phase::Failed => Ok(bench.settle_waiting()),
        Phase::Pending => Err("a settling in another phase")?,
    }
}

pub fn try_apply<S: Alter, H: Shelf>(
    bench: &mut Bench<S, H>,
) -> Result<Result<(), BenchFault>, Fail> {
    match bench.phase() {
        Phase::Pending | Phase::Failed => Ok(bench.apply()),
        Phase::Ready | Phase::Applied => Err("nothing to carry out")?,
    }
}

pub fn try_settle<S: Alter, H: Shelf>(
    bench: &mut Bench<S, H>,
) -> Result<Result<(), BenchFault>, Fail> {
    match bench.phase() {
        Phase::Applied | Phase::Failed => Ok(bench.settle()),
        Phase::Ready | Phase::Pending => Err("nothing to settle")?,
    }
}

pub fn try_view<S: Alter, H: Shelf>(
    alloc: Global,
    bench: &mut Bench<S, H>,
) -> Result<State, BenchFault> {
    bench.view(alloc)
}

pub fn try_audit<S: Alter, H: Shelf>(
    alloc: Global,
    bench: &mut Bench<S, H>,
) -> Result<Vec<Label>, BenchFault> {
    bench.audit(alloc)
}

/// What stands otherwise than it is registered, of that which a command is about.
pub fn try_unlike<S: Alter, H: Shelf>(
    alloc: Global,
    bench: &mut Bench<S, H>,
    words: &str,
) -> Result<Result<Vec<Unlike>, BenchFault>, Fail> {
    let command = command(alloc, words)?;
    Ok(bench.unlike(alloc, &command))
}

pub fn try_kept<S: Alter, H: Shelf>(
    bench: &mut Bench<S, H>,
    key: &str,
) -> Result<Option<Kept>, BenchFault> {
    bench.kept(key)
}

pub fn try_scrub<S: Alter, H: Shelf, W: Watch>(
    alloc: Global,
    bench: &mut Bench<S, H>,
    mirror: Option<Label>,
    watch: &mut W,
) -> Result<Vec<Scrubbed>, BenchFault> {
    bench.scrub(alloc, mirror, watch)
}

pub fn try_accepted<S: Alter, H: Shelf>(bench: &mut Bench<S, H>) -> Result<u64, BenchFault> {
    bench.accepted()
}

pub fn try_last<S: Alter, H: Shelf>(
    bench: &mut Bench<S, H>,
    provider: Label,
) -> Result<Option<[u8; 512]>, BenchFault> {
    bench.last_sector(provider)
}

/// Whether an image of four sectors has the data that it was made with.
pub fn must_keep_data<H: Shelf>(shelf: &mut H, name: &str) -> Result<(), Fail> {
    for place in 0u8..3 {
        let held = sector(shelf, name, u64::from(place))?;
        must(held == [place + 1; 512], "other data")?;
    }
    Ok(())
}

/// Whether its last sector says this, or carries nothing.
pub fn must_say<H: Shelf>(shelf: &mut H, name: &str, said: Option<Metadata>) -> Result<(), Fail> {
    must_be(&sector(shelf, name, 3)?, said)
}

pub fn must_be(last: &[u8; 512], said: Option<Metadata>) -> Result<(), Fail> {
    let expected = match said {
        Some(metadata) => encode(&metadata),
        None => [0; 512],
    };
    must(*last == expected, "a last sector says something else")
}

/// The label that most tests begin with.
pub const LABEL: &str = "label --mid 7 --did 1 gm0 a.img";

/// The insert after it.
pub const INSERT: &str = "insert --did 2 gm0 b.img";

/// gm0 on a.img and b.img, by k1 and by k2, which says these words.
pub fn of_two<S: Alter + Drop, H: Shelf + Drop>(
    alloc: Global,
    store: Connection<S>,
    shelf: H,
    insert: &str,
) -> Result<(Connection<S>, H), Fail> {
    let mut bench = open(alloc, store, shelf)?;
    runs(
        alloc,
        &mut bench,
        "k1",
        LABEL,
        Answer::Done(1, Reply::Plain),
    )?;
    runs(
        alloc,
        &mut bench,
        "k2",
        insert,
        Answer::Done(2, Reply::Plain),
    )?;
    Ok(bench.close())
}

/// Runs a command over a shelf that may stop; whether the stop came.
pub fn is_stopped<S: Alter, H: Shelf>(
    alloc: Global,
    bench: &mut Bench<S, H>,
    asked: Asked,
) -> Result<bool, Fail> {
    match try_run(alloc, bench, asked.key, asked.words)? {
        Ok(answer) => {
            let expected = Answer::Done(asked.number, asked.reply);
            must(answer == expected, "another answer")?;
            Ok(false)
        }
        Err(fault) => {
            must(fault == BenchFault::Disk, "another fault")?;
            Ok(true)
        }
    }
}

/// The same command of a bench that was opened since: it is done, unless it was accepted before,
/// and then repeated.
pub fn is_over<S: Alter + Drop, H: Shelf + Drop>(
    alloc: Global,
    store: Connection<S>,
    shelf: H,
    asked: Asked,
) -> Result<H, Fail> {
    let Asked {
        key,
        words,
        number,
        reply,
        was_done,
    } = asked;
    let mut bench = open(alloc, store, shelf)?;
    let answer = try_run(alloc, &mut bench, key, words)??;
    let repeated = answer == Answer::Repeated(number, reply);
    let done = answer == Answer::Done(number, reply);
    must(repeated || done && !was_done, "another answer")?;
    let (_, shelf) = bench.close();
    Ok(shelf)
}

/// What the last sectors of a.img and b.img say; the data are as they were.
pub fn must_hold<H: Shelf>(
    shelf: &mut H,
    first: Option<Metadata>,
    second: Option<Metadata>,
) -> Result<(), Fail> {
    must_say(shelf, "a.img", first)?;
    must_say(shelf, "b.img", second)?;
    must_keep_data(shelf, "a.img")?;
    must_keep_data(shelf, "b.img")
}
