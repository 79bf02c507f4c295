//! What the tests share: images, benches, lines, and batches of them. The expected values are
//! worked out by hand.

mod faults;
mod flushes;
mod many_mirrors;
mod readers;
mod requests;
mod stores;
mod worked_rows;
mod writers;

use gm_bench::{Bench, BenchFault, OpenFault, Phase};
use gm_front::{BatchEnd, FrontFault, batch};
use gm_opener::open_files;
use gm_shelf::{FaultShelf, MemShelf, Shelf};
use gm_test_media::{ALL, StoreBytes, shelf};
use gm_words::status_text;
use sqlite::{Alter, Connection, FileStore, Files, Options};
use sqlite_disk::{Disk, Fuse, Memory};
use std::io::{BufRead, Write};
use std::process::Abort;
use std::test::Fail;

const LABEL: &str = "k1 label --mid 7 --did 1 gm0 a.img\n";

const INSERT: &str = "k2 insert --did 2 gm0 b.img\n";

const REMOVE: &str = "k3 remove gm0 b.img\n";

const DESTROY: &str = "k4 destroy gm0\n";

const NO_MIRRORS: &str = "no mirrors\n";

// How batches end of which nothing was refused, and of which something was.
const DONE: BatchEnd = BatchEnd::Ended { refused: false };

const REFUSED: BatchEnd = BatchEnd::Ended { refused: true };

// What fails ends a test at once, here and below: so a proof has no way out of each call to go
// through, on which all that is held would be let go.
fn must(rt: &impl Abort, holds: bool, what: &str) {
    assert!(rt; holds, "{what}");
}

// What is there in place of a failure.
fn got<T>(rt: &impl Abort, outcome: Result<T, Fail>) -> T {
    match outcome {
        Ok(value) => value,
        Err(_) => panic!(rt; "it failed"),
    }
}

// A store of two files that serve.
fn store_over<D: Disk + Drop>(
    rt: &(impl Abort + AllocGlobal),
    files: Files<D>,
) -> Connection<FileStore<D>> {
    assert!(rt; files.may_be_used());
    match open_files(rt.alloc(), files, Options::new(1)) {
        Ok(store) => store,
        Err(_) => panic!(rt; "no store"),
    }
}

// A new store, in memory. Each bench is over such a store and a shelf that may stop, so that a
// bench over one kind of both is all that LLVM compiles.
fn in_memory(rt: &(impl Abort + AllocGlobal)) -> Connection<FileStore<Fuse<Memory>>> {
    let files = StoreBytes::new(rt.alloc()).files(rt.alloc(), ALL);
    store_over(rt, got(rt, files))
}

// a.img, b.img and c.img.
fn images(rt: &(impl Abort + AllocGlobal)) -> MemShelf {
    got(rt, shelf(rt.alloc()))
}

// A shelf that serves each call.
fn serving<H: Shelf>(shelf: H) -> FaultShelf<H> {
    FaultShelf::stop_from(shelf, u64::MAX)
}

// So many letters, without a line feed.
fn of_letters(rt: &(impl Abort + AllocGlobal), count: usize) -> Vec<u8> {
    vec![in rt.alloc(); b'x'; count].expect(rt, "no memory")
}

// The tests go over any store and shelf, and these have no clause, so that a proof carries neither
// what those in memory are made of nor the state of each call.
fn try_open<S: Alter + Drop, H: Shelf + Drop>(
    rt: &(impl Abort + AllocGlobal),
    store: Connection<S>,
    shelf: H,
) -> Result<Bench<S, H>, OpenFault<S, H>> {
    assert!(rt; store.is_autocommit());
    Bench::open(rt.alloc(), store, shelf)
}

fn open<S: Alter + Drop, H: Shelf + Drop>(
    rt: &(impl Abort + AllocGlobal),
    store: Connection<S>,
    shelf: H,
) -> Bench<S, H> {
    match try_open(rt, store, shelf) {
        Ok(bench) => bench,
        Err(_) => panic!(rt; "not opened"),
    }
}

fn try_batch<R: BufRead, W: Write, S: Alter, H: Shelf>(
    rt: &(impl Abort + AllocGlobal),
    reader: &mut R,
    writer: &mut W,
    bench: &mut Bench<S, H>,
) -> Result<BatchEnd, FrontFault> {
    match bench.phase() {
        Phase::Ready | Phase::Failed => batch(rt.alloc(), reader, writer, bench),
        Phase::Pending | Phase::Applied => panic!(rt; "a batch in another phase"),
    }
}

// What a batch told, how it ended, and how many bytes of its input it left.
#[derive(Drop)]
struct Told {
    text: Vec<u8>,
    end: Result<BatchEnd, FrontFault>,
    left: usize,
}

fn tell<S: Alter, H: Shelf>(
    rt: &(impl Abort + AllocGlobal),
    bench: &mut Bench<S, H>,
    input: &[u8],
) -> Told {
    let mut reader = input;
    let mut text = Vec::new(rt.alloc());
    let end = try_batch(rt, &mut reader, &mut text, bench);
    let left = reader.len();
    Told { text, end, left }
}

// Hands a batch over, which is told this, ends so, and leaves so many bytes of its input.
fn answers_some<S: Alter, H: Shelf>(
    rt: &(impl Abort + AllocGlobal),
    bench: &mut Bench<S, H>,
    input: &[u8],
    expected: &str,
    end: BatchEnd,
    left: usize,
) {
    let told = tell(rt, bench, input);
    let is_told = told.text.as_slice() == expected.as_bytes();
    must(
        rt,
        is_told && told.end == Ok(end) && told.left == left,
        expected,
    );
}

// Hands one over that is taken whole.
fn answers<S: Alter, H: Shelf>(
    rt: &(impl Abort + AllocGlobal),
    bench: &mut Bench<S, H>,
    input: &[u8],
    expected: &str,
    end: BatchEnd,
) {
    answers_some(rt, bench, input, expected, end, 0);
}

fn try_status<S: Alter, H: Shelf>(
    rt: &(impl Abort + AllocGlobal),
    bench: &mut Bench<S, H>,
) -> Result<String, BenchFault> {
    let state = bench.view(rt.alloc())?;
    Ok(status_text(rt.alloc(), &state).expect(rt, "no memory"))
}

fn shows<S: Alter, H: Shelf>(
    rt: &(impl Abort + AllocGlobal),
    bench: &mut Bench<S, H>,
    status: &str,
) {
    let text = try_status(rt, bench).expect(rt, "no status");
    must(rt, text.as_str() == status, status);
}
