//! The shelf over files: scripts of what is done to the files of a folder and to a shelf of it, in
//! turn, with each answer, and with what the files hold after that.

use super::{must, named};
use gm_shelf::{FileShelf, Shelf, ShelfFault};
use std::env::Env;
use std::fs::{File, Files};
use std::os::unix::fs::symlink;
use std::process::Abort;
use std::{env, fs, process};

type Answer = Result<(), ShelfFault>;

const OK: Answer = Ok(());

const ABSENT: Answer = Err(ShelfFault::Absent);

const RANGE: Answer = Err(ShelfFault::Range);

const DEVICE: Answer = Err(ShelfFault::Device);

// A sector is said by the byte that it has in each place, and a file by its sectors.
#[derive(Clone, Copy)]
enum Step {
    // Of the folder: a file, a folder, a link to another name, what goes, and a new name.
    Put(&'static str, &'static [u8]),
    Folder(&'static str),
    Link(&'static str, &'static str),
    Remove(&'static str),
    Rename(&'static str, &'static str),
    // What a file holds, or that there is none.
    Holds(&'static str, &'static [u8]),
    Nothing(&'static str),
    // Of the shelf: which sector or run, what is written or is to be read, and the answer.
    Read(&'static str, u64, u8, Answer),
    Write(&'static str, u64, u8, Answer),
    Sync(&'static str, Answer),
    ReadRun(&'static str, u64, &'static [u8], Answer),
    WriteRun(&'static str, u64, &'static [u8], Answer),
    // An image of two sectors, whose file can't be reached.
    Fails(&'static str),
}

use Step::{
    Fails, Folder, Holds, Link, Nothing, Put, Read, ReadRun, Remove, Rename, Sync, Write, WriteRun,
};

// What is put before the shelf is opened, and what is done after that.
#[derive(Clone, Copy)]
struct Script {
    put: &'static [Step],
    steps: &'static [Step],
}

const SECTORS: Script = Script {
    put: &[Put("a.img", &[7, 7, 7, 7]), Put("b.img", &[5, 5])],
    steps: &[
        Write("a.img", 2, 9, OK),
        Write("b.img", 0, 4, OK),
        Sync("a.img", OK),
        Write("a.img", 1, 0, OK),
        Write("b.img", 1, 3, OK),
        Read("a.img", 2, 9, OK),
        Read("b.img", 0, 4, OK),
        Read("a.img", 1, 0, OK),
        Read("a.img", 3, 7, OK),
        Read("b.img", 1, 3, OK),
        Holds("a.img", &[7, 0, 9, 7]),
        Holds("b.img", &[4, 3]),
    ],
};

// A run may be empty at the end of the image; then the file isn't looked at.
const RUNS: Script = Script {
    put: &[Put("a.img", &[7, 7, 7, 7])],
    steps: &[
        WriteRun("a.img", 1, &[8, 9], OK),
        ReadRun("a.img", 1, &[8, 9, 7], OK),
        Holds("a.img", &[7, 8, 9, 7]),
        WriteRun("a.img", 2, &[8, 9, 7], RANGE),
        WriteRun("a.img", 4, &[], OK),
        WriteRun("a.img", 5, &[], RANGE),
        ReadRun("b.img", 0, &[8, 9, 7], ABSENT),
        Holds("a.img", &[7, 8, 9, 7]),
        Remove("a.img"),
        WriteRun("a.img", 4, &[], OK),
        WriteRun("a.img", 3, &[8], DEVICE),
        ReadRun("a.img", 1, &[8, 9, 7], DEVICE),
    ],
};

// Each fault is told as what it is, also once the file is gone.
const FAULTS: Script = Script {
    put: &[Put("a.img", &[7, 7])],
    steps: &[
        Read("b.img", 0, 0, ABSENT),
        Write("b.img", 0, 8, ABSENT),
        Sync("b.img", ABSENT),
        Read("a.img", 2, 0, RANGE),
        Write("a.img", 2, 8, RANGE),
        Sync("a.img", OK),
        Holds("a.img", &[7, 7]),
        Remove("a.img"),
        Fails("a.img"),
        Read("a.img", 2, 0, RANGE),
        Write("a.img", 2, 8, RANGE),
    ],
};

// Files that go, one of them while it is open, and others that become shorter or longer.
const GONE: Script = Script {
    put: &[
        Put("before", &[7, 7]),
        Put("after", &[7, 7]),
        Put("short", &[7, 7]),
        Put("long", &[7, 7]),
    ],
    steps: &[
        Read("after", 1, 7, OK),
        Read("short", 1, 7, OK),
        Remove("before"),
        Remove("after"),
        Put("short", &[7]),
        Put("long", &[7, 7, 7]),
        Fails("before"),
        Fails("after"),
        Fails("short"),
        Fails("long"),
        Holds("short", &[7]),
        Holds("long", &[7, 7, 7]),
        Nothing("before"),
        Nothing("after"),
    ],
};

// An image that is moved away is used again once it is back.
const MOVED: Script = Script {
    put: &[Put("a.img", &[7, 7])],
    steps: &[
        Write("a.img", 0, 8, OK),
        Rename("a.img", "elsewhere"),
        Fails("a.img"),
        Holds("elsewhere", &[8, 7]),
        Nothing("a.img"),
        Rename("elsewhere", "a.img"),
        Read("a.img", 1, 7, OK),
        Write("a.img", 1, 9, OK),
        Holds("a.img", &[8, 9]),
    ],
};

// Another file, a link to the very file or a folder takes the place of an image that is open (1), or
// isn't (0).
const REPLACED: Script = Script {
    put: &[
        Put("other0", &[7, 7]),
        Put("link0", &[7, 7]),
        Put("folder0", &[7, 7]),
        Put("other1", &[7, 7]),
        Put("link1", &[7, 7]),
        Put("folder1", &[7, 7]),
    ],
    steps: &[
        Write("other1", 0, 6, OK),
        Write("link1", 0, 6, OK),
        Write("folder1", 0, 6, OK),
        Rename("other0", "other0 away"),
        Rename("link0", "link0 away"),
        Rename("folder0", "folder0 away"),
        Rename("other1", "other1 away"),
        Rename("link1", "link1 away"),
        Rename("folder1", "folder1 away"),
        Put("other0", &[8, 8]),
        Put("other1", &[8, 8]),
        Link("link0", "link0 away"),
        Link("link1", "link1 away"),
        Folder("folder0"),
        Folder("folder1"),
        Fails("other0"),
        Fails("link0"),
        Fails("folder0"),
        Fails("other1"),
        Fails("link1"),
        Fails("folder1"),
        Holds("other0", &[8, 8]),
        Holds("other1", &[8, 8]),
        Holds("other0 away", &[7, 7]),
        Holds("link0 away", &[7, 7]),
        Holds("folder0 away", &[7, 7]),
        Holds("other1 away", &[6, 7]),
        Holds("link1 away", &[6, 7]),
        Holds("folder1 away", &[6, 7]),
    ],
};

// What follows ends a test if the file system fails, so that a proof has no way out of each call to
// go through. It goes over any runtime and any shelf, so that the proof carries neither what those
// of files are made of.
fn path_in<R: AllocGlobal + Abort>(rt: &R, folder: &str, name: &str) -> String {
    format!(in rt.alloc(); "{folder}/{name}").expect(rt, "no path")
}

fn put<R: Files + AllocGlobal + Abort>(rt: &R, path: &str, sectors: &[u8]) {
    let mut bytes = Vec::new(rt.alloc());
    for byte in sectors {
        bytes
            .extend_from_slice(&[*byte; 512])
            .expect(rt, "no memory");
    }
    fs::write(rt, path, &bytes).expect(rt, "not written");
}

fn must_hold<R: Files + AllocGlobal + Abort>(rt: &R, path: &str, sectors: &[u8]) {
    let bytes = fs::read(rt, path).expect(rt, "not read");
    must(rt, bytes.len() == sectors.len().saturating_mul(512), path);
    for (sector, byte) in bytes.chunks(512).zip(sectors) {
        must(rt, sector == [*byte; 512].as_slice(), path);
    }
}

// What a step does to the folder or finds there.
fn makes<R: Files + AllocGlobal + Abort>(rt: &R, folder: &str, step: Step) {
    match step {
        Put(name, sectors) => put(rt, path_in(rt, folder, name).as_str(), sectors),
        Folder(name) => {
            fs::create_dir(rt, path_in(rt, folder, name).as_str()).expect(rt, "no folder")
        }
        Link(name, target) => {
            symlink(rt, target, path_in(rt, folder, name).as_str()).expect(rt, "no link")
        }
        Remove(name) => {
            fs::remove_file(rt, path_in(rt, folder, name).as_str()).expect(rt, "not removed")
        }
        Rename(from, to) => {
            let (from, to) = (path_in(rt, folder, from), path_in(rt, folder, to));
            fs::rename(rt, from.as_str(), to.as_str()).expect(rt, "not renamed")
        }
        Holds(name, sectors) => must_hold(rt, path_in(rt, folder, name).as_str(), sectors),
        Nothing(name) => {
            let found = fs::metadata(rt, path_in(rt, folder, name).as_str());
            must(rt, found.is_err(), name)
        }
        _ => {}
    }
}

// A run of three sectors at most.
fn run_of(sectors: &[u8]) -> [[u8; 512]; 3] {
    let mut run = [[0; 512]; 3];
    for (sector, byte) in run.iter_mut().zip(sectors) {
        *sector = [*byte; 512];
    }
    run
}

fn reads<H: Shelf>(rt: &impl Abort, shelf: &mut H, name: &str, place: u64, byte: u8) -> Answer {
    let mut sector = [byte ^ 1; 512];
    shelf.read(named(rt, name), place, &mut sector)?;
    must(rt, sector == [byte; 512], name);
    OK
}

fn reads_run<H: Shelf>(
    rt: &impl Abort,
    shelf: &mut H,
    name: &str,
    first: u64,
    wanted: &[u8],
) -> Answer {
    let mut run = [[0xff; 512]; 3];
    shelf.read_run(named(rt, name), first, &mut run)?;
    must(rt, run == run_of(wanted), name);
    OK
}

fn writes_run<H: Shelf>(
    rt: &impl Abort,
    shelf: &mut H,
    name: &str,
    first: u64,
    sectors: &[u8],
) -> Answer {
    let run = run_of(sectors);
    let run = run.get(..sectors.len()).expect(rt, "more than three");
    shelf.write_run(named(rt, name), first, run)
}

fn fails<H: Shelf>(rt: &impl Abort, shelf: &mut H, name: &str) {
    let provider = named(rt, name);
    let mut sector = [0; 512];
    let given = [
        shelf.read(provider, 1, &mut sector),
        shelf.write(provider, 1, &sector),
        shelf.sync(provider),
    ];
    must(rt, given == [DEVICE; 3], name);
    must(rt, shelf.sectors(provider) == Some(2), name);
}

// What a step asks of the shelf.
fn asks<H: Shelf>(rt: &impl Abort, shelf: &mut H, step: Step) {
    let (name, given, answer) = match step {
        Read(name, place, byte, answer) => (name, reads(rt, shelf, name, place, byte), answer),
        Write(name, place, byte, answer) => {
            let given = shelf.write(named(rt, name), place, &[byte; 512]);
            (name, given, answer)
        }
        Sync(name, answer) => (name, shelf.sync(named(rt, name)), answer),
        ReadRun(name, first, wanted, answer) => {
            (name, reads_run(rt, shelf, name, first, wanted), answer)
        }
        WriteRun(name, first, sectors, answer) => {
            (name, writes_run(rt, shelf, name, first, sectors), answer)
        }
        Fails(name) => return fails(rt, shelf, name),
        _ => return,
    };
    must(rt, given == answer, name);
}

fn goes_through<R: Files + AllocGlobal + Abort, H: Shelf>(
    rt: &R,
    folder: &str,
    shelf: &mut H,
    steps: &[Step],
) {
    for step in steps {
        makes(rt, folder, *step);
        asks(rt, shelf, *step);
    }
}

// Runs a script in an empty folder of this process. No other function of these owns a shelf of
// files.
fn tries<R: Files<File = File> + Env + AllocGlobal + Abort + Clone + Drop>(
    rt: &R,
    id: u32,
    script: Script,
) {
    let temp = env::temp_dir(rt).expect(rt, "no folder for temporary files");
    let base = temp.as_str();
    let folder = format!(in rt.alloc(); "{base}/gm_shelf-{id}").expect(rt, "no path");
    fs::create_dir(rt, folder.as_str()).expect(rt, "no folder");
    for step in script.put {
        makes(rt, folder.as_str(), *step);
    }
    let mut shelf = FileShelf::open(rt, folder.as_str()).expect(rt, "not opened");
    goes_through(rt, folder.as_str(), &mut shelf, script.steps);
    fs::remove_dir_all(rt, folder.as_str()).expect(rt, "not removed");
}

#[test]
fn a_shelf_of_files_answers_as_they_are(rt: HostRuntime) {
    for script in [SECTORS, RUNS, FAULTS, GONE, MOVED, REPLACED] {
        tries(&rt, process::id(rt.process()), script);
    }
}
