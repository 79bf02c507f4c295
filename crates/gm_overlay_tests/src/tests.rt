//! A disk over files of several lengths, and over none, by one script of writes and changes of the
//! length. After each step it is to hold what the same step makes of bytes in memory.

ghost use Rattle.std.specs.Prelude.{IsTrue};

use gm_overlay::{Overlay, disk_over};
use sqlite_disk::{Calls, Disk};
use std::alloc::AllocError;
use std::env::Env;
use std::fs::{File, Files};
use std::io::ErrorKind;
use std::process::Abort;
use std::test::Fail;
use std::{env, fs, process};

#[derive(Clone, Copy)]
enum Step {
    // From a place on, a byte so many times.
    Write(usize, u8, usize),
    Resize(usize),
}

use Step::{Resize, Write};

// Blocks of 4,096 bytes are taken into memory: parts of one, of two, and of one that is whole; past
// the end with a gap; cuts within a block that was written and at its end, and what comes back.
const SCRIPT: [Step; 16] = [
    Write(100, 1, 10),
    Write(4_090, 2, 12),
    Write(7_000, 3, 6_000),
    Write(105, 4, 20),
    Resize(4_000),
    Resize(9_000),
    Write(20_000, 5, 3),
    Resize(20_001),
    Resize(20_010),
    Write(8_192, 6, 4_096),
    Resize(8_192),
    Resize(12_288),
    Write(0, 7, 1),
    Resize(0),
    Resize(5_000),
    Write(4_999, 8, 2),
];

// Ends a test with these words if it doesn't hold.
fn must(rt: &impl Abort, holds: bool, what: &str) {
    assert!(rt; holds, "{what}");
}

// The byte of a file at this place: unlike those beside it, and no block begins as another.
fn byte_at(at: usize) -> u8 {
    (at % 251) as u8 + 1
}

fn file_bytes<R: AllocGlobal>(rt: &R, len: usize) -> Result<Vec<u8>, AllocError> {
    let mut bytes = Vec::new(rt.alloc());
    for i in 0..len {
        bytes.push(byte_at(i))?;
    }
    Ok(bytes)
}

// Whether the disk holds just these bytes, read at once, from within a block, and past its end.
fn holds<R: AllocGlobal, D: Disk>(rt: &R, disk: &mut D, bytes: &[u8]) -> Result<bool, AllocError>
    requires { IsTrue (D.Disk.is_usable disk.old) }
    ensures usable { IsTrue (D.Disk.is_usable disk.new) }
{
    let mut whole = Vec::from_elem(rt.alloc(), 99u8, bytes.len())?;
    let mut some = [99; 700];
    let is_long = matches!(disk.len(), Ok(len) if len == bytes.len());
    let is_whole = disk.read_at(0, &mut whole).is_ok() && whole.as_slice() == bytes;
    let has_some = match bytes.get(3_900..4_600) {
        Some(part) => disk.read_at(3_900, &mut some).is_ok() && some.as_slice() == part,
        None => true,
    };
    let ends = match disk.read_at(bytes.len(), &mut [0]) {
        Ok(()) => false,
        Err(e) => e.kind() == ErrorKind::UnexpectedEof,
    };
    Ok(is_long && is_whole && has_some && ends)
}

// A step, of bytes in memory.
fn make(bytes: &mut Vec<u8>, step: Step) -> Result<(), AllocError> {
    match step {
        Write(at, byte, count) => {
            let end = at.saturating_add(count);
            if end > bytes.len() {
                bytes.resize(end, 0)?;
            }
            for i in at..end {
                if let Some(place) = bytes.get_mut(i) {
                    *place = byte;
                }
            }
            Ok(())
        }
        Resize(len) => bytes.resize(len, 0),
    }
}

// The same, of a disk.
fn carry_out<R: AllocGlobal, D: Disk>(rt: &R, disk: &mut D, step: Step) -> Result<bool, AllocError>
    requires { IsTrue (D.Disk.is_usable disk.old) }
    ensures usable { IsTrue (D.Disk.is_usable disk.new) }
{
    match step {
        Write(at, byte, count) => {
            let bytes = Vec::from_elem(rt.alloc(), byte, count)?;
            Ok(disk.write_at(at, &bytes).is_ok())
        }
        Resize(len) => Ok(disk.set_len(len).is_ok()),
    }
}

// Whether the disk goes through the script as these bytes do.
fn goes_through<R: AllocGlobal, D: Disk>(
    rt: &R,
    disk: &mut D,
    mut bytes: Vec<u8>,
) -> Result<bool, AllocError>
    requires { IsTrue (D.Disk.is_usable disk.old) }
{
    let mut goes = holds(rt, disk, &bytes)?;
    for step in SCRIPT {
        make(&mut bytes, step)?;
        if !goes || !disk.may_be_used() {
            return Ok(false);
        }
        goes = carry_out(rt, disk, step)? && holds(rt, disk, &bytes)?;
    }
    Ok(goes)
}

// A path of its own for each test and each process.
fn new_path<R: Env + AllocGlobal + Abort>(rt: &R, test: &str, id: u32) -> String {
    let temp = env::temp_dir(rt).expect(rt, "no folder for temporary files");
    let base = temp.as_str();
    format!(in rt.alloc(); "{base}/gm_overlay-{test}-{id}").expect(rt, "no path")
}

fn put<R: Files + AllocGlobal + Abort>(rt: &R, path: &str, bytes: &[u8]) {
    fs::write(rt, path, bytes).expect(rt, "not written");
}

// A file of these bytes, below a disk that goes through the script, is as it was.
fn stays<R: Files + AllocGlobal + Abort>(rt: &R, path: &str, bytes: &[u8], file: File) {
    let mut disk = disk_over(rt.alloc(), Some(file), false, 5).expect(rt, "no disk");
    let copy = file_bytes(rt, bytes.len()).expect(rt, "no bytes");
    let goes = goes_through(rt, &mut disk, copy).expect(rt, "no memory");
    must(rt, goes && disk.key() == 5, "another disk");
    let left = fs::read(rt, path).expect(rt, "not read");
    must(rt, left.as_slice() == bytes, "another file");
}

#[test]
fn what_is_written_is_read_back_and_the_file_stays(rt: HostRuntime) -> Result<(), Fail> {
    let path = new_path(&rt, "script", process::id(rt.process()));
    for len in [0, 1, 4_096, 12_288, 13_000] {
        let bytes = file_bytes(&rt, len)?;
        put(&rt, path.as_str(), &bytes);
        stays(&rt, path.as_str(), &bytes, File::open(&rt, path.as_str())?);
    }
    fs::remove_file(&rt, path.as_str())?;
    Ok(())
}

#[test]
fn over_no_file_a_disk_is_empty(rt: HostRuntime) -> Result<(), Fail> {
    let mut disk = disk_over(rt.alloc(), None, true, 5)?;
    let none = Vec::new(rt.alloc());
    must(&rt, goes_through(&rt, &mut disk, none)?, "another disk");
    Ok(())
}

// A page that a digest is known of has to come at once.
fn reads_at_once<R: Abort>(rt: &R, overlay: &mut Overlay) {
    let mut page = [0; 5_000];
    let is_written = matches!(overlay.write_some(4_000, &[7; 90]), Ok(90));
    let is_whole = matches!(overlay.read_under(1, 2, 3_900, &mut page), Ok(5_000));
    // Before what was written, it, and after it, in the next block.
    let bytes = [page[0], page[100], page[189], page[190], page[4_999]];
    let wanted = [byte_at(3_900), 7, 7, byte_at(4_090), byte_at(8_899)];
    let is_right = bytes == wanted;
    must(rt, is_written && is_whole && is_right, "another page");
    must(
        rt,
        matches!(overlay.read_some(8_000, &mut page), Ok(4_288)),
        "another end",
    );
}

#[test]
fn a_read_goes_on_from_block_to_block(rt: HostRuntime) -> Result<(), Fail> {
    let path = new_path(&rt, "reads", process::id(rt.process()));
    put(&rt, path.as_str(), &file_bytes(&rt, 12_288)?);
    let file = File::open(&rt, path.as_str())?;
    reads_at_once(&rt, &mut Overlay::over(rt.alloc(), Some(file), 5)?);
    fs::remove_file(&rt, path.as_str())?;
    Ok(())
}
