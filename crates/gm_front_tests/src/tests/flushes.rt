//! Each answer is flushed before the next line is read.

use super::{LABEL, REFUSED, images, in_memory, must, of_letters, open, serving, try_batch};
use gm_lines::MAX_LINE;
use gm_shelf::Shelf;
use sqlite::{Alter, Connection};
use std::cell::Cell;
use std::io::{self, BufReader, ErrorKind, Read, Write};
use std::process::Abort;

// Counts what is written, and keeps for the input how much of it is flushed.
#[derive(Drop)]
struct Counted<'a> {
    written: usize,
    flushed: &'a Cell<usize>,
}

impl<'a> Write for Counted<'a> {
    fn write(&mut self, bytes: &[u8]) -> io::Result<usize> {
        self.written = self.written.saturating_add(bytes.len());
        Ok(bytes.len())
    }

    fn flush(&mut self) -> io::Result<()> {
        self.flushed.set(self.written);
        Ok(())
    }
}

// Gives lines a byte at a time. When the first byte of a line or the end of the input is asked
// for, it keeps how much of the answers is flushed.
#[derive(Drop)]
struct Watching<'a> {
    rest: &'a [u8],
    begins: bool,
    flushed: &'a Cell<usize>,
    seen: Vec<usize>,
}

impl<'a> Read for Watching<'a> {
    fn read(&mut self, out: &mut [u8]) -> io::Result<usize> {
        if self.begins && self.seen.push(self.flushed.get()).is_err() {
            return Err(io::Error::from(ErrorKind::OutOfMemory));
        }
        let (Some((byte, rest)), Some(first)) = (self.rest.split_first(), out.first_mut()) else {
            self.begins = true;
            return Ok(0);
        };
        *first = *byte;
        self.rest = rest;
        self.begins = *byte == 10;
        Ok(1)
    }
}

// What is flushed before each of seven lines, and at the end of the input: an `ok` and a `repeated`
// of one number have 8 and 14 bytes, and a refusal of `?` with one digit has 12.
const FLUSHED: [usize; 8] = [0, 0, 8, 8, 22, 34, 46, 54];

fn is_flushed<S: Alter + Drop, H: Shelf + Drop>(
    rt: &(impl Abort + AllocGlobal),
    store: Connection<S>,
    shelf: H,
    lines: &[u8],
) {
    let mut bench = open(rt, store, shelf);
    let flushed = Cell::new(0usize);
    let mut output = Counted {
        written: 0,
        flushed: &flushed,
    };
    let input = Watching {
        rest: lines,
        begins: true,
        flushed: &flushed,
        seen: Vec::new(rt.alloc()),
    };
    let mut reader = BufReader::new(rt.alloc(), input).expect(rt, "no memory");
    let end = try_batch(rt, &mut reader, &mut output, &mut bench);
    must(rt, end == Ok(REFUSED), "another end");
    let seen = &reader.get_ref().seen;
    must(rt, seen.as_slice() == FLUSHED.as_slice(), "not flushed");
    must(rt, flushed.get() == 54, "another length");
}

fn seven_lines(rt: &(impl Abort + AllocGlobal)) -> Vec<u8> {
    let too_long = of_letters(rt, MAX_LINE + 1);
    let mut lines = Vec::new(rt.alloc());
    for piece in [
        b"\n".as_slice(),
        LABEL.as_bytes(),
        b"   \n",
        LABEL.as_bytes(),
        b"k/1\n",
        &too_long,
        b"\nk2 insert --did 2 gm0 b.img",
    ] {
        lines.extend_from_slice(piece).expect(rt, "no memory");
    }
    lines
}

#[test]
fn an_answer_is_flushed_before_the_next_line_is_read(rt: HostRuntime) {
    let lines = seven_lines(&rt);
    is_flushed(&rt, in_memory(&rt), serving(images(&rt)), lines.as_slice());
}
