//! Outputs that take little at a time, and outputs that fail.

use super::{DONE, INSERT, LABEL, answers, images, in_memory, must, open, serving, try_batch};
use gm_front::{BatchEnd, FrontFault};
use gm_shelf::Shelf;
use sqlite::{Alter, Connection};
use std::alloc::Global;
use std::io::{self, ErrorKind, Write};
use std::process::Abort;

// Takes so many bytes at a time and in all, and is flushed so often. It may be interrupted before
// each write. What is full fails, or takes nothing.
#[derive(Drop)]
pub(super) struct Narrow {
    text: Vec<u8>,
    at_once: usize,
    pub(super) room: usize,
    flushes: usize,
    fails: bool,
    interrupts: bool,
    interrupted: bool,
}

impl Write for Narrow {
    fn write(&mut self, bytes: &[u8]) -> io::Result<usize> {
        self.interrupted = self.interrupts && !self.interrupted;
        if self.interrupted {
            return Err(io::Error::from(ErrorKind::Interrupted));
        }
        let count = bytes.len().min(self.at_once).min(self.room);
        if count == 0 && self.fails {
            return Err(io::Error::from(ErrorKind::StorageFull));
        }
        for byte in bytes.iter().take(count) {
            if self.text.push(*byte).is_err() {
                return Err(io::Error::from(ErrorKind::OutOfMemory));
            }
        }
        self.room = self.room.saturating_sub(count);
        Ok(count)
    }

    fn flush(&mut self) -> io::Result<()> {
        if self.flushes == 0 {
            return Err(io::Error::from(ErrorKind::BrokenPipe));
        }
        self.flushes = self.flushes.saturating_sub(1);
        Ok(())
    }
}

// Takes all.
pub(super) fn wide(alloc: Global) -> Narrow {
    Narrow {
        text: Vec::new(alloc),
        at_once: usize::MAX,
        room: usize::MAX,
        flushes: usize::MAX,
        fails: true,
        interrupts: false,
        interrupted: false,
    }
}

const TOLD: &str = "k1 ok 1\nk2 ok 2\n";

const LAST_TOLD_AGAIN: &str = "k1 repeated 1\nk2 ok 2\n";

const BOTH_TOLD_AGAIN: &str = "k1 repeated 1\nk2 repeated 2\n";

// How many bytes are told of a batch of two lines, how it ends, and whether it fails at the answer
// to the first: then the second is left, since a line is taken once the answers before it are told.
// Each answer has eight bytes.
#[derive(Clone, Copy)]
struct Expected {
    told: usize,
    end: Result<BatchEnd, FrontFault>,
    fails_at_first: bool,
}

// What is left of the two lines after a batch that ended so, and what both are then answered.
fn left_and_told_again(fails_at_first: bool) -> (&'static str, &'static str) {
    if fails_at_first {
        (INSERT, LAST_TOLD_AGAIN)
    } else {
        ("", BOTH_TOLD_AGAIN)
    }
}

fn tells<S: Alter + Drop, H: Shelf + Drop>(
    rt: &(impl Abort + AllocGlobal),
    store: Connection<S>,
    shelf: H,
    output: &mut Narrow,
    expected: Expected,
) {
    let mut bench = open(rt, store, shelf);
    let lines = format!(in rt.alloc(); "{LABEL}{INSERT}").expect(rt, "no memory");
    let mut input = lines.as_bytes();
    let ended = try_batch(rt, &mut input, output, &mut bench);
    let told = TOLD.as_bytes().get(..expected.told);
    must(rt, Some(output.text.as_slice()) == told, "another text");
    let (left, again) = left_and_told_again(expected.fails_at_first);
    let is_over = ended == expected.end && input == left.as_bytes();
    must(rt, is_over, "another end or rest");
    answers(rt, &mut bench, lines.as_bytes(), again, DONE);
}

// The same over memory.
fn are_told(rt: &(impl Abort + AllocGlobal), mut output: Narrow, expected: Expected) {
    tells(
        rt,
        in_memory(rt),
        serving(images(rt)),
        &mut output,
        expected,
    );
}

#[test]
fn what_an_output_has_no_room_for_was_done(rt: HostRuntime) {
    for case in 0usize..96 {
        let room = case % 16;
        let at_once = [1usize, 3, 16][case / 16 % 3];
        let output = Narrow {
            at_once,
            room,
            fails: case < 48,
            interrupts: at_once == 3,
            ..wide(rt.alloc())
        };
        let expected = Expected {
            told: room,
            end: Err(FrontFault::Write),
            fails_at_first: room < 8,
        };
        are_told(&rt, output, expected);
    }
}

#[test]
fn an_output_may_be_narrow_and_interrupted(rt: HostRuntime) {
    for at_once in 1usize..10 {
        let output = Narrow {
            at_once,
            room: 16,
            interrupts: true,
            ..wide(rt.alloc())
        };
        let expected = Expected {
            told: 16,
            end: Ok(DONE),
            fails_at_first: false,
        };
        are_told(&rt, output, expected);
    }
}

#[test]
fn an_answer_that_cant_be_flushed_isnt_told(rt: HostRuntime) {
    for flushes in 0usize..2 {
        let output = Narrow {
            flushes,
            ..wide(rt.alloc())
        };
        let expected = Expected {
            told: flushes * 8 + 8,
            end: Err(FrontFault::Write),
            fails_at_first: flushes == 0,
        };
        are_told(&rt, output, expected);
    }
}
