//! Inputs that come slowly, and inputs that fail.

use super::{
    DONE, INSERT, LABEL, REMOVE, answers, images, in_memory, must, of_letters, open, serving,
    try_batch,
};
use gm_front::{BatchEnd, FrontFault};
use gm_lines::MAX_LINE;
use gm_shelf::Shelf;
use sqlite::{Alter, Connection};
use std::io::{self, BufReader, ErrorKind, Read};
use std::process::Abort;

// Gives a byte at a time, so many of them, and then fails. It may be interrupted before each.
#[derive(Drop)]
pub(super) struct Slow<'a> {
    rest: &'a [u8],
    passing: usize,
    interrupts: bool,
    interrupted: bool,
}

impl<'a> Read for Slow<'a> {
    fn read(&mut self, out: &mut [u8]) -> io::Result<usize> {
        self.interrupted = self.interrupts && !self.interrupted;
        if self.interrupted {
            return Err(io::Error::from(ErrorKind::Interrupted));
        }
        if self.passing == 0 {
            return Err(io::Error::from(ErrorKind::BrokenPipe));
        }
        let Some((byte, rest)) = self.rest.split_first() else {
            return Ok(0);
        };
        let Some(first) = out.first_mut() else {
            return Ok(0);
        };
        *first = *byte;
        self.rest = rest;
        self.passing = self.passing.saturating_sub(1);
        Ok(1)
    }
}

// How many of the three lines are answered, how that ends, and how many are repeated by a further
// batch of all three.
#[derive(Clone, Copy)]
struct Expected {
    answered: usize,
    end: Result<BatchEnd, FrontFault>,
    repeated: usize,
}

// An input that fails after so many bytes, also at its end.
pub(super) fn failing(lines: &[u8], passing: usize) -> Slow<'_> {
    Slow {
        rest: lines,
        passing,
        interrupts: false,
        interrupted: false,
    }
}

// The three lines.
fn three_lines(rt: &(impl Abort + AllocGlobal)) -> String {
    format!(in rt.alloc(); "{LABEL}{INSERT}{REMOVE}").expect(rt, "no memory")
}

// A batch of such an input, and one of the three lines. Each answer to the first has eight bytes.
fn takes<S: Alter + Drop, H: Shelf + Drop>(
    rt: &(impl Abort + AllocGlobal),
    store: Connection<S>,
    shelf: H,
    input: Slow<'_>,
    expected: Expected,
) {
    let mut bench = open(rt, store, shelf);
    let mut reader = BufReader::new(rt.alloc(), input).expect(rt, "no memory");
    let mut text = Vec::new(rt.alloc());
    let ended = try_batch(rt, &mut reader, &mut text, &mut bench);
    let told = TOLD.as_bytes().get(..expected.answered.saturating_mul(8));
    must(rt, Some(text.as_slice()) == told, "another text");
    must(rt, ended == expected.end, "another end");
    let answered = told_after(expected.repeated);
    answers(rt, &mut bench, three_lines(rt).as_bytes(), answered, DONE);
}

// The same over memory.
fn are_taken(rt: &(impl Abort + AllocGlobal), input: Slow<'_>, expected: Expected) {
    takes(rt, in_memory(rt), serving(images(rt)), input, expected);
}

const TOLD: &str = "k1 ok 1\nk2 ok 2\nk3 ok 3\n";

// What the lines are answered of which so many were answered before.
fn told_after(answered: usize) -> &'static str {
    match answered {
        0 => TOLD,
        1 => "k1 repeated 1\nk2 ok 2\nk3 ok 3\n",
        2 => "k1 repeated 1\nk2 repeated 2\nk3 ok 3\n",
        _ => "k1 repeated 1\nk2 repeated 2\nk3 repeated 3\n",
    }
}

#[test]
fn what_was_answered_before_an_input_failed_stays(rt: HostRuntime) {
    let text = three_lines(&rt);
    let lines = text.as_bytes();
    for passing in 0..=lines.len() {
        let answered = lines.iter().take(passing).filter(|b| **b == 10).count();
        let expected = Expected {
            answered,
            end: Err(FrontFault::Read),
            repeated: answered,
        };
        are_taken(&rt, failing(lines, passing), expected);
    }
}

#[test]
fn an_input_may_be_slow_and_interrupted(rt: HostRuntime) {
    let lines = format!(in rt.alloc(); "\n{LABEL}  \n{INSERT}{REMOVE}").expect(&rt, "no memory");
    let slow = Slow {
        interrupts: true,
        ..failing(lines.as_bytes(), usize::MAX)
    };
    let expected = Expected {
        answered: 3,
        end: Ok(DONE),
        repeated: 3,
    };
    are_taken(&rt, slow, expected);
}

// No line is answered before its end is found.
#[test]
fn a_line_of_an_input_that_failed_within_it_has_no_answer(rt: HostRuntime) {
    let letters = of_letters(&rt, MAX_LINE + 6);
    for passing in [0usize, 1, MAX_LINE, MAX_LINE + 1, MAX_LINE + 2] {
        let expected = Expected {
            answered: 0,
            end: Err(FrontFault::Read),
            repeated: 0,
        };
        are_taken(&rt, failing(letters.as_slice(), passing), expected);
    }
}
