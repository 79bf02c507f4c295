//! A bench that fails at a line, since its shelf stopped, and a bench that has failed.

use super::writers::wide;
use super::{
    DESTROY, DONE, INSERT, LABEL, NO_MIRRORS, REFUSED, REMOVE, Told, answers, answers_some, images,
    in_memory, must, open, serving, shows, tell, try_batch, try_status,
};
use gm_bench::{Bench, BenchFault};
use gm_front::{BatchEnd, FrontFault};
use gm_shelf::{FaultShelf, Shelf};
use sqlite::{Alter, Connection};
use std::io::Write;
use std::process::Abort;

// A script is over long before it makes so many calls of the shelf.
const MANY: u64 = 200;

// Why a shelf stops.
#[derive(Clone, Copy)]
enum Stop {
    Device,
    Memory,
}

// A shelf whose calls from the nth on fail so.
fn failing<H: Shelf>(stop: Stop, shelf: H, nth: u64) -> FaultShelf<H> {
    match stop {
        Stop::Device => FaultShelf::stop_from(shelf, nth),
        Stop::Memory => FaultShelf::starve_from(shelf, nth),
    }
}

// The number of the fault that tells it.
fn fault_of(stop: Stop) -> u8 {
    match stop {
        Stop::Device => 3,
        Stop::Memory => 1,
    }
}

// The first lines, of which only the first has an answer and none asks the bench, and the last,
// which names no command.
const BEFORE: &str = "k/0\n\n  \n";

const BEHIND: &str = "k5 paint gm0";

// The commands between them, and how many there are.
const COMMANDS: [&str; 4] = [LABEL, INSERT, REMOVE, DESTROY];

// All lines, or those after the command at this place.
fn script(rt: &(impl Abort + AllocGlobal), behind: Option<usize>) -> String {
    let (before, from) = match behind {
        None => (BEFORE, 0),
        Some(place) => ("", place.saturating_add(1)),
    };
    let mut lines = String::from_str(rt.alloc(), before).expect(rt, "no memory");
    for line in COMMANDS.iter().skip(from) {
        lines.push_str(line).expect(rt, "no memory");
    }
    lines.push_str(BEHIND).expect(rt, "no memory");
    lines
}

// What the script is answered if so many of its commands were accepted before.
fn told_after(rt: &(impl Abort + AllocGlobal), accepted: u64) -> String {
    let mut text = String::from_str(rt.alloc(), "? refused 1\n").expect(rt, "no memory");
    for number in 1u64..=4 {
        let word = if number <= accepted { "repeated" } else { "ok" };
        writeln!(text, "k{number} {word} {number}").expect(rt, "no memory");
    }
    text.push_str("k5 refused 1\n").expect(rt, "no memory");
    text
}

fn is_told(rt: &(impl Abort + AllocGlobal), told: &Told, accepted: u64) -> bool {
    told.text.as_slice() == told_after(rt, accepted).as_bytes()
}

// What it is answered if the bench fails at the command at this place, by the fault of this
// number.
fn told_up_to(rt: &(impl Abort + AllocGlobal), place: u64, fault: u8) -> String {
    let mut text = String::from_str(rt.alloc(), "? refused 1\n").expect(rt, "no memory");
    for number in 1..=place {
        writeln!(text, "k{number} ok {number}").expect(rt, "no memory");
    }
    let number = place.saturating_add(1);
    writeln!(text, "k{number} fault {fault}").expect(rt, "no memory");
    text
}

// Whether this was told by a script that failed at the command at this place, which left the lines
// after it.
fn is_stopped_at(rt: &(impl Abort + AllocGlobal), told: &Told, place: u64, fault: u8) -> bool {
    let expected = told_up_to(rt, place, fault);
    let left = script(rt, Some(place as usize)).len();
    told.text.as_slice() == expected.as_bytes() && told.left == left
}

// The number of the fault at which a batch stopped.
fn stopped_by(told: &Told) -> Option<u8> {
    match told.end {
        Ok(BatchEnd::Stopped(fault)) => Some(fault.number()),
        _ => None,
    }
}

// How many of the commands were answered as done. Each is told, and so is the fault of this number.
fn done_of(rt: &(impl Abort + AllocGlobal), told: &Told, fault: u8) -> u64 {
    if told.end == Ok(REFUSED) {
        must(rt, is_told(rt, told, 0), "another text");
        must(rt, told.left == 0, "something wasn't read");
        return 4;
    }
    must(rt, stopped_by(told) == Some(fault), "another end");
    for place in 0u64..4 {
        if is_stopped_at(rt, told, place, fault) {
            return place;
        }
    }
    panic!(rt; "another text of a stop")
}

// What is handed to a bench that has failed, and what it then leaves.
const LATER: &str = "k/9\n  \nk8\nk9 clear c.img\nk9 clear\n";

const LATER_LEFT: usize = 9;

const CLOSED: BatchEnd = BatchEnd::Stopped(BenchFault::Closed);

// A bench that has failed says so at the first command, whatever its key is, and not before.
fn is_closed<S: Alter, H: Shelf>(rt: &(impl Abort + AllocGlobal), bench: &mut Bench<S, H>) {
    for _ in 0..2 {
        let expected = "? refused 1\nk8 refused 1\nk9 fault 4\n";
        answers_some(rt, bench, LATER.as_bytes(), expected, CLOSED, LATER_LEFT);
    }
    let line = b"k/9 clear c.img".as_slice();
    answers(rt, bench, line, "? fault 4\n", CLOSED);
    let status = try_status(rt, bench);
    must(rt, status.err() == Some(BenchFault::Closed), "viewed");
    answers(rt, bench, b"\n".as_slice(), "", DONE);
    answers(rt, bench, b"k1".as_slice(), "k1 refused 1\n", REFUSED);
}

// The script, and then more if the bench failed and that is asked; how many commands were
// answered as done.
pub(super) fn plays<S: Alter, H: Shelf>(
    rt: &(impl Abort + AllocGlobal),
    bench: &mut Bench<S, H>,
    fault: u8,
    and_more: bool,
) -> u64 {
    let told = tell(rt, bench, script(rt, None).as_bytes());
    let done = done_of(rt, &told, fault);
    if done < 4 && and_more {
        is_closed(rt, bench);
    }
    done
}

// The same lines again, to a bench that was opened since: what was answered is repeated, and the
// command at which the first bench failed may have been accepted.
pub(super) fn goes_on<S: Alter, H: Shelf>(
    rt: &(impl Abort + AllocGlobal),
    bench: &mut Bench<S, H>,
    done: u64,
) {
    let told = tell(rt, bench, script(rt, None).as_bytes());
    must(rt, told.end == Ok(REFUSED), "another end");
    let next = done.saturating_add(1);
    let holds = is_told(rt, &told, done) || is_told(rt, &told, next);
    must(rt, holds, "another text of the same lines");
    shows(rt, bench, NO_MIRRORS);
}

fn stops_at<S: Alter + Drop>(
    rt: &(impl Abort + AllocGlobal),
    store: Connection<S>,
    stop: Stop,
    nth: u64,
) -> u64 {
    let mut bench = open(rt, store, failing(stop, images(rt), nth));
    let done = plays(rt, &mut bench, fault_of(stop), true);
    let (store, stopped) = bench.close();
    let mut bench = open(rt, store, serving(stopped.into_inner()));
    goes_on(rt, &mut bench, done);
    done
}

// Stops at each call of the shelf in turn: at some within each command, and then at none.
fn stop_at_each(rt: &(impl Abort + AllocGlobal), stop: Stop) {
    let mut done = 0u64;
    for nth in 1..MANY {
        if done < 4 {
            let next = stops_at(rt, in_memory(rt), stop, nth);
            let follows = next == done || next == done.saturating_add(1);
            must(rt, follows && (nth > 1 || next == 0), "another command");
            done = next;
        }
    }
    must(rt, done == 4, "no run ended");
}

#[test]
fn a_shelf_that_stops_ends_a_batch(rt: HostRuntime) {
    stop_at_each(&rt, Stop::Device);
    stop_at_each(&rt, Stop::Memory);
}

// A fault that can't be told is one of the output; the bench has failed all the same.
fn isnt_told<S: Alter + Drop, H: Shelf + Drop>(
    rt: &(impl Abort + AllocGlobal),
    store: Connection<S>,
    shelf: H,
) {
    let mut bench = open(rt, store, shelf);
    let mut output = wide(rt.alloc());
    output.room = 12;
    let lines = script(rt, None);
    let mut input = lines.as_bytes();
    let end = try_batch(rt, &mut input, &mut output, &mut bench);
    let is_told = end == Err(FrontFault::Write) && output.room == 0;
    must(rt, is_told, "another end, or the first line wasn't told");
    is_closed(rt, &mut bench);
}

#[test]
fn a_fault_that_cant_be_told_is_one_of_the_output(rt: HostRuntime) {
    let stopping = FaultShelf::stop_from(images(&rt), 1);
    isnt_told(&rt, in_memory(&rt), stopping);
}
