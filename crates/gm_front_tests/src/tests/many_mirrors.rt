//! As many mirrors as there may be, each with as many components as it may have: which records one
//! command changes.

use super::{DONE, answers, got, in_memory, must, open, serving};
use gm_bench::Bench;
use gm_metadata::Label;
use gm_shelf::{MemShelf, Shelf};
use gm_state::{Disk, State};
use gm_test_media::add;
use sqlite::{Alter, Connection};
use std::io::Write;
use std::process::Abort;

// 64 mirrors of 16 components each.
const COMPONENTS: u64 = 1024;

// An image of two sectors for each component.
fn many_images(rt: &(impl Abort + AllocGlobal)) -> MemShelf {
    let mut shelf = MemShelf::new(rt.alloc());
    for number in 0..COMPONENTS {
        let name = format!(in rt.alloc(); "p{number}").expect(rt, "no memory");
        let sectors = [[(number % 251) as u8; 512], [0; 512]];
        let sectors = Vec::from_slice(rt.alloc(), &sectors).expect(rt, "no memory");
        got(rt, add(&mut shelf, name.as_str(), sectors));
    }
    shelf
}

// Appends the line that makes a component: a label for the first one of a mirror.
fn push_line(rt: &impl Abort, input: &mut String, number: u64) {
    let mirror = number / 16;
    let did = number % 16;
    let key = number.saturating_add(1);
    let pushed = if did == 0 {
        writeln!(
            input,
            "k{key} label --mid {mirror} --did 0 m{mirror} p{number}"
        )
    } else {
        writeln!(input, "k{key} insert --did {did} m{mirror} p{number}")
    };
    must(rt, pushed.is_ok(), "no memory");
}

// The lines that make the mirrors, each component by a line of its own.
fn lines(rt: &(impl Abort + AllocGlobal)) -> String {
    let mut input = String::new(rt.alloc());
    for number in 0..COMPONENTS {
        push_line(rt, &mut input, number);
    }
    input
}

// What they are answered.
fn answered(rt: &(impl Abort + AllocGlobal)) -> String {
    let mut told = String::new(rt.alloc());
    for key in 1..=COMPONENTS {
        writeln!(told, "k{key} ok {key}").expect(rt, "no memory");
    }
    told
}

fn view<S: Alter, H: Shelf>(rt: &(impl Abort + AllocGlobal), bench: &mut Bench<S, H>) -> State {
    bench.view(rt.alloc()).expect(rt, "not viewed")
}

// How many components stand otherwise in the second.
fn changed(before: &State, after: &State) -> usize {
    let mut count = 0usize;
    for (first, second) in before.components().iter().zip(after.components()) {
        if first != second {
            count = count.saturating_add(1);
        }
    }
    count
}

// Only the third component of the sixth mirror stands otherwise in the second: it is in sync.
fn differ_in_one(rt: &impl Abort, before: &State, after: &State) {
    must(rt, before.mirrors().len() == 64, "other mirrors");
    must(rt, before.components().len() == 1024, "other components");
    must(rt, after.mirrors() == before.mirrors(), "another mirror");
    must(rt, after.components().len() == 1024, "another component");
    must(rt, changed(before, after) == 1, "other records");
    let name = Label::new("p82").expect(rt, "no label");
    let filled = after.component(name).expect(rt, "no component");
    must(rt, filled.disk == Disk::InSync, "not in sync");
}

// One component is filled: its record says so, and no other changes.
fn are_full<S: Alter + Drop, H: Shelf + Drop>(
    rt: &(impl Abort + AllocGlobal),
    store: Connection<S>,
    shelf: H,
) {
    let mut bench = open(rt, store, shelf);
    let (lines, told) = (lines(rt), answered(rt));
    answers(rt, &mut bench, lines.as_bytes(), told.as_str(), DONE);
    let before = view(rt, &mut bench);
    let line = b"k1025 advance m5 p82".as_slice();
    let filled = "k1025 ok 1025 copied 1 of 1\n";
    answers(rt, &mut bench, line, filled, DONE);
    differ_in_one(rt, &before, &view(rt, &mut bench));
}

#[test]
fn full_mirrors_are_kept_record_by_record(rt: HostRuntime) {
    are_full(&rt, in_memory(&rt), serving(many_images(&rt)));
}
