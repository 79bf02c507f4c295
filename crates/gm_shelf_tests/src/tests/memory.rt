//! The shelf in memory and what a crash leaves of it, and the shelf whose calls fail.

use super::{must, named};
use gm_shelf::{FaultShelf, MemShelf, Shelf, ShelfFault};
use std::process::Abort;

// Two providers of three sectors, whose bytes are 1 and 2.
fn two_disks(rt: &(impl Abort + AllocGlobal)) -> MemShelf {
    let mut shelf = MemShelf::new(rt.alloc());
    for (name, byte) in [("b", 2), ("a", 1)] {
        let sectors = vec![in rt.alloc(); [byte; 512]; 3].expect(rt, "no memory");
        let provider = named(rt, name);
        assert!(rt; shelf.sectors(provider).is_none());
        shelf.add(provider, sectors).expect(rt, "no memory");
    }
    shelf
}

// The first byte of each sector.
fn bytes_of<H: Shelf>(rt: &impl Abort, shelf: &mut H) -> [u8; 6] {
    let mut bytes = [0; 6];
    let mut sector = [0; 512];
    for (i, byte) in bytes.iter_mut().enumerate() {
        let name = named(rt, if i < 3 { "a" } else { "b" });
        let read = shelf.read(name, i as u64 % 3, &mut sector);
        must(rt, read.is_ok(), "not read");
        *byte = sector[0];
    }
    bytes
}

// Writes that are synced, and ones that aren't: those of a 0, a 2 and b 2.
fn write_some<H: Shelf>(rt: &impl Abort, shelf: &mut H) {
    let (a, b) = (named(rt, "a"), named(rt, "b"));
    let done = [
        shelf.write(b, 0, &[20; 512]),
        shelf.write(a, 2, &[10; 512]),
        shelf.sync(b),
        shelf.write(b, 2, &[21; 512]),
        shelf.write(a, 2, &[11; 512]),
        shelf.write(a, 0, &[12; 512]),
    ];
    must(rt, done == [Ok(()); 6], "not written");
}

// What a crash by these picks leaves. What is over picks nothing.
const PICKED: [(&[u32], [u8; 6]); 7] = [
    (&[], [1, 1, 1, 20, 2, 2]),
    (&[0, 1], [1, 1, 10, 20, 2, 2]),
    (&[0, 2], [1, 1, 11, 20, 2, 2]),
    (&[1, 9, 1], [12, 1, 11, 20, 2, 21]),
    (&[5, 0, 0], [12, 1, 1, 20, 2, 2]),
    (&[0, 0, 1, 1], [1, 1, 1, 20, 2, 21]),
    (&[1, 2, 0, 1, 2, 1, 1, 1], [12, 1, 11, 20, 2, 2]),
];

#[test]
fn a_crash_takes_the_picks(rt: HostRuntime) {
    let mut shelf = two_disks(&rt);
    let names = shelf.names().expect(&rt, "no memory");
    let wanted = [named(&rt, "a"), named(&rt, "b")];
    must(&rt, names.as_slice() == wanted.as_slice(), "other names");
    write_some(&rt, &mut shelf);
    let held = bytes_of(&rt, &mut shelf);
    must(&rt, held == [12, 1, 11, 20, 2, 21], "not kept");
    for (pick, wanted) in PICKED {
        let image = shelf.crash_image(pick);
        let left = bytes_of(&rt, &mut image.expect(&rt, "no memory"));
        must(&rt, left == wanted, "another image");
    }
}

#[derive(Clone, Copy, Debug)]
enum Mode {
    StopFrom,
    StarveFrom,
    StopAfter,
    FailOnceBefore,
    FailOnceAfter,
}

fn failing(mode: Mode, inner: MemShelf, nth: u64) -> FaultShelf<MemShelf> {
    match mode {
        Mode::StopFrom => FaultShelf::stop_from(inner, nth),
        Mode::StarveFrom => FaultShelf::starve_from(inner, nth),
        Mode::StopAfter => FaultShelf::stop_after(inner, nth),
        Mode::FailOnceBefore => FaultShelf::fail_once(inner, nth, false),
        Mode::FailOnceAfter => FaultShelf::fail_once(inner, nth, true),
    }
}

// How a call that fails is told.
fn fault_of(mode: Mode) -> ShelfFault {
    match mode {
        Mode::StarveFrom => ShelfFault::Memory,
        _ => ShelfFault::Device,
    }
}

// A run of two sectors of a from the second on, which makes two calls; a sync; a read; a write of
// the first sector: a dot for each that passes, and an x for each that fails so.
fn run_script<H: Shelf>(rt: &impl Abort, shelf: &mut H, fault: ShelfFault) -> [u8; 4] {
    let a = named(rt, "a");
    let mut sector = [0; 512];
    let done = [
        shelf.write_run(a, 1, &[[7; 512], [8; 512]]),
        shelf.sync(a),
        shelf.read(a, 0, &mut sector),
        shelf.write(a, 0, &[9; 512]),
    ];
    done.map(|answer| match answer {
        Ok(()) => b'.',
        Err(e) if e == fault => b'x',
        Err(_) => b'?',
    })
}

// The answers of the script, what the sectors of a hold at last, and what by their syncs.
type Played = ([u8; 4], [u8; 3], [u8; 3]);

fn played(rt: &(impl Abort + AllocGlobal), mode: Mode, nth: u64) -> Played {
    let mut shelf = failing(mode, two_disks(rt), nth);
    let answers = run_script(rt, &mut shelf, fault_of(mode));
    let mut inner = shelf.into_inner();
    let image = inner.crash_image(&[]);
    let [x, y, z, ..] = bytes_of(rt, &mut image.expect(rt, "no memory"));
    let [first, second, third, ..] = bytes_of(rt, &mut inner);
    (answers, [first, second, third], [x, y, z])
}

// Each for an nth from 0 on.
const STOPPED: [Played; 7] = [
    (*b"xxxx", [1, 1, 1], [1, 1, 1]),
    (*b"xxxx", [1, 1, 1], [1, 1, 1]),
    (*b"xxxx", [1, 7, 1], [1, 1, 1]),
    (*b".xxx", [1, 7, 8], [1, 1, 1]),
    (*b"..xx", [1, 7, 8], [1, 7, 8]),
    (*b"...x", [1, 7, 8], [1, 7, 8]),
    (*b"....", [9, 7, 8], [1, 7, 8]),
];

const STOPPED_AFTER: [Played; 7] = [
    (*b"xxxx", [1, 7, 1], [1, 1, 1]),
    (*b"xxxx", [1, 7, 1], [1, 1, 1]),
    (*b"xxxx", [1, 7, 8], [1, 1, 1]),
    (*b".xxx", [1, 7, 8], [1, 7, 8]),
    (*b"..xx", [1, 7, 8], [1, 7, 8]),
    (*b"...x", [9, 7, 8], [1, 7, 8]),
    (*b"....", [9, 7, 8], [1, 7, 8]),
];

const FAILED_BEFORE: [Played; 7] = [
    (*b"x...", [9, 1, 1], [1, 1, 1]),
    (*b"x...", [9, 1, 1], [1, 1, 1]),
    (*b"x...", [9, 7, 1], [1, 7, 1]),
    (*b".x..", [9, 7, 8], [1, 1, 1]),
    (*b"..x.", [9, 7, 8], [1, 7, 8]),
    (*b"...x", [1, 7, 8], [1, 7, 8]),
    (*b"....", [9, 7, 8], [1, 7, 8]),
];

const FAILED_AFTER: [Played; 7] = [
    (*b"x...", [9, 7, 1], [1, 7, 1]),
    (*b"x...", [9, 7, 1], [1, 7, 1]),
    (*b"x...", [9, 7, 8], [1, 7, 8]),
    (*b".x..", [9, 7, 8], [1, 7, 8]),
    (*b"..x.", [9, 7, 8], [1, 7, 8]),
    (*b"...x", [9, 7, 8], [1, 7, 8]),
    (*b"....", [9, 7, 8], [1, 7, 8]),
];

#[test]
fn a_call_fails_in_its_turn(rt: HostRuntime) {
    let modes = [
        (Mode::StopFrom, STOPPED),
        (Mode::StarveFrom, STOPPED),
        (Mode::StopAfter, STOPPED_AFTER),
        (Mode::FailOnceBefore, FAILED_BEFORE),
        (Mode::FailOnceAfter, FAILED_AFTER),
    ];
    for (mode, rows) in modes {
        for (nth, wanted) in rows.iter().enumerate() {
            assert_eq!(rt; played(&rt, mode, nth as u64), *wanted, "{mode:?} {nth}");
        }
    }
}
