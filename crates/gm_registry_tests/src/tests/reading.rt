//! Rows that say a state, and what is read of rows that say none: the records alone, one mirror
//! without the others, and replies.
//!
//! `tests/process` has each edit after which nothing is read.

use super::calls::{edits, load, opened, part, records, reply};
use super::counting::nothing;
use super::patched::put_bytes;
use super::{label, must};
use gm_commands::Command;
use gm_metadata::{Balance, MirrorFlags};
use gm_registry::{Part, Registry};
use gm_rows::{Loaded, StoreFault};
use gm_state::{Component, Disk, Intent, Mirror, Reply, State};
use sqlite::{Alter, Connection};
use std::process::Abort;

// gm0 with three components, of which one is copied to; gm1 with one; gm2 with three, of which one
// takes no part.
pub(super) const ROWS: &str =
    "INSERT INTO mirrors VALUES ('gm2', 9, 16, 4294967295, 2, 1, 4, 512, 3);
INSERT INTO mirrors VALUES ('gm0', 7, 3, 0, 1, 4096, 2, 1536, 2);
INSERT INTO mirrors VALUES ('gm1', 8, 1, 1, 0, 4294967295, 0, 536869888, 0);
INSERT INTO components VALUES ('a.img', 'gm0', 1, 1, 0, 0, 0, 0, 2048);
INSERT INTO components VALUES ('b.img', 'gm0', 2, 1, 255, 512, 6, 1, 2560);
INSERT INTO components VALUES ('c.img', 'gm0', 4294967295, 1, 5, 0, 2, 0, 2048);
INSERT INTO components VALUES ('d.img', 'gm1', 1, 0, 0, 0, 0, 1, 536870912);
INSERT INTO components VALUES ('e.img', 'gm2', 1, 2, 0, 0, 0, 0, 1024);
INSERT INTO components VALUES ('f.img', 'gm2', 2, 2, 0, 0, 0, 0, 1024);
INSERT INTO components VALUES ('g.img', 'gm2', 3, 1, 0, 0, 8, 0, 1024);
INSERT INTO commands VALUES ('k1', 1, 'destroy gm9', 0, 0);
INSERT INTO commands VALUES ('k3', 3, 'advance gm0 b.img', 1048576, 1048576);
INSERT INTO commands VALUES ('k2', 2, 'destroy gm8', 0, 0);
INSERT INTO intents VALUES (2, 1, 'b.img', '', 0, 0);
INSERT INTO intents VALUES (1, 3, 'b.img', 'a.img', 1, 3);
INSERT INTO intents VALUES (3, 2, 'x.img', '', 0, 0)";

// Edits of what is pending and of the commands, each of which leaves the records readable.
const OTHER_EDITS: [&str; 22] = [
    "UPDATE intents SET kind = 9 WHERE ord = 2",
    "UPDATE intents SET prov = 'y.img' WHERE ord = 2",
    "UPDATE intents SET prov = 'a.img' WHERE ord = 3",
    "UPDATE intents SET source = 'a.img' WHERE ord = 2",
    "UPDATE intents SET end_sector = 4 WHERE ord = 1",
    "UPDATE intents SET source = 'b.img' WHERE ord = 1",
    "UPDATE intents SET source = 'c.img' WHERE ord = 1",
    "UPDATE intents SET source = 'e.img' WHERE ord = 1",
    "UPDATE intents SET ord = 5 WHERE ord = 1",
    "UPDATE intents SET ord = 4 WHERE ord = 3",
    "INSERT INTO intents VALUES (4, 3, 'c.img', 'a.img', 0, 3); INSERT INTO intents VALUES (5, 1, 'c.img', '', 0, 0)",
    "INSERT INTO intents VALUES (4, 4, 'a.img', '', 0, 0)",
    "INSERT INTO intents VALUES (4, 4, 'b.img', '', 0, 0); INSERT INTO intents VALUES (5, 1, 'b.img', '', 0, 0)",
    "DELETE FROM intents; INSERT INTO intents VALUES (1, 4, 'a.img', '', 0, 0); INSERT INTO intents VALUES (2, 5, 'a.img', '', 1, 2); INSERT INTO intents VALUES (3, 1, 'a.img', '', 0, 0)",
    "UPDATE commands SET seq = 4 WHERE seq = 3",
    "UPDATE commands SET seq = 4 WHERE seq = 2",
    "UPDATE commands SET seq = 0 WHERE seq = 2",
    "UPDATE commands SET seq = -1 WHERE seq = 1",
    "UPDATE commands SET seq = 100001 WHERE seq = 3",
    "UPDATE commands SET seq = 9223372036854775807 WHERE seq = 3",
    "DELETE FROM commands WHERE seq = 1",
    "DELETE FROM commands WHERE seq = 2",
];

// Edits that leave gm0 and its components readable, though the records are no state.
const EDITS_OF_OTHERS: [&str; 4] = [
    "UPDATE components SET provsize = 536871424 WHERE prov = 'd.img'",
    "UPDATE mirrors SET total = 17 WHERE name = 'gm2'",
    "UPDATE mirrors SET mediasize = 0 WHERE name = 'gm2'",
    "INSERT INTO mirrors VALUES ('gm3', 10, 1, 0, 1, 4096, 2, 1536, 0)",
];

// Edits of gm0 and its components, and one of a mirror that no value of the code can be: neither the
// records are readable nor what a command on gm0 asks for.
const EDITS_OF_GM0: [&str; 5] = [
    "UPDATE components SET dflags = 4 WHERE prov = 'a.img'",
    "UPDATE components SET sync_offset = 1536 WHERE prov = 'b.img'",
    "UPDATE components SET provsize = 1536 WHERE prov = 'c.img'",
    "UPDATE mirrors SET total = 2 WHERE name = 'gm0'",
    "UPDATE mirrors SET genid = 4294967296 WHERE name = 'gm2'",
];

// Edits of replies. They leave the rows a state, since a loading doesn't read them.
const REPLY_EDITS: [&str; 4] = [
    "UPDATE commands SET copied = 1048577 WHERE seq = 3",
    "UPDATE commands SET copied = -1 WHERE seq = 3",
    "UPDATE commands SET of_total = 4294967295 WHERE seq = 3",
    "UPDATE commands SET of_total = -1 WHERE seq = 3",
];

// gm0 as its row says it.
fn gm0(rt: &impl Abort) -> Mirror {
    Mirror {
        name: label(rt, "gm0"),
        mid: 7,
        all: 3,
        genid: 0,
        syncid: 1,
        slice: 4096,
        balance: Balance::Load,
        data_sectors: 3,
        flags: MirrorFlags {
            no_autosync: false,
            no_failsync: true,
        },
    }
}

// b.img as its row says it.
fn b_img(rt: &impl Abort) -> Component {
    Component {
        provider: label(rt, "b.img"),
        mirror: label(rt, "gm0"),
        did: 2,
        syncid: 1,
        priority: 255,
        disk: Disk::Copying {
            forced: true,
            held: 1,
        },
        hardcoded: true,
        sectors: 5,
    }
}

// What the rows of intents say, in the order of their numbers.
fn intents(rt: &impl Abort) -> [Intent; 3] {
    let b = label(rt, "b.img");
    [
        Intent::Copy {
            source: label(rt, "a.img"),
            target: b,
            first: 1,
            end: 3,
        },
        Intent::Meta { provider: b },
        Intent::Clear {
            provider: label(rt, "x.img"),
        },
    ]
}

/// What is read of a registry: all of it, the records, what commands on gm0 and on gm3 ask for, and
/// the replies under k1, k2 and k3.
#[derive(Drop)]
pub(super) struct Readings {
    pub(super) loaded: Result<Loaded, StoreFault>,
    records: Result<State, StoreFault>,
    gm0: Result<Part, StoreFault>,
    gm3: Result<Part, StoreFault>,
    replies: [Result<Option<Reply>, StoreFault>; 3],
}

// The part that a command on a mirror asks for.
fn part_of<S: Alter>(
    rt: &(impl Abort + AllocGlobal),
    registry: &mut Registry<S>,
    name: &str,
) -> Result<Part, StoreFault> {
    let name = label(rt, name);
    part(rt.alloc(), registry, &Command::Destroy { name })
}

// What is read of the rows after an edit, beside so many bytes that are to be laid.
fn read_over<S: Alter + Drop>(
    rt: &(impl Abort + AllocGlobal),
    store: Connection<S>,
    edit: &str,
    bytes: usize,
) -> Readings {
    let mut store = opened(rt, store).close();
    edits(rt, &mut store, ROWS);
    edits(rt, &mut store, edit);
    put_bytes(rt, &mut store, bytes);
    let mut registry = opened(rt, store);
    Readings {
        loaded: load(rt.alloc(), &mut registry),
        records: records(rt.alloc(), &mut registry),
        gm0: part_of(rt, &mut registry, "gm0"),
        gm3: part_of(rt, &mut registry, "gm3"),
        replies: [
            reply(&mut registry, "k1"),
            reply(&mut registry, "k2"),
            reply(&mut registry, "k3"),
        ],
    }
}

/// The same in memory.
pub(super) fn read_in_memory(
    rt: &(impl Abort + AllocGlobal),
    edit: &str,
    bytes: usize,
) -> Readings {
    read_over(rt, nothing(rt), edit, bytes)
}

fn must_be_gm0(rt: &impl Abort, state: &State) {
    let mirror = state.mirror(label(rt, "gm0"));
    must(rt, mirror == Some(gm0(rt)), "gm0");
}

fn must_be_the_records(rt: &impl Abort, state: &State) {
    must(rt, state.mirrors().len() == 3, "mirrors");
    must(rt, state.components().len() == 7, "components");
    must_be_gm0(rt, state);
    let component = state.component(label(rt, "b.img"));
    must(rt, component == Some(b_img(rt)), "b.img");
}

// The rows are loaded, and no bytes to be laid.
fn must_be_the_rows(rt: &impl Abort, loaded: &Loaded) {
    must_be_the_records(rt, &loaded.state);
    let pending = loaded.intents.as_slice();
    must(rt, pending == intents(rt).as_slice(), "intents");
    must(rt, loaded.bytes.is_empty(), "bytes");
}

#[test]
fn rows_say_a_state_and_its_parts(rt: HostRuntime) {
    let read = read_in_memory(&rt, "", 0);
    must_be_the_rows(&rt, &read.loaded.expect(&rt, "not loaded"));
    must_be_the_records(&rt, &read.records.expect(&rt, "no records"));
    let gm0 = read.gm0.expect(&rt, "no part").state;
    must_be_gm0(&rt, &gm0);
    must(&rt, gm0.mirrors().len() == 1, "one mirror");
    must(&rt, gm0.components().len() == 3, "its components");
    let gm3 = read.gm3.expect(&rt, "no part").state;
    must(&rt, gm3.mirrors().is_empty(), "no mirror");
    must(&rt, gm3.components().is_empty(), "no components");
    let greatest = Reply::Copied {
        held: 1_048_576,
        total: 1_048_576,
    };
    let [first, second, third] = read.replies;
    must(&rt, third == Ok(Some(greatest)), "k3");
    must(&rt, second == Ok(Some(Reply::Plain)), "k2");
    must(&rt, first == Ok(Some(Reply::Plain)), "k1");
}

// Whether something is read, if it is to be, or else unreadable; and what was read.
fn read_if<'a, T>(
    rt: &impl Abort,
    found: &'a Result<T, StoreFault>,
    wanted: bool,
    edit: &str,
) -> Option<&'a T> {
    match found {
        Ok(read) => {
            must(rt, wanted, edit);
            Some(read)
        }
        Err(fault) => {
            must(rt, !wanted && *fault == StoreFault::Unreadable, edit);
            None
        }
    }
}

// After each of these edits nothing is loaded. The records, and what a command on gm0 asks for, are
// read if they are to be, and else unreadable.
fn must_leave(rt: &(impl Abort + AllocGlobal), edits: &[&str], records: bool, gm0: bool) {
    for edit in edits {
        let read = read_in_memory(rt, edit, 0);
        must(
            rt,
            matches!(&read.loaded, Err(StoreFault::Unreadable)),
            edit,
        );
        if let Some(state) = read_if(rt, &read.records, records, edit) {
            must_be_the_records(rt, state);
        }
        if let Some(part) = read_if(rt, &read.gm0, gm0, edit) {
            must_be_gm0(rt, &part.state);
        }
    }
}

#[test]
fn records_and_one_mirror_are_read_alone(rt: HostRuntime) {
    must_leave(&rt, &OTHER_EDITS, true, true);
    must_leave(&rt, &EDITS_OF_OTHERS, false, true);
    must_leave(&rt, &EDITS_OF_GM0, false, false);
}

// The state is read, and each reply but the one that was edited.
#[test]
fn a_reply_out_of_range_is_unreadable_alone(rt: HostRuntime) {
    for edit in REPLY_EDITS {
        let read = read_in_memory(&rt, edit, 0);
        must_be_the_rows(&rt, &read.loaded.expect(&rt, edit));
        let [_, second, third] = read.replies;
        must(&rt, third == Err(StoreFault::Unreadable), edit);
        must(&rt, second == Ok(Some(Reply::Plain)), edit);
    }
}
