//! The part of the records that a command asks for is read by keys.

use super::calls::{accepts, edits, load, must_count, opened, part, settles};
use super::counting::nothing;
use super::{inserts, label, labels, must};
use gm_commands::Command;
use gm_registry::{Part, Registry};
use gm_rows::StoreFault;
use sqlite::{Alter, Connection};
use std::process::Abort;

// gm9 on z.img.
const SECOND: &str = "INSERT INTO mirrors VALUES ('gm9', 9, 1, 0, 1, 4096, 2, 1536, 0);
INSERT INTO components VALUES ('z.img', 'gm9', 1, 1, 5, 0, 0, 0, 2048)";

// gm0 on a.img by a command, and gm9 by somebody else's statements.
fn two_mirrors<S: Alter + Drop>(
    rt: &(impl Abort + AllocGlobal),
    store: Connection<S>,
) -> Connection<S> {
    let mut registry = opened(rt, store);
    accepts(rt, &mut registry, &labels(rt), "k1", "label gm0 a.img");
    settles(rt, &mut registry);
    let mut store = registry.close();
    edits(rt, &mut store, SECOND);
    store
}

// The part that a clear of a provider asks for. It has so many components of one mirror, of so many
// mirrors.
fn part_of<S: Alter>(
    rt: &(impl Abort + AllocGlobal),
    registry: &mut Registry<S>,
    provider: &str,
    (components, mirrors): (usize, u64),
) -> Part {
    let command = Command::Clear {
        provider: label(rt, provider),
    };
    let read = part(rt.alloc(), registry, &command).expect(rt, "no part");
    let well = read.state.mirrors().len() == 1
        && read.state.components().len() == components
        && read.mirrors == mirrors;
    must(rt, well, "another part");
    read
}

// Adds mirrors of four components each.
fn add_mirrors<S: Alter>(rt: &(impl Abort + AllocGlobal), store: &mut Connection<S>) {
    for mid in 100u32..140 {
        let sql = format!(in rt.alloc();
            "INSERT INTO mirrors VALUES ('m{mid}', {mid}, 4, 0, 1, 4096, 2, 1536, 0);
INSERT INTO components VALUES ('a{mid}', 'm{mid}', 1, 1, 0, 0, 0, 0, 2048), ('b{mid}', 'm{mid}', 2, 1, 0, 0, 0, 0, 2048), ('c{mid}', 'm{mid}', 3, 1, 0, 0, 0, 0, 2048), ('d{mid}', 'm{mid}', 4, 1, 0, 0, 0, 0, 2048)"
        )
        .expect(rt, "no memory");
        edits(rt, store, sql.as_str());
    }
}

// A statement may take fewer steps than there are components, and more than there are mirrors: what
// may take so few is a part, and no loading.
fn goes_by_keys<S: Alter + Drop>(rt: &(impl Abort + AllocGlobal), store: Connection<S>) {
    let mut store = two_mirrors(rt, store);
    add_mirrors(rt, &mut store);
    must_count(rt, &mut store, 162, "SELECT count(*) FROM components");
    store.set_step_limit(Some(120));
    let mut registry = opened(rt, store);
    part_of(rt, &mut registry, "c117", (4, 42));
    let all = load(rt.alloc(), &mut registry);
    must(rt, all.err() == Some(StoreFault::Store), "no limit");
}

#[test]
fn a_part_goes_by_keys(rt: HostRuntime) {
    goes_by_keys(&rt, nothing(&rt));
}

// The priority of z.img in the part that a command on it asks for.
fn must_have_priority<S: Alter>(
    rt: &(impl Abort + AllocGlobal),
    registry: &mut Registry<S>,
    priority: u8,
) {
    let read = part_of(rt, registry, "z.img", (1, 2));
    let component = read.state.component(label(rt, "z.img"));
    let found = component.expect(rt, "no component").priority;
    must(rt, found == priority, "another priority");
}

// Somebody else sets a component of gm9. Then gm0 gets another one.
fn stays_as_it_was_set<S: Alter + Drop>(rt: &(impl Abort + AllocGlobal), store: Connection<S>) {
    let mut registry = opened(rt, two_mirrors(rt, store));
    must_have_priority(rt, &mut registry, 5);
    let mut store = registry.close();
    edits(
        rt,
        &mut store,
        "UPDATE components SET priority = 77 WHERE prov = 'z.img'",
    );
    registry = opened(rt, store);
    accepts(rt, &mut registry, &inserts(rt), "k2", "insert gm0 b.img");
    must_have_priority(rt, &mut registry, 77);
    must_count(
        rt,
        &mut registry.close(),
        1,
        "SELECT count(*) FROM components WHERE prov = 'z.img' AND priority = 77",
    );
}

#[test]
fn a_command_leaves_other_mirrors_as_they_were_set(rt: HostRuntime) {
    stays_as_it_was_set(&rt, nothing(&rt));
}
