//! The rows of a registry that is new, and then of one that two commands filled.

use super::calls::{accepted, accepts, must_count, opened, reply, settles};
use super::counting::nothing;
use super::{inserts, labels, must};
use sqlite::{Alter, Connection};
use std::process::Abort;

const NEW: [(i64, &str); 3] = [
    (
        1,
        "SELECT count(*) FROM about WHERE one = 1 AND schema_no = 2",
    ),
    (0, "SELECT count(*) FROM mirrors"),
    (0, "SELECT count(*) FROM patches"),
];

const FILLED: [(i64, &str); 4] = [
    (
        1,
        "SELECT count(*) FROM mirrors WHERE name = 'gm0' AND mid = 7 AND total = 2 AND genid = 0 AND syncid = 1 AND slice = 4096 AND balance = 2 AND mediasize = 1536 AND mflags = 0",
    ),
    (
        1,
        "SELECT count(*) FROM components WHERE prov = 'a.img' AND mirror = 'gm0' AND did = 1 AND syncid = 1 AND priority = 0 AND sync_offset = 0 AND dflags = 0 AND hard = 1 AND provsize = 2048",
    ),
    (
        1,
        "SELECT count(*) FROM components WHERE prov = 'b.img' AND did = 2 AND priority = 9 AND dflags = 2 AND hard = 0",
    ),
    (
        2,
        "SELECT count(*) FROM commands WHERE copied = 0 AND of_total = 0",
    ),
];

fn must_have<S: Alter>(rt: &impl Abort, store: &mut Connection<S>, counts: &[(i64, &str)]) {
    for (rows, sql) in counts {
        must_count(rt, store, *rows, sql);
    }
}

fn is_filled<S: Alter + Drop>(rt: &(impl Abort + AllocGlobal), store: Connection<S>) {
    let mut registry = opened(rt, store);
    must(rt, accepted(&mut registry) == Ok(0), "commands");
    must(rt, reply(&mut registry, "k1") == Ok(None), "a key");
    let mut store = registry.close();
    must_have(rt, &mut store, &NEW);
    registry = opened(rt, store);
    accepts(rt, &mut registry, &labels(rt), "k1", "label gm0 a.img");
    settles(rt, &mut registry);
    accepts(rt, &mut registry, &inserts(rt), "k2", "insert gm0 b.img");
    must_have(rt, &mut registry.close(), &FILLED);
}

#[test]
fn a_new_registry_is_empty_and_then_holds_bytes_codes_and_flags(rt: HostRuntime) {
    is_filled(&rt, nothing(&rt));
}
