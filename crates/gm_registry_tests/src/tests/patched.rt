//! Bytes that are to be laid: written with their intents, and read back.

use super::calls::{accept_instead, accepts, edits, load, must_count, opened, settles};
use super::counting::nothing;
use super::reading::read_in_memory;
use super::{inserts, label, labels, must};
use gm_registry::Registry;
use gm_rows::{Loaded, StoreFault};
use gm_state::Intent;
use sqlite::{Alter, Connection, params};
use std::process::Abort;

// In place of the intents of the rows: two sectors are laid over a.img from sector 1 on.
const INTENTS: &str = "DELETE FROM intents;
INSERT INTO intents VALUES (1, 4, 'a.img', '', 0, 0);
INSERT INTO intents VALUES (2, 5, 'a.img', '', 1, 3);
INSERT INTO intents VALUES (3, 1, 'a.img', '', 0, 0)";

fn patching(rt: &impl Abort) -> [Intent; 3] {
    let provider = label(rt, "a.img");
    [
        Intent::Dirty { provider },
        Intent::Patch {
            provider,
            first: 1,
            end: 3,
        },
        Intent::Meta { provider },
    ]
}

// What is loaded has these as pending.
fn must_be_pending(
    rt: &impl Abort,
    loaded: Result<Loaded, StoreFault>,
    intents: &[Intent],
    bytes: &[[u8; 512]],
) {
    let loaded = loaded.expect(rt, "not loaded");
    must(rt, loaded.intents.as_slice() == intents, "other intents");
    must(rt, loaded.bytes.as_slice() == bytes, "other bytes");
}

// Opens a registry again.
fn again<S: Alter + Drop>(rt: &impl Abort, registry: Registry<S>) -> Registry<S> {
    opened(rt, registry.close())
}

fn read_back<S: Alter + Drop>(rt: &(impl Abort + AllocGlobal), store: Connection<S>) {
    let bytes = [[1u8; 512], [2u8; 512]];
    let patching = patching(rt);
    let mut registry = opened(rt, store);
    accepts(rt, &mut registry, &labels(rt), "k1", "label gm0 a.img");
    settles(rt, &mut registry);
    let words = ("k2", "insert gm0 b.img");
    let accepted = accept_instead(&mut registry, &inserts(rt), &patching, &bytes, words);
    must(rt, accepted == Ok(2), "not accepted");
    registry = again(rt, registry);
    must_be_pending(rt, load(rt.alloc(), &mut registry), &patching, &bytes);
    settles(rt, &mut registry);
    registry = again(rt, registry);
    must_be_pending(rt, load(rt.alloc(), &mut registry), &[], &[]);
    let mut store = registry.close();
    must_count(rt, &mut store, 0, "SELECT count(*) FROM patches");
}

#[test]
fn bytes_are_read_back_until_they_are_settled(rt: HostRuntime) {
    read_back(&rt, nothing(&rt));
}

/// Somebody else puts so many bytes, if any.
pub(super) fn put_bytes<S: Alter>(
    rt: &(impl Abort + AllocGlobal),
    store: &mut Connection<S>,
    count: usize,
) {
    if count > 0 {
        let bytes = vec![in rt.alloc(); 97u8; count].expect(rt, "no memory");
        let put = store.execute(
            "INSERT INTO patches VALUES (1, ?1)",
            params![bytes.as_slice()],
        );
        must(rt, put.is_ok(), "no bytes");
    }
}

#[test]
fn rows_say_bytes_and_their_intents(rt: HostRuntime) {
    let read = read_in_memory(&rt, INTENTS, 1024);
    must_be_pending(&rt, read.loaded, &patching(&rt), &[[97u8; 512]; 2]);
}
