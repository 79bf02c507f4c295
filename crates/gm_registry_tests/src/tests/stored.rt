//! The files that registries are, byte for byte.

use super::calls::{accepts, opened, settles};
use super::stops::{left_pending, one_command};
use super::{NO_FLAGS, bare, change, label, must};
use gm_changes::changed_by;
use gm_commands::{BalanceWord, Command, NewComponent, NewMirror, Slice, words_of};
use gm_registry::Registry;
use gm_state::State;
use md5::{Digest, Md5};
use sqlite::{Alter, Connection};
use std::process::Abort;

// The MD5 of `examples/registry.sqlite`, which SQLite's own command line was shown.
const STORED: [u8; 16] = [
    0x69, 0x25, 0xff, 0x9b, 0x62, 0x6b, 0xb3, 0x33, 0x6b, 0x13, 0x59, 0xbd, 0xae, 0xef, 0x77, 0x48,
];

// The MD5 of `examples/pending.sqlite`.
const PENDING: [u8; 16] = [
    0x86, 0xad, 0x93, 0x31, 0xac, 0xfe, 0xbb, 0xfa, 0x42, 0x6d, 0x71, 0x7d, 0x10, 0x30, 0xed, 0x4b,
];

// Whether a file has thirteen pages of 2,048 bytes, with this hash.
fn must_be(rt: &impl Abort, bytes: &[u8], expected: [u8; 16]) {
    must(rt, bytes.len() == 26_624, "another length");
    let hash: [u8; 16] = Md5::digest(bytes).into();
    must(rt, hash == expected, "other bytes");
}

#[test]
fn a_registry_of_one_command_is_the_stored_file(rt: HostRuntime) {
    must_be(&rt, one_command(&rt).db.as_slice(), STORED);
}

// The label, the insert and the remove of the file, under their keys.
fn commands(rt: &impl Abort) -> [(&'static str, Command); 3] {
    let name = label(rt, "gm0");
    let provider = label(rt, "b.img");
    [
        (
            "k1",
            Command::Label(NewMirror {
                name,
                provider: label(rt, "a.img"),
                mid: 7,
                did: 1,
                balance: BalanceWord::Load,
                slice: Slice::new(4096).expect(rt, "no slice"),
                flags: NO_FLAGS,
                hardcoded: false,
            }),
        ),
        (
            "k2",
            Command::Insert(NewComponent {
                name,
                provider,
                did: 2,
                priority: 0,
                hardcoded: false,
            }),
        ),
        ("k3", Command::Remove { name, provider }),
    ]
}

// Accepts a command, and answers the records after it.
fn accept_command<S: Alter>(
    rt: &(impl Abort + AllocGlobal),
    registry: &mut Registry<S>,
    state: &State,
    command: &Command,
    key: &str,
) -> State {
    let facts = [bare(rt, "a.img"), bare(rt, "b.img")];
    let change = change(rt, state, &facts, command);
    let words = words_of(rt.alloc(), command).expect(rt, "no memory");
    accepts(rt, registry, &change, key, words.as_str());
    let after = changed_by(rt.alloc(), state, &change).expect(rt, "no memory");
    after.expect(rt, "no state")
}

/// Accepts the three, and settles each but the last.
pub(super) fn stop_within_remove<S: Alter + Drop>(
    rt: &(impl Abort + AllocGlobal),
    store: Connection<S>,
) -> Connection<S> {
    let mut registry = opened(rt, store);
    let mut state = State::empty(rt.alloc());
    let commands = commands(rt);
    for (key, command) in &commands {
        if *key != "k1" {
            settles(rt, &mut registry);
        }
        state = accept_command(rt, &mut registry, &state, command, key);
    }
    registry.close()
}

#[test]
fn a_registry_within_a_remove_is_the_stored_file(rt: HostRuntime) {
    must_be(&rt, left_pending(&rt).db.as_slice(), PENDING);
}
