//! The calls of a registry as tests make them, over any store. They have no clause, so that the
//! proof of a test doesn't carry the state of each call.

use super::must;
use gm_changes::Change;
use gm_commands::Command;
use gm_registry::{OpenFault, Part, Registry};
use gm_rows::{Loaded, StoreFault};
use gm_state::{Intent, Reply, State};
use sqlite::{Alter, Connection, Error};
use std::alloc::Global;
use std::process::Abort;

pub(super) fn open<S: Alter + Drop>(store: Connection<S>) -> Result<Registry<S>, OpenFault<S>> {
    if !store.is_autocommit() {
        let fault = StoreFault::Store;
        return Err(OpenFault { fault, store });
    }
    Registry::open(store)
}

pub(super) fn load<S: Alter>(
    alloc: Global,
    registry: &mut Registry<S>,
) -> Result<Loaded, StoreFault> {
    registry.load(alloc)
}

pub(super) fn records<S: Alter>(
    alloc: Global,
    registry: &mut Registry<S>,
) -> Result<State, StoreFault> {
    registry.state(alloc)
}

pub(super) fn part<S: Alter>(
    alloc: Global,
    registry: &mut Registry<S>,
    command: &Command,
) -> Result<Part, StoreFault> {
    registry.part(alloc, command, &[])
}

pub(super) fn accept<S: Alter>(
    registry: &mut Registry<S>,
    change: &Change,
    key: &str,
    words: &str,
) -> Result<u64, StoreFault> {
    registry.accept(change, key, words)
}

pub(super) fn accept_instead<S: Alter>(
    registry: &mut Registry<S>,
    change: &Change,
    intents: &[Intent],
    bytes: &[[u8; 512]],
    (key, words): (&str, &str),
) -> Result<u64, StoreFault> {
    registry.accept_instead(change, intents, bytes, key, words)
}

pub(super) fn accepted<S: Alter>(registry: &mut Registry<S>) -> Result<u64, StoreFault> {
    registry.accepted()
}

pub(super) fn settle<S: Alter>(registry: &mut Registry<S>) -> Result<(), StoreFault> {
    registry.settle()
}

/// The reply under a key, if a command stands there.
pub(super) fn reply<S: Alter>(
    registry: &mut Registry<S>,
    key: &str,
) -> Result<Option<Reply>, StoreFault> {
    match registry.reply_of(key)? {
        Some((_, _, reply)) => Ok(Some(reply)),
        None => Ok(None),
    }
}

pub(super) fn number<S: Alter>(store: &mut Connection<S>, sql: &str) -> Result<i64, Error> {
    store.query_row(sql, &[])?.get(0)
}

/// Counts rows.
pub(super) fn must_count<S: Alter>(
    rt: &impl Abort,
    store: &mut Connection<S>,
    rows: i64,
    sql: &str,
) {
    must(rt, number(store, sql).ok() == Some(rows), sql);
}

/// Runs statements of somebody else's.
pub(super) fn edits<S: Alter>(rt: &impl Abort, store: &mut Connection<S>, sql: &str) {
    must(rt, store.execute_batch(sql).is_ok(), sql);
}

/// Opens a registry, accepts a change and settles it, in a test that needs this to succeed.
pub(super) fn opened<S: Alter + Drop>(rt: &impl Abort, store: Connection<S>) -> Registry<S> {
    match open(store) {
        Ok(registry) => registry,
        Err(_) => panic!(rt; "not opened"),
    }
}

pub(super) fn accepts<S: Alter>(
    rt: &impl Abort,
    registry: &mut Registry<S>,
    change: &Change,
    key: &str,
    words: &str,
) {
    must(rt, accept(registry, change, key, words).is_ok(), words);
}

pub(super) fn settles<S: Alter>(rt: &impl Abort, registry: &mut Registry<S>) {
    must(rt, settle(registry).is_ok(), "not settled");
}
