//! How many rows of tables one accepted command writes, counted below the connection.

use super::calls::{accepts, opened, settles};
use super::{destroys, inserts, labels, labels_on, must};
use gm_changes::Change;
use sqlite::{Connection, MemStore};
use sqlite_trees::error::StoreError;
use sqlite_trees::schema::Object;
use sqlite_trees::store::{Alter, Direction, Shape, Store};
use sqlite_value::row::Row;
use std::alloc::{AllocError, Global};
use std::process::Abort;

// A store, and how many times a row was put into one of its tables or deleted from one. The entries
// of its indexes aren't counted.
#[derive(Drop)]
pub(super) struct Counted<S: Alter> {
    store: S,
    rows: u64,
}

impl<S: Alter> Store for Counted<S> {
    ghost view = { λ c. S.Store.view c.store };

    ghost faults = { λ c. S.Store.faults c.store };

    ghost recovers = { λ c. S.Store.recovers c.store };

    ghost is_shielded = { λ c. S.Store.is_shielded c.store };

    ghost is_step = { λ old new. S.Store.is_step old.store new.store };

    ghost blamed = { λ c. S.Store.blamed c.store };

    ghost names = { λ old new. S.Store.names old.store new.store };

    ghost ordered = { λ c. S.Store.ordered c.store };

    ghost shut_if_dirty = { λ c. S.Store.shut_if_dirty c.store };

    ghost empty_if_dirty = { λ c. S.Store.empty_if_dirty c.store };

    ghost broken_if_shut = { λ c. S.Store.broken_if_shut c.store };

    ghost settled = { λ c. S.Store.settled c.store };

    ghost stays = { λ c. S.Store.stays c.store };

    ghost survives = { λ c. S.Store.survives c.store };

    ghost unaltered = { λ c. S.Store.unaltered c.store };

    fn is_broken(&self) -> bool {
        self.store.is_broken()
    }

    fn shape(&self, tree: u32) -> Shape {
        self.store.shape(tree)
    }

    fn tree_count(&self) -> u64 {
        self.store.tree_count()
    }

    fn reals(&self, tree: u32) -> u64 {
        self.store.reals(tree)
    }

    fn seek(
        &mut self,
        cursor: u16,
        tree: u32,
        key: &Row,
        direction: Direction,
    ) -> Result<(), StoreError> {
        self.store.seek(cursor, tree, key, direction)
    }

    fn next(&mut self, cursor: u16, row: &mut Row) -> Result<bool, StoreError> {
        self.store.next(cursor, row)
    }

    fn get(&mut self, table: u32, id: i64, row: &mut Row) -> Result<bool, StoreError> {
        self.store.get(table, id, row)
    }

    fn put(&mut self, table: u32, row: &Row) -> Result<(), StoreError> {
        self.store.put(table, row)?;
        self.rows = self.rows.saturating_add(1);
        Ok(())
    }

    fn delete(&mut self, table: u32, id: i64) -> Result<(), StoreError> {
        self.store.delete(table, id)?;
        self.rows = self.rows.saturating_add(1);
        Ok(())
    }

    fn insert(&mut self, index: u32, entry: &Row) -> Result<(), StoreError> {
        self.store.insert(index, entry)
    }

    fn remove(&mut self, index: u32, entry: &Row) -> Result<(), StoreError> {
        self.store.remove(index, entry)
    }

    fn commit(&mut self) -> Result<(), StoreError> {
        self.store.commit()
    }

    fn rollback(&mut self) {
        self.store.rollback();
    }

    fn savepoint(&mut self) -> Result<(), StoreError> {
        self.store.savepoint()
    }

    fn release(&mut self) -> Result<(), StoreError> {
        self.store.release()
    }

    fn rollback_to(&mut self) -> Result<(), StoreError> {
        self.store.rollback_to()
    }
}

impl<S: Alter> Alter for Counted<S> {
    ghost listed = { λ c. S.listed c.store };

    fn objects(&self, alloc: Global) -> Result<Vec<Row>, AllocError> {
        self.store.objects(alloc)
    }

    fn create(&mut self, tree: u32, object: &Object<'_>) -> Result<(), StoreError> {
        self.store.create(tree, object)
    }

    fn destroy(&mut self, tree: u32) -> Result<(), StoreError> {
        self.store.destroy(tree)
    }

    fn relist(&mut self, changes: &[(u32, Object<'_>)]) -> Result<(), StoreError> {
        self.store.relist(changes)
    }

    fn version(&self) -> u32 {
        self.store.version()
    }

    fn set_version(&mut self, version: u32) -> Result<(), StoreError> {
        self.store.set_version(version)
    }
}

// The changes in their order. The first leaves a mirror and a component that no later one names.
fn change_at(rt: &(impl Abort + AllocGlobal), at: usize) -> Change {
    match at {
        0 => labels_on(rt, "gm9", "z.img", 9),
        1 => labels(rt),
        2 => inserts(rt),
        _ => destroys(rt),
    }
}

// Their words, each its key too.
const WORDS: [&str; 4] = [
    "label gm9 z.img",
    "label gm0 a.img",
    "insert gm0 b.img",
    "destroy gm0",
];

/// A store in memory that holds nothing. Each test that is over a store in memory is over this one.
pub(super) fn nothing(rt: &(impl Abort + AllocGlobal)) -> Connection<Counted<MemStore>> {
    let store = Counted {
        store: MemStore::new(rt.alloc(), &[]).expect(rt, "no memory"),
        rows: 0,
    };
    match Connection::over(rt.alloc(), store) {
        Ok(store) => store,
        Err(_) => panic!(rt; "not opened"),
    }
}

// Has a new registry accept the first `accepted` changes, and settle the first `settled` of them.
fn serves<S: Alter + Drop>(
    rt: &(impl Abort + AllocGlobal),
    store: Connection<S>,
    accepted: usize,
    settled: usize,
) -> Connection<S> {
    let mut registry = opened(rt, store);
    for (at, words) in WORDS.iter().enumerate().take(accepted) {
        accepts(rt, &mut registry, &change_at(rt, at), words, words);
        if at < settled {
            settles(rt, &mut registry);
        }
    }
    registry.close()
}

// How many rows that writes.
fn written(rt: &(impl Abort + AllocGlobal), accepted: usize, settled: usize) -> u64 {
    let store = serves(rt, nothing(rt), accepted, settled);
    store.into_store().rows
}

// How many rows one change writes, when those before it are settled: two runs differ in that
// change alone.
fn written_by(rt: &(impl Abort + AllocGlobal), at: usize) -> u64 {
    let after = at.checked_add(1).expect(rt, "no such change");
    let with = written(rt, after, at);
    let without = written(rt, at, at);
    with.checked_sub(without).expect(rt, "fewer rows")
}

// A row for each part of the change, and the command's.
fn named_by(change: &Change) -> u64 {
    let lists = [
        change.components().len(),
        change.gone_components().len(),
        change.intents().len(),
    ];
    let mirrors = u64::from(change.mirror().is_some()) + u64::from(change.gone_mirror().is_some());
    let mut rows = mirrors + 1;
    for list in lists {
        rows = rows.saturating_add(list as u64);
    }
    rows
}

#[test]
fn an_accept_writes_the_rows_that_its_change_names(rt: HostRuntime) {
    // A mirror, a component, an intent and the command; in the second an intent more, of the
    // component that was there. By the third a mirror and two components are gone, and two intents
    // and the command are new.
    for (at, rows) in [(1usize, 4u64), (2, 5), (3, 6)] {
        must(&rt, named_by(&change_at(&rt, at)) == rows, "other parts");
        must(&rt, written_by(&rt, at) == rows, "other rows");
    }
}
