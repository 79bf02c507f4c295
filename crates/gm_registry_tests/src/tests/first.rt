//! A registry of the first schema, made by the statements that made it then, is carried over by
//! openings that stop.

use super::must;
use super::reading::ROWS;
use super::stops::{Found, Job, edited, look_at, serve};
use gm_test_media::{ALL, Calls, StoreBytes};
use std::process::Abort;

// Its five tables, and its number.
const FIRST: &str =
    "CREATE TABLE about(one INTEGER PRIMARY KEY CHECK (one = 1), schema_no INTEGER NOT NULL) STRICT;
CREATE TABLE mirrors(name TEXT PRIMARY KEY NOT NULL, mid INTEGER NOT NULL UNIQUE,
  total INTEGER NOT NULL, genid INTEGER NOT NULL, syncid INTEGER NOT NULL, slice INTEGER NOT NULL,
  balance INTEGER NOT NULL, mediasize INTEGER NOT NULL, mflags INTEGER NOT NULL) STRICT;
CREATE TABLE components(prov TEXT PRIMARY KEY NOT NULL, mirror TEXT NOT NULL REFERENCES mirrors(name),
  did INTEGER NOT NULL, syncid INTEGER NOT NULL, priority INTEGER NOT NULL, sync_offset INTEGER NOT NULL,
  dflags INTEGER NOT NULL, hard INTEGER NOT NULL, provsize INTEGER NOT NULL, UNIQUE (mirror, did)) STRICT;
CREATE TABLE intents(ord INTEGER PRIMARY KEY, kind INTEGER NOT NULL, prov TEXT NOT NULL,
  source TEXT NOT NULL, first_sector INTEGER NOT NULL, end_sector INTEGER NOT NULL) STRICT;
CREATE TABLE commands(call_key TEXT PRIMARY KEY NOT NULL, seq INTEGER NOT NULL UNIQUE,
  words TEXT NOT NULL, copied INTEGER NOT NULL, of_total INTEGER NOT NULL) STRICT;
INSERT INTO about (one, schema_no) VALUES (1, 1)";

// What is found of the rows in files that may have been carried over.
const ROWS_FOUND: Found = Found {
    commands: 3,
    components: 7,
    intents: 3,
};

// The rows are there, once nothing stops.
fn must_have_rows(rt: &(impl Abort + AllocGlobal), from: &StoreBytes) {
    must(rt, look_at(rt, from) == ROWS_FOUND, "other rows");
}

// Two openings that stop in turn, and whether the first did; the rows are there after each, as the
// files read and as a crash leaves them. One that stops finds them, if any.
fn is_carried_through(rt: &(impl Abort + AllocGlobal), from: &StoreBytes, calls: Calls) -> bool {
    let left = serve(rt, from, calls, &Job::Look);
    must_have_rows(rt, &left.read);
    must_have_rows(rt, &left.crashed);
    let again = serve(rt, &left.crashed, calls, &Job::Look);
    must_have_rows(rt, &again.read);
    for found in [left.told.found, again.told.found] {
        must(
            rt,
            found.is_none() || found == Some(ROWS_FOUND),
            "other rows",
        );
    }
    left.stopped
}

// A run is over long before it makes so many calls of one file.
const MANY: u64 = 200;

// Two stops in turn while it is carried over, at each call of the first file, then of the second,
// until an opening ends without a stop.
#[test]
fn a_stop_while_a_registry_is_carried_over(rt: HostRuntime) {
    let empty = edited(&rt, &StoreBytes::new(rt.alloc()), FIRST);
    let from = edited(&rt, &empty, ROWS);
    let mut log_ended = false;
    let mut db_ended = false;
    for calls in 0..MANY {
        log_ended = log_ended || !is_carried_through(&rt, &from, Calls { log: calls, ..ALL });
        db_ended = db_ended || !is_carried_through(&rt, &from, Calls { db: calls, ..ALL });
    }
    must(&rt, log_ended && db_ended, "no opening ended");
}
