//! The tests: stops of the shelf and of the store within scripts of commands and within openings,
//! and what a bench answers after a fault.

mod closed;
mod found;
mod media;
mod scripts;
mod shelf_stops;
mod store_stops;

use std::process::Abort;
use std::test::Fail;

// What fails ends a test at once, here and below: so a proof has no way out of each call to go
// through, on which all that is held would be let go.
fn must(rt: &impl Abort, holds: bool, what: &str) {
    assert!(rt; holds, "{what}");
}

// What is there in place of a failure.
fn got<T>(rt: &impl Abort, outcome: Result<T, Fail>) -> T {
    match outcome {
        Ok(value) => value,
        Err(_) => panic!(rt; "it failed"),
    }
}
