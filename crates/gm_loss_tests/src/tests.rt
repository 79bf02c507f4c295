//! The tests: losses whose shelf or store stops.

mod found;
mod media;
mod stops;

use std::process::Abort;
use std::test::Fail;

// What fails ends a test at once, here and below: so a proof has no way out of each call to go
// through, on which all that is held would be let go.
fn must(rt: &impl Abort, holds: bool, what: &str) {
    assert!(rt; holds, "{what}");
}

// What is there in place of a failure.
fn got<T>(rt: &impl Abort, outcome: Result<T, Fail>) -> T {
    match outcome {
        Ok(value) => value,
        Err(_) => panic!(rt; "it failed"),
    }
}
