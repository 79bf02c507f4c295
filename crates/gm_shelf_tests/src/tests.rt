//! `files.rt` tries the shelf over files, and `memory.rt` the shelf in memory and the one whose
//! calls fail.

mod files;
mod memory;

use gm_metadata::Label;
use std::process::Abort;

// Ends a test with these words if it doesn't hold.
fn must(rt: &impl Abort, holds: bool, what: &str) {
    assert!(rt; holds, "{what}");
}

fn named(rt: &impl Abort, text: &str) -> Label {
    Label::new(text).expect(rt, "no label")
}
