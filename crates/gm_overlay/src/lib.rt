//! A file that is only read, as a disk of a database: whatever the database writes stays in memory,
//! and is read back from there.
//!
//! `layers.rt` has the file and the blocks of bytes that lie over it. `history.rt` keeps each call
//! with its answer, for clauses alone. `overlay.rt` makes both what `sqlite_disk` asks of a file,
//! so that the disk over it, with its proof, is the library's own.
#![tactic(auto)]

mod history;
mod layers;
mod overlay;

pub use overlay::{Overlay, OverlayDisk, disk_over};
