//! The files of a registry, which may lie among the images, and a registry that is read without an
//! opening.
//!
//! `registry_files.rt` knows which files are a registry's: its own, and those that SQLite puts
//! beside it, which `beside.rt` names. `obstacle.rt` says what is in the way before any of them is
//! opened to be written: another file with the name of the log (`log.rt`), or a database of another
//! program (`foreign.rt`). `unopened.rt` reads them by an overlay, so that nothing is written,
//! under the locks of `shared.rt`; so does `history.rt`, which tells the accepted commands.
//! `unusable.rt` says why a registry can't be opened. `laws.rt` has what holds of the first bytes
//! of logs.
#![tactic(auto)]

mod beside;
mod foreign;
mod history;
mod laws;
mod log;
mod obstacle;
mod registry_files;
mod shared;
mod unopened;
mod unusable;

pub use beside::without_beside;
pub use history::{Untold, tell_commands};
pub use laws::{signed_heads_pass, stopped_heads_pass};
pub use obstacle::{Obstacle, obstacle_to_opening, obstacle_to_reading};
pub use registry_files::{is_there, leave_out_registry, length_of};
pub use unopened::{Whole, records_of};
pub use unusable::{StoreCause, is_no_database, store_cause};
