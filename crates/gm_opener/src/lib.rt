//! Opens the two files of a registry as a database, or makes one if they hold none yet.
//!
//! The crate `sqlite` would make it too, with pages of 4,096 bytes. A command changes about nine
//! pages, however long they are, and each is digested and logged whole: half of that length saves a
//! sixth of a command's instructions. Files that hold a database keep its pages.
//!
//! `blank.rt` looks whether there is a database, `making.rt` makes one, `opened.rt` does what is
//! due, and `at_path.rt` does it to the files at a path. `specs/Opened.antt` says what an opening
//! finds, and what it leaves if it fails.
#![tactic(auto)]

mod at_path;
mod blank;
mod making;
mod opened;

pub use at_path::open_store;
pub use blank::is_blank;
pub use opened::open_files;
