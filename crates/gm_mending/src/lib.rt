//! The command `mend`, which writes the registered last sector of an image again.
//!
//! `mending.rt` does it, by a `configure` that changes nothing and writes the last sectors of all
//! of the mirror's images (`repair.rt`). Before that `others.rt` says which images aren't as they
//! are registered, `owed.rt` what is to be compared of the image (`specs/Owed.antt`), `compared.rt`
//! compares it (`specs/Compared.antt`), and `doubts.rt` says what is asked all the same
//! (`specs/Doubts.antt`). `sayings.rt` has what is said if nothing is done.
#![tactic(auto)]

mod compared;
mod doubts;
mod mending;
mod others;
mod owed;
mod repair;
mod sayings;

pub use compared::{Compared, compare};
pub use mending::mend;
pub use owed::{Owed, owed_of};
pub use repair::a_repair_changes_no_record;
