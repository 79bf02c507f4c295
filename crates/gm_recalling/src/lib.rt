//! The command `log`: which commands a registry has accepted.
//!
//! `recalling.rt` prints what `gm_history` tells of them, read as `gm_registry_files` reads a
//! registry that isn't opened, and says what is in the way. No bench is opened.
#![tactic(auto)]

mod recalling;

pub use recalling::show_history;
