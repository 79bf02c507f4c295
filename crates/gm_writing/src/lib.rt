//! The command `write`, which writes data of any length into a mirror.
//!
//! `writing.rt` does it. `source.rt` reads the data, `patches.rt` makes a command of each 64
//! sectors of them, and `standing.rt` says which of these the registry has already. `obstacle.rt`
//! has what is in the way of that, in a sentence each. `laws.rt` says what holds of every write.
#![tactic(auto)]

mod laws;
mod obstacle;
mod patches;
mod source;
mod standing;
mod writing;

pub use laws::write_law;
pub use writing::write_data;
