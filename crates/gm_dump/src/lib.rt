//! The command `dump`, which says what the last sector of an image says. It knows neither a
//! registry nor a bench.
//!
//! `last_sector.rt` does it; `refusal.rt` says why there is no last sector.
#![tactic(auto)]

mod last_sector;
mod refusal;

pub use last_sector::dump;
pub use refusal::DumpRefusal;
