//! Faults that end the program, and what they mean.
//!
//! `fault.rt` has the faults, and which one comes of a failure below. `sentences.rt` says in a
//! sentence what each means, and `explained.rt` prints it, if that is wanted.
#![tactic(auto)]

mod explained;
mod fault;
mod sentences;

pub use explained::{explain_fault, explain_loss};
pub use fault::Fault;
