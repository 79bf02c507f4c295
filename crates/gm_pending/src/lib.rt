//! What is pending in a store, read before a registry is opened there: with the state that it is
//! of, and the command that was stopped.
//!
//! `pending.rt` reads the rows, and `last_command.rt` the words of the last commands. They only
//! read; what can't be read is left to the opening.
#![tactic(auto)]

mod last_command;
mod pending;

pub use last_command::stopped_in;
pub use pending::{Pending, pending_in};
