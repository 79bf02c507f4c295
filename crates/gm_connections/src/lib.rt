//! Connections to the server: how long each may take, and what is logged of it.
//!
//! `exchange.rt` has the two sides of a connection, each with the time that it has, and ends it;
//! `expectation.rt` finds a client that waits to be told to go on, and `log.rt` writes a
//! connection's line.
#![tactic(auto)]

mod exchange;
mod expectation;
mod log;

pub use exchange::{Incoming, Outgoing, end};
pub use log::{Log, Told};
