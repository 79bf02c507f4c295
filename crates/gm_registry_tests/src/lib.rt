//! Tests of the registry by its public calls, over stores in memory and over stores of two files
//! that stop at each of their calls. What an opening says of rows and tables that somebody else
//! edited is in rows of `tests/process`.
//!
//! They stand in a crate of their own: a proof of theirs carries the whole of a store, so that they
//! are dear, and here they are proved beside the must-fail edits of `gm_registry`.
#![tactic(auto)]

#[cfg(test)]
mod tests;
