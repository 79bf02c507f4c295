//! Tests of what a command would take away: each kind of loss once, what a watch is told meanwhile,
//! and each read that fails. When there is one of each is said by clauses, and shown of `do` by
//! `tests/process`.
//!
//! They are a crate of their own, so that no library waits for them.
#![tactic(auto)]

#[cfg(test)]
mod tests;
