//! Tests of what is told of a registry that isn't opened: each line, and each read that fails. How
//! an image can stand is said by clauses, and shown of `check` and `pending` by `tests/process`.
//!
//! They are a crate of their own, so that no library waits for them.
#![tactic(auto)]

#[cfg(test)]
mod tests;
