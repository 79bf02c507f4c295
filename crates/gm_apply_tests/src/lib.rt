//! Tests of the carrying out of intents: a copy that is stopped before each of its calls, with
//! every image that a crash may then leave, and how many calls a copy and a comparison make of a
//! shelf, which no clause says.
//!
//! They stand in a crate of their own, so that neither `gm_apply` nor its must-fail edits wait for
//! their proofs.
#![tactic(auto)]

#[cfg(test)]
mod tests;
