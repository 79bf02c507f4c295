//! Tests of a disk over a file that is only read, for what no clause says: what a read gives beside
//! and below what was written, what a cut and an extension leave, and that the file stays as it is.
//!
//! They are a crate of their own, so that neither `gm_overlay` nor its must-fail edits wait for
//! their proofs.
#![tactic(auto)]

#[cfg(test)]
mod tests;
