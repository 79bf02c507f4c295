//! Tests of the shelves, for what no clause of theirs says: what the files of a folder hold after a
//! call, what stands in the place of an image that went, which images a crash leaves by its picks,
//! and which call of a run fails in its turn.
//!
//! They stand in a crate of their own, so that neither `gm_shelf` nor its must-fail edits wait for
//! their proofs.
#![tactic(auto)]

#[cfg(test)]
mod tests;
