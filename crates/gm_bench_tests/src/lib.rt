//! Tests of the bench: what an advance, an adoption and a patch write and what a stop within them
//! leaves, which phases a command goes through, what is told of a bench, and that a look which
//! fails closes it. What commands, audits, tastings and scrubs are answered and leave over images
//! that serve is shown by the built program, in `tests/process`; runs that stop at each of their
//! calls are in `gm_stop_tests`.
//!
//! They stand in a crate of their own: a proof that names a store or a shelf carries all that it is
//! made of, so that they are dear in time and memory, and here they are proved beside the must-fail
//! edits of `gm_bench`.
#![tactic(auto)]

#[cfg(test)]
mod tests;
