//! Tests of batches, by the bytes that are handed in and those that come out: rows of commands with
//! all that is then found, which records one command of many mirrors changes, inputs and outputs
//! that fail, and shelves and stores that stop at their calls. More of what a batch over ordinary
//! media is answered and leaves, and what is answered over HTTP, is tested of the program, by
//! `tests/process`.
//!
//! They stand in a crate of their own: a proof that names a store or a shelf carries all that it is
//! made of, so that they are dear, and here they are proved beside the must-fail edits of
//! `gm_front`.
#![tactic(auto)]

#[cfg(test)]
mod tests;
