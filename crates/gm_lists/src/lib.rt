//! Lemmas on lists of records that have names: being one of a list, byte order, sorting, finding by
//! name, and what a record that is put at its place leaves.
//!
//! There is no code here: begin with `specs/Ordered.antt`, the words that contracts cite. The
//! lemmas stand in `proofs`: `Order` on byte order, `Lists` on filters and maps, `Putting`,
//! `Finding` and `Sorting`.
#![tactic(auto)]
