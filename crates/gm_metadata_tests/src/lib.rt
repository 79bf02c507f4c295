//! Tests of metadata by values from outside: the hash by the texts of RFC 1321, and what a sector
//! says that was written through a shelf.
//!
//! They stand in a crate of their own, above the text of a dump, so that no library waits for them.
#![tactic(auto)]

#[cfg(test)]
mod tests;
