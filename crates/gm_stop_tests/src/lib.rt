//! Runs that stop: scripts of commands over a shelf or a store that stops at each of its calls in
//! turn, the openings after that, which stop so too, and what the next opening then finds.
//!
//! `tests/scripts.rt` has the scripts, and what is found after each of their commands, written
//! down by hand; `tests/media.rt` runs them, and `tests/found.rt` says what is found.
//! `shelf_stops.rt` stops the shelf, `store_stops.rt` the store, and `closed.rt` asks more of a
//! bench that was stopped. A proof that names a store or a shelf carries all that it is made of, so
//! that these are proved by themselves, and not with the other tests of the bench.
#![tactic(auto)]

#[cfg(test)]
mod tests;
