//! Series: several advances that are accepted and carried out together.
//!
//! `tests/answers.rt` has what they are answered, what ends one, and that it comes to what the same
//! advances come to one by one. `tests/stops.rt` stops the shelf or the store of one, and the opening
//! after it too: the next one finds all its commands, or none of them. `tests/losses.rt` loses an
//! image after such a stop.
#![tactic(auto)]

#[cfg(test)]
mod tests;
