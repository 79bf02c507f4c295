//! Openings without a provider whose image is gone for good, whose shelf or store stops at each of
//! its calls: what is found after them. What they answer and leave unstopped, and why they are
//! refused, is in rows of `tests/process`.
//!
//! `tests/media.rt` makes what is pending and asks the openings, over media that stop;
//! `tests/found.rt` says what is found after them, worked out by hand; `tests/stops.rt` stops them.
#![tactic(auto)]

#[cfg(test)]
mod tests;
