//! The command `replace`, which puts an image in the place of another.
//!
//! `way.rt` says in which order that is done (`gm_ways`), and `replacing.rt` does it. `keys.rt`
//! says which of its commands were accepted before, `plan.rt` what those that are left come to,
//! and `questions.rt` asks about what they take away. `commands.rt` hands them in, and `filled.rt`
//! fills the new image. `sayings.rt` has the sentences.
#![tactic(auto)]

mod commands;
mod filled;
mod keys;
mod plan;
mod questions;
mod replacing;
mod sayings;
mod stopped;
mod way;

pub use replacing::replace;
