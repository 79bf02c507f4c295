//! What refusals mean, and why an image failed, in a sentence each, for whoever reads the program's
//! numbers.
//!
//! `sentences.rt` has the sentences; `MIRROR` and `IMAGE` stand in them for what is meant, and
//! `about.rt` puts that in their place. `gm_faults` has those of the bench's faults. The table of
//! refusals and faults in `docs/REFERENCE.md` has the same sentences.
#![tactic(auto)]

mod about;
mod sentences;

pub use about::{About, Image, images_in_a_row};
pub use sentences::{call_sentence, cause_sentence};
