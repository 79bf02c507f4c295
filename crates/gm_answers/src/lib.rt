//! What is told of one command: what it came to, and why it is refused.
//!
//! `printed.rt` has the texts of what it came to, as lines or as JSON. The lines are those of a
//! batch (`gm_front`), and the JSON is that of `gm_json`. `explainer.rt` says in a sentence why a
//! command is refused, with `reason.rt` if the mirrors are known. `folder.rt` looks at the images
//! for both. `withheld.rt` says what is to be done if images are in its way, `tip.rt` where words
//! belong that are in a wrong place, and `untold.rt` that a command was done whose answer can't be
//! printed. No bench is asked anything here.
#![tactic(auto)]

mod explainer;
mod folder;
mod printed;
mod reason;
mod tip;
mod untold;
mod withheld;

pub use explainer::Explainer;
pub use printed::{not_done_in, outcome_in, withheld_in};
pub use tip::say_tip;
pub use untold::{print_outcome, say_done};
