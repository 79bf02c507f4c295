//! What a stop can have left of the images that pending writes name, and which of these images are
//! something else: another file that took the name, or one that was changed since.
//!
//! Begin with `stopped.rt`, which command was stopped, and `specs/Leavings.antt`, what a stop
//! leaves of an image then. `leavings.rt` tests one last sector by that, and `strange.rt` goes over
//! what is pending and lists the images that no stop leaves so (`specs/Strange.antt`). `losses.rt`
//! says which of the pending intents a loss left, and which command was stopped then
//! (`specs/Losses.antt`). Nothing is written, and nothing is known of a registry.
#![tactic(auto)]

mod leavings;
mod losses;
mod stopped;
mod strange;

pub use leavings::may_be_left;
pub use losses::stopped_by;
pub use stopped::{Role, Stopped};
pub use strange::{Need, strange_images};
