//! What surrounds the program: its streams, the variables that stand for its options, the folder
//! that it holds, and how it ends. Nothing here knows a bench.
//!
//! `status.rt` has the exit statuses, `failure.rt` what can fail, `streams.rt` the streams and what
//! is explained beside them, `legible.rt` what no terminal is to act upon
//! (`specs/Legible.antt`), and `meter.rt` tells how far a long work is: `amount.rt` has bytes as
//! people read them, and `terminal_width.rt` the width of a line. `environment.rt` finds the
//! variables, `place.rt` has the paths of a bench, and `held_folder.rt` holds a folder of images;
//! `patience.rt` says how long one in use is tried again, `folder_cause.rt` why one can't be used,
//! and `trouble.rt` tells that.
#![tactic(auto)]

mod amount;
mod environment;
mod failure;
mod folder_cause;
mod held_folder;
mod legible;
mod meter;
mod patience;
mod place;
mod status;
mod streams;
mod terminal_width;
mod trouble;

pub use environment::Environment;
pub use failure::Failure;
pub use held_folder::HeldFolder;
pub use legible::{Legible, legible_name};
pub use meter::{Meter, Style};
pub use patience::Patience;
pub use place::Place;
pub use status::Status;
pub use streams::{Explaining, Streams};
pub use trouble::Trouble;
