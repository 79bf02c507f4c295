//! In which order an image takes another one's place in a mirror, and whether each command of that
//! is done: decided before the first is handed in, on the records that those before it leave.
//!
//! `step.rt` says what the commands are, and `way.rt` in which order they are handed in
//! (`specs/Ways.antt`). `judging.rt` decides them one after the other (`specs/Judged.antt`), by
//! what `shown.rt` reads of the images. No bench is asked anything here.
#![tactic(auto)]

mod fault;
mod judging;
mod shown;
mod step;
mod way;

pub use fault::WayFault;
pub use judging::{Judged, Stop, judge, stop_of};
pub use shown::{facts_of, names_of};
pub use step::{Act, Exchange, Step};
pub use way::{
    OldImage, Way, first_command, gives_up_first, is_member, removes_only_what_is_filled,
    way_begun, way_by,
};
