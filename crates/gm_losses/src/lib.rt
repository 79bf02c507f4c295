//! What a command would take away for good: data that it writes over or lets go of, which no later
//! command brings back. It only looks, at a state and at images, and knows no registry.
//!
//! Begin with `loss.rt`, the kinds of losses, and `specs/Losses.antt`, when there is one of each;
//! `by_command.rt` tells all losses of a command. `free_image.rt` says which images can be taken
//! into a mirror (`specs/FreeImages.antt`); `label_losses.rt` and `insert_losses.rt` what such an
//! image would lose, the latter by `scan.rt`, which looks for its first data; `clear_losses.rt`
//! which image is cleared that a mirror may need (`specs/ClearedImages.antt`). `intact.rt` has the
//! images that are given up though nothing is amiss with them; `copies.rt` what becomes of a mirror
//! that a component leaves, or that is dropped (`specs/Copies.antt`); `left_images.rt` the images
//! of a mirror that are left if it is adopted (`specs/LeftImages.antt`); `whole_images.rt` those
//! that are whole, if it would be adopted from one that isn't (`specs/WholeImages.antt`); and
//! `differing_images.rt` those whose data aren't the source's (`specs/DifferingImages.antt`).
#![tactic(auto)]

mod by_command;
mod clear_losses;
mod copies;
mod differing_images;
mod free_image;
mod insert_losses;
mod intact;
mod label_losses;
mod left_images;
mod loss;
mod scan;
mod whole_images;

pub use by_command::losses;
pub use loss::Loss;
