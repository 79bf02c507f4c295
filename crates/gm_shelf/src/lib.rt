//! Providers of 512-byte sectors, as disks are: what a read gives, what a crash may leave, and when
//! a call fails.
//!
//! Begin with `shelf.rt`, the trait `Shelf` and its law; `fault.rt` has the four faults and when
//! each comes. `last_sector.rt` reads a last sector, and writes one so that it is old or new at
//! every moment.
//! Three shelves keep to the law: `file_shelf.rt` is a folder of image files, of whose contents
//! nothing is claimed (`folder_images.rt` lists them, `passed_over.rt` what isn't one, by what
//! `no_image.rt` says; `open_files.rt` opens them,
//! `whole_transfers.rt` reads and writes them within `size_limit.rt`, `file_id.rt` tells which file
//! a file is, and `failure.rt` why one fails); `mem_shelf.rt` is a disk in memory, of which
//! `crash_image.rt` makes the images that a crash may leave; and `fault_shelf.rt` makes the calls
//! of another shelf fail, in the order that `turns.rt` tells.
#![tactic(auto)]

mod contents;
mod crash_image;
mod failure;
mod fault;
mod fault_shelf;
mod file_id;
mod file_shelf;
mod folder_images;
mod history;
mod last_sector;
mod mem_shelf;
mod no_image;
mod open_files;
mod passed_over;
mod provider_names;
mod shelf;
mod size_limit;
mod turns;
mod whole_transfers;

pub use failure::{Cause, ImageFailure};
pub use fault::ShelfFault;
pub use fault_shelf::FaultShelf;
pub use file_id::FileId;
pub use file_shelf::FileShelf;
pub use last_sector::{read_last, write_last, write_meta};
pub use mem_shelf::MemShelf;
pub use no_image::NoImage;
pub use open_files::OPEN_FILES;
pub use passed_over::{PassedOver, push_shown, visible};
pub use shelf::Shelf;
