//! The metadata sector of a mirror's component, as `g_mirror.h` lays it out: what it says, and how
//! it is written. Two older layouts are read.
//!
//! Begin with `metadata.rt`, the record, and `version.rt`, the layouts; then `encoding.rt` and
//! `decoding.rt`, which write and read it exactly. `label.rt` has the names of mirrors and
//! providers, and `equality.rt` compares two sectors. Nothing here takes memory.
#![tactic(auto)]

mod balance;
mod decoding;
mod encoding;
mod equality;
mod fault;
mod flags;
mod label;
mod laws;
mod metadata;
mod version;

pub use balance::Balance;
pub use decoding::{Reading, carries_metadata, decode, encoded_is_read, read_sector, version_of};
pub use encoding::{SECTOR_SIZE, encode};
pub use equality::same;
pub use fault::DecodeFault;
pub use flags::{DiskFlags, MirrorFlags};
pub use label::{Label, is_label_byte};
pub use laws::{one_sector, one_spelling};
pub use metadata::Metadata;
pub use version::Version;
