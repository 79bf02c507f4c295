//! What the sector of a component says.

use crate::balance::Balance;
use crate::flags::{DiskFlags, MirrorFlags};
use crate::label::Label;

/// The metadata of a component (`struct g_mirror_metadata` of `g_mirror.h`), without what each
/// sector has alike, the magic and the sector size 512, and without its version and its hash.
#[derive(Clone, Copy, Debug, PartialEq, Eq)]
pub struct Metadata {
    /// The mirror's name.
    pub name: Label,
    /// The mirror's number.
    pub mid: u32,
    /// The component's number within the mirror.
    pub did: u32,
    /// How many components the mirror has when it is complete.
    pub all: u8,
    /// Counts the times that components were lost for good.
    pub genid: u32,
    /// Counts the times that components were left behind.
    pub syncid: u32,
    /// The greatest one is read first, and copied from.
    pub priority: u8,
    /// Requests from this size on are split (bytes).
    pub slice: u32,
    pub balance: Balance,
    /// The size of the mirror's data (bytes).
    pub mediasize: u64,
    /// Up to where a component that is being copied to holds the data (bytes).
    pub sync_offset: u64,
    pub mflags: MirrorFlags,
    pub dflags: DiskFlags,
    /// The provider's own name, if the component belongs to that name alone.
    pub provider: Option<Label>,
    /// The size of the provider (bytes), or 0 if that isn't given.
    pub provsize: u64,
}
