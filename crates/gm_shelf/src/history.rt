//! What is done to a shelf in memory.

use gm_metadata::Label;

/// One thing that was done to a shelf in memory.
#[derive(Drop)]
pub(crate) enum Event {
    /// A provider came, with these sectors.
    Added(Label, Vec<[u8; 512]>),
    /// A sector was written, at this place.
    Wrote(Label, u64, [u8; 512]),
    /// A provider was synced.
    Synced(Label),
}
