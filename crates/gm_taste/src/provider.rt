//! What is handed in of a provider.

use gm_metadata::Label;

/// A provider, as far as it is looked at: its name, its size and its last sector.
#[derive(Clone, Copy, Debug)]
pub struct Provider {
    pub name: Label,
    /// Its size in sectors of 512 bytes.
    pub sectors: u64,
    /// What its last sector holds.
    pub last: [u8; 512],
}
