//! How far a comparison is.

use gm_metadata::Label;

/// Is told how far a comparison has come.
pub trait Watch {
    /// So many first sectors of the provider were compared, of so many in all.
    fn compared(&mut self, provider: Label, sectors: u64, total: u64);
}

/// Takes no notice of it.
#[derive(Clone, Copy, Debug, PartialEq, Eq)]
pub struct Unwatched;

impl Watch for Unwatched {
    fn compared(&mut self, _: Label, _: u64, _: u64) {}
}
