//! What a command has written to the shelf, and what it answers.

use gm_metadata::Label;

/// What is to be written to the shelf.
#[derive(Clone, Copy, Debug, PartialEq, Eq)]
pub enum Intent {
    /// The provider's metadata into its last sector.
    Meta {
        provider: Label,
    },
    /// Zeros into its last sector.
    Clear {
        provider: Label,
    },
    /// The sectors first to end - 1 of the source into the target.
    Copy {
        source: Label,
        target: Label,
        first: u32,
        end: u32,
    },
    /// The provider's metadata with DIRTY set into its last sector.
    Dirty {
        provider: Label,
    },
    /// The pending bytes over the provider's sectors first to end - 1.
    Patch {
        provider: Label,
        first: u32,
        end: u32,
    },
}

/// What a command answers beside its number.
#[derive(Clone, Copy, Debug, PartialEq, Eq)]
pub enum Reply {
    Plain,
    /// A copy holds so many of the sectors in total.
    Copied { held: u32, total: u32 },
}
