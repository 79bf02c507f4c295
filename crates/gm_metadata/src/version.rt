//! The versions of the layout that are read. What is written is always version 4.

ghost use Rattle.std.specs.Prelude.{◌≡◌, ◌≤◌, ◌<◌, ◌+◌, Option};
ghost use Rattle.gm_metadata.specs.Versions.{version_number, version_numbered, fields_end, kept_size, mirror_flags_end};

/// A version of the metadata's layout.
#[derive(Clone, Copy, Debug, PartialEq, Eq)]
pub enum Version {
    /// An older layout of this project's own, without the provider's size and without NOFAILSYNC.
    Two,
    /// An older layout of this project's own: that of version 4, without NOFAILSYNC.
    Three,
    /// GEOM_MIRROR version 4 (`g_mirror.h`).
    Four,
}

impl Version {
    /// The number in the sector, 2 to 4.
    pub fn number(self) -> u32
        ensures { result ≡ version_number self }
    {
        match self {
            Version::Two => 2,
            Version::Three => 3,
            Version::Four => 4,
        }
    }

    /// The version with this number; `None` for any other number.
    pub fn from_number(number: u32) -> Option<Version>
        ensures { result ≡ version_numbered number }
    {
        match number {
            2 => Some(Version::Two),
            3 => Some(Version::Three),
            4 => Some(Version::Four),
            _ => None,
        }
    }

    /// Where the hash of 16 bytes begins: at the byte after the last field.
    pub fn hash_at(self) -> usize
        ensures place { result ≡ fields_end self }
        ensures within { result ≤ 119 }
    {
        match self {
            Version::Two => 111,
            Version::Three | Version::Four => 119,
        }
    }

    // What is read of a number at the place of the provider's size.
    pub(crate) fn kept_size(self, size: u64) -> u64
        ensures { result ≡ kept_size self size }
    {
        match self {
            Version::Two => 0,
            Version::Three | Version::Four => size,
        }
    }

    // The mirror's flags are below this number.
    pub(crate) fn mirror_flags_end(self) -> u64
        ensures { result ≡ mirror_flags_end self }
    {
        match self {
            Version::Two | Version::Three => 2,
            Version::Four => 4,
        }
    }
}
