//! Why a sector says nothing.

ghost use Rattle.std.specs.Prelude.{◌≡◌};
ghost use Rattle.gm_metadata.specs.Faults.{fault_number};

/// Why a sector isn't the metadata of a component: the first of these that applies.
#[derive(Clone, Copy, Debug, PartialEq, Eq)]
pub enum DecodeFault {
    /// It doesn't begin with the magic field.
    Magic,
    /// The version is none of 2, 3 and 4.
    Version,
    /// The MD5 isn't that of the bytes before it.
    Hash,
    /// The name field is no label and zeros.
    Name,
    /// The provider field is neither empty nor a label and zeros.
    Provider,
    /// The balance code is over 4.
    Balance,
    /// A flag bit is set that has no name in the version.
    Flags,
    /// The sector size isn't 512.
    SectorSize,
}

impl DecodeFault {
    /// Its number, 1 to 8, as texts and answers print it.
    pub fn number(self) -> u8
        ensures { result ≡ fault_number self }
    {
        match self {
            DecodeFault::Magic => 1,
            DecodeFault::Version => 2,
            DecodeFault::Hash => 3,
            DecodeFault::Name => 4,
            DecodeFault::Provider => 5,
            DecodeFault::Balance => 6,
            DecodeFault::Flags => 7,
            DecodeFault::SectorSize => 8,
        }
    }
}
