//! How an image can stand to what is registered and pending.

ghost use Rattle.std.specs.Prelude.{◌≡◌, ◌↔◌, IsTrue};
ghost use Rattle.gm_looks.specs.Words.{without_zero, word};

use std::fmt;

/// How an image stands to what is registered and pending: to its component, or, if it is none or is
/// to be cleared, to the mirrors.
#[derive(Clone, Copy, Debug, PartialEq, Eq)]
pub enum Standing {
    /// It is there in the size that is registered of the component, and its last sector is byte for
    /// byte the component's metadata.
    AsRegistered,
    /// It isn't there, or has no sector.
    Absent,
    /// It hasn't the size that is registered of the component.
    AnotherSize,
    /// Its last sector is all zeros, as one that was cleared.
    Zero,
    /// Its last sector doesn't begin as metadata.
    NoMetadata,
    /// Its last sector begins as metadata, but isn't readable as such.
    Damaged,
    /// It says another mirror's name or mid. If it is no component, it says the name of a mirror
    /// that is registered with another mid.
    AnotherMirror,
    /// It says the mirror, and another component's did.
    AnotherComponent,
    /// It says the component, with a lesser genid or syncid than is registered, and none greater.
    Older,
    /// It says the component, with a greater genid or syncid than is registered.
    Newer,
    /// It says the component and its age, but something else isn't as registered. If it is no
    /// component, it says a mirror.
    Member,
}

impl Standing {
    /// Whether it is `AsRegistered`.
    pub fn is_as_registered(self) -> bool
        ensures { IsTrue result ↔ (self ≡ Standing.AsRegistered) }
    {
        matches!(self, Standing::AsRegistered)
    }

    /// Its words in the texts of what is pending, which tell members, strangers and blank images
    /// apart.
    pub fn word(self) -> &'static str
        ensures { result.now ≡ word self }
    {
        match self {
            Standing::AsRegistered => "as registered",
            Standing::Absent | Standing::AnotherSize => "absent",
            Standing::Zero => "zero",
            Standing::NoMetadata | Standing::Damaged => "no metadata",
            Standing::AnotherMirror => "another",
            Standing::AnotherComponent | Standing::Older | Standing::Newer | Standing::Member => {
                "member"
            }
        }
    }

    /// For an image of which zeros say nothing more than that there are no metadata.
    pub(crate) fn without_zero(self) -> Standing
        ensures { result ≡ without_zero self }
    {
        match self {
            Standing::Zero => Standing::NoMetadata,
            other => other,
        }
    }
}

impl fmt::Display for Standing {
    ghost use Rattle.std.specs.Prelude.{Some};
    ghost use Rattle.gm_looks.specs.Words.{word};

    ghost output = { λ standing. Some (word standing) };

    fn fmt<W: fmt::Write>(&self, f: &mut fmt::Formatter<W>) -> fmt::Result {
        f.write_str(self.word())
    }
}
