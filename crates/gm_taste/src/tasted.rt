//! What last sectors tell: mirrors, their members, and the providers that are no members.

ghost use Rattle.std.specs.Prelude.{◌≡◌};
ghost use Rattle.gm_taste.specs.States.{is_active, member_state_name};
ghost use Rattle.gm_taste.specs.Verdicts.{of_metadata};

use gm_metadata::{DecodeFault, Label, Metadata};

/// Why a provider is left out: the first of these that applies.
#[derive(Clone, Copy, Debug, PartialEq, Eq)]
pub enum Reason {
    /// Its last sector isn't metadata.
    Decode(DecodeFault),
    /// Its last sector names another provider.
    OtherName,
    /// Its last sector tells another size.
    OtherSize,
}

impl Reason {
    /// Whether the last sector carries metadata all the same: it begins with the magic field.
    pub fn is_of_metadata(self) -> bool
        ensures { result ≡ of_metadata self }
    {
        !matches!(self, Reason::Decode(DecodeFault::Magic))
    }
}

/// A provider that is left out.
#[derive(Clone, Copy, Debug, PartialEq, Eq)]
pub struct LeftOut {
    pub provider: Label,
    pub reason: Reason,
}

/// The state of a member among those of its group: the first of these that applies.
#[derive(Clone, Copy, Debug, PartialEq, Eq)]
pub enum MemberState {
    /// It says that it takes no part.
    Inactive,
    /// Its genid is behind the group's: it was lost before.
    Broken,
    /// It lacks data, and isn't copied to by itself; it holds the data up to this offset (bytes).
    Stale(u64),
    /// It lacks data; it holds them up to this offset (bytes).
    Synchronizing(u64),
    /// It holds the data.
    Active,
}

impl MemberState {
    /// Whether the member holds the data.
    pub fn is_active(self) -> bool
        ensures { result ≡ is_active self }
    {
        matches!(self, MemberState::Active)
    }

    /// Its name in texts.
    pub fn name(self) -> &'static str
        ensures { result.now ≡ member_state_name self }
    {
        match self {
            MemberState::Inactive => "INACTIVE",
            MemberState::Broken => "BROKEN",
            MemberState::Stale(_) => "STALE",
            MemberState::Synchronizing(_) => "SYNCHRONIZING",
            MemberState::Active => "ACTIVE",
        }
    }
}

/// A provider that is taken, in its group.
#[derive(Clone, Copy, Debug, PartialEq, Eq)]
pub struct Member {
    pub provider: Label,
    /// What its last sector says.
    pub metadata: Metadata,
    pub state: MemberState,
}

/// The providers that tell of one mirror, by its name and its number.
#[derive(Clone, Debug, PartialEq, Eq, Drop)]
pub struct Group {
    pub name: Label,
    pub mid: u32,
    /// The greatest genid of its members.
    pub genid: u32,
    /// The greatest syncid of those members that have this genid.
    pub syncid: u32,
    /// In byte order of provider names.
    pub members: Vec<Member>,
}

/// What the last sectors of some providers tell.
#[derive(Clone, Debug, PartialEq, Eq, Drop)]
pub struct Tasted {
    /// In byte order of names, then by mid.
    pub groups: Vec<Group>,
    /// In byte order of provider names.
    pub left: Vec<LeftOut>,
}
