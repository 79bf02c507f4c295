//! Why a command is refused.

ghost use Rattle.std.specs.Prelude.{◌≡◌};
ghost use Rattle.gm_refusals.specs.Refusals.{number_of, number_of_call, own};

use gm_commands::Command;

/// Why a command is refused, in the order of the numbers. If several apply, the least number is
/// answered.
#[derive(Clone, Copy, Debug, PartialEq, Eq)]
pub enum Refusal {
    /// No mirror has this name.
    NoMirror,
    /// A mirror has this name.
    NameTaken,
    /// A mirror has this mid.
    MidTaken,
    /// The named provider isn't on the shelf, or a component of the named mirror isn't there with
    /// its size; lost ones needn't be.
    Absent,
    /// The provider is a component of some mirror.
    ProviderTaken,
    /// The provider carries metadata.
    CarriesMetadata,
    /// The provider has no room for the data and one sector more.
    TooSmall,
    /// The provider isn't a component of this mirror, or is named twice.
    NotMember,
    /// A component of the mirror has this did.
    DidTaken,
    /// The mirror counts 16 components.
    Full,
    /// 64 mirrors are registered.
    TooManyMirrors,
    /// Fewer components are registered than the mirror counts: some were lost.
    SomeLost,
    /// No ACTIVE component would be left.
    LastActive,
    /// The component is INACTIVE already.
    AlreadyInactive,
    /// The component isn't INACTIVE.
    NotInactive,
    /// As many components are registered as the mirror counts.
    NoneLost,
    /// The component is INACTIVE.
    Inactive,
    /// The component isn't SYNCHRONIZING.
    NotSynchronizing,
    /// The mirror's syncid is the greatest there is.
    LastSyncid,
    /// The mirror's genid is the greatest there is.
    LastGenid,
    /// None of the options is given.
    NothingGiven,
    /// The images don't tell of one mirror that can be adopted.
    NotAdoptable,
    /// The provider has fewer than 2 or more than 1,048,576 sectors.
    WrongSize,
    /// The provider carries no metadata.
    NoMetadata,
    /// A component of the mirror is SYNCHRONIZING or STALE.
    BeingFilled,
    /// The sectors that are to be laid over the mirror's data go beyond their end.
    BeyondEnd,
}

impl Refusal {
    /// The number that is answered.
    pub fn number(self) -> u8
        ensures { result ≡ number_of self }
    {
        match self {
            Refusal::NoMirror => 5,
            Refusal::NameTaken => 6,
            Refusal::MidTaken => 7,
            Refusal::Absent => 8,
            Refusal::ProviderTaken => 9,
            Refusal::CarriesMetadata => 10,
            Refusal::TooSmall => 11,
            Refusal::NotMember => 12,
            Refusal::DidTaken => 13,
            Refusal::Full => 14,
            Refusal::TooManyMirrors => 15,
            Refusal::SomeLost => 16,
            Refusal::LastActive => 17,
            Refusal::AlreadyInactive => 18,
            Refusal::NotInactive => 19,
            Refusal::NoneLost => 20,
            Refusal::Inactive => 21,
            Refusal::NotSynchronizing => 22,
            Refusal::LastSyncid => 23,
            Refusal::LastGenid => 24,
            Refusal::NothingGiven => 25,
            Refusal::NotAdoptable => 26,
            Refusal::WrongSize => 28,
            Refusal::NoMetadata => 29,
            Refusal::BeingFilled => 30,
            Refusal::BeyondEnd => 31,
        }
    }
}

/// Why a call, a command under a key, is refused. If several apply, the least number is
/// answered.
#[derive(Clone, Copy, Debug, PartialEq, Eq)]
pub enum CallRefusal {
    /// The key isn't 1 to 32 characters of A-Z, a-z, 0-9, `.`, `_` and `-`.
    NoKey,
    /// The key was accepted for another command.
    KeyTaken,
    /// 100,000 commands were accepted.
    NoRoom,
    /// The rules refuse the command.
    ByRules(Refusal),
}

impl CallRefusal {
    /// The number that is answered.
    pub fn number(self) -> u8
        ensures { result ≡ number_of_call self }
    {
        match self {
            CallRefusal::NoKey => 2,
            CallRefusal::KeyTaken => 3,
            CallRefusal::NoRoom => 4,
            CallRefusal::ByRules(refusal) => refusal.number(),
        }
    }
}

// The refusals that a command may meet, the least number first.
pub(crate) fn own(command: &Command) -> &'static [Refusal]
    ensures { result.now ≡ own command.now }
{
    match command {
        Command::Label(_) => &[
            Refusal::NameTaken,
            Refusal::MidTaken,
            Refusal::Absent,
            Refusal::ProviderTaken,
            Refusal::CarriesMetadata,
            Refusal::TooManyMirrors,
            Refusal::WrongSize,
        ],
        Command::Insert(_) => &[
            Refusal::NoMirror,
            Refusal::Absent,
            Refusal::ProviderTaken,
            Refusal::CarriesMetadata,
            Refusal::TooSmall,
            Refusal::DidTaken,
            Refusal::Full,
            Refusal::SomeLost,
            Refusal::WrongSize,
        ],
        Command::Remove { .. } => &[
            Refusal::NoMirror,
            Refusal::Absent,
            Refusal::NotMember,
            Refusal::SomeLost,
            Refusal::LastActive,
        ],
        Command::Deactivate { .. } => &[
            Refusal::NoMirror,
            Refusal::Absent,
            Refusal::NotMember,
            Refusal::LastActive,
            Refusal::AlreadyInactive,
            Refusal::LastSyncid,
        ],
        Command::Activate { .. } => &[
            Refusal::NoMirror,
            Refusal::Absent,
            Refusal::NotMember,
            Refusal::NotInactive,
        ],
        Command::Forget { .. } => &[Refusal::NoMirror, Refusal::Absent, Refusal::NoneLost],
        Command::Rebuild { .. } => &[
            Refusal::NoMirror,
            Refusal::Absent,
            Refusal::NotMember,
            Refusal::LastActive,
            Refusal::Inactive,
        ],
        Command::Configure { .. } => &[
            Refusal::NoMirror,
            Refusal::Absent,
            Refusal::NotMember,
            Refusal::NothingGiven,
        ],
        Command::Clear { .. } => &[
            Refusal::Absent,
            Refusal::ProviderTaken,
            Refusal::WrongSize,
            Refusal::NoMetadata,
        ],
        Command::Destroy { .. } => &[Refusal::NoMirror, Refusal::Absent],
        Command::Lost { .. } => &[
            Refusal::NoMirror,
            Refusal::Absent,
            Refusal::NotMember,
            Refusal::LastActive,
            Refusal::LastGenid,
        ],
        Command::Advance { .. } => &[
            Refusal::NoMirror,
            Refusal::Absent,
            Refusal::NotMember,
            Refusal::Inactive,
            Refusal::NotSynchronizing,
        ],
        Command::Adopt { .. } => &[
            Refusal::NameTaken,
            Refusal::MidTaken,
            Refusal::Absent,
            Refusal::ProviderTaken,
            Refusal::DidTaken,
            Refusal::Full,
            Refusal::TooManyMirrors,
            Refusal::NotAdoptable,
            Refusal::WrongSize,
        ],
        Command::Patch { .. } => &[
            Refusal::NoMirror,
            Refusal::Absent,
            Refusal::LastSyncid,
            Refusal::BeingFilled,
            Refusal::BeyondEnd,
        ],
    }
}
