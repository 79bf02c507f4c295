//! Commands, as their words say them.

ghost use Rattle.std.specs.Prelude.{◌≡◌, ◌<◌, ◌==◌, if◌then◌else◌, Some, None};
ghost use Rattle.gm_commands.specs.Commands.{balance_of_word};

use crate::providers::Providers;
use crate::sectors::Sectors;
use gm_metadata::{Balance, Label, MirrorFlags};
use std::marker::Model;

/// A balance that words can ask for (gmirror(8)); `none` is read and shown only.
#[derive(Clone, Copy, Debug, PartialEq, Eq)]
pub enum BalanceWord {
    Load,
    Prefer,
    RoundRobin,
    Split,
}

impl BalanceWord {
    /// The balance that the word asks for.
    pub fn balance(self) -> Balance
        ensures { result ≡ balance_of_word self }
    {
        match self {
            BalanceWord::Load => Balance::Load,
            BalanceWord::Prefer => Balance::Prefer,
            BalanceWord::RoundRobin => Balance::RoundRobin,
            BalanceWord::Split => Balance::Split,
        }
    }
}

/// The size of a slice (bytes), 1 to 4294967295. In contracts it is that number.
#[derive(Clone, Copy, Debug, PartialEq, Eq)]
pub struct Slice {
    bytes: u32,
}

impl Model for Slice {
    ghost use Rattle.std.specs.Prelude.{ℕ, ◌<◌};

    ghost Value = { ℕ };

    ghost view = { λ a. a.bytes };

    ghost invariant = { λ a. 0 < a.bytes };

    ghost inverse = { λ n. record { bytes = n } };
}

impl Slice {
    /// The slice of so many bytes; `None` if they are none.
    pub fn new(bytes: u32) -> Option<Slice>
        ensures { result ≡ (if bytes == 0 then None else Some bytes) }
    {
        if bytes == 0 {
            return None;
        }
        Some(Slice { bytes })
    }

    /// Its size in bytes.
    pub fn bytes(self) -> u32
        ensures value { result ≡ self }
        ensures some { 0 < self }
    {
        self.bytes
    }
}

/// The priority that one component gets.
#[derive(Clone, Copy, Debug, PartialEq, Eq)]
pub struct Preference {
    pub provider: Label,
    pub priority: u8,
}

/// What is set of a mirror that stands; what is `None` stays as it is.
#[derive(Clone, Copy, Debug, PartialEq, Eq)]
pub struct Settings {
    pub balance: Option<BalanceWord>,
    pub slice: Option<Slice>,
    pub autosync: Option<bool>,
    pub failsync: Option<bool>,
    /// Whether the name of every component is hardcoded.
    pub hardcode: Option<bool>,
    pub preference: Option<Preference>,
}

/// A new mirror on one provider. mid and did are handed in.
#[derive(Clone, Copy, Debug, PartialEq, Eq)]
pub struct NewMirror {
    pub name: Label,
    pub provider: Label,
    pub mid: u32,
    pub did: u32,
    pub balance: BalanceWord,
    pub slice: Slice,
    pub flags: MirrorFlags,
    /// Whether the name of its component is hardcoded.
    pub hardcoded: bool,
}

/// One more component of a mirror, which is to be filled. did is handed in.
#[derive(Clone, Copy, Debug, PartialEq, Eq)]
pub struct NewComponent {
    /// The mirror's name.
    pub name: Label,
    pub provider: Label,
    pub did: u32,
    pub priority: u8,
    pub hardcoded: bool,
}

/// A command of gmirror(8), as its words say it; `Lost`, `Advance`, `Adopt` and `Patch` are this
/// project's own.
#[derive(Debug, PartialEq, Eq, Drop)]
pub enum Command {
    Label(NewMirror),
    Insert(NewComponent),
    /// One component less.
    Remove {
        name: Label,
        provider: Label,
    },
    /// A component is taken out of use: it keeps the count of syncs that it has, the others count
    /// one more.
    Deactivate {
        name: Label,
        provider: Label,
    },
    /// A component that was taken out of use is to be filled anew.
    Activate {
        name: Label,
        provider: Label,
    },
    /// Components that were lost are no longer waited for.
    Forget {
        name: Label,
    },
    /// A component is to be filled anew, even if the mirror doesn't fill its components by
    /// itself.
    Rebuild {
        name: Label,
        provider: Label,
    },
    /// The mirror and its components are set otherwise.
    Configure {
        name: Label,
        settings: Settings,
    },
    /// The metadata of a provider that is no component are wiped out.
    Clear {
        provider: Label,
    },
    /// The mirror and its components are dropped.
    Destroy {
        name: Label,
    },
    /// Components whose images won't come back are dropped; they are waited for until they are
    /// forgotten.
    Lost {
        name: Label,
        providers: Providers,
    },
    /// The next sectors of the mirror's data are copied to a component that is to be filled, at
    /// most 256.
    Advance {
        name: Label,
        provider: Label,
    },
    /// A mirror that is found on these providers is registered, with what their images bear out.
    Adopt {
        name: Label,
        providers: Providers,
    },
    /// The sectors are laid over the mirror's data from this one on.
    Patch {
        name: Label,
        first: u32,
        data: Sectors,
    },
}
