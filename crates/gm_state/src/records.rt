//! The records that the bench keeps of a mirror and of a component.

use gm_metadata::{Balance, DiskFlags, Label, MirrorFlags};

/// What the bench keeps of a mirror.
#[derive(Clone, Copy, Debug, PartialEq, Eq)]
pub struct Mirror {
    pub name: Label,
    /// The mirror's number, handed in with the command that made it.
    pub mid: u32,
    /// How many components it has when it is complete, 1 to 16: those that were lost count until
    /// they are forgotten.
    pub all: u8,
    /// Counts the times that components were lost.
    pub genid: u32,
    /// Counts the times that a component was taken out of use, or the data were changed: one that
    /// was left behind has a smaller one.
    pub syncid: u32,
    /// Requests from this size on are split (bytes).
    pub slice: u32,
    pub balance: Balance,
    /// The size of the mirror's data (sectors of 512 bytes): its mediasize divided by 512.
    pub data_sectors: u32,
    pub flags: MirrorFlags,
}

/// How the data of a component stand: the disk flags 0, 8, and 2 or 6.
#[derive(Clone, Copy, Debug, PartialEq, Eq)]
pub enum Disk {
    /// No flag: it holds the mirror's data.
    InSync,
    /// INACTIVE alone: it takes no part.
    Inactive,
    /// SYNCHRONIZING, with FORCE_SYNC if it is forced: the first `held` sectors of the data are
    /// copied.
    Copying { forced: bool, held: u32 },
}

/// What the bench keeps of a component.
#[derive(Clone, Copy, Debug, PartialEq, Eq)]
pub struct Component {
    pub provider: Label,
    /// The name of its mirror.
    pub mirror: Label,
    /// The component's number within the mirror.
    pub did: u32,
    pub syncid: u32,
    /// The greatest one is copied from.
    pub priority: u8,
    pub disk: Disk,
    /// Whether its metadata name the provider.
    pub hardcoded: bool,
    /// The size of the provider (sectors of 512 bytes): its provsize divided by 512.
    pub sectors: u32,
}

impl Disk {
    ghost use Rattle.std.specs.Prelude.{◌≡◌, IfSome, IfNone};
    ghost use Rattle.gm_state.specs.declared.records.Disk.{Disk};
    ghost use Rattle.gm_state.specs.Disks.{disk_flags, held_of, is_active};

    /// The disk flags (`g_mirror.h`).
    pub fn flags(self) -> DiskFlags
        ensures { result ≡ disk_flags self }
    {
        let (synchronizing, force_sync, inactive) = match self {
            Disk::InSync => (false, false, false),
            Disk::Inactive => (false, false, true),
            Disk::Copying { forced, held: _ } => (true, forced, false),
        };
        DiskFlags {
            dirty: false,
            synchronizing,
            force_sync,
            inactive,
        }
    }

    /// How the data stand if the sector has these flags, and an offset of so many sectors;
    /// `None` if no component has both.
    pub fn from_flags(flags: DiskFlags, held: u32) -> Option<Disk>
        ensures some { IfSome result (λ d. (disk_flags d ≡ flags) × (held_of d ≡ held)) }
        ensures none { IfNone result ((d : Disk) → disk_flags d ≡ flags → held_of d ≡ held → ⊥) }
    {
        match flags {
            DiskFlags {
                dirty: false,
                synchronizing: false,
                force_sync: false,
                inactive,
            } if held == 0 => Some(if inactive {
                Disk::Inactive
            } else {
                Disk::InSync
            }),
            DiskFlags {
                dirty: false,
                synchronizing: true,
                force_sync,
                inactive: false,
            } => Some(Disk::Copying {
                forced: force_sync,
                held,
            }),
            _ => None,
        }
    }

    /// How many sectors of a copy that is under way are held, else 0.
    pub fn held(self) -> u32
        ensures { result ≡ held_of self }
    {
        match self {
            Disk::InSync | Disk::Inactive => 0,
            Disk::Copying { forced: _, held } => held,
        }
    }

    /// Whether the component is ACTIVE: it holds the mirror's data.
    pub fn is_active(self) -> bool
        ensures { result ≡ is_active self }
    {
        matches!(self, Disk::InSync)
    }
}
