//! The flags of mirrors and components, each a truth value by its name in `g_mirror.h`.

ghost use Rattle.std.specs.Prelude.{◌≡◌, ◌<◌, Option};
ghost use Rattle.gm_metadata.specs.Flags.{mirror_bits, mirror_flags_of, disk_bits, disk_flags_of};

/// The flags of a mirror.
#[derive(Clone, Copy, Debug, PartialEq, Eq)]
pub struct MirrorFlags {
    /// Components that fell behind aren't copied anew by themselves (bit 1).
    pub no_autosync: bool,
    /// A mirror isn't marked as to be copied after a failure (bit 2).
    pub no_failsync: bool,
}

impl MirrorFlags {
    /// The flags as the number in the sector.
    pub fn bits(self) -> u64
        ensures { result ≡ mirror_bits self }
    {
        let no_autosync = if self.no_autosync { 1 } else { 0 };
        let no_failsync = if self.no_failsync { 2 } else { 0 };
        no_autosync + no_failsync
    }

    /// The flags that a number stands for; `None` if a bit is set that has no name.
    pub fn from_bits(bits: u64) -> Option<MirrorFlags>
        ensures { result ≡ mirror_flags_of bits }
    {
        if bits >= 4 {
            return None;
        }
        Some(MirrorFlags {
            no_autosync: bits % 2 == 1,
            no_failsync: bits / 2 % 2 == 1,
        })
    }
}

/// The flags of a component.
#[derive(Clone, Copy, Debug, PartialEq, Eq)]
pub struct DiskFlags {
    /// It was being written to (bit 1).
    pub dirty: bool,
    /// It is being copied to (bit 2).
    pub synchronizing: bool,
    /// It is to be copied to even if the mirror's components aren't by themselves (bit 4).
    pub force_sync: bool,
    /// It takes no part in the mirror (bit 8).
    pub inactive: bool,
}

impl DiskFlags {
    /// The flags as the number in the sector.
    pub fn bits(self) -> u64
        ensures { result ≡ disk_bits self }
    {
        let dirty = if self.dirty { 1 } else { 0 };
        let synchronizing = if self.synchronizing { 2 } else { 0 };
        let force_sync = if self.force_sync { 4 } else { 0 };
        let inactive = if self.inactive { 8 } else { 0 };
        dirty + synchronizing + force_sync + inactive
    }

    /// The flags that a number stands for; `None` if a bit is set that has no name.
    pub fn from_bits(bits: u64) -> Option<DiskFlags>
        ensures { result ≡ disk_flags_of bits }
    {
        if bits >= 16 {
            return None;
        }
        Some(DiskFlags {
            dirty: bits % 2 == 1,
            synchronizing: bits / 2 % 2 == 1,
            force_sync: bits / 4 % 2 == 1,
            inactive: bits / 8 % 2 == 1,
        })
    }
}
