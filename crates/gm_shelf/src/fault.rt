//! Why a call of a shelf fails, and the count of failures.

ghost use Rattle.std.specs.Prelude.{◌≡◌, ◌≤◌, ◌<◌, ◌+◌, ◌==◌, ◌↔◌, None, IfErr, IsOk, IsErrOf, IsSomeAnd, if◌then◌else◌};
ghost use Rattle.gm_shelf.specs.Faults.{fault_number, fault_after, count_after};

use std::alloc::{AllocError, AllocFailed};
use std::error::Error;
use std::fmt;

/// Why a shelf didn't do a call.
#[derive(Clone, Copy, Debug, PartialEq, Eq)]
pub enum ShelfFault {
    /// The shelf hasn't the provider.
    Absent,
    /// The provider hasn't the sector.
    Range,
    /// The device failed, and the failure was counted.
    Device,
    /// Memory was refused, or the device failed and the count of failures stands at its last value.
    Memory,
}

impl ShelfFault {
    /// Its number, 1 to 4, as texts and answers print it.
    pub fn number(self) -> u8
        ensures { result ≡ fault_number self }
    {
        match self {
            ShelfFault::Absent => 1,
            ShelfFault::Range => 2,
            ShelfFault::Device => 3,
            ShelfFault::Memory => 4,
        }
    }
}

impl fmt::Display for ShelfFault {
    ghost use Rattle.std.specs.Prelude.{Some};
    ghost use Rattle.gm_shelf.specs.Faults.{fault_text};

    ghost output = { λ fault. Some (fault_text fault) };

    fn fmt<W: fmt::Write>(&self, f: &mut fmt::Formatter<W>) -> fmt::Result {
        match self {
            ShelfFault::Absent => f.write_str("the provider is absent"),
            ShelfFault::Range => f.write_str("the provider has no such sector"),
            ShelfFault::Device => f.write_str("the device failed"),
            ShelfFault::Memory => f.write_str("out of memory"),
        }
    }
}

impl Error for ShelfFault {}

impl<T: Drop> From<AllocFailed<T>> for ShelfFault {
    ghost use Rattle.gm_shelf.specs.declared.fault.ShelfFault.TheVariants.{Memory};

    ghost from_gives = { λ _ e. e ≡ Memory };

    fn from(_: AllocFailed<T>) -> Self {
        ShelfFault::Memory
    }
}

impl From<AllocError> for ShelfFault {
    ghost use Rattle.gm_shelf.specs.declared.fault.ShelfFault.TheVariants.{Memory};

    ghost from_gives = { λ _ e. e ≡ Memory };

    fn from(_: AllocError) -> Self {
        ShelfFault::Memory
    }
}

// Counts a failure of the device, if it can be counted, and says how it is answered.
pub(crate) fn device_failed(failures: &mut u64) -> ShelfFault
    ensures answer { result ≡ fault_after failures.old }
    ensures count { failures.new ≡ count_after failures.old }
{
    if *failures == u64::MAX {
        return ShelfFault::Memory;
    }
    *failures += 1;
    ShelfFault::Device
}

// The fault of a call on a provider, by its size alone.
pub(crate) fn check_provider(sectors: Option<u64>) -> Result<(), ShelfFault>
    ensures absent { IsErrOf result ShelfFault.Absent ↔ (sectors ≡ None) }
    ensures only_absent { IfErr result (λ e. e ≡ ShelfFault.Absent) }
{
    match sectors {
        Some(_) => Ok(()),
        None => Err(ShelfFault::Absent),
    }
}

// The fault of a call on a sector, by the provider's size alone.
pub(crate) fn check_place(sectors: Option<u64>, place: u64) -> Result<(), ShelfFault>
    ensures absent { IsErrOf result ShelfFault.Absent ↔ (sectors ≡ None) }
    ensures range { IsErrOf result ShelfFault.Range ↔ IsSomeAnd sectors (λ n. n ≤ place) }
    ensures there { IsOk result ↔ IsSomeAnd sectors (λ n. place < n) }
    ensures not_device { IsErrOf result ShelfFault.Device → ⊥ }
    ensures not_memory { IsErrOf result ShelfFault.Memory → ⊥ }
{
    match sectors {
        None => Err(ShelfFault::Absent),
        Some(count) if count <= place => Err(ShelfFault::Range),
        Some(_) => Ok(()),
    }
}

// The fault of a call on a run of so many sectors, by the provider's size alone.
pub(crate) fn check_run(sectors: Option<u64>, first: u64, length: u64) -> Result<(), ShelfFault>
    ensures absent { IsErrOf result ShelfFault.Absent ↔ (sectors ≡ None) }
    ensures range { IsErrOf result ShelfFault.Range ↔ IsSomeAnd sectors (λ n. n < first + length) }
    ensures there { IsOk result ↔ IsSomeAnd sectors (λ n. first + length ≤ n) }
    ensures not_device { IsErrOf result ShelfFault.Device → ⊥ }
    ensures not_memory { IsErrOf result ShelfFault.Memory → ⊥ }
{
    match sectors {
        None => Err(ShelfFault::Absent),
        Some(count) if count < first || count - first < length => Err(ShelfFault::Range),
        Some(_) => Ok(()),
    }
}
