//! Values of records as the tables hold them: sizes in bytes, flags and codes as numbers.

ghost use Rattle.std.specs.Prelude.{◌≡◌, ◌<◌, ◌*◌, ◌^◌, pos, if◌then◌else◌};
ghost use Rattle.gm_metadata.specs.Flags.{mirror_bits, disk_bits};
ghost use Rattle.gm_metadata.specs.Balance.{balance_code};

use gm_metadata::{Balance, DiskFlags, MirrorFlags};

/// The bytes in so many sectors.
pub fn bytes_in(sectors: u32) -> i64
    ensures value { result ≡ pos (512 * sectors) }
    ensures fits { sectors < 2 ^ 32 }
{
    512 * i64::from(sectors)
}

/// The number that mirror flags are.
#[tactic(auto, using(crate::proofs::FlagNumbers::mirror_bits_low))]
pub fn mirror_number(flags: MirrorFlags) -> u32
    ensures { result ≡ mirror_bits flags }
{
    flags.bits() as u32
}

/// The number that disk flags are.
#[tactic(auto, using(crate::proofs::FlagNumbers::disk_bits_low))]
pub fn disk_number(flags: DiskFlags) -> u32
    ensures { result ≡ disk_bits flags }
{
    flags.bits() as u32
}

/// The number that a balance is.
pub fn balance_number(balance: Balance) -> u32
    ensures { result ≡ balance_code balance }
{
    u32::from(balance.code())
}

/// 1 if it is set.
pub fn truth_number(set: bool) -> u32
    ensures { result ≡ (if set then 1 else 0) }
{
    u32::from(set)
}
