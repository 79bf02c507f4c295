//! Sizes: sectors of 512 bytes inside, bytes in sectors, texts and tables.

ghost use Rattle.std.specs.Prelude.{◌≡◌, ◌*◌, ◌<◌, ◌^◌, ℕ, IfSome, IfNone};

use gm_metadata::SECTOR_SIZE;

/// The bytes in so many sectors.
pub fn bytes_of(sectors: u32) -> u64
    ensures { result ≡ 512 * sectors }
{
    u64::from(SECTOR_SIZE) * u64::from(sectors)
}

/// The sectors that are so many bytes; `None` if no number of sectors is.
pub fn sectors_of(bytes: u64) -> Option<u32>
    ensures some { IfSome result (λ n. 512 * n ≡ bytes) }
    ensures none { IfNone result ((n : ℕ) → n < 2 ^ 32 → 512 * n ≡ bytes → ⊥) }
{
    let sectors = bytes / u64::from(SECTOR_SIZE);
    if bytes % u64::from(SECTOR_SIZE) != 0 || sectors > u64::from(u32::MAX) {
        return None;
    }
    Some(sectors as u32)
}
