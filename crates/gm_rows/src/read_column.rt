//! What a column of a row says. Nothing here takes memory but the text of `text_at`.

ghost use Rattle.std.specs.Prelude.{IfErr, ◌≡◌, ◌≢◌, ◌↔◌, [], ◌<◌, ◌*◌, ◌^◌, ℕ, List, Bool, pos, IsTrue, IfSome, IfNone, IfOk, IsUtf8, string_bytes, if◌then◌else◌};
ghost use Rattle.gm_metadata.specs.Labels.{is_label};
ghost use Rattle.gm_metadata.specs.Balance.{balance_code};
ghost use Rattle.gm_metadata.specs.Flags.{mirror_bits, disk_bits};
ghost use Rattle.gm_metadata.specs.declared.balance.Balance.{Balance};
ghost use Rattle.gm_metadata.specs.declared.flags.DiskFlags.{DiskFlags};
ghost use Rattle.gm_metadata.specs.declared.flags.MirrorFlags.{MirrorFlags};
ghost use Rattle.sqlite.specs.Order.{column};
ghost use Rattle.sqlite.specs.declared.types.Value.TheVariants.{Int, Text, Blob};
ghost use Rattle.gm_state.specs.Readable.{AreSectors};
ghost use Rattle.gm_state.specs.Rows.{joined};
ghost use Rattle.gm_rows.specs.Faults.{OnUnreadable};

use crate::fault::{StoreFault, readable};
use gm_metadata::{Balance, DiskFlags, Label, MirrorFlags};
use gm_state::sectors_of;
use sqlite::Row;
use sqlite::types::ValueRef;
use std::alloc::Global;

/// The number in a column.
pub fn u64_at(row: &Row, at: usize) -> Option<u64>
    ensures some { IfSome result (λ n. column row.now at ≡ Int (pos n)) }
    ensures none { IfNone result ((n : ℕ) → column row.now at ≡ Int (pos n) → ⊥) }
{
    match row.get_ref(at) {
        Ok(ValueRef::Int(n)) => u64::try_from(n).ok(),
        _ => None,
    }
}

/// The number in a column, of 32 bits.
pub fn u32_at(row: &Row, at: usize) -> Option<u32>
    ensures some { IfSome result (λ n. column row.now at ≡ Int (pos n)) }
    ensures none { IfNone result ((n : ℕ) → n < 2 ^ 32 → column row.now at ≡ Int (pos n) → ⊥) }
{
    u32::try_from(u64_at(row, at)?).ok()
}

/// The number in a column, of 8 bits.
pub fn u8_at(row: &Row, at: usize) -> Option<u8>
    ensures some { IfSome result (λ n. column row.now at ≡ Int (pos n)) }
    ensures none { IfNone result ((n : ℕ) → n < 2 ^ 8 → column row.now at ≡ Int (pos n) → ⊥) }
{
    u8::try_from(u64_at(row, at)?).ok()
}

/// The sectors that a column tells in bytes.
pub fn sectors_at(row: &Row, at: usize) -> Option<u32>
    ensures some { IfSome result (λ n. column row.now at ≡ Int (pos (512 * n))) }
    ensures none { IfNone result ((n : ℕ) → n < 2 ^ 32 → column row.now at ≡ Int (pos (512 * n))
        → ⊥) }
{
    sectors_of(u64_at(row, at)?)
}

/// The truth value that a column tells as 0 or 1.
pub fn truth_at(row: &Row, at: usize) -> Option<bool>
    ensures some { IfSome result (λ b. column row.now at ≡ Int (pos (if b then 1 else 0))) }
    ensures none { IfNone result ((b : Bool) → column row.now at ≡ Int (pos (if b then 1 else 0))
        → ⊥) }
{
    match u64_at(row, at)? {
        0 => Some(false),
        1 => Some(true),
        _ => None,
    }
}

/// The balance that a column tells by its code.
pub fn balance_at(row: &Row, at: usize) -> Option<Balance>
    ensures some { IfSome result (λ b. column row.now at ≡ Int (pos (balance_code b))) }
    ensures none { IfNone result ((b : Balance) → column row.now at ≡ Int (pos (balance_code b))
        → ⊥) }
{
    Balance::from_code(u8_at(row, at)?)
}

/// The flags of a mirror that a column tells as a number.
pub fn mirror_flags_at(row: &Row, at: usize) -> Option<MirrorFlags>
    ensures some { IfSome result (λ f. column row.now at ≡ Int (pos (mirror_bits f))) }
    ensures none { IfNone result ((f : MirrorFlags) → column row.now at ≡ Int (pos (mirror_bits f))
        → ⊥) }
{
    MirrorFlags::from_bits(u64_at(row, at)?)
}

/// The flags of a component that a column tells as a number.
pub fn disk_flags_at(row: &Row, at: usize) -> Option<DiskFlags>
    ensures some { IfSome result (λ f. column row.now at ≡ Int (pos (disk_bits f))) }
    ensures none { IfNone result ((f : DiskFlags) → column row.now at ≡ Int (pos (disk_bits f))
        → ⊥) }
{
    DiskFlags::from_bits(u64_at(row, at)?)
}

/// The label in a column.
pub fn label_at(row: &Row, at: usize) -> Option<Label>
    ensures some { IfSome result (λ name. column row.now at ≡ Text name) }
    ensures none { IfNone result ((name : List ℕ) → IsTrue (is_label name)
        → column row.now at ≡ Text name → ⊥) }
{
    match row.get_ref(at) {
        Ok(ValueRef::Text(text)) => match str::from_utf8(text) {
            Ok(text) => Label::new(text),
            Err(_) => None,
        },
        _ => None,
    }
}

/// The text in a column, of its own memory; `Unreadable` if it holds none.
pub fn text_at(row: &Row, at: usize) -> Result<String, StoreFault>
    ensures text { IfOk result (λ text. column row.now at ≡ Text (string_bytes text)) }
    ensures fault { IfErr result (λ e. e ≢ StoreFault.Store) }
    ensures unreadable { OnUnreadable result ((text : List ℕ) → IsUtf8 text
        → column row.now at ≡ Text text → ⊥) }
{
    readable(row.get(at))
}

/// The sectors that a column holds as bytes, of their own memory; `Unreadable` if it holds none,
/// or a part of a sector after them.
pub fn bytes_at(alloc: Global, row: &Row, at: usize) -> Result<Vec<[u8; 512]>, StoreFault>
    ensures bytes { IfOk result (λ v. column row.now at ≡ Blob (joined v.items)) }
    ensures whole { IfOk result (λ v. AreSectors v.items) }
    ensures fault { IfErr result (λ e. e ≢ StoreFault.Store) }
    ensures unreadable { OnUnreadable result ((sectors : List (List ℕ)) → AreSectors sectors
        → column row.now at ≡ Blob (joined sectors) → ⊥) }
{
    match row.get_ref(at) {
        Ok(ValueRef::Blob(blob)) => {
            let (sectors, rest) = blob.as_chunks::<512>();
            if !rest.is_empty() {
                return Err(StoreFault::Unreadable);
            }
            Ok(Vec::from_slice(alloc, sectors)?)
        }
        _ => Err(StoreFault::Unreadable),
    }
}

/// Whether a column holds this text.
pub fn is_text_at(row: &Row, at: usize, text: &str) -> bool
    ensures { IsTrue result ↔ (column row.now at ≡ Text text.now) }
{
    match row.get_ref(at) {
        Ok(ValueRef::Text(found)) => found == text.as_bytes(),
        _ => false,
    }
}

/// Whether a column holds the empty text.
pub fn is_empty_at(row: &Row, at: usize) -> bool
    ensures { IsTrue result ↔ (column row.now at ≡ Text []) }
{
    match row.get_ref(at) {
        Ok(ValueRef::Text(text)) => text.is_empty(),
        _ => false,
    }
}

/// Whether a column holds this number.
pub fn is_number_at(row: &Row, at: usize, number: u64) -> bool
    ensures { IsTrue result ↔ (column row.now at ≡ Int (pos number)) }
{
    u64_at(row, at) == Some(number)
}
