//! From a row that a query shows to the record that it says. Nothing here takes memory.

ghost use Rattle.std.specs.Prelude.{ℕ, ◌≡◌, ◌↔◌, ◌<◌, ◌^◌, ◌*◌, IsTrue, [], pos, IfSome, IfNone};
ghost use Rattle.gm_metadata.specs.Flags.{disk_bits};
ghost use Rattle.gm_state.specs.Disks.{held_of, disk_flags};
ghost use Rattle.gm_state.specs.declared.records.Disk.{Disk};
ghost use Rattle.sqlite.specs.Order.{column};
ghost use Rattle.sqlite.specs.declared.types.Value.TheVariants.{Int, Text};
ghost use Rattle.gm_state.specs.declared.intents.Intent.{Intent};
ghost use Rattle.gm_state.specs.declared.records.Component.{Component};
ghost use Rattle.gm_state.specs.declared.records.Mirror.{Mirror};
ghost use Rattle.gm_state.specs.Rows.{mirror_row, component_row, intent_row};
ghost use Rattle.gm_rows.specs.Rows.{mirror_values, component_values};
ghost use Rattle.gm_rows.specs.Values.{columns_at, six, nine, shown_intent, AreFirst, IsMirrorValue, IsComponentValue, IsIntentValue};

use crate::read_column::{
    balance_at, disk_flags_at, is_empty_at, is_number_at, label_at, mirror_flags_at, sectors_at,
    truth_at, u8_at, u32_at,
};
use gm_metadata::Label;
use gm_state::{Component, Disk, Intent, Mirror};
use sqlite::Row;

/// The mirror of a row of `mirrors`, whose columns are shown in their order; `None` if the
/// values are of no mirror.
pub fn read_mirror(row: &Row) -> Option<Mirror>
    ensures some { IfSome result (λ m. columns_at nine row.now ≡ mirror_values (mirror_row m)) }
    ensures none { IfNone result ((m : Mirror) → IsMirrorValue m
        → columns_at nine row.now ≡ mirror_values (mirror_row m) → ⊥) }
{
    Some(Mirror {
        name: label_at(row, 0)?,
        mid: u32_at(row, 1)?,
        all: u8_at(row, 2)?,
        genid: u32_at(row, 3)?,
        syncid: u32_at(row, 4)?,
        slice: u32_at(row, 5)?,
        balance: balance_at(row, 6)?,
        data_sectors: sectors_at(row, 7)?,
        flags: mirror_flags_at(row, 8)?,
    })
}

/// How the data of a row of `components` stand.
fn read_disk(row: &Row) -> Option<Disk>
    ensures some { IfSome result (λ d. (column row.now 5 ≡ Int (pos (512 * held_of d)))
        × (column row.now 6 ≡ Int (pos (disk_bits (disk_flags d))))) }
    ensures none { IfNone result ((d : Disk) → held_of d < 2 ^ 32
        → column row.now 5 ≡ Int (pos (512 * held_of d))
        → column row.now 6 ≡ Int (pos (disk_bits (disk_flags d))) → ⊥) }
{
    let held = sectors_at(row, 5)?;
    let flags = disk_flags_at(row, 6)?;
    Disk::from_flags(flags, held)
}

/// The component of a row of `components`, whose columns are shown in their order; `None` if the
/// values are of no component.
pub fn read_component(row: &Row) -> Option<Component>
    ensures some { IfSome result (λ k. columns_at nine row.now ≡ component_values
        (component_row k)) }
    ensures none { IfNone result ((k : Component) → IsComponentValue k
        → columns_at nine row.now ≡ component_values (component_row k) → ⊥) }
{
    Some(Component {
        provider: label_at(row, 0)?,
        mirror: label_at(row, 1)?,
        did: u32_at(row, 2)?,
        syncid: u32_at(row, 3)?,
        priority: u8_at(row, 4)?,
        disk: read_disk(row)?,
        hardcoded: truth_at(row, 7)?,
        sectors: sectors_at(row, 8)?,
    })
}

/// Whether the row of an intent names no source and no sectors, as each does but those of a copy
/// and of a patch.
fn is_without_source(row: &Row) -> bool
    ensures { IsTrue result ↔ ((column row.now 3 ≡ Text []) × (column row.now 4 ≡ Int (pos 0))
        × (column row.now 5 ≡ Int (pos 0))) }
{
    is_empty_at(row, 3) && (is_number_at(row, 4, 0) && is_number_at(row, 5, 0))
}

/// What is said by the row of an intent of this kind on this provider.
fn read_kind(row: &Row, kind: u32, provider: Label) -> Option<Intent>
    ensures some { IfSome result (λ i. (n : ℕ) → AreFirst row.now n kind provider
        → columns_at six row.now ≡ shown_intent (intent_row n i)) }
    ensures none { IfNone result ((n : ℕ) (i : Intent) → AreFirst row.now n kind provider
        → IsIntentValue i → columns_at six row.now ≡ shown_intent (intent_row n i) → ⊥) }
{
    match kind {
        1 if is_without_source(row) => Some(Intent::Meta { provider }),
        2 if is_without_source(row) => Some(Intent::Clear { provider }),
        3 => Some(Intent::Copy {
            source: label_at(row, 3)?,
            target: provider,
            first: u32_at(row, 4)?,
            end: u32_at(row, 5)?,
        }),
        4 if is_without_source(row) => Some(Intent::Dirty { provider }),
        5 if is_empty_at(row, 3) => Some(Intent::Patch {
            provider,
            first: u32_at(row, 4)?,
            end: u32_at(row, 5)?,
        }),
        _ => None,
    }
}

/// The intent of a row of `intents`, whose columns are shown in their order, if it has this
/// number; `None` if it has another, or the values are of no intent.
pub fn read_intent(row: &Row, number: u64) -> Option<Intent>
    ensures some { IfSome result (λ i. columns_at six row.now ≡ shown_intent
        (intent_row number i)) }
    ensures none { IfNone result ((i : Intent) → IsIntentValue i
        → columns_at six row.now ≡ shown_intent (intent_row number i) → ⊥) }
{
    if !is_number_at(row, 0, number) {
        return None;
    }
    read_kind(row, u32_at(row, 1)?, label_at(row, 2)?)
}
