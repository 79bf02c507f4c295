//! All rows that a query shows, as records.

ghost use Rattle.std.specs.Prelude.{IfErr, ◌≡◌, ◌≢◌, ℕ, List, map, All, IfOk, IfSome, IfNone};
ghost use Rattle.sqlite.specs.Order.{Row};
ghost use Rattle.gm_state.specs.Rows.{mirror_row, component_row, intent_row};
ghost use Rattle.gm_rows.specs.Rows.{mirror_values, component_values};
ghost use Rattle.gm_rows.specs.Values.{columns_at, numbered, six, nine, shown_intent, IsMirrorValue, IsComponentValue, IsIntentValue};
ghost use Rattle.gm_rows.specs.Faults.{OnUnreadable};

use crate::fault::StoreFault;
use crate::read_record::{read_component, read_intent, read_mirror};
use gm_state::{Component, Intent, Mirror};
use sqlite::Row as SqlRow;
use std::alloc::Global;

/// A record that a query shows as a row, the nth of them by the number n.
pub trait Shown: Copy {
    // The columns that are read, what they hold for the record of a number, and whether a value of
    // the code can be it.
    ghost places: { List ℕ };

    ghost values: { ℕ → Self → Row };

    ghost is_value: { Self → Type 0 };

    fn read(row: &SqlRow, number: u64) -> Option<Self>
        ensures some { IfSome result (λ x. columns_at places row.now ≡ values number x) }
        ensures none { IfNone result ((x : Self) → is_value x
            → columns_at places row.now ≡ values number x → ⊥) };
}

impl Shown for Mirror {
    ghost places = { nine };

    ghost values = { λ _ m. mirror_values (mirror_row m) };

    ghost is_value = { IsMirrorValue };

    fn read(row: &SqlRow, _number: u64) -> Option<Mirror> {
        read_mirror(row)
    }
}

impl Shown for Component {
    ghost places = { nine };

    ghost values = { λ _ k. component_values (component_row k) };

    ghost is_value = { IsComponentValue };

    fn read(row: &SqlRow, _number: u64) -> Option<Component> {
        read_component(row)
    }
}

impl Shown for Intent {
    ghost places = { six };

    ghost values = { λ n t. shown_intent (intent_row n t) };

    ghost is_value = { IsIntentValue };

    fn read(row: &SqlRow, number: u64) -> Option<Intent> {
        read_intent(row, number)
    }
}

/// The records of the rows, in their order; `Unreadable` if the rows are of no such records.
pub fn read_all<T: Shown>(alloc: Global, rows: &[SqlRow]) -> Result<Vec<T>, StoreFault>
    ensures read { IfOk result
        (λ list. map (columns_at T.Shown.places) rows.now ≡ numbered T.Shown.values 1 list.items) }
    ensures fault { IfErr result (λ e. e ≢ StoreFault.Store) }
    ensures unreadable { OnUnreadable result ((list : List T) → All T.Shown.is_value list
        → map (columns_at T.Shown.places) rows.now ≡ numbered T.Shown.values 1 list → ⊥) }
{
    let mut list = Vec::new(alloc);
    'rows: for (index, row) in rows.iter().enumerate() {
        match T::read(row, index as u64 + 1) {
            Some(record) => list.push(record).map_err(|_| StoreFault::Memory)?,
            None => return Err(StoreFault::Unreadable),
        }
    }
    Ok(list)
}
