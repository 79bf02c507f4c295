//! What the rows of all tables say, if they say a state.

ghost use Rattle.std.specs.Prelude.{IfErr, ◌≡◌, ◌≢◌, ◌↔◌, ℕ, IsTrue, List, IfOk};
ghost use Rattle.gm_state.specs.declared.intents.Intent.{Intent};
ghost use Rattle.gm_state.specs.Records.{Records};
ghost use Rattle.gm_state.specs.Readable.{AreSectors};
ghost use Rattle.gm_rows.specs.Says.{IsAbout, ArePatches, SayState, Say};
ghost use Rattle.gm_rows.specs.Faults.{OnUnreadable};

use crate::command_numbers::are_counted;
use crate::fault::StoreFault;
use crate::fetched::Fetched;
use crate::read_column::{bytes_at, is_number_at};
use crate::shown::read_all;
use gm_state::{Component, Intent, Mirror, State, are_readable, one_row};
use sqlite::Row;
use std::alloc::Global;

/// What a registry holds: all records, what is pending in its order, and the sectors that it lays,
/// none if nothing is patched.
#[derive(Drop)]
pub struct Loaded {
    pub state: State,
    pub intents: Vec<Intent>,
    pub bytes: Vec<[u8; 512]>,
}

/// Whether the rows of `about` are the one record of a schema, (1, its number).
pub fn is_about(rows: &[Row], schema_no: u64) -> bool
    ensures { IsTrue result ↔ IsAbout schema_no rows.now }
{
    rows.len() == 1 && is_number_at(&rows[0], 0, 1) && is_number_at(&rows[0], 1, schema_no)
}

/// The state that the rows of mirrors and components say; `Unreadable` if they say none.
pub fn state_of_rows(
    alloc: Global,
    mirrors: &[Row],
    components: &[Row],
) -> Result<State, StoreFault>
    ensures says { IfOk result (λ s. SayState mirrors.now components.now s) }
    ensures only { IfOk result (λ s. (other : Records) → SayState mirrors.now components.now other
        → other ≡ s) }
    ensures fault { IfErr result (λ e. e ≢ StoreFault.Store) }
    ensures unreadable { OnUnreadable result ((s : Records) → SayState mirrors.now components.now s
        → ⊥) }
{
    one_row();
    let mirrors: Vec<Mirror> = read_all(alloc, mirrors)?;
    let components: Vec<Component> = read_all(alloc, components)?;
    match State::new(mirrors, components) {
        Some(state) => Ok(state),
        None => Err(StoreFault::Unreadable),
    }
}

/// The sectors of the record of `patches`, none if there is no record; `Unreadable` if the
/// rows are of no such record.
fn read_patches(alloc: Global, rows: &[Row]) -> Result<Vec<[u8; 512]>, StoreFault>
    ensures says { IfOk result (λ v. ArePatches v.items rows.now) }
    ensures whole { IfOk result (λ v. AreSectors v.items) }
    ensures fault { IfErr result (λ e. e ≢ StoreFault.Store) }
    ensures unreadable { OnUnreadable result ((bytes : List (List ℕ)) → AreSectors bytes
        → ArePatches bytes rows.now → ⊥) }
{
    if rows.is_empty() {
        return Ok(Vec::new(alloc));
    }
    if rows.len() > 1 || !is_number_at(&rows[0], 0, 1) {
        return Err(StoreFault::Unreadable);
    }
    let bytes = bytes_at(alloc, &rows[0], 1)?;
    if bytes.is_empty() {
        return Err(StoreFault::Unreadable);
    }
    Ok(bytes)
}

/// What the rows say; `Unreadable` if they say nothing that a registry holds, or the commands
/// aren't counted by their numbers.
pub fn judge(alloc: Global, fetched: &Fetched) -> Result<Loaded, StoreFault>
    ensures says { IfOk result (λ l. Say fetched.now l.state l.intents.items l.bytes.items) }
    ensures fault { IfErr result (λ e. e ≢ StoreFault.Store) }
    ensures unreadable { OnUnreadable result ((s : Records) (ts : List Intent)
        (bytes : List (List ℕ)) → Say fetched.now s ts bytes → ⊥) }
{
    if !is_about(&fetched.about, 2) || !are_counted(&fetched.commands) {
        return Err(StoreFault::Unreadable);
    }
    let state = state_of_rows(alloc, &fetched.mirrors, &fetched.components)?;
    let intents: Vec<Intent> = read_all(alloc, &fetched.intents)?;
    let bytes = read_patches(alloc, &fetched.patches)?;
    if !are_readable(&state, &bytes, &intents) {
        return Err(StoreFault::Unreadable);
    }
    Ok(Loaded {
        state,
        intents,
        bytes,
    })
}
