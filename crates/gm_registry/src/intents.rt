//! The table of intents, numbered from 1 in their order, written inside a transaction; and what
//! becomes of all that is pending.

ghost use Rattle.std.specs.Prelude.{[], ◌∷◌, length, ⊤};
ghost use Rattle.gm_state.specs.Rows.{Tables, intent_row, intent_rows};
ghost use Rattle.gm_registry.specs.Changes.{row_of_kind, with_intents, without_intents, settled, left_of};
ghost use Rattle.gm_registry.specs.Fitting.{IsUnnumbered, AreShort, TakesIntents};
ghost use Rattle.gm_registry.specs.Registry.{WritesGiven, ChangesInside, DiskKept, HasTables, StoreFailed, Writes};
ghost use Rattle.gm_rows.specs.Faults.{OnOther};

use crate::patches::drop_bytes;
use gm_state::Intent;
use sqlite::{Alter, Connection, Error, ErrorCode, Transaction, params};

/// The `kind` of an intent in its row.
const META: u32 = 1;

const CLEAR: u32 = 2;

const COPY: u32 = 3;

const DIRTY: u32 = 4;

const PATCH: u32 = 5;

/// Adds the row of an intent under its number.
fn put_row<S: Alter>(
    tx: &mut Transaction<'_, S>,
    ord: u32,
    kind: u32,
    provider: &str,
    source: &str,
    first: u32,
    end: u32,
) -> Result<usize, Error>
    ensures { ChangesInside S.Store tx.old tx.new result
        (with_intents (row_of_kind kind ord provider.now source.now first end ∷ []))
        (λ _ t. IsUnnumbered ord t × AreShort provider.now source.now) 0 }
{
    tx.execute(
        "INSERT INTO intents (ord, kind, prov, source, first_sector, end_sector) VALUES (?1, ?2, ?3, ?4, ?5, ?6)",
        params![ord, kind, provider, source, first, end],
    )
}

/// Adds an intent under its number.
fn put_intent<S: Alter>(
    tx: &mut Transaction<'_, S>,
    ord: u32,
    intent: Intent,
) -> Result<usize, Error>
    ensures { ChangesInside S.Store tx.old tx.new result (with_intents (intent_row ord intent ∷ []))
        (λ _. IsUnnumbered ord) 0 }
{
    match intent {
        Intent::Meta { provider } => put_row(tx, ord, META, provider.as_str(), "", 0, 0),
        Intent::Clear { provider } => put_row(tx, ord, CLEAR, provider.as_str(), "", 0, 0),
        Intent::Copy {
            source,
            target,
            first,
            end,
        } => put_row(tx, ord, COPY, target.as_str(), source.as_str(), first, end),
        Intent::Dirty { provider } => put_row(tx, ord, DIRTY, provider.as_str(), "", 0, 0),
        Intent::Patch {
            provider,
            first,
            end,
        } => put_row(tx, ord, PATCH, provider.as_str(), "", first, end),
    }
}

/// Adds the intents, numbered from 1 in their order.
pub(crate) fn put_intents<S: Alter>(
    tx: &mut Transaction<'_, S>,
    intents: &[Intent],
) -> Result<(), Error>
    ensures { ChangesInside S.Store tx.old tx.new result (with_intents (intent_rows 1 intents.now))
        (λ _. TakesIntents (length intents.now)) 0 }
{
    let mut ord = 0u32;
    'puts: for intent in intents {
        ord = match ord.checked_add(1) {
            Some(next) => next,
            None => return Err(Error::SqliteFailure(ErrorCode::TooBig)),
        };
        put_intent(tx, ord, *intent)?;
    }
    Ok(())
}

/// What becomes of what is pending when a command is accepted.
#[derive(Clone, Copy)]
pub(crate) enum Pending {
    /// It stays, beside that of the command.
    Stays,
    /// It goes, and that of the command is all that is pending.
    Goes,
}

/// Deletes all intents.
fn drop_intents<S: Alter>(tx: &mut Transaction<'_, S>) -> Result<usize, Error>
    ensures { ChangesInside S.Store tx.old tx.new result without_intents (λ _ _. ⊤) 0 }
{
    tx.execute("DELETE FROM intents", &[])
}

/// Deletes all intents, and the bytes that they lay.
fn drop_all<S: Alter>(tx: &mut Transaction<'_, S>) -> Result<(), Error>
    ensures { ChangesInside S.Store tx.old tx.new result settled (λ _ _. ⊤) 0 }
{
    drop_intents(tx)?;
    drop_bytes(tx)?;
    Ok(())
}

/// Deletes what is pending, if it is to go.
pub(crate) fn drop_pending<S: Alter>(
    tx: &mut Transaction<'_, S>,
    pending: Pending,
) -> Result<(), Error>
    ensures { ChangesInside S.Store tx.old tx.new result (left_of pending) (λ _ _. ⊤) 0 }
{
    match pending {
        Pending::Stays => Ok(()),
        Pending::Goes => drop_all(tx),
    }
}

/// Deletes all that is pending, in one transaction.
fn write_settled<S: Alter>(conn: &mut Connection<S>) -> Result<(), Error>
    ensures { WritesGiven S.Store conn.old conn.new result (λ _. ⊤) settled (λ _ _. ⊤) }
{
    if !conn.is_autocommit() {
        return Err(Error::SqliteFailure(ErrorCode::TransactionState));
    }
    let mut tx = conn.transaction();
    drop_all(&mut tx)?;
    tx.commit()
}

/// The same, as a call of the registry.
pub(crate) fn settle_on<S: Alter>(conn: &mut Connection<S>) -> Result<(), Error>
    ensures store { DiskKept S.Store conn.new
        → OnOther result ((t : Tables) → HasTables S.Store conn.old t
        → StoreFailed S.Store conn.old conn.new) }
    ensures writes { Writes S.Store conn.old conn.new result settled }
{
    write_settled(conn)
}
