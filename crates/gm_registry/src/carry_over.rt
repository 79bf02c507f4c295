//! A registry of the first schema, carried over to the second in one transaction: it gets the table
//! of bytes, and the number 2 in `about`.

ghost use Rattle.std.specs.Prelude.{[], ◌∷◌};
ghost use Rattle.sqlite.specs.Held.{state};
ghost use Rattle.sqlite.specs.State.{Survives};
ghost use Rattle.gm_rows.specs.Faults.{OnOther};
ghost use Rattle.gm_rows.specs.Rows.{about_numbered, about_values};
ghost use Rattle.gm_registry.specs.Opening.{HasAbout, IsBeingMade, IsFirstInside, SeesFirstRegistry};
ghost use Rattle.gm_registry.specs.Registry.{DiskKept, KeepsCommit, StoreFailed};
ghost use Rattle.gm_registry.specs.Opens.{CarriesOver, LeadsInside};

use crate::create::put_about;
use gm_rows::PATCHES;
use sqlite::{Alter, Connection, Error, ErrorCode, Transaction};

/// Makes the table of bytes, beside those of the first schema.
fn create_patches<S: Alter>(tx: &mut Transaction<'_, S>) -> Result<usize, Error>
    ensures leads { LeadsInside S.Store tx.old tx.new result IsFirstInside
        (λ first. IsBeingMade (about_numbered 1 ∷ []) first.trees first) }
    ensures kept { KeepsCommit S.Store tx.old.conn.now tx.new.conn.now }
{
    tx.execute(PATCHES, &[])
}

/// Deletes the record of `about` of the first schema.
fn drop_about<S: Alter>(tx: &mut Transaction<'_, S>) -> Result<usize, Error>
    ensures leads { LeadsInside S.Store tx.old tx.new result (HasAbout (about_numbered 1 ∷ []))
        (HasAbout []) }
    ensures kept { KeepsCommit S.Store tx.old.conn.now tx.new.conn.now }
{
    tx.execute("DELETE FROM about", &[])
}

/// The table of bytes and the number of the second schema, within a transaction.
fn carry_tables<S: Alter>(tx: &mut Transaction<'_, S>) -> Result<(), Error>
    ensures leads { LeadsInside S.Store tx.old tx.new result IsFirstInside
        (λ first. IsBeingMade (about_values ∷ []) first.trees first) }
    ensures kept { KeepsCommit S.Store tx.old.conn.now tx.new.conn.now }
{
    create_patches(tx)?;
    drop_about(tx)?;
    put_about(tx)?;
    Ok(())
}

/// Carries a registry of the first schema over to the second, in one transaction.
pub(crate) fn carry_over<S: Alter>(conn: &mut Connection<S>) -> Result<(), Error>
    ensures carries { CarriesOver S.Store conn.old conn.new result SeesFirstRegistry }
    ensures store { DiskKept S.Store conn.new
        → OnOther result (SeesFirstRegistry (state S.Store conn.old)
        → StoreFailed S.Store conn.old conn.new) }
    ensures survives { Survives (state S.Store conn.old) (state S.Store conn.new) (λ _. Unit {0}) }
{
    if !conn.is_autocommit() {
        return Err(Error::SqliteFailure(ErrorCode::TransactionState));
    }
    let mut tx = conn.transaction();
    carry_tables(&mut tx)?;
    tx.commit()
}
