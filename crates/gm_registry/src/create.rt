//! The six tables and the one record of `about`, made in one transaction.

ghost use Rattle.std.specs.Prelude.{◌≡◌, [], ◌∷◌, false, OnOk};
ghost use Rattle.sqlite.specs.Held.{state};
ghost use Rattle.gm_rows.specs.Faults.{OnOther};
ghost use Rattle.gm_rows.specs.Rows.{about_values};
ghost use Rattle.gm_rows.specs.Tables.{no_tables};
ghost use Rattle.gm_registry.specs.Opening.{HasAbout, no_rows, IsBeingMade, IsBlank, IsBlankInside};
ghost use Rattle.gm_registry.specs.Registry.{DiskKept, HasTables, WasClean, MayLeave, KeepsCommit, StoreFailed};
ghost use Rattle.gm_registry.specs.Opens.{LeadsInside};

use gm_rows::{ABOUT, COMMANDS, COMPONENTS, INTENTS, MIRRORS, PATCHES};
use sqlite::{Alter, Connection, Error, Transaction};

/// Makes the tables, over a store without any.
fn create_tables<S: Alter>(tx: &mut Transaction<'_, S>) -> Result<(), Error>
    ensures { LeadsInside S.Store tx.old tx.new result IsBlankInside (IsBeingMade [] no_rows) }
{
    tx.execute(ABOUT, &[])?;
    tx.execute(MIRRORS, &[])?;
    tx.execute(COMPONENTS, &[])?;
    tx.execute(INTENTS, &[])?;
    tx.execute(COMMANDS, &[])?;
    tx.execute(PATCHES, &[])?;
    Ok(())
}

/// Adds the record of `about`, if it has none.
pub(crate) fn put_about<S: Alter>(tx: &mut Transaction<'_, S>) -> Result<usize, Error>
    ensures leads { LeadsInside S.Store tx.old tx.new result (HasAbout [])
        (HasAbout (about_values ∷ [])) }
    ensures kept { KeepsCommit S.Store tx.old.conn.now tx.new.conn.now }
{
    tx.execute("INSERT INTO about (one, schema_no) VALUES (1, 2)", &[])
}

/// Makes a registry in a store without tables, in one transaction.
pub(crate) fn create_all<S: Alter>(conn: &mut Connection<S>) -> Result<(), Error>
    requires { conn.old.in_transaction ≡ false }
    ensures made { DiskKept S.Store conn.new → OnOk result (IsBlank (state S.Store conn.old)
        → HasTables S.Store conn.new no_tables) }
    ensures store { DiskKept S.Store conn.new → OnOther result (IsBlank (state S.Store conn.old)
        → StoreFailed S.Store conn.old conn.new) }
    ensures left { IsBlank (state S.Store conn.old) → MayLeave S.Store conn.old conn.new no_tables }
    ensures clean { WasClean S.Store conn.old conn.new }
{
    let mut tx = conn.transaction();
    create_tables(&mut tx)?;
    put_about(&mut tx)?;
    tx.commit()
}
