//! The tables as the store shows them.

ghost use Rattle.std.specs.Prelude.{IfOk};
ghost use Rattle.gm_rows.specs.Queries.{IsNumbered, IsShown, IsInOrder, AreShown};
ghost use Rattle.gm_registry.specs.Registry.{DiskKept, seen, IsOurs};
ghost use Rattle.gm_registry.specs.Tells.{Queries};
ghost use Rattle.gm_registry.specs.Reads.{IsOurSchema};

use crate::command_numbers::fetch_numbers;
use gm_rows::{Fetched, StoreFault, Table};
use sqlite::{Alter, Connection, Row};

/// All rows of a table.
pub(crate) fn rows_of<S: Alter>(
    conn: &mut Connection<S>,
    table: Table,
) -> Result<Vec<Row>, StoreFault>
    ensures queries { Queries S.Store conn.old conn.new IsOurSchema result
        (λ rows. IsShown (seen S.Store conn.old) table rows.items) }
    ensures in_order { IsNumbered table → DiskKept S.Store conn.new
        → IfOk result (λ rows. IsOurs S.Store conn.old → IsInOrder rows.items) }
{
    match conn.query_all(table.query(), &[]) {
        Ok(rows) => Ok(rows),
        Err(error) => Err(StoreFault::from(error)),
    }
}

/// Reads all tables, but of the commands their numbers alone.
pub(crate) fn fetch<S: Alter>(conn: &mut Connection<S>) -> Result<Fetched, StoreFault>
    ensures { Queries S.Store conn.old conn.new IsOurSchema result
        (AreShown (seen S.Store conn.old)) }
{
    let about = rows_of(conn, Table::About)?;
    let mirrors = rows_of(conn, Table::Mirrors)?;
    let components = rows_of(conn, Table::Components)?;
    let intents = rows_of(conn, Table::Intents)?;
    let commands = fetch_numbers(conn)?;
    let patches = rows_of(conn, Table::Patches)?;
    Ok(Fetched {
        about,
        mirrors,
        components,
        intents,
        commands,
        patches,
    })
}
