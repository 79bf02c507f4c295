//! The numbers by which the commands are counted, as the store shows them.

ghost use Rattle.gm_rows.specs.Queries.{IsNumberShown, AreNumbersShown};
ghost use Rattle.gm_registry.specs.Registry.{seen};
ghost use Rattle.gm_registry.specs.Tells.{Queries};
ghost use Rattle.gm_registry.specs.Reads.{IsOurSchema};

use gm_rows::{CommandNumber, CommandNumbers, StoreFault};
use sqlite::{Alter, Connection, Row};

/// The row that shows one of them, or none.
fn rows_with<S: Alter>(
    conn: &mut Connection<S>,
    number: CommandNumber,
) -> Result<Vec<Row>, StoreFault>
    ensures { Queries S.Store conn.old conn.new IsOurSchema result
        (λ rows. IsNumberShown (seen S.Store conn.old) number rows.items) }
{
    match conn.query_all(number.query(), &[]) {
        Ok(rows) => Ok(rows),
        Err(error) => Err(StoreFault::from(error)),
    }
}

/// Reads how many commands there are, and the least and the greatest of their numbers.
pub(crate) fn fetch_numbers<S: Alter>(
    conn: &mut Connection<S>,
) -> Result<CommandNumbers, StoreFault>
    ensures { Queries S.Store conn.old conn.new IsOurSchema result
        (AreNumbersShown (seen S.Store conn.old)) }
{
    let count = rows_with(conn, CommandNumber::Count)?;
    let least = rows_with(conn, CommandNumber::Least)?;
    let greatest = rows_with(conn, CommandNumber::Greatest)?;
    Ok(CommandNumbers {
        count,
        least,
        greatest,
    })
}
