//! The records that a registry holds, without what is pending and what was accepted.

ghost use Rattle.gm_registry.specs.Tells.{LoadsState};

use crate::registry::Registry;
use crate::whole_tables::rows_of;
use gm_rows::{StoreFault, Table, state_of_rows};
use gm_state::State;
use sqlite::{Alter, Connection};
use std::alloc::Global;

/// Reads the tables of mirrors and of components.
fn state_on<S: Alter>(alloc: Global, conn: &mut Connection<S>) -> Result<State, StoreFault>
    ensures { LoadsState S.Store conn.old conn.new result }
{
    let mirrors = rows_of(conn, Table::Mirrors)?;
    let components = rows_of(conn, Table::Components)?;
    state_of_rows(alloc, &mirrors, &components)
}

impl<S: Alter> Registry<S> {
    /// All mirrors and components. It reads their two tables alone. `Unreadable` exactly if
    /// those aren't a state's, though the other tables may be unreadable too; `Memory`, `Store` as
    /// of any call.
    pub fn state(&mut self, alloc: Global) -> Result<State, StoreFault>
        ensures { LoadsState S.Store self.old self.new result }
    {
        state_on(alloc, &mut self.conn)
    }
}
