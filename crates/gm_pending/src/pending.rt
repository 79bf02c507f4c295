//! What is pending, with all that tells what a stop can have left.

use crate::last_command::stopped_in;
use gm_rows::{StoreFault, Table, read_all, state_of_rows};
use gm_state::{Intent, State};
use gm_stopped::Stopped;
use sqlite::{Alter, Connection, Row};
use std::alloc::Global;

/// What is pending in a store.
#[derive(Drop)]
pub struct Pending {
    /// The state that is registered, in which all that is pending is done.
    pub state: State,
    /// In the order in which they are carried out.
    pub intents: Vec<Intent>,
    /// The command that was stopped.
    pub stopped: Stopped,
}

// All rows of a table.
fn rows_of<S: Alter>(conn: &mut Connection<S>, table: Table) -> Result<Vec<Row>, StoreFault> {
    Ok(conn.query_all(table.query(), &[])?)
}

/// What is pending in a store of either schema, which isn't opened as a registry yet. `Unreadable`
/// if its rows say no state, `Store` too if it has no such tables: then the opening tells why. The
/// store is only read.
pub fn pending_in<S: Alter>(
    alloc: Global,
    conn: &mut Connection<S>,
) -> Result<Pending, StoreFault> {
    let mirrors = rows_of(conn, Table::Mirrors)?;
    let components = rows_of(conn, Table::Components)?;
    let state = state_of_rows(alloc, &mirrors, &components)?;
    let intents: Vec<Intent> = read_all(alloc, &rows_of(conn, Table::Intents)?)?;
    let stopped = stopped_in(alloc, conn, &state, &intents)?;
    Ok(Pending {
        state,
        intents,
        stopped,
    })
}
