//! What a registry holds, read whole.

ghost use Rattle.gm_registry.specs.Tells.{Loads};

use crate::registry::Registry;
use crate::whole_tables::fetch;
use gm_rows::{Loaded, StoreFault, judge};
use sqlite::{Alter, Connection};
use std::alloc::Global;

/// Reads all tables, of the commands their numbers alone, and tells what they hold.
pub(crate) fn load_on<S: Alter>(
    alloc: Global,
    conn: &mut Connection<S>,
) -> Result<Loaded, StoreFault>
    ensures { Loads S.Store conn.old conn.new result }
{
    let fetched = fetch(conn)?;
    judge(alloc, &fetched)
}

impl<S: Alter> Registry<S> {
    /// The state and what is pending. `Unreadable` exactly if the tables aren't those of a state
    /// with intents and bytes that are readable for it, or the commands, of which none but their
    /// numbers is read, don't count from 1 without gaps; `Memory`, `Store` as of any call.
    pub fn load(&mut self, alloc: Global) -> Result<Loaded, StoreFault>
        ensures { Loads S.Store self.old self.new result }
    {
        load_on(alloc, &mut self.conn)
    }
}
