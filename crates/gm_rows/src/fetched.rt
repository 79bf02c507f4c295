//! What a registry's tables are read as: the rows that the queries of them whole show, and of the
//! commands their numbers alone.

ghost use Rattle.std.specs.Prelude.{◌≡◌};
ghost use Rattle.gm_rows.specs.Queries.{query_text};

use crate::command_numbers::CommandNumbers;
use sqlite::Row;

/// The tables of a registry that are read whole.
#[derive(Clone, Copy, Debug, PartialEq, Eq)]
pub enum Table {
    About,
    Mirrors,
    Components,
    Intents,
    Patches,
}

impl Table {
    /// The query that shows all its rows: of intents by their numbers, else in any order.
    pub fn query(self) -> &'static str
        ensures { result.now ≡ query_text self }
    {
        match self {
            Table::About => "SELECT one, schema_no FROM about",
            Table::Mirrors => {
                "SELECT name, mid, total, genid, syncid, slice, balance, mediasize, mflags FROM mirrors"
            }
            Table::Components => {
                "SELECT prov, mirror, did, syncid, priority, sync_offset, dflags, hard, provsize FROM components"
            }
            Table::Intents => {
                "SELECT ord, kind, prov, source, first_sector, end_sector FROM intents ORDER BY ord"
            }
            Table::Patches => "SELECT one, bytes FROM patches",
        }
    }
}

/// The rows of the tables that are read whole, and the numbers of the commands.
#[derive(Debug, Drop)]
pub struct Fetched {
    pub about: Vec<Row>,
    pub mirrors: Vec<Row>,
    pub components: Vec<Row>,
    pub intents: Vec<Row>,
    pub commands: CommandNumbers,
    pub patches: Vec<Row>,
}
