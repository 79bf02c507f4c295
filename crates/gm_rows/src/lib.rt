//! The rows of a registry's six tables: what they say of mirrors, components, intents, commands and
//! bytes to be laid, and how records are written into them. No connection is opened here.
//!
//! Begin with `schema.rt`, the texts that make the tables, and `specs/Tables.antt`, what a store
//! holds as five tables. `read_column.rt` and `write_column.rt` have the values of one column,
//! `read_record.rt` reads a record from a row, and `shown.rt` the records of many. `fetched.rt` is
//! what the queries of whole tables show, `command_numbers.rt` how the commands are counted,
//! `said_state.rt` which state all that says, if any;
//! `specs/ReadableTables.antt` says which tables are readable. `fault.rt` has the faults of a
//! store.
#![tactic(auto)]

mod command_numbers;
mod fault;
mod fetched;
mod read_column;
mod read_record;
mod said_state;
mod schema;
mod shown;
mod write_column;

pub use command_numbers::{CommandNumber, CommandNumbers};
pub use fault::{StoreFault, readable};
pub use fetched::{Fetched, Table};
pub use read_column::{
    bytes_at, is_empty_at, is_number_at, is_text_at, label_at, text_at, u32_at, u64_at,
};
pub use said_state::{Loaded, is_about, judge, state_of_rows};
pub use schema::{ABOUT, COMMANDS, COMPONENTS, INTENTS, MIRRORS, PATCHES};
pub use shown::{Shown, read_all};
pub use write_column::{balance_number, bytes_in, disk_number, mirror_number, truth_number};
