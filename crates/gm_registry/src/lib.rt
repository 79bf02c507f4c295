//! The registry: six tables of SQLite that hold the records of a state, the intents that are
//! pending, the bytes that they lay, and the commands that were accepted.
//!
//! Begin with `registry.rt`, the calls, and `specs/Registry.antt`, the words that their contracts
//! say; then `specs/Changes.antt`, what a command makes of the tables. What the rows of a table say
//! stands in `gm_rows`.
#![tactic(auto)]

mod accept;
mod carry_over;
mod command_numbers;
mod commands;
mod components;
mod components_by_key;
mod create;
mod edition;
mod intents;
mod laws;
mod load;
mod mirrors;
mod named;
mod open_store;
mod part;
mod patches;
mod records;
mod registry;
mod replies;
mod whole_tables;

pub use gm_rows::{Loaded, StoreFault};
pub use laws::{change_holds, one_reading, tables_are_saved};
pub use named::named_images;
pub use part::Part;
pub use registry::{OpenFault, Registry};
