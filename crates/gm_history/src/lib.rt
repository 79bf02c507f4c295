//! What a registry's commands come to as text: a line for each that was accepted, or one line of
//! JSON for all of them.
//!
//! Begin with `history.rt`, which tells it page by page. `page.rt` has one page, `accepted.rt`
//! reads a command by its number, and `named.rt` says which mirror its words name. `told.rt` has
//! the text of one: its words are as they were accepted, but a patch's data are cut. `fault.rt`
//! says why it isn't told.
//! Nothing here opens a registry, and nothing is written to one.
#![tactic(auto)]

mod accepted;
mod fault;
mod history;
mod named;
mod page;
mod told;

pub use fault::HistoryFault;
pub use history::tell_history;
