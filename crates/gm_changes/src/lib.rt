//! What a command makes of the records if nothing refuses it: the records to put and to drop,
//! what is to be written, and the reply.
//!
//! Begin with `change.rt`, the answer, and `specs/After.antt`, what each command makes of the
//! records. `decision.rt` decides on a command, by the least refusal or its change; each command
//! has a file of its own, and `members.rt` what several of them share. `stretch.rt` goes on with an
//! advance, under further keys. `changed_state.rt` makes the change.
#![tactic(auto)]

mod activate;
mod adopt;
mod advance;
mod change;
mod changed_state;
mod clear;
mod configure;
mod deactivate;
mod decision;
mod destroy;
mod forget;
mod insert;
mod label;
mod lost;
mod members;
mod patch;
mod rebuild;
mod remove;
mod stretch;

pub use change::{Change, Further};
pub use changed_state::changed_by;
pub use decision::{decide, decide_part};
