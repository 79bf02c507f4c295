//! The rules of the commands: each that nothing refuses has a plan, whose intents lead every image
//! to the step of the abstract bench.
//!
//! `specs/Step.antt` says what the step of a world is, and what a plan is;
//! `specs/AbstractCalls.antt` what the abstract bench answers to calls. `laws.rt` says that every
//! command has a plan. When a command is refused stands in `gm_refusals`, and what it changes in
//! `gm_changes`; both can be taken from here.
#![tactic(auto)]

mod laws;

pub use gm_changes::{Change, changed_by, decide, decide_part};
pub use gm_refusals::{
    CallRefusal, Fact, Facts, Refusal, a_part_is_a_state, adopt_source, data_of, found_mids,
    is_called, needed, providers_of,
};
pub use laws::every_command_has_a_plan;
