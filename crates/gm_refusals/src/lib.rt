//! Why a command is refused: the least of the refusals that apply to it, by the records and what
//! the shelf says.
//!
//! Begin with `refusals.rt`, the refusals and their numbers, and `specs/Applies.antt`, when each
//! applies; `facts.rt` has what is known of providers. `predicates.rt` says what a command
//! names, and has a test for each refusal; `found_mirror.rt` says whether a mirror that is found on
//! images can be adopted. `needed_providers.rt` says which providers a command has to know of, and
//! `asked_mirrors.rt` which mirrors.
#![tactic(auto)]

mod asked_mirrors;
mod facts;
mod found_mirror;
mod needed_providers;
mod predicates;
mod refusals;

pub use asked_mirrors::{a_part_is_a_state, is_called};
pub use facts::{Fact, Facts};
pub use found_mirror::{adopt_source, data_of, found_mids, genid_of, syncid_of, taken};
pub use needed_providers::needed;
pub use predicates::{is_about, is_inactive, is_on_any, least_refusal, providers_of};
pub use refusals::{CallRefusal, Refusal};
