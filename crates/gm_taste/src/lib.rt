//! What images say by themselves: which mirrors the last sectors of providers tell of.
//!
//! Begin with `provider.rt` and `tasted.rt`, what goes in and what comes out, and
//! `specs/Tasted.antt`, what it is. Then `member_states.rt`, which looks at one provider;
//! `groups.rt` and `tasting.rt`, at all of them; and `sources.rt`, which names the member of a
//! group that its data are taken from.
#![tactic(auto)]

mod groups;
mod laws;
mod member_states;
mod provider;
mod sources;
mod tasted;
mod tasting;

pub use gm_metadata::same;
pub use groups::{Taken, member};
pub use laws::{one_tasting, reasons_tell};
pub use provider::Provider;
pub use sources::{first_of_two, has_sure_member, source_of};
pub use tasted::{Group, LeftOut, Member, MemberState, Reason, Tasted};
pub use tasting::{taken_by, taste};
