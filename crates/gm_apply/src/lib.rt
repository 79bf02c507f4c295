//! Carries out pending intents on a shelf, from whatever a crash left of them, so that data come
//! before claims.
//!
//! `redo.rt` has `apply`; `copy.rt` copies sectors, `patch.rt` lays bytes over them.
//! `specs/Redo.antt` says what is left of an image at the end and at every moment on the way,
//! `laws.rt` what follows of it, `readable.rt` what holds of intents that are readable.
//! `equal_data.rt` tells how many first sectors of two providers are equal, `differing_data.rt` how
//! many differ and which is the first of those; `watch.rt` is told how far either is.
#![tactic(auto)]

mod copy;
mod differing_data;
mod equal_data;
mod laws;
mod patch;
mod readable;
mod redo;
mod watch;

pub use differing_data::{Difference, differing_sectors};
pub use equal_data::equal_sectors;
pub use laws::{every_image_leads_on, true_claims_stay_true};
pub use readable::{
    one_sector_one_value, readable_intents_are_safe, readable_intents_lead_somewhere,
};
pub use redo::apply;
pub use watch::{Unwatched, Watch};
