//! The command `renew`, which puts a new registry in the place of one that is nearly full, with the
//! same mirrors. The old one stays beside it.
//!
//! `renewing.rt` does it. `hindrances.rt` says why it isn't begun. `carried.rt` adopts the mirrors
//! at the new registry: each has to come out as it was registered. `names.rt` has the names of the
//! files, and `exchange.rt` puts one in the place of the other: at every moment a whole registry
//! has the name. `sayings.rt` says what became of it.
#![tactic(auto)]

mod carried;
mod exchange;
mod hindrances;
mod names;
mod renewing;
mod sayings;

pub use carried::{Carried, Difference, carry_over};
pub use renewing::renew;
