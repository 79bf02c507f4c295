//! What is amiss of images, for whoever wants to mend them.
//!
//! `text.rt` tells which components' images aren't as they are registered: a line for each, and the
//! same in one line. `specs/Texts.antt` says the words. `unequal.rt` finds from which source data
//! differ, and which components hold equal data (`specs/Unequals.antt`); `flaws.rt` tells that
//! (`specs/Flaws.antt`). `claims.rt` finds images that say that they are components, and aren't
//! (`specs/Claims.antt`). `checkup.rt` looks at images and their data at once, and says whether all
//! is well: `specs/Checkups.antt`. `among.rt` finds one image of such a list.
#![tactic(auto)]

mod among;
mod checkup;
mod claims;
mod flaws;
mod text;
mod unequal;

pub use among::standing_among;
pub use checkup::{Amiss, Checkup, Renewal, amiss_shelf};
pub use claims::Claim;
pub use flaws::unequal_lines;
pub use text::{claim_lines, told_standing, unlike_lines, unlike_words};
pub use unequal::{Unequal, unequal_shelf};
