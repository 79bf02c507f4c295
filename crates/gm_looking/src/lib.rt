//! What is looked at and told: images without a registry, a registry without an opening, and a
//! bench whose images are held against its records or each other.
//!
//! `taste.rt` says what the images of a folder tell, `read_only.rt` has the commands that show a
//! registry as it stands (`specs/Looks.antt` says how they end), with `pending.rt` for what is
//! pending as JSON, and `comparing.rt` compares data.
//! `checking.rt` looks at all of it at once, `checked.rt` tells what was found
//! (`specs/Checks.antt`), and `laws.rt` what that says if all is well (`specs/AllWell.antt`).
//! `blocked.rt` says what waits for an image that fails, and `strange.rt` which images no stop leaves
//! as they are.
#![tactic(auto)]

mod blocked;
mod checked;
mod checking;
mod comparing;
mod laws;
mod pending;
mod read_only;
mod strange;
mod taste;

pub use blocked::way_on;
pub use checking::{check_place, check_shelf};
pub use comparing::scrub;
pub use laws::check_law;
pub use read_only::{complain_of_pending, look_at, show_pending, show_pending_at};
pub use strange::{Strange, strange_on, strange_way_on};
pub use taste::taste_folder;
