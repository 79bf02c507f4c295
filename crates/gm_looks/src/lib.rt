//! What is told of a shelf, by a state or by itself. It needs no registry and no bench, and writes
//! nothing.
//!
//! Begin with `standing.rt`, how an image can stand to what is registered; `specs/Standings.antt`
//! says when each of these comes. `standings.rt` finds it out, by what a last sector says
//! (`said.rt`). `unlike.rt` lists the components that aren't as registered, with how they stand
//! (`specs/Unlikes.antt`), `audit.rt` their names (`specs/Audits.antt`), and `scrub.rt` those that
//! hold other data than their mirror's source (`specs/Scrubs.antt`). `tasting.rt` tells what images
//! say without a state (`specs/Shown.antt`); `laws.rt` has what an audit and a tasting have to do
//! with each other. `text.rt` has a line for each pending intent, and `text_on.rt` the same with
//! how its images stand (`specs/Texts.antt`).
#![tactic(auto)]

mod audit;
mod laws;
mod said;
mod scrub;
mod standing;
mod standings;
mod tasting;
mod text;
mod text_on;
mod unlike;

pub use audit::audit_shelf;
pub use laws::clean_audit_law;
pub use scrub::{Flaw, Scrubbed, scrub_shelf};
pub use standing::Standing;
pub use standings::{standing_of_cleared, standing_of_component, standing_of_named};
pub use tasting::taste_shelf;
pub use text::pending_text;
pub use text_on::pending_text_on;
pub use unlike::{Meant, Unlike, unlike_shelf};
