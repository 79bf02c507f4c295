//! What gmbench says, as JSON: how the mirrors stand, what is known of them, what a last sector
//! says, what is answered to a command, what images show that were looked at, what in their folder
//! is no image, and what a check found.
//!
//! Each text is compact, with the keys of every object in byte order, and is the text that the
//! library `serde_json` gives to a value. `specs/` says which value, key by key, as it is read:
//! `Mirrors` of `mirrors.rt`, `Sectors` of `sectors.rt`, `Answers` of `answers.rt`, `Audits` of
//! `audits.rt`, `Checks` of `checks.rt`, `Tastings` of `tastings.rt`, by the words of `Fields`.
//! `Renewals` of `renewals.rt` is what a renewed registry comes to.
//! `mirrors.rt` and `answers.rt` have what requests over HTTP are answered; what the program's own
//! commands print for programs is in `shown.rt` (`Shown`) and `keyed.rt` (`Keyed`).
//! Nothing here knows of a registry, a bench or a request, and of a shelf only what an entry is
//! that it passes over, and how an image stands.
#![tactic(auto)]

mod answers;
mod audits;
mod checks;
mod history;
mod keyed;
mod mirrors;
mod renewals;
mod sectors;
mod shown;
mod tastings;
mod text;

pub use answers::{done_json, error_json, fault_json, refused_json, repeated_json};
pub use audits::{audit_json, scrub_json};
pub use checks::check_json;
pub use history::{history_closing, history_opening, kept_json, pieces_make_history};
pub use keyed::{
    Acceptance, keyed_done_json, keyed_fault_json, keyed_refused_json, keyed_repeated_json,
    not_done_json, recovered_json, recovered_without_json, withheld_json,
};
pub use mirrors::{mirror_json, status_json};
pub use renewals::{finished_json, not_renewed_json, renewed_json};
pub use sectors::{decode_json, metadata_json};
pub use shown::{held_json, shown_json};
pub use tastings::tasting_json;
