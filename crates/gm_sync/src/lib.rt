//! Fills components by itself: it hands in `advance` for whatever is SYNCHRONIZING, under keys of
//! its own, until nothing is left.
//!
//! It hands them in by series of up to 64 stretches. Each series is one commit, carried out by one
//! copy, and progress is told once a series. After a stop at most the series that was running is
//! missing, and then all of it; what was filled before stays.
//!
//! `scope.rt` says which components are meant, and `audit.rt` which of their mirrors are passed
//! over (`passed_over.rt`), because an image isn't as it is registered. The others' are due
//! (`due.rt`), and `fill.rt` fills them; `audited.rt` does both. `specs/Scopes.antt` says what is
//! left to be filled, `specs/Series.antt` what a series comes to and under which keys,
//! `specs/Filling.antt` what a call leaves of a bench, `specs/Faults.antt` what a fault leaves, and
//! `laws.rt` that a sync is a part of a schedule.
#![tactic(auto)]

mod audit;
mod audited;
mod due;
mod fill;
mod laws;
mod passed_over;
mod scope;
mod synced;

pub use audited::sync;
pub use fill::Progress;
pub use laws::whole_sync_law;
pub use passed_over::PassedOver;
pub use scope::Scope;
pub use synced::{Ending, Synced};
