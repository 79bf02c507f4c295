//! What the tests of the bench share: its calls as a test makes them, and what a last sector is
//! expected to say (`calls.rt`).
//!
//! Only tests call these. They go over any store and shelf and have no clause, so that the proof of
//! a test carries neither what those in memory are made of nor the state of each call. The expected
//! values are worked out by hand.
#![tactic(auto)]

mod calls;

pub use calls::{
    Asked, IN_SYNC, INSERT, LABEL, NO_FLAGS, SYNCHRONIZING, is_over, is_stopped, metadata, must_be,
    must_be_left, must_hold, must_keep_data, must_say, number, of_two, open, runs, try_accept,
    try_accepted, try_apply, try_audit, try_kept, try_last, try_open, try_run, try_scrub,
    try_series, try_settle, try_settle_waiting, try_unlike, try_view,
};
