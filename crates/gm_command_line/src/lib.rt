//! The program's own words: which subcommands and options there are, what its help says of them,
//! and which job they ask for.
//!
//! `job.rt` has the jobs, and `settings.rt` what stands for options that are left out. `table.rt`
//! has the subcommands with the texts of `help.rt`, and `by_itself.rt` the commands that change
//! mirrors. Both list what each takes as data, of which `argument.rt` makes clap's table.
//! `reading.rt` has what words ask for, and `tip.rt` where a word belongs that is in a wrong place.
//! The lines of a batch are other words (`gm_words`).
#![tactic(auto)]

mod argument;
mod by_itself;
mod help;
mod job;
mod reading;
mod settings;
mod table;
mod tip;

pub use by_itself::{Unnumbered, is_command};
pub use job::{
    Asked, Checking, Checks, Comparing, Filling, Form, Job, Look, Manner, Mending, Recalling,
    Renewing, Replacing, Scope, Service, Single, Work, Writing,
};
pub use reading::{Handed, Reading, asked_of};
pub use settings::{EXISTING, EXPLAIN, REGISTRY, SHELF, Setting, Settings};
pub use tip::{Tip, tip_for};
