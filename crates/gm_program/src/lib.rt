//! All that the program does, over any streams: words in, lines and an exit status out. The
//! process that hands it the real streams is `gmbench`; it links what is proved here, so that a
//! check of this crate needn't.
//!
//! `over_streams.rt` is all of it, for the jobs that `gm_command_line` reads from words and from
//! the environment. What is done at a bench, by `bench_command.rt`, is done in the folder and with
//! the registry that `place.rt` opens and closes (`specs/Ends.antt` says how it ends), after
//! `before_opening.rt` has looked at the images that pending writes name, by `gm_pending` and
//! `gm_in_use`; `recover.rt` has the command `recover`. The other commands are in crates of their
//! own: `gm_dump`, `gm_looking`, `gm_filling`, `gm_handing_in`, `gm_by_itself`, `gm_replacing`,
//! `gm_mending`, `gm_writing`, `gm_renewing` and `gm_recalling`.
#![tactic(auto)]

mod before_opening;
mod bench_command;
mod over_streams;
mod place;
mod recover;

pub use gm_faults::Fault;
pub use gm_process::{Explaining, Legible, Status, Streams};
pub use over_streams::program;
