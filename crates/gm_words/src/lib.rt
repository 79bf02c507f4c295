//! What gmbench says, and the words that it is told: the texts that tell of mirrors and of sectors,
//! and the words of commands.
//!
//! `status.rt` tells in a few lines how the mirrors stand, `listing.rt` all that is known of them,
//! `tasted.rt` what images tell by themselves, and `dump.rt` what a sector says. `lines.rt` has
//! what the lines are made of. What each text says stands in `specs/` as it is read, line by line.
//! `clap_table.rt` says which words there are, `command_words.rt` reads a command from them, with
//! `sector_digits.rt` for the bytes of a patch, and `specs/Spelling.antt` says which words spell
//! which; `complaint.rt` what is wrong with words that spell none; `laws.rt` says that the words of
//! every command spell it. Nothing here knows of a registry, a shelf or a bench.
#![tactic(auto)]

mod clap_table;
mod command_words;
mod complaint;
mod dump;
mod laws;
mod lines;
mod listing;
mod sector_digits;
mod status;
mod tasted;

pub use command_words::{WordsFault, read_words};
pub use complaint::words_complaint;
pub use dump::dump_text;
pub use laws::canonical_words;
pub use listing::list_text;
pub use status::status_text;
pub use tasted::tasting_text;
