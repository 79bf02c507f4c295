//! The ways in to a bench: one command from the program's words, the lines of a batch, and requests
//! over HTTP.
//!
//! `single.rt` hands in one command (`do`), `batch.rt` those of an input, and `serving.rt` those
//! that come over connections; each says how the program ends then (`specs/Ends.antt`). What is
//! told of a command is in `gm_answers`. `lost_by.rt` finds what would be lost by a command, and
//! whether it is let go (`specs/LettingGo.antt`), `loss_sentences.rt` says it, and `insistence.rt`
//! asks whether it is carried out all the same (`specs/Insistence.antt`).
//! `guard.rt` holds back what would lose something where nobody can be asked
//! (`specs/Guarded.antt`): of a batch, in which `forced_line.rt` finds the lines that are carried
//! out all the same (`specs/Forced.antt`), and over HTTP (`guarded_service.rt`). `uses.rt` looks
//! whether something else uses the images.
#![tactic(auto)]

mod batch;
mod forced_line;
mod guard;
mod guarded_service;
mod insistence;
mod loss_sentences;
mod lost_by;
mod serving;
mod single;
mod uses;

pub use batch::{Lines, hand_in, hand_in_lines_of, hand_in_text};
pub use insistence::is_wanted;
pub use lost_by::losses_told;
pub use serving::serve;
pub use single::{One, hand_in_one};
pub use uses::are_free;
