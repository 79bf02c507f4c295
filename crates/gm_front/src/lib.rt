//! The two ways in: a batch, whose lines are each asked of a bench and answered before the next is
//! read, and a request over HTTP.
//!
//! `gm_lines` takes the lines of a batch and says what each asks. `outcome.rt` says what it comes
//! to and how that is told, `next.rt` asks it of a bench whose last command is perhaps still to be
//! settled, and `answer_lines.rt` answers them in turn; `specs/Batch.antt` says what all of it
//! comes to, and `laws.rt` that a batch is a part of a schedule of the bench. A listener
//! (`listener.rt`) hears of each line (`specs/Heard.antt`).
//! `outcome.rt` also has the line for a loss with which a bench is opened (`specs/Losses.antt`).
//! `guard.rt` holds a command back if images that it is about aren't as they are registered
//! (`specs/Guards.antt`).
//!
//! Of a request, which `gm_http` reads, `demand.rt` says what it demands of the bench, `finding.rt`
//! what that comes to and what is told of it, and `service.rt` serves it; `specs/Demands.antt` says
//! what is told in which world, `specs/Services.antt` what serving one owes, and `laws.rt` that it
//! too is a part of a schedule. `guarded_service.rt` serves one whose command may be held back
//! (`specs/GuardedServices.antt`), and `turned_back.rt` tells why one isn't put to the bench
//! (`specs/TurnedBack.antt`).
//!
//! The words of commands and the texts of mirrors are those of `gm_words`, and can be taken from
//! here.
#![tactic(auto)]

mod answer_lines;
mod demand;
mod finding;
mod guard;
mod guarded_service;
mod laws;
mod listener;
mod next;
mod outcome;
mod service;
mod turned_back;

pub use answer_lines::{BatchEnd, FrontFault, batch, heard_batch};
pub use gm_words::{WordsFault, dump_text, list_text, read_words, status_text};
pub use guard::{Guarded, ask_guarded, in_the_way, withheld_text};
pub use guarded_service::{respond_guarded, serve_request_guarded};
pub use laws::{served_request_law, unless_page_law, whole_batch_law};
pub use listener::Listener;
pub use outcome::{Outcome, ask, loss_text};
pub use service::{Response, Served, serve_one, serve_request, serve_request_unless_page};
pub use turned_back::{TurnedBack, turn_back};
