//! The lines of a batch, before a bench is asked. `lines.rt` takes them from an input, `request.rt`
//! says what each asks, and `ahead.rt` reads the command of the next one, if the reader has it
//! ready: so whoever answers a line knows what follows, and nothing is read twice.
//! `specs/Input.antt` says what the lines are, `specs/Asked.antt` what they ask. The words of a
//! command are those of `gm_words`.
#![tactic(auto)]

mod ahead;
mod lines;
mod request;

pub use ahead::Ahead;
pub use lines::{Line, MAX_LINE, TakenLine, next_line, take_line};
pub use request::{Request, pieces, request_at, request_of, shown};
