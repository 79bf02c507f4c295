//! What a command is answered.

use gm_refusals::CallRefusal;
use gm_state::{Intent, Reply, State};

/// The number of an accepted command and its reply, now or when its key came first; or why it is
/// refused.
#[derive(Clone, Copy, Debug, PartialEq, Eq)]
pub enum Answer {
    /// The command is accepted, under this number.
    Done(u64, Reply),
    /// The same command was accepted under this key before.
    Repeated(u64, Reply),
    /// Nothing was written.
    Refused(CallRefusal),
}

/// What a series of commands is answered, of which each follows the one before it.
#[derive(Clone, Copy, Debug, PartialEq, Eq)]
pub struct SeriesAnswer {
    /// What the first is answered. If that is done, the number is the first one's, and the reply
    /// the last one's.
    pub answer: Answer,
    /// How many are done.
    pub count: u64,
}

/// A command that was accepted before, under the key that was asked for.
#[derive(Debug, Drop)]
pub struct Kept {
    pub number: u64,
    /// Its words as they are kept, with each option that it has.
    pub words: String,
    pub reply: Reply,
}

/// What an accepted command has still to be carried out: its part of the records, its intents, and
/// the sectors that they lay.
#[derive(Drop)]
pub(crate) struct Work {
    pub(crate) part: State,
    pub(crate) intents: Vec<Intent>,
    pub(crate) bytes: Vec<[u8; 512]>,
}

/// What a command is answered, and those that are accepted with it, with what is still to be
/// carried out.
#[derive(Drop)]
pub(crate) enum Accepted {
    Done {
        /// The first one's.
        number: u64,
        /// How many commands were accepted.
        count: u64,
        /// The last one's.
        reply: Reply,
        work: Work,
    },
    Repeated(u64, Reply),
    Refused(CallRefusal),
}
