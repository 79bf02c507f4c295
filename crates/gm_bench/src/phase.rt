//! How far a bench is with a command.

ghost use Rattle.std.specs.Prelude.{◌≡◌, ◌≢◌, Option};
ghost use Rattle.gm_bench.specs.Phases.{TakesNext, phase_of, progress_after, series_answer_of, waiting_of};

use crate::answer::{Accepted, Answer, SeriesAnswer, Work};

/// What a bench may be asked next.
#[derive(Clone, Copy, Debug, PartialEq, Eq)]
pub enum Phase {
    /// Nothing is pending: `accept`, or `run`.
    Ready,
    /// A command was accepted: `apply`.
    Pending,
    /// It is carried out on the images: `settle`, or `accept` of the next.
    Applied,
    /// A fault closed the bench: it is opened again.
    Failed,
}

/// The same, with the work of the command.
#[derive(Drop)]
pub(crate) enum Progress {
    Ready,
    Pending(Work),
    Applied(Work),
    Failed,
}

/// What a command that is accepted settles as well.
#[derive(Clone, Copy, Debug, PartialEq, Eq)]
pub(crate) enum Waiting {
    Nothing,
    /// The last command, which was carried out.
    Done,
}

impl Progress {
    /// What the next command settles, in phase Ready or Applied.
    pub(crate) fn waiting(&self) -> Option<Waiting>
        ensures some { (w : Waiting) → result ≡ Option.Some w
            → (w ≡ waiting_of self.now) × (self.now ≢ Progress.Failed) }
        ensures none { result ≡ Option.None → TakesNext self.now → self.now ≡ Progress.Failed }
    {
        match self {
            Progress::Ready => Some(Waiting::Nothing),
            Progress::Applied(_) => Some(Waiting::Done),
            _ => None,
        }
    }

    pub(crate) fn phase(&self) -> Phase
        ensures { result ≡ phase_of self.now }
    {
        match self {
            Progress::Ready => Phase::Ready,
            Progress::Pending(_) => Phase::Pending,
            Progress::Applied(_) => Phase::Applied,
            Progress::Failed => Phase::Failed,
        }
    }
}

impl Accepted {
    /// The answer, and how far a bench is then that was so far before.
    pub(crate) fn tell(self, before: Progress) -> (SeriesAnswer, Progress)
        ensures { (result.0 ≡ series_answer_of self) × (result.1 ≡ progress_after before self) }
    {
        let (answer, count, progress) = match self {
            Accepted::Done {
                number,
                count,
                reply,
                work,
            } => (Answer::Done(number, reply), count, Progress::Pending(work)),
            Accepted::Repeated(number, reply) => (Answer::Repeated(number, reply), 0, before),
            Accepted::Refused(refusal) => (Answer::Refused(refusal), 0, before),
        };
        (SeriesAnswer { answer, count }, progress)
    }
}
