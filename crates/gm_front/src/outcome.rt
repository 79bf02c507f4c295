//! What the bench answers to a line, and the line that tells it.

ghost use Rattle.std.specs.Prelude.{◌≡◌, ◌||◌, [], IfOk};
ghost use Rattle.std.specs.String.{string_bytes};
ghost use Rattle.gm_metadata.specs.Images.{Image};
ghost use Rattle.gm_state.specs.World.{World};
ghost use Rattle.gm_registry.specs.Registry.{DiskKept};
ghost use Rattle.gm_bench.specs.Benches.{progress_of, registry_of, shelf_of};
ghost use Rattle.gm_bench.specs.Calls.{Keep};
ghost use Rattle.gm_bench.specs.declared.phase.Progress.TheVariants.{Failed};
ghost use Rattle.gm_bench.specs.Phases.{TakesCommands};
ghost use Rattle.gm_bench.specs.Recovering.{IsAt};
ghost use Rattle.gm_bench.specs.Running.{answer_of};
ghost use Rattle.gm_front.specs.Closing.{KeepsClosed, outcome_fault};
ghost use Rattle.gm_front.specs.Told.{done_line, numbered, shown_answer};
ghost use Rattle.gm_front.specs.Losses.{loss_line};
ghost use Rattle.gm_front.specs.Outcomes.{ComesTo, is_refused, progress_after, text_of};
ghost use Rattle.gm_lines.specs.Asked.{asked_of};

use gm_bench::{Answer, Bench, BenchFault, LossRefusal, Watch};
use gm_lines::{Request, shown};
use gm_shelf::Shelf;
use gm_state::Reply;
use sqlite::Alter;
use std::alloc::{AllocError, Global};

/// What a line comes to.
#[derive(Clone, Copy)]
pub enum Outcome<'a> {
    /// Nothing was asked.
    Nothing,
    /// It was no command, under its key as answers show it.
    Wrong(&'a str),
    /// The bench answered the command under this key.
    Answered(&'a str, Answer),
    /// The bench failed at it.
    Failed(&'a str, BenchFault),
}

impl<'a> Outcome<'a> {
    /// Whether the line is refused.
    pub fn is_refused(&self) -> bool
        ensures { result ≡ is_refused self.now }
    {
        match *self {
            Outcome::Wrong(_) | Outcome::Answered(_, Answer::Refused(_)) => true,
            _ => false,
        }
    }

    /// Whether it or something before it is refused.
    pub(crate) fn is_refused_after(&self, refused: bool) -> bool
        ensures { result ≡ (refused || is_refused self.now) }
    {
        refused || self.is_refused()
    }

    /// The answer line, with its line feed; nothing if nothing was asked.
    pub fn text(&self, alloc: Global) -> Result<String, AllocError>
        ensures { IfOk result (λ text. string_bytes text ≡ text_of self.now) }
    {
        match *self {
            Outcome::Nothing => Ok(String::new(alloc)),
            Outcome::Wrong(key) => numbered(alloc, key, "refused", 1),
            Outcome::Answered(key, answer) => answer_text(alloc, shown(key), answer),
            Outcome::Failed(key, fault) => {
                numbered(alloc, shown(key), "fault", u64::from(fault.number()))
            }
        }
    }
}

// A key, a word and a number.
fn numbered(alloc: Global, key: &str, word: &str, number: u64) -> Result<String, AllocError>
    ensures { IfOk result (λ text. string_bytes text ≡ numbered key.now word.now number) }
{
    let mut text = String::new(alloc);
    writeln!(text, "{key} {word} {number}")?;
    Ok(text)
}

// The line that tells that a command was done.
fn done_text(alloc: Global, key: &str, number: u64, reply: Reply) -> Result<String, AllocError>
    ensures { IfOk result (λ text. string_bytes text ≡ done_line key.now number reply) }
{
    match reply {
        Reply::Plain => numbered(alloc, key, "ok", number),
        Reply::Copied { held, total } => {
            let mut text = String::new(alloc);
            writeln!(text, "{key} ok {number} copied {held} of {total}")?;
            Ok(text)
        }
    }
}

// The line that tells an answer under a key that is shown so.
fn answer_text(alloc: Global, key: &str, answer: Answer) -> Result<String, AllocError>
    ensures { IfOk result (λ text. string_bytes text ≡ shown_answer key.now (answer_of answer)) }
{
    match answer {
        Answer::Done(number, reply) => done_text(alloc, key, number, reply),
        Answer::Repeated(number, _) => numbered(alloc, key, "repeated", number),
        Answer::Refused(why) => numbered(alloc, key, "refused", u64::from(why.number())),
    }
}

/// The line that tells under a key what a loss is answered with which a bench is opened, or why it
/// is refused. It has the form of a batch's answers.
pub fn loss_text(
    alloc: Global,
    key: &str,
    loss: Result<Answer, LossRefusal>,
) -> Result<String, AllocError>
    ensures { IfOk result (λ text. string_bytes text ≡ loss_line key.now loss) }
{
    match loss {
        Ok(answer) => answer_text(alloc, shown(key), answer),
        Err(why) => numbered(alloc, shown(key), "refused", u64::from(why.number())),
    }
}

/// Asks the bench what a line asks, in phase Ready or Failed. The watch is told how far data are
/// compared, which `adopt` does.
pub fn ask<'a, S: Alter, H: Shelf, W: Watch>(
    alloc: Global,
    bench: &mut Bench<S, H>,
    request: &Request<'a>,
    watch: &mut W,
) -> Outcome<'a>
    requires { TakesCommands (progress_of bench.old) }
    ensures comes { H.honest (shelf_of bench.old) → DiskKept S.Store (registry_of bench.new)
        → (away : Image) (u : World)
        → IsAt S.Store H.Shelf (registry_of bench.old) (shelf_of bench.old) away [] [] u u
        → ComesTo S.Store H.Shelf (registry_of bench.old) (registry_of bench.new)
        (shelf_of bench.old) (shelf_of bench.new) away u (asked_of request.now) result }
    ensures progress { progress_of bench.new ≡ progress_after (progress_of bench.old) result }
    ensures closes { KeepsClosed bench.old bench.new (outcome_fault result) }
    ensures keep { Keep S.Store H.Shelf (registry_of bench.old) (registry_of bench.new)
        (shelf_of bench.old) (shelf_of bench.new) }
{
    match *request {
        Request::Nothing => Outcome::Nothing,
        Request::Wrong(key) => Outcome::Wrong(key),
        Request::Call(key, ref command) => match bench.run_watched(alloc, key, command, watch) {
            Ok(answer) => Outcome::Answered(key, answer),
            Err(fault) => Outcome::Failed(key, fault),
        },
    }
}
