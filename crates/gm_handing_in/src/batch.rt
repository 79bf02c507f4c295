//! The command `batch`, which hands the commands of an input in to a bench.

ghost use Rattle.std.specs.Prelude.{◌≡◌, length, vec_len, IfOk};
ghost use Rattle.gm_bench.specs.Benches.{progress_of};
ghost use Rattle.gm_bench.specs.Phases.{TakesCommands};
ghost use Rattle.gm_process.specs.Statuses.{MayRefuse};
ghost use Rattle.gm_handing_in.specs.Ends.{AnswersText, fault_of_front, status_of_end};

use crate::forced_line::{ForcedLine, read_forced};
use crate::guard::{Ground, Weighed, ask_weighed};
use gm_answers::{Explainer, not_done_in};
use gm_bench::{Bench, Unwatched};
use gm_command_line::Form;
use gm_faults::Fault;
use gm_front::{
    BatchEnd, FrontFault, Guarded, Listener, Outcome, ask_guarded, heard_batch, withheld_text,
};
use gm_lines::{Line, MAX_LINE, next_line, pieces, request_of};
use gm_process::{Explaining, Status, Streams};
use gm_shelf::Shelf;
use sqlite::Alter;
use std::alloc::{AllocError, Global};
use std::io::{BufRead, Write};
use std::str;

// What is told of a batch whose memory, input or output failed.
fn fault_of_front(fault: FrontFault) -> Fault
    ensures { result ≡ fault_of_front fault }
{
    match fault {
        FrontFault::Memory => Fault::MEMORY,
        FrontFault::Read | FrontFault::Write => Fault::InputOrOutput,
    }
}

// How the program ends by the end of its batch.
fn status_of_end(end: Result<BatchEnd, FrontFault>) -> Result<Status, Fault>
    ensures value { result ≡ status_of_end end }
    ensures ends { IfOk result MayRefuse }
{
    match end {
        Ok(BatchEnd::Ended { refused: false }) => Ok(Status::Done),
        Ok(BatchEnd::Ended { refused: true }) => Ok(Status::Refused),
        Ok(BatchEnd::Stopped(fault)) => Err(Fault::Bench(fault)),
        Err(fault) => Err(fault_of_front(fault)),
    }
}

/// Hands in each line of the input, and prints its answer before the next is read.
pub fn hand_in<S: Alter, H: Shelf, I: BufRead, O: Write, E: Write>(
    rt: &HostRuntime,
    bench: &mut Bench<S, H>,
    streams: &mut Streams<'_, I, O, E>,
) -> Result<Status, Fault>
    requires { TakesCommands (progress_of bench.old) }
    ensures { IfOk result MayRefuse }
{
    let mut explainer = Explainer::new(rt, streams.complaints, &streams.explaining);
    let alloc = rt.alloc();
    let (input, output) = (&mut *streams.input, &mut *streams.output);
    status_of_end(heard_batch(alloc, input, output, bench, &mut explainer))
}

/// Hands in each line of a text, as a batch does that has the text for its input.
pub fn hand_in_text<S: Alter, H: Shelf, O: Write, E: Write>(
    rt: &HostRuntime,
    text: &str,
    bench: &mut Bench<S, H>,
    output: &mut O,
    complaints: &mut E,
    explaining: &Explaining,
) -> Result<Status, Fault>
    requires { TakesCommands (progress_of bench.old) }
    ensures answers { AnswersText S.Store H.Shelf text.now
        (O.contents output.old) (O.contents output.new) bench.old bench.new result }
    ensures ends { IfOk result MayRefuse }
    ensures phase { TakesCommands (progress_of bench.new) }
{
    let mut explainer = Explainer::new(rt, complaints, explaining);
    let mut input = text.as_bytes();
    status_of_end(heard_batch(rt.alloc(), &mut input, output, bench, &mut explainer))
}

// How a command is handed in that would lose something.
const FORCED_ALL_THE_SAME: &str = "--force after the key does it anyway";

// How a batch goes on after a line.
#[derive(Clone, Copy, Debug, PartialEq, Eq)]
enum Told {
    Done,
    Refused,
    // images stand in the way of its command, or something would be lost by it, and it wasn't
    // handed in
    Withheld,
}

// What is told of a line by how the program would end after it.
fn told_by(status: Status) -> Told {
    match status {
        Status::Done => Told::Done,
        _ => Told::Refused,
    }
}

// Answers one line that was found, before the next is read. One that is too long is refused without
// the bench.
fn hand_in_line<S: Alter, H: Shelf, O: Write, E: Write>(
    alloc: Global,
    line: Option<&[u8]>,
    output: &mut O,
    bench: &mut Bench<S, H>,
    explainer: &mut Explainer<'_, E>,
) -> Result<Told, Fault>
    requires { TakesCommands (progress_of bench.old) }
    ensures { TakesCommands (progress_of bench.new) }
{
    if let Some(mut line) = line {
        let end = heard_batch(alloc, &mut line, output, bench, explainer);
        return Ok(told_by(status_of_end(end)?));
    }
    let outcome = Outcome::Wrong("?");
    output.write_all(outcome.text(alloc)?.as_bytes())?;
    output.flush()?;
    explainer.answered(None, &outcome);
    Ok(Told::Refused)
}

// Tells what a line came to.
fn tell<O: Write, E: Write>(
    alloc: Global,
    line: &[u8],
    outcome: &Outcome<'_>,
    output: &mut O,
    explainer: &mut Explainer<'_, E>,
) -> Result<Told, Fault> {
    output.write_all(outcome.text(alloc)?.as_bytes())?;
    output.flush()?;
    explainer.answered(Some(line), outcome);
    match *outcome {
        Outcome::Failed(_, fault) => Err(Fault::Bench(fault)),
        _ if outcome.is_refused() => Ok(Told::Refused),
        _ => Ok(Told::Done),
    }
}

// Tells what a line came to whose command is handed in only if no image stands in its way.
fn tell_guarded<O: Write, E: Write>(
    alloc: Global,
    line: &[u8],
    guarded: &Guarded<'_>,
    all_the_same: &str,
    output: &mut O,
    explainer: &mut Explainer<'_, E>,
) -> Result<Told, Fault> {
    match guarded {
        Guarded::Through(outcome) => tell(alloc, line, outcome, output, explainer),
        Guarded::Unlooked(key, fault) => {
            let outcome = Outcome::Failed(key, *fault);
            tell(alloc, line, &outcome, output, explainer)
        }
        Guarded::Withheld(key, list) => {
            output.write_all(withheld_text(alloc, key, list)?.as_bytes())?;
            output.flush()?;
            explainer.explain_withheld(key, list, all_the_same);
            Ok(Told::Withheld)
        }
    }
}

// Answers a line whose command is handed in only if no image stands in its way.
fn hand_in_guarded<S: Alter, H: Shelf, O: Write, E: Write>(
    alloc: Global,
    text: &str,
    output: &mut O,
    bench: &mut Bench<S, H>,
    explainer: &mut Explainer<'_, E>,
) -> Result<Told, Fault>
    requires { TakesCommands (progress_of bench.old) }
    ensures { TakesCommands (progress_of bench.new) }
{
    let request = request_of(alloc, &pieces(alloc, text)?)?;
    let guarded = ask_guarded(alloc, bench, &request, &mut Unwatched);
    let all_the_same = "without --audit it is done anyway";
    tell_guarded(
        alloc,
        text.as_bytes(),
        &guarded,
        all_the_same,
        output,
        explainer,
    )
}

// The line of which a refusal is explained: a forced one without the word that forces it.
fn explained_line(alloc: Global, text: &str, line: &ForcedLine<'_>) -> Result<String, AllocError> {
    if line.forced {
        line.pieces.join(alloc, " ")
    } else {
        String::from_str(alloc, text)
    }
}

// Answers a line whose command is handed in only if no image stands in its way and, unless it is
// forced, nothing would be lost by it.
fn hand_in_weighed<S: Alter, H: Shelf, O: Write, E: Write>(
    ground: Ground<'_>,
    text: &str,
    output: &mut O,
    bench: &mut Bench<S, H>,
    explainer: &mut Explainer<'_, E>,
) -> Result<Told, Fault>
    requires { TakesCommands (progress_of bench.old) }
    ensures { TakesCommands (progress_of bench.new) }
{
    let alloc = ground.rt.alloc();
    let line = read_forced(alloc, text)?;
    match ask_weighed(ground, bench, &line.request, line.forced)? {
        Weighed::Losing(key, sentences) => {
            output.write_all(not_done_in(alloc, Form::Text, key)?.as_bytes())?;
            output.flush()?;
            explainer.tell_losing(key, &sentences, FORCED_ALL_THE_SAME);
            Ok(Told::Withheld)
        }
        Weighed::Passed(guarded) => {
            let line = explained_line(alloc, text, &line)?;
            let all_the_same = "without --guarded it is done anyway";
            tell_guarded(
                alloc,
                line.as_bytes(),
                &guarded,
                all_the_same,
                output,
                explainer,
            )
        }
    }
}

/// How the lines of a batch are handed in.
#[derive(Clone, Copy)]
pub struct Lines {
    /// Whether a command is handed in only if no image stands in its way; else the batch ends.
    pub audits: bool,
    /// Whether it is audited, and handed in only if nothing would be lost by it, or it is forced;
    /// else the batch ends.
    pub guards: bool,
    /// Whether it ends at the first line that is refused.
    pub stops: bool,
}

// The text of a line, if it is to be looked at before it is handed in. What isn't UTF-8 is no
// command.
fn looked_at(line: Option<&[u8]>, lines: Lines) -> Option<&str> {
    if !lines.audits && !lines.guards {
        return None;
    }
    str::from_utf8(line?).ok()
}

// How the program ends if no line ends it before.
fn status_of(refused: bool) -> Status
    ensures { MayRefuse result }
{
    if refused {
        Status::Refused
    } else {
        Status::Done
    }
}

// So many zeros, as room for a line.
fn zeros(alloc: Global, count: usize) -> Result<Vec<u8>, AllocError>
    ensures { IfOk result (λ room. vec_len room ≡ count) }
{
    vec![in alloc; 0u8; count]
}

// Answers lines of the input one by one, with room for a line.
fn hand_in_lines<S: Alter, H: Shelf, I: BufRead, O: Write, E: Write>(
    ground: Ground<'_>,
    input: &mut I,
    output: &mut O,
    bench: &mut Bench<S, H>,
    explainer: &mut Explainer<'_, E>,
    lines: Lines,
    room: &mut [u8],
) -> Result<Status, Fault>
    requires phase { TakesCommands (progress_of bench.old) }
    requires room { length room.old ≡ 131072 }
    ensures { IfOk result MayRefuse }
{
    let alloc = ground.rt.alloc();
    let mut refused = false;
    for _ in 0..u64::MAX {
        let line = match next_line(input, room)? {
            Line::End => return Ok(status_of(refused)),
            Line::Long => None,
            Line::Whole(count) => room.get(..count),
        };
        let told = match looked_at(line, lines) {
            Some(text) if lines.guards => {
                hand_in_weighed(ground, text, output, bench, explainer)?
            }
            Some(text) => hand_in_guarded(alloc, text, output, bench, explainer)?,
            None => hand_in_line(alloc, line, output, bench, explainer)?,
        };
        if told == Told::Withheld || (told == Told::Refused && lines.stops) {
            return Ok(Status::Refused);
        }
        refused |= told == Told::Refused;
    }
    Ok(status_of(refused))
}

// Answers lines of the input one by one, over the images of this folder.
fn hand_in_over<S: Alter, H: Shelf, I: BufRead, O: Write, E: Write>(
    rt: &HostRuntime,
    folder: &str,
    input: &mut I,
    output: &mut O,
    bench: &mut Bench<S, H>,
    explainer: &mut Explainer<'_, E>,
    lines: Lines,
) -> Result<Status, Fault>
    requires { TakesCommands (progress_of bench.old) }
    ensures { IfOk result MayRefuse }
{
    let mut room = zeros(rt.alloc(), MAX_LINE)?;
    let room = room.as_mut_slice();
    let ground = Ground { rt, folder };
    hand_in_lines(ground, input, output, bench, explainer, lines, room)
}

/// Hands in the lines of the input one by one, and ends early if a line is one that ends it: what
/// follows that is neither read nor handed in.
pub fn hand_in_lines_of<S: Alter, H: Shelf, I: BufRead, O: Write, E: Write>(
    rt: &HostRuntime,
    lines: Lines,
    bench: &mut Bench<S, H>,
    streams: &mut Streams<'_, I, O, E>,
) -> Result<Status, Fault>
    requires { TakesCommands (progress_of bench.old) }
    ensures { IfOk result MayRefuse }
{
    let folder = String::from_str(rt.alloc(), streams.explaining.folder.as_str())?;
    let mut explainer = Explainer::new(rt, streams.complaints, &streams.explaining);
    let (input, output) = (&mut *streams.input, &mut *streams.output);
    hand_in_over(
        rt,
        folder.as_str(),
        input,
        output,
        bench,
        &mut explainer,
        lines,
    )
}
