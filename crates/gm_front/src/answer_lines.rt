//! Batches: the lines of an input, each answered before the next is read.

ghost use Rattle.std.specs.Prelude.{◌≡◌, ◌≢◌, ◌⊎◌, ◌<◌, ◌≤◌, ℕ, List, Option, Err, [], IfSome, IfNone, IfOk, IfErr, OnOk, OnErr, length, option_map, take, vec_len, None};
ghost use Rattle.std.specs.Io.KnownBytes.{Appends, Keeps};
ghost use Rattle.gm_metadata.specs.Images.{Image};
ghost use Rattle.gm_state.specs.World.{World};
ghost use Rattle.gm_registry.specs.Registry.{DiskKept};
ghost use Rattle.gm_bench.specs.Benches.{progress_of, registry_of, shelf_of};
ghost use Rattle.gm_bench.specs.Calls.{Keep};
ghost use Rattle.gm_bench.specs.declared.phase.Progress.TheVariants.{Failed, Ready};
ghost use Rattle.gm_bench.specs.Phases.{TakesCommands, TakesNext};
ghost use Rattle.gm_bench.specs.Recovering.{IsAt};
ghost use Rattle.gm_front.specs.Batch.{AnswersBatch, AppendsFront, Batches, HandsIn, IsFarAfterLines, front_fault_number, unsettled_fault};
ghost use Rattle.gm_front.specs.Closing.{KeepsClosed, end_fault};
ghost use Rattle.gm_front.specs.Heard.{HearsBatch, handed_at};
ghost use Rattle.gm_front.specs.Outcomes.{text_of};
ghost use Rattle.gm_lines.specs.Input.{Fits};

use crate::listener::{Listener, NoListener};
use crate::next::ask_next;
use crate::outcome::Outcome;
use gm_bench::{Bench, BenchFault, Phase};
use gm_lines::{Ahead, Line, MAX_LINE, request_at, take_line};
use gm_shelf::Shelf;
use sqlite::Alter;
use std::alloc::{AllocError, Global};
use std::io::{BufRead, ErrorKind, Write};
use std::mem;

/// How a batch ended whose answers were all told.
#[derive(Clone, Copy, Debug, PartialEq, Eq)]
pub enum BatchEnd {
    /// The input ended.
    Ended { refused: bool },
    /// The bench failed at a line, and what follows that was not read.
    Stopped(BenchFault),
}

/// Why the answers weren't all told.
#[derive(Clone, Copy, Debug, PartialEq, Eq)]
pub enum FrontFault {
    /// Want of memory.
    Memory,
    /// The input failed.
    Read,
    /// The output failed.
    Write,
}

impl FrontFault {
    /// Its number, 1 to 3 (this project's own).
    pub fn number(self) -> u8
        ensures { result ≡ front_fault_number self }
    {
        match self {
            FrontFault::Memory => 1,
            FrontFault::Read => 2,
            FrontFault::Write => 3,
        }
    }
}

// Writes some of the bytes, unless there are none.
fn write_some<W: Write>(writer: &mut W, bytes: &[u8]) -> Option<usize>
    ensures some { IfSome result (λ n. (0 < n) × (n ≤ length bytes.now)
        × Appends (W.contents writer.old) (W.contents writer.new) (take n bytes.now)) }
    ensures none { IfNone result (Keeps (W.contents writer.old) (W.contents writer.new)) }
{
    for _ in 0..u64::MAX {
        match writer.write(bytes) {
            Ok(0) => return None,
            Ok(n) => return Some(n),
            Err(e) if e.kind() == ErrorKind::Interrupted => {}
            Err(_) => return None,
        }
    }
    None
}

/// Writes all of the bytes, or a beginning of them.
#[tactic(auto, using(crate::proofs::WrittenBytes::appendings))]
pub(crate) fn write_whole<W: Write>(writer: &mut W, bytes: &[u8]) -> Result<(), FrontFault>
    ensures ok { OnOk result (Appends (W.contents writer.old) (W.contents writer.new) bytes.now) }
    ensures front { OnErr result
        (AppendsFront (W.contents writer.old) (W.contents writer.new) bytes.now) }
    ensures fault { IfErr result (λ e. e ≡ FrontFault.Write) }
{
    let mut at = 0usize;
    while at < bytes.len() {
        let Some(n) = write_some(writer, &bytes[at..]) else {
            return Err(FrontFault::Write);
        };
        at += n;
    }
    Ok(())
}

// Tells what a line came to, so that the writer's other side has it.
fn tell<W: Write>(alloc: Global, writer: &mut W, outcome: &Outcome<'_>) -> Result<(), FrontFault>
    ensures ok { OnOk result
        (Appends (W.contents writer.old) (W.contents writer.new) (text_of outcome.now)) }
    ensures front { OnErr result
        (AppendsFront (W.contents writer.old) (W.contents writer.new) (text_of outcome.now)) }
    ensures fault { IfErr result (λ e. e ≡ FrontFault.Read → ⊥) }
{
    let Ok(text) = outcome.text(alloc) else {
        return Err(FrontFault::Memory);
    };
    write_whole(writer, text.as_bytes())?;
    match writer.flush() {
        Ok(()) => Ok(()),
        Err(_) => Err(FrontFault::Write),
    }
}

// The bytes of a line that was found; none if they are more than a buffer's.
fn bytes_of(line: &[u8], found: Line) -> Option<&[u8]>
    requires room { length line.now ≡ 131072 }
    requires fits { Fits found }
    ensures { option_map (λ bytes. bytes.now) result ≡ handed_at line.now found }
{
    match found {
        Line::End | Line::Long => None,
        Line::Whole(count) => Some(&line[..count]),
    }
}

/// Answers the lines of an input in turn, each asked of the bench before it is told, and told
/// before the next is read. A line that names no command is refused without the bench; one without
/// words isn't answered. Asks for a bench in phase Ready or Failed. `Stopped` if the bench
/// failed at a command, whose line is told. Fails if an answer couldn't be told or the input be
/// read: what the bench accepted stays accepted.
pub fn batch<R: BufRead, W: Write, S: Alter, H: Shelf>(
    alloc: Global,
    reader: &mut R,
    writer: &mut W,
    bench: &mut Bench<S, H>,
) -> Result<BatchEnd, FrontFault>
    requires { TakesCommands (progress_of bench.old) }
    ensures { AnswersBatch S.Store H.Shelf (R.remaining reader.old)
        (W.contents writer.old) (W.contents writer.new) bench.old bench.new result }
{
    heard_batch(alloc, reader, writer, bench, &mut NoListener)
}

// So many zeros, as room for a line.
fn zeros(alloc: Global, count: usize) -> Result<Vec<u8>, AllocError>
    ensures { IfOk result (λ room. vec_len room ≡ count) }
{
    vec![in alloc; 0u8; count]
}

// Answers the lines in turn, with a buffer for a line. The last command that was done may still be
// to be settled then.
fn answer_lines<R: BufRead, W: Write, S: Alter, H: Shelf, L: Listener>(
    alloc: Global,
    reader: &mut R,
    writer: &mut W,
    bench: &mut Bench<S, H>,
    listener: &mut L,
    line: &mut [u8],
) -> Result<BatchEnd, FrontFault>
    requires phase { TakesCommands (progress_of bench.old) }
    requires room { length line.old ≡ 131072 }
    ensures does { H.honest (shelf_of bench.old) → DiskKept S.Store (registry_of bench.new)
        → (away : Image) (u : World)
        → IsAt S.Store H.Shelf (registry_of bench.old) (shelf_of bench.old) away [] [] u u
        → HandsIn S.Store H.Shelf (progress_of bench.new) (R.remaining reader.old)
        (W.contents writer.old) (W.contents writer.new)
        (registry_of bench.new) (shelf_of bench.new) away u result }
    ensures heard { HearsBatch (R.remaining reader.old)
        (W.contents writer.old) (W.contents writer.new)
        (L.heard listener.old) (L.heard listener.new) result }
    ensures far { IsFarAfterLines (progress_of bench.old) (progress_of bench.new) result }
    ensures closes { KeepsClosed bench.old bench.new (end_fault result) }
    ensures keep { Keep S.Store H.Shelf (registry_of bench.old) (registry_of bench.new)
        (shelf_of bench.old) (shelf_of bench.new) }
{
    let mut refused = false;
    let mut next: Option<Ahead> = None;
    for _ in 0..u64::MAX {
        let Ok(taken) = take_line(Some(alloc), reader, line) else {
            return Err(FrontFault::Read);
        };
        let found = taken.found;
        if found == Line::End {
            return Ok(BatchEnd::Ended { refused });
        }
        let ahead = mem::replace(&mut next, taken.next);
        let Ok(request) = request_at(alloc, line, found, ahead) else {
            return Err(FrontFault::Memory);
        };
        let outcome = ask_next(alloc, bench, &request, next.is_some());
        if let Err(fault) = tell(alloc, writer, &outcome) {
            return Err(fault);
        }
        listener.answered(bytes_of(line, found), &outcome);
        if let Outcome::Failed(_, fault) = outcome {
            return Ok(BatchEnd::Stopped(fault));
        }
        refused = outcome.is_refused_after(refused);
    }
    Err(FrontFault::Read)
}

// How a batch ends whose last command couldn't be settled: the input had a command ready, and then
// hadn't, or the batch ended early anyhow.
fn unsettled(end: Result<BatchEnd, FrontFault>) -> FrontFault
    ensures { result ≡ unsettled_fault end }
{
    match end {
        Ok(_) => FrontFault::Read,
        Err(fault) => fault,
    }
}

// Settles the last command of a batch, if it is still to be settled.
fn settled<S: Alter, H: Shelf>(
    bench: &mut Bench<S, H>,
    end: Result<BatchEnd, FrontFault>,
) -> Result<BatchEnd, FrontFault>
    requires { TakesNext (progress_of bench.old) }
    ensures does { H.honest (shelf_of bench.old) → DiskKept S.Store (registry_of bench.new)
        → (input before now : Option (List ℕ)) (away : Image) (u : World)
        → HandsIn S.Store H.Shelf (progress_of bench.old) input before now
        (registry_of bench.old) (shelf_of bench.old) away u end
        → Batches S.Store H.Shelf input before now
        (registry_of bench.new) (shelf_of bench.new) away u result }
    ensures phase { TakesCommands (progress_of bench.new) }
    ensures ended { (result ≡ end) ⊎ (result ≡ Err (unsettled_fault end)) }
    ensures rested { OnOk result (progress_of bench.old ≢ Failed
        → progress_of bench.new ≡ Ready) }
    ensures closes { KeepsClosed bench.old bench.new None }
    ensures keep { Keep S.Store H.Shelf (registry_of bench.old) (registry_of bench.new)
        (shelf_of bench.old) (shelf_of bench.new) }
{
    match bench.phase() {
        Phase::Applied => match bench.settle() {
            Ok(()) => end,
            Err(_) => Err(unsettled(end)),
        },
        _ => end,
    }
}

/// A batch of which a listener hears, line by line. Beside what a batch owes, the listener hears
/// the lines in their order, and what each was told.
pub fn heard_batch<R: BufRead, W: Write, S: Alter, H: Shelf, L: Listener>(
    alloc: Global,
    reader: &mut R,
    writer: &mut W,
    bench: &mut Bench<S, H>,
    listener: &mut L,
) -> Result<BatchEnd, FrontFault>
    requires { TakesCommands (progress_of bench.old) }
    ensures answers { AnswersBatch S.Store H.Shelf (R.remaining reader.old)
        (W.contents writer.old) (W.contents writer.new) bench.old bench.new result }
    ensures heard { HearsBatch (R.remaining reader.old)
        (W.contents writer.old) (W.contents writer.new)
        (L.heard listener.old) (L.heard listener.new) result }
{
    let Ok(mut line) = zeros(alloc, MAX_LINE) else {
        return Err(FrontFault::Memory);
    };
    let end = answer_lines(alloc, reader, writer, bench, listener, line.as_mut_slice());
    settled(bench, end)
}
