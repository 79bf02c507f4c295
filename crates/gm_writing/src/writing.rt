//! The command itself.

ghost use Rattle.std.specs.Prelude.{◌≤◌, ◌<◌, ◌-◌, ◌^◌, IfOk, OnOk};
ghost use Rattle.gm_bench.specs.Benches.{progress_of};
ghost use Rattle.gm_bench.specs.Phases.{TakesCommands};
ghost use Rattle.gm_process.specs.Statuses.{MayRefuse};
ghost use Rattle.gm_handing_in.specs.Ends.{AnswersText};
ghost use Rattle.gm_writing.specs.Handed.{HandsIn};
ghost use Rattle.gm_writing.specs.Patches.{lines_of};

use crate::obstacle::{Obstacle, say_kept};
use crate::patches::Patches;
use crate::source::{named, read_source};
use crate::standing::standing_of;
use gm_answers::say_done;
use gm_bench::Bench;
use gm_by_itself::first_key;
use gm_command_line::{Checks, Form, Writing};
use gm_commands::{MAX_COMMANDS, is_key};
use gm_faults::Fault;
use gm_handing_in::{One, hand_in_one, hand_in_text};
use gm_lines::{pieces, shown};
use gm_metadata::Label;
use gm_process::{Explaining, Meter, Status, Streams, Style};
use gm_reports::{Report, no_mirror, refused};
use gm_shelf::Shelf;
use gm_state::State;
use sqlite::Alter;
use std::alloc::Global;
use std::io::{self, BufRead, Write};

// How many commands are handed in at once, each of which is settled by the next: about 1 MiB of
// lines.
const AT_ONCE: usize = 16;

// More bytes than these are written only if that is forced: 16 MiB.
const MOST_UNFORCED: u64 = 16 * 1024 * 1024;

// Nothing is looked at before a command that is refused.
const UNCHECKED: Checks = Checks {
    images: false,
    losses: false,
    uses: false,
};

// How many sectors the mirror has, and how many bytes from the first sector on that is written.
#[derive(Clone, Copy)]
struct Room {
    sectors: u32,
    bytes: u64,
}

// What is in the way of these data, whatever the registry has.
fn obstacle_of(patches: &Patches<'_>, room: Room, last_key: &str) -> Option<Obstacle> {
    let bytes = patches.length();
    if bytes == 0 {
        return Some(Obstacle::Empty);
    }
    if bytes > room.bytes {
        return Some(Obstacle::TooLong {
            mirror: patches.mirror,
            sectors: room.sectors,
            room: room.bytes,
        });
    }
    if bytes % 512 != 0 {
        return Some(Obstacle::Uneven { bytes });
    }
    if !is_key(patches.first_key) || !is_key(last_key) {
        return Some(Obstacle::NoKey);
    }
    None
}

// What is in the way of them in the registry: too few commands are left, or it would grow too much.
fn obstacle_in_registry(
    patches: &Patches<'_>,
    new: u64,
    accepted: u64,
    checks: Checks,
) -> Option<Obstacle> {
    let room = u64::from(MAX_COMMANDS).saturating_sub(accepted);
    if new > room {
        return Some(Obstacle::NoRoom { needed: new, room });
    }
    if checks.losses && patches.length() > MOST_UNFORCED {
        return Some(Obstacle::Large {
            commands: patches.count(),
            kept: patches.kept(),
        });
    }
    None
}

// That nothing is done, and why.
fn not_done<I, O: Write, E: Write>(
    key: &str,
    obstacle: Obstacle,
    source: &str,
    streams: &mut Streams<'_, I, O, E>,
) -> io::Result<Status>
    ensures { IfOk result MayRefuse }
{
    let key = shown(key);
    writeln!(streams.output, "{key} not done")?;
    streams.output.flush()?;
    let _ = obstacle.say(streams.complaints, key, source);
    Ok(Status::Refused)
}

// Hands in one of the commands as `do` does.
fn hand_in_alone<S: Alter, H: Shelf, I: BufRead, O: Write, E: Write>(
    rt: &HostRuntime,
    patches: &Patches<'_>,
    index: usize,
    checks: Checks,
    bench: &mut Bench<S, H>,
    streams: &mut Streams<'_, I, O, E>,
) -> Result<Status, Fault>
    requires { TakesCommands (progress_of bench.old) }
    ensures ends { IfOk result MayRefuse }
    ensures phase { OnOk result (TakesCommands (progress_of bench.new)) }
{
    let alloc = rt.alloc();
    let key = patches.key(alloc, index)?;
    let text = patches.words(alloc, index)?;
    let words = pieces(alloc, text.as_str())?;
    let one = One {
        key: key.as_str(),
        words: &words,
        checks,
        form: Form::Text,
    };
    hand_in_one(rt, one, bench, streams)
}

// Some of the commands, counted from 0, and how it is told how far they are.
#[derive(Clone, Copy)]
struct Part {
    begin: usize,
    end: usize,
    style: Style,
}

// Says which of these commands was done last, and as which number, if one was.
fn say_last_done<S: Alter, H: Shelf, E: Write>(
    alloc: Global,
    patches: &Patches<'_>,
    part: Part,
    bench: &mut Bench<S, H>,
    complaints: &mut E,
) -> Result<(), Fault> {
    let mut last = None;
    for index in part.begin..part.end {
        let key = patches.key(alloc, index)?;
        if let Some(kept) = bench.kept(key.as_str())? {
            last = Some((key, kept.number));
        }
    }
    if let Some((key, number)) = last {
        say_done(complaints, key.as_str(), number);
    }
    Ok(())
}

// Hands in some commands at once. If standard output can't take their answers, it says which was
// done last.
fn hand_in_at_once<S: Alter, H: Shelf, O: Write, E: Write>(
    rt: &HostRuntime,
    patches: &Patches<'_>,
    part: Part,
    bench: &mut Bench<S, H>,
    output: &mut O,
    complaints: &mut E,
    explaining: &Explaining,
) -> Result<Status, Fault>
    requires { TakesCommands (progress_of bench.old) }
    // The commands are answered in turn, as those of a batch that has their lines for its input.
    ensures answers { part.begin ≤ part.end → part.end < 2 ^ 32 → OnOk result (AnswersText
        S.Store H.Shelf (lines_of patches.now part.begin (part.end - part.begin))
        (O.contents output.old) (O.contents output.new) bench.old bench.new result) }
    ensures ends { IfOk result MayRefuse }
    ensures phase { OnOk result (TakesCommands (progress_of bench.new)) }
{
    let alloc = rt.alloc();
    let text = patches.lines(alloc, part.begin, part.end)?;
    match hand_in_text(rt, text.as_str(), bench, output, complaints, explaining) {
        Err(Fault::InputOrOutput) => {
            let _ = say_last_done(alloc, patches, part, bench, complaints);
            Err(Fault::InputOrOutput)
        }
        done => done,
    }
}

// Hands in a part of the commands, some at once, and ends if one of these is refused.
fn hand_in_several<S: Alter, H: Shelf, I, O: Write, E: Write>(
    rt: &HostRuntime,
    patches: &Patches<'_>,
    part: Part,
    bench: &mut Bench<S, H>,
    streams: &mut Streams<'_, I, O, E>,
) -> Result<Status, Fault>
    requires { TakesCommands (progress_of bench.old) }
    // Some of them are answered in turn; all, if none is refused.
    ensures answers { part.begin ≤ part.end → part.end < 2 ^ 32 → OnOk result (HandsIn
        S.Store H.Shelf patches.now part.begin part.end
        (O.contents streams.old.output.now) (O.contents streams.new.output.now)
        bench.old bench.new result) }
    ensures ends { IfOk result MayRefuse }
    ensures phase { OnOk result (TakesCommands (progress_of bench.new)) }
{
    let (output, explaining) = (&mut *streams.output, &streams.explaining);
    let mut meter = Meter::new(rt, streams.complaints, part.style);
    for turn in 0..part.end.saturating_sub(part.begin).div_ceil(AT_ONCE) {
        let from = part.begin.saturating_add(turn.saturating_mul(AT_ONCE));
        let to = from.saturating_add(AT_ONCE).min(part.end);
        let now = Part {
            begin: from,
            end: to,
            style: part.style,
        };
        // Each answer is a line of its own, so a bar is taken away before them.
        meter.end();
        let complaints = &mut *meter.complaints;
        let status = hand_in_at_once(rt, patches, now, bench, output, complaints, explaining)?;
        if status != Status::Done {
            return Ok(Status::Refused);
        }
        meter.show(patches.mirror, patches.sectors_of(to), patches.sectors());
    }
    meter.end();
    Ok(Status::Done)
}

// Hands in all: those that were accepted before, the first new one as `do` does, and the others.
fn hand_in_all<S: Alter, H: Shelf, I: BufRead, O: Write, E: Write>(
    rt: &HostRuntime,
    patches: &Patches<'_>,
    first_new: usize,
    writing: &Writing<'_>,
    bench: &mut Bench<S, H>,
    streams: &mut Streams<'_, I, O, E>,
) -> Result<Status, Fault>
    requires { TakesCommands (progress_of bench.old) }
    ensures ends { IfOk result MayRefuse }
    ensures phase { OnOk result (TakesCommands (progress_of bench.new)) }
{
    let count = patches.count();
    let before = Part {
        begin: 0,
        end: first_new,
        style: Style::Quiet,
    };
    if hand_in_several(rt, patches, before, bench, streams)? != Status::Done {
        return Ok(Status::Refused);
    }
    if first_new >= count {
        return Ok(Status::Done);
    }
    // Other sectors are lost by no patch.
    let checks = Checks {
        losses: false,
        ..writing.checks
    };
    if hand_in_alone(rt, patches, first_new, checks, bench, streams)? != Status::Done {
        return Ok(Status::Refused);
    }
    let after = Part {
        begin: first_new.saturating_add(1),
        end: count,
        style: streams.explaining.style(writing.is_quiet),
    };
    hand_in_several(rt, patches, after, bench, streams)
}

// Hands in the command under whose key another was accepted, which is refused, and says more.
fn refuse_other<S: Alter, H: Shelf, I: BufRead, O: Write, E: Write>(
    rt: &HostRuntime,
    patches: &Patches<'_>,
    other: usize,
    bench: &mut Bench<S, H>,
    streams: &mut Streams<'_, I, O, E>,
) -> Result<Status, Fault>
    requires { TakesCommands (progress_of bench.old) }
    ensures ends { IfOk result MayRefuse }
    ensures phase { OnOk result (TakesCommands (progress_of bench.new)) }
{
    hand_in_alone(rt, patches, other, UNCHECKED, bench, streams)?;
    let key = patches.key(rt.alloc(), other)?;
    let _ = writeln!(
        streams.complaints,
        "{key}: its data are others: give FILE and N as they were, or another --key"
    );
    Ok(Status::Refused)
}

// Says at a terminal how it goes on after a stop.
fn say_key<I, O, E: Write>(key: &str, streams: &mut Streams<'_, I, O, E>) {
    if streams.explaining.at_terminal {
        let _ = writeln!(
            streams.complaints,
            "{key}: after a stop the same words with --key {key} go on"
        );
    }
}

// Says what the data take, if that is more than one command.
fn say_needed<I, O, E: Write>(patches: &Patches<'_>, streams: &mut Streams<'_, I, O, E>) {
    let commands = patches.count();
    if commands > 1 {
        let key = patches.first_key;
        let _ = write!(streams.complaints, "{key}: ");
        let _ = say_kept(streams.complaints, commands, patches.kept());
    }
}

// Writes the data, if nothing is in the way of them.
fn write_patches<S: Alter, H: Shelf, I: BufRead, O: Write, E: Write>(
    rt: &HostRuntime,
    patches: &Patches<'_>,
    room: Room,
    writing: &Writing<'_>,
    bench: &mut Bench<S, H>,
    streams: &mut Streams<'_, I, O, E>,
) -> Result<Status, Fault>
    requires { TakesCommands (progress_of bench.old) }
    ensures ends { IfOk result MayRefuse }
    ensures phase { OnOk result (TakesCommands (progress_of bench.new)) }
{
    let alloc = rt.alloc();
    let key = patches.first_key;
    let source = named(writing.file);
    let last_key = patches.last_key(alloc)?;
    if let Some(obstacle) = obstacle_of(patches, room, last_key.as_str()) {
        return Ok(not_done(key, obstacle, source, streams)?);
    }
    let standing = standing_of(alloc, patches, bench)?;
    if let Some(other) = standing.other {
        return refuse_other(rt, patches, other, bench, streams);
    }
    let accepted = bench.accepted()?;
    let found = obstacle_in_registry(patches, standing.new, accepted, writing.checks);
    if let Some(obstacle) = found {
        return Ok(not_done(key, obstacle, source, streams)?);
    }
    say_key(key, streams);
    if standing.first_new == 0 && !writing.is_quiet {
        say_needed(patches, streams);
    }
    hand_in_all(rt, patches, standing.first_new, writing, bench, streams)
}

// How much room a mirror has for the data.
fn room_in(state: &State, name: Label, first: u32) -> Room {
    let sectors = match state.mirror(name) {
        Some(mirror) => mirror.data_sectors,
        None => 0,
    };
    Room {
        sectors,
        bytes: u64::from(sectors.saturating_sub(first)).saturating_mul(512),
    }
}

// Reads the data, and writes them into so much room.
fn write_into<S: Alter, H: Shelf, I: BufRead, O: Write, E: Write>(
    rt: &HostRuntime,
    room: Room,
    writing: &Writing<'_>,
    bench: &mut Bench<S, H>,
    streams: &mut Streams<'_, I, O, E>,
) -> Result<Status, Fault>
    requires { TakesCommands (progress_of bench.old) }
    ensures ends { IfOk result MayRefuse }
    ensures phase { OnOk result (TakesCommands (progress_of bench.new)) }
{
    let bytes = read_source(rt, writing.file, room.bytes.saturating_add(1), streams)?;
    let key = first_key(rt.alloc(), writing.key, bench)?;
    let patches = Patches {
        first_key: key.as_str(),
        mirror: writing.mirror,
        first: writing.first,
        bytes: bytes.as_slice(),
    };
    write_patches(rt, &patches, room, writing, bench, streams)
}

/// Writes data into a mirror, in commands of 64 sectors, and prints what each came to. Nothing is
/// handed in if the mirror isn't there, if the data don't fit it or the registry, or if one of
/// their keys has other data. A fault if the data can't be read.
pub fn write_data<S: Alter, H: Shelf, I: BufRead, O: Write, E: Write>(
    rt: &HostRuntime,
    writing: &Writing<'_>,
    bench: &mut Bench<S, H>,
    streams: &mut Streams<'_, I, O, E>,
) -> Result<Report, Fault>
    requires { TakesCommands (progress_of bench.old) }
    ensures ends { IfOk result (λ report. MayRefuse report.status) }
    ensures phase { OnOk result (TakesCommands (progress_of bench.new)) }
{
    let alloc = rt.alloc();
    let state = bench.view(alloc)?;
    if let Some(why) = no_mirror(&state, writing.mirror) {
        return Ok(refused(alloc, streams, why)?);
    }
    let room = room_in(&state, writing.mirror, writing.first);
    let status = write_into(rt, room, writing, bench, streams)?;
    Ok(Report {
        status,
        text: String::new(alloc),
    })
}
