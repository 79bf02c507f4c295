//! The command `replace`.

ghost use Rattle.std.specs.Prelude.{◌≡◌, IfOk, OnOk};
ghost use Rattle.gm_bench.specs.Benches.{progress_of};
ghost use Rattle.gm_bench.specs.Phases.{TakesCommands};
ghost use Rattle.gm_process.specs.Statuses.{MayRefuse};

use crate::commands::hand_in_step;
use crate::filled::fill_new;
use crate::keys::{KeyRefused, left_of};
use crate::plan::{Plan, plan_of};
use crate::questions::checks_left;
use crate::sayings::{
    Refused, say_no_room, say_not_done, say_refused, say_removed_first, say_unfilled,
};
use crate::stopped::Stopped;
use crate::way::{Going, way_of};
use gm_bench::Bench;
use gm_by_itself::{first_key, following_key};
use gm_command_line::Replacing;
use gm_commands::{MAX_COMMANDS, is_key};
use gm_faults::Fault;
use gm_process::{Status, Streams};
use gm_refusals::CallRefusal;
use gm_shelf::Shelf;
use gm_ways::{Act, Step, Stop, Way, gives_up_first, stop_of};
use sqlite::Alter;
use std::alloc::{AllocError, Global};
use std::io::{BufRead, Write};

// The number of the last command that a replacement may take.
const LAST: usize = 3;

// Takes a step: hands in its command, or fills the new image.
fn take_step<S: Alter, H: Shelf, I: BufRead, O: Write, E: Write>(
    rt: &HostRuntime,
    asked: &Replacing<'_>,
    first: &str,
    step: Step,
    bench: &mut Bench<S, H>,
    streams: &mut Streams<'_, I, O, E>,
) -> Result<(), Stopped>
    requires { TakesCommands (progress_of bench.old) }
    ensures { OnOk result (TakesCommands (progress_of bench.new)) }
{
    match step {
        Step::HandIn { act, number } => hand_in_step(rt, asked, first, act, number, bench, streams),
        Step::Fill => fill_new(rt, asked, bench, streams),
    }
}

// Takes the steps in their order, up to one that is refused.
fn go<S: Alter, H: Shelf, I: BufRead, O: Write, E: Write>(
    rt: &HostRuntime,
    asked: &Replacing<'_>,
    first: &str,
    steps: &[Step],
    bench: &mut Bench<S, H>,
    streams: &mut Streams<'_, I, O, E>,
) -> Result<(), Stopped>
    requires { TakesCommands (progress_of bench.old) }
    ensures { OnOk result (TakesCommands (progress_of bench.new)) }
{
    for step in steps {
        take_step(rt, asked, first, *step, bench, streams)?;
    }
    Ok(())
}

// Whether a key is so long that none follows from it.
fn is_too_long(alloc: Global, first: &str) -> Result<bool, AllocError> {
    let last = following_key(alloc, first, LAST)?;
    Ok(is_key(first) && !is_key(last.as_str()))
}

// Why nothing is done, whatever the mirror has.
fn obstacle(
    alloc: Global,
    replacing: &Replacing<'_>,
    first: &str,
) -> Result<Option<&'static str>, AllocError> {
    if replacing.old == replacing.new {
        return Ok(Some("OLD and NEW are the same image"));
    }
    if is_too_long(alloc, first)? {
        return Ok(Some("a key has 32 characters at most, and this one gets .2 and .3 after it"));
    }
    Ok(None)
}

// Tells that a command is refused. If that is the insertion with which it would begin, it is handed
// in all the same, and answered by itself. Else nothing is handed in.
fn refuse<S: Alter, H: Shelf, I: BufRead, O: Write, E: Write>(
    rt: &HostRuntime,
    replacing: &Replacing<'_>,
    first: &str,
    refused: Refused<'_>,
    bench: &mut Bench<S, H>,
    streams: &mut Streams<'_, I, O, E>,
) -> Stopped
    requires { TakesCommands (progress_of bench.old) }
{
    let Refused { act, number, .. } = refused;
    let told = if act == Act::Insert && number == 1 {
        hand_in_step(rt, replacing, first, act, number, bench, streams)
    } else {
        say_refused(rt, replacing, first, refused, streams)
    };
    match told {
        Ok(()) => Stopped::Refused,
        Err(stopped) => stopped,
    }
}

// Ends it at a step that would be refused. A filling that is refused takes nothing away, and ends
// it by itself, unless the old image is given up first.
fn refuse_at<S: Alter, H: Shelf, I: BufRead, O: Write, E: Write>(
    rt: &HostRuntime,
    replacing: &Replacing<'_>,
    first: &str,
    plan: &Plan,
    stop: Stop<'_>,
    bench: &mut Bench<S, H>,
    streams: &mut Streams<'_, I, O, E>,
) -> Result<(), Stopped>
    requires { TakesCommands (progress_of bench.old) }
    ensures { OnOk result (progress_of bench.new ≡ progress_of bench.old) }
{
    match stop.step {
        Step::HandIn { act, number } => {
            let refused = Refused {
                act,
                number,
                did: plan.did,
                why: CallRefusal::ByRules(stop.why),
                state: Some(stop.state),
            };
            Err(refuse(rt, replacing, first, refused, bench, streams))
        }
        Step::Fill => {
            if !gives_up_first(&plan.steps) {
                return Ok(());
            }
            say_unfilled(rt.alloc(), replacing, first, streams)?;
            Err(Stopped::Refused)
        }
    }
}

// Ends it if the registry takes fewer commands than it needs.
fn need_room<S: Alter, H: Shelf, I, O: Write, E: Write>(
    alloc: Global,
    first: &str,
    needed: u64,
    bench: &mut Bench<S, H>,
    streams: &mut Streams<'_, I, O, E>,
) -> Result<(), Stopped>
    ensures { OnOk result (progress_of bench.new ≡ progress_of bench.old) }
{
    let room = u64::from(MAX_COMMANDS).saturating_sub(bench.accepted()?);
    if needed <= room {
        return Ok(());
    }
    say_no_room(alloc, first, needed, room, streams)?;
    Err(Stopped::Refused)
}

// The steps that are left, and what they come to. If the key of one is refused, it ends here.
fn plan_left<S: Alter, H: Shelf, I: BufRead, O: Write, E: Write>(
    rt: &HostRuntime,
    replacing: &Replacing<'_>,
    first: &str,
    going: Going,
    bench: &mut Bench<S, H>,
    streams: &mut Streams<'_, I, O, E>,
) -> Result<Plan, Stopped>
    requires { TakesCommands (progress_of bench.old) }
    ensures { OnOk result (progress_of bench.new ≡ progress_of bench.old) }
{
    let left = left_of(rt.alloc(), replacing, first, going, bench)?;
    if let Some(KeyRefused { act, number, why }) = left.refused {
        let refused = Refused {
            act,
            number,
            did: 0,
            why,
            state: None,
        };
        return Err(refuse(rt, replacing, first, refused, bench, streams));
    }
    plan_of(rt, replacing, left.steps, bench, streams)
}

// Does what is left of a replacement whose first command has this key, if all of that can be done.
fn replace_under<S: Alter, H: Shelf, I: BufRead, O: Write, E: Write>(
    rt: &HostRuntime,
    replacing: &Replacing<'_>,
    first: &str,
    bench: &mut Bench<S, H>,
    streams: &mut Streams<'_, I, O, E>,
) -> Result<(), Stopped>
    requires { TakesCommands (progress_of bench.old) }
{
    let alloc = rt.alloc();
    if let Some(why) = obstacle(alloc, replacing, first)? {
        say_not_done(first, why, streams)?;
        return Err(Stopped::Refused);
    }
    let going = way_of(alloc, replacing, first, bench, streams)?;
    let plan = plan_left(rt, replacing, first, going, bench, streams)?;
    if let Some(stop) = stop_of(&plan.judged, &plan.steps) {
        refuse_at(rt, replacing, first, &plan, stop, bench, streams)?;
    }
    need_room(alloc, first, plan.judged.commands, bench, streams)?;
    let Some(checks) = checks_left(rt, replacing, first, going, &plan, bench, streams)? else {
        return Err(Stopped::Refused);
    };
    if going.way == Way::RemoveFirst && gives_up_first(&plan.steps) {
        say_removed_first(streams.complaints, replacing);
    }
    let asked = Replacing {
        checks,
        ..*replacing
    };
    go(rt, &asked, first, going.way.steps(), bench, streams)
}

/// Puts an image in the place of another, or goes on with that, and prints the answers of the
/// commands that it takes. The old one is removed only when the new one is ACTIVE, unless the
/// mirror has no room for both. Nothing is handed in if one of the commands would be refused, or if
/// what they take away isn't wanted. It is refused also if the new one can't be filled.
pub fn replace<S: Alter, H: Shelf, I: BufRead, O: Write, E: Write>(
    rt: &HostRuntime,
    replacing: &Replacing<'_>,
    bench: &mut Bench<S, H>,
    streams: &mut Streams<'_, I, O, E>,
) -> Result<Status, Fault>
    requires { TakesCommands (progress_of bench.old) }
    ensures { IfOk result MayRefuse }
{
    let first = first_key(rt.alloc(), replacing.key, bench)?;
    match replace_under(rt, replacing, first.as_str(), bench, streams) {
        Ok(()) => Ok(Status::Done),
        Err(Stopped::Refused) => Ok(Status::Refused),
        Err(Stopped::Fault(fault)) => Err(fault),
    }
}
