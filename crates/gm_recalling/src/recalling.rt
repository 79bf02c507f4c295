//! The commands that a registry has accepted, as it stands. Nothing is written to it, and what is
//! pending stays pending.

ghost use Rattle.std.specs.Prelude.{◌≡◌, IfOk};
ghost use Rattle.gm_process.specs.declared.status.Status.TheVariants.{Done};

use gm_command_line::Recalling;
use gm_history::HistoryFault;
use gm_process::{Patience, Status, Streams};
use gm_registry::StoreFault;
use gm_registry_files::{Obstacle, Untold, obstacle_to_reading, store_cause, tell_commands};
use std::io::Write;

// Why the commands aren't told.
#[derive(Clone, Copy)]
enum Hindrance {
    // The registry can't be taken: nothing is written yet.
    Closed(Obstacle),
    // It failed.
    Store(Obstacle),
    // The output failed.
    Output,
}

// A fault of a registry, and why it came, by a look at its files.
fn obstacle_of(rt: &HostRuntime, registry: &str, fault: StoreFault) -> Obstacle {
    Obstacle {
        fault,
        cause: store_cause(rt, registry),
    }
}

// Writes what is asked for of the commands that a registry accepted, and answers whether that is
// any.
fn tell_now<O: Write>(
    rt: &HostRuntime,
    registry: &str,
    asked: &Recalling,
    output: &mut O,
) -> Result<bool, Hindrance> {
    if let Some(found) = obstacle_to_reading(rt, registry) {
        return Err(Hindrance::Closed(found));
    }
    match tell_commands(rt, registry, asked, output) {
        Ok(told) => Ok(told),
        Err(Untold::Closed(fault)) => Err(Hindrance::Closed(obstacle_of(rt, registry, fault))),
        Err(Untold::Failed(HistoryFault::Store(fault))) => {
            Err(Hindrance::Store(obstacle_of(rt, registry, fault)))
        }
        Err(Untold::Failed(HistoryFault::Output)) => Err(Hindrance::Output),
    }
}

// The fault of a registry, after it was noted why it came.
fn noted<I, O, E>(
    rt: &HostRuntime,
    registry: &str,
    found: Obstacle,
    streams: &mut Streams<'_, I, O, E>,
) -> HistoryFault {
    let trouble = found
        .cause
        .and_then(|cause| cause.trouble(rt.alloc(), registry));
    streams.explaining.trouble = trouble;
    HistoryFault::Store(found.fault)
}

// The same as `tell_now`; a registry in use is tried again. Tells why it can't be read.
fn tell_at<I, O: Write, E>(
    rt: &HostRuntime,
    registry: &str,
    asked: &Recalling,
    patience: Patience,
    streams: &mut Streams<'_, I, O, E>,
) -> Result<bool, HistoryFault> {
    for _ in 0..u64::MAX {
        match tell_now(rt, registry, asked, streams.output) {
            Err(Hindrance::Closed(found)) if found.is_in_use() && patience.pauses(rt) => {}
            Err(Hindrance::Closed(found) | Hindrance::Store(found)) => {
                return Err(noted(rt, registry, found, streams));
            }
            Err(Hindrance::Output) => return Err(HistoryFault::Output),
            Ok(told) => return Ok(told),
        }
    }
    Err(HistoryFault::Store(StoreFault::Store))
}

/// Prints what is asked for of the commands that a registry has accepted. If no command names the
/// mirror that is asked for, the complaints say so.
pub fn show_history<I, O: Write, E: Write>(
    rt: &HostRuntime,
    registry: &str,
    asked: &Recalling,
    patience: Patience,
    streams: &mut Streams<'_, I, O, E>,
) -> Result<Status, HistoryFault>
    ensures { IfOk result (λ status. status ≡ Done) }
{
    let told = tell_at(rt, registry, asked, patience, streams)?;
    if let (false, Some(mirror)) = (told, asked.mirror) {
        // Like any complaint, it isn't missed if it can't be written.
        let _ = writeln!(streams.complaints, "no command names {mirror}");
    }
    Ok(Status::Done)
}
