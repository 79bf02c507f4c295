//! The command `check`, which says whether all is well. Nothing is opened or written: what is
//! pending stays pending.

ghost use Rattle.std.specs.Prelude.{IfOk};
ghost use Rattle.gm_process.specs.Statuses.{MayRefuse};
ghost use Rattle.gm_shelf.specs.Keeping.{ReadsOnly};
ghost use Rattle.gm_looking.specs.Checks.{AreAmiss, IsCheckOf};

use crate::checked::check_report;
use crate::read_only::{hold, images_at, records_at};
use gm_command_line::Checking;
use gm_faults::Fault;
use gm_process::{Meter, Patience, Place, Status, Streams};
use gm_registry_files::{Whole, length_of};
use gm_reports::Report;
use gm_shelf::Shelf;
use gm_state::State;
use gm_unlike::{Amiss, Checkup, amiss_shelf};
use std::io::Write;

// What is amiss of the images, which are only read.
fn amiss_of<H: Shelf, I, O, E: Write>(
    rt: &HostRuntime,
    checking: Checking,
    state: &State,
    shelf: &mut H,
    streams: &mut Streams<'_, I, O, E>,
) -> Result<Amiss, Fault>
    ensures amiss { H.honest shelf.old → IfOk result (λ amiss. AreAmiss checking state.now
        (H.size shelf.old) (H.view shelf.old).seen amiss.unlike.items amiss.flaws.items
        amiss.claims.items) }
    ensures looks { ReadsOnly H.Shelf shelf.old shelf.new }
{
    let style = streams
        .explaining
        .style(checking.is_quiet || !checking.compares);
    let mut meter = Meter::new(rt, streams.complaints, style);
    let amiss = amiss_shelf(rt.alloc(), shelf, state, checking.compares, &mut meter);
    meter.end();
    Ok(amiss?)
}

/// How the mirrors and their images stand, how much of the registry is used, whose file is so many
/// bytes long, and whether all is well.
pub fn check_shelf<H: Shelf, I, O, E: Write>(
    rt: &HostRuntime,
    checking: Checking,
    whole: &Whole,
    bytes: u64,
    shelf: &mut H,
    streams: &mut Streams<'_, I, O, E>,
) -> Result<Report, Fault>
    ensures told { H.honest shelf.old → IfOk result (IsCheckOf checking whole.now bytes
        (H.size shelf.old) (H.view shelf.old).seen) }
    ensures ends { IfOk result (λ report. MayRefuse report.status) }
    ensures looks { ReadsOnly H.Shelf shelf.old shelf.new }
{
    let records = &whole.loaded;
    let amiss = amiss_of(rt, checking, &records.state, shelf, streams)?;
    let found = Checkup {
        state: &records.state,
        unlike: &amiss.unlike,
        flaws: &amiss.flaws,
        claims: &amiss.claims,
        pending: records.intents.len(),
        commands: whole.accepted,
        bytes,
    };
    Ok(check_report(rt.alloc(), &found, checking.form)?)
}

/// Prints how the mirrors and their images stand, how much of the registry is used, and whether all
/// is well. A fault is explained, wherever the complaints go: a night's job has no terminal.
pub fn check_place<I, O: Write, E: Write>(
    rt: &HostRuntime,
    checking: Checking,
    place: Place<'_>,
    patience: Patience,
    streams: &mut Streams<'_, I, O, E>,
) -> Result<Status, Fault>
    ensures { IfOk result MayRefuse }
{
    streams.explaining.wanted = true;
    let _held = hold(rt, place.folder, patience, streams)?;
    let whole = records_at(rt, place.registry, patience, streams)?;
    let bytes = length_of(rt, place.registry)?;
    let mut shelf = images_at(rt, place, streams)?;
    let report = check_shelf(rt, checking, &whole, bytes, &mut shelf, streams);
    streams.explaining.failure = shelf.last_failure();
    let report = report?;
    streams.output.write_all(report.text.as_bytes())?;
    Ok(report.status)
}
