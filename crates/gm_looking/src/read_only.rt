//! What is looked at without an opening: the command `pending`, and those that are to write
//! nothing. A registry is shown as it stands, and what is pending in it stays pending.

ghost use Rattle.std.specs.Prelude.{IfOk};
ghost use Rattle.gm_looks.specs.Texts.{pending_text};
ghost use Rattle.gm_reports.specs.Reports.{IsDone};
ghost use Rattle.gm_looking.specs.Looks.{MayShow};

use crate::checked::push_pending;
use crate::pending::{pending_as_json, pending_as_json_on};
use crate::strange::{strange_lines, strange_on};
use gm_command_line::{Form, Look};
use gm_faults::Fault;
use gm_looks::{audit_shelf, pending_text, pending_text_on};
use gm_process::{HeldFolder, Patience, Place, Status, Streams};
use gm_registry::{Loaded, StoreFault};
use gm_registry_files::{
    Obstacle, Whole, leave_out_registry, obstacle_to_reading, records_of, store_cause,
};
use gm_reports::{Report, audit_report, list_report, status_report};
use gm_shelf::{FileShelf, Shelf};
use gm_state::Intent;
use gm_stopped::Stopped;
use std::alloc::Global;
use std::io::Write;

// What is pending, without the images.
fn pending_report(alloc: Global, intents: &[Intent]) -> Result<Report, Fault>
    ensures { IfOk result (IsDone (pending_text intents.now)) }
{
    Ok(Report {
        status: Status::Done,
        text: pending_text(alloc, intents)?,
    })
}

// What is pending, how the images stand to that, and which of them no stop leaves so.
fn pending_report_on<H: Shelf>(
    alloc: Global,
    records: &Loaded,
    stopped: &Stopped,
    shelf: &mut H,
) -> Result<Report, Fault> {
    let mut text = pending_text_on(alloc, &records.state, &records.intents, shelf)?;
    let strange = strange_on(alloc, &records.state, &records.intents, stopped, shelf)?;
    text.push_str(&strange_lines(alloc, &strange)?)?;
    Ok(Report {
        status: Status::Done,
        text,
    })
}

// What is seen of the registry, or of the images beside it.
fn look_report<H: Shelf>(
    alloc: Global,
    look: Look,
    records: &Loaded,
    shelf: &mut H,
) -> Result<Report, Fault>
    ensures { IfOk result (λ report. MayShow look report.status) }
{
    match look {
        Look::Status(form) => Ok(status_report(alloc, &records.state, form)?),
        Look::List(form) => Ok(list_report(alloc, &records.state, form)?),
        Look::Audit(form) => {
            let names = audit_shelf(alloc, shelf, &records.state)?;
            Ok(audit_report(alloc, &names, form)?)
        }
    }
}

/// Holds a folder beside others that look at its images, and tells why it can't.
pub(crate) fn hold<I, O, E>(
    rt: &HostRuntime,
    folder: &str,
    patience: Patience,
    streams: &mut Streams<'_, I, O, E>,
) -> Result<HeldFolder, Fault> {
    let held = HeldFolder::share(rt, folder, patience);
    Ok(streams.explaining.heed(rt, folder, held)?)
}

// What a registry holds as it stands, or what is in the way.
fn records_now(rt: &HostRuntime, registry: &str) -> Result<Whole, Obstacle> {
    if let Some(found) = obstacle_to_reading(rt, registry) {
        return Err(found);
    }
    match records_of(rt, registry) {
        Ok(whole) => Ok(whole),
        Err(fault) => Err(Obstacle {
            fault,
            cause: store_cause(rt, registry),
        }),
    }
}

/// What a registry holds as it stands; one in use is tried again. Tells why it can't be read.
pub(crate) fn records_at<I, O, E>(
    rt: &HostRuntime,
    registry: &str,
    patience: Patience,
    streams: &mut Streams<'_, I, O, E>,
) -> Result<Whole, Fault> {
    let alloc = rt.alloc();
    for _ in 0..u64::MAX {
        match records_now(rt, registry) {
            Err(found) if found.is_in_use() && patience.pauses(rt) => {}
            Err(found) => {
                let trouble = found.cause.and_then(|cause| cause.trouble(alloc, registry));
                streams.explaining.trouble = trouble;
                return Err(Fault::from(found.fault));
            }
            Ok(whole) => return Ok(whole),
        }
    }
    Err(Fault::from(StoreFault::Store))
}

/// The images of a place, to be read alone.
pub(crate) fn images_at<I, O, E>(
    rt: &HostRuntime,
    place: Place<'_>,
    streams: &mut Streams<'_, I, O, E>,
) -> Result<FileShelf<HostRuntime>, Fault> {
    let opened = FileShelf::open(rt, place.folder);
    let names = streams.explaining.heed(rt, place.folder, opened)?.names()?;
    let mut shelf = FileShelf::look_at(rt, place.folder, &names)?;
    leave_out_registry(rt, place.registry, &mut shelf)?;
    Ok(shelf)
}

/// Prints what an opening of the registry would carry out.
pub fn show_pending<I, O: Write, E>(
    rt: &HostRuntime,
    registry: &str,
    form: Form,
    patience: Patience,
    streams: &mut Streams<'_, I, O, E>,
) -> Result<Status, Fault> {
    let records = records_at(rt, registry, patience, streams)?.loaded;
    let report = match form {
        Form::Text => pending_report(rt.alloc(), &records.intents)?,
        Form::Json => pending_as_json(rt.alloc(), &records.intents)?,
    };
    streams.output.write_all(report.text.as_bytes())?;
    Ok(report.status)
}

/// The same, with how the images of the folder stand to that.
pub fn show_pending_at<I, O: Write, E>(
    rt: &HostRuntime,
    place: Place<'_>,
    form: Form,
    patience: Patience,
    streams: &mut Streams<'_, I, O, E>,
) -> Result<Status, Fault> {
    let _held = hold(rt, place.folder, patience, streams)?;
    let whole = records_at(rt, place.registry, patience, streams)?;
    let (records, stopped) = (&whole.loaded, &whole.stopped);
    let mut shelf = images_at(rt, place, streams)?;
    let report = match form {
        Form::Text => pending_report_on(rt.alloc(), records, stopped, &mut shelf),
        Form::Json => pending_as_json_on(rt.alloc(), records, stopped, &mut shelf),
    };
    streams.explaining.failure = shelf.last_failure();
    let report = report?;
    streams.output.write_all(report.text.as_bytes())?;
    Ok(report.status)
}

/// What a registry holds as it stands, if that can be read.
pub(crate) fn loaded_at(rt: &HostRuntime, registry: &str) -> Option<Loaded> {
    match records_of(rt, registry) {
        Ok(whole) => Some(whole.loaded),
        Err(_) => None,
    }
}

/// Complains of what an opening of the registry would carry out, if that can be read.
pub fn complain_of_pending<E: Write>(rt: &HostRuntime, registry: &str, complaints: &mut E) {
    let Some(records) = loaded_at(rt, registry) else {
        return;
    };
    if let Ok(text) = pending_text(rt.alloc(), &records.intents) {
        let _ = complaints.write_all(text.as_bytes());
    }
}

/// Prints what is looked at, and how many writes are pending, if any are.
pub fn look_at<I, O: Write, E: Write>(
    rt: &HostRuntime,
    look: Look,
    place: Place<'_>,
    patience: Patience,
    streams: &mut Streams<'_, I, O, E>,
) -> Result<Status, Fault>
    ensures { IfOk result (MayShow look) }
{
    let _held = hold(rt, place.folder, patience, streams)?;
    let records = records_at(rt, place.registry, patience, streams)?.loaded;
    let mut shelf = images_at(rt, place, streams)?;
    let report = look_report(rt.alloc(), look, &records, &mut shelf);
    streams.explaining.failure = shelf.last_failure();
    let report = report?;
    streams.output.write_all(report.text.as_bytes())?;
    let mut pending = String::new(rt.alloc());
    push_pending(&mut pending, records.intents.len())?;
    streams.complaints.write_all(pending.as_bytes())?;
    Ok(report.status)
}
