//! The command `scrub`, which lists the components whose data aren't their mirror's.

ghost use Rattle.std.specs.Prelude.{◌≡◌, IfOk, map};
ghost use Rattle.gm_bench.specs.Benches.{progress_of};
ghost use Rattle.gm_bench.specs.Phases.{TakesCommands};
ghost use Rattle.gm_process.specs.Statuses.{MayRefuse};
ghost use Rattle.gm_unlike.specs.Unequals.{scrubbed};
ghost use Rattle.gm_looking.specs.Checks.{IsScrubReport};

use gm_bench::{Bench, Watch};
use gm_command_line::{Comparing, Form};
use gm_faults::Fault;
use gm_json::scrub_json;
use gm_looks::{Flaw, Scrubbed};
use gm_metadata::Label;
use gm_process::{Meter, Status, Streams};
use gm_reports::{Report, as_line, no_mirror, refused};
use gm_shelf::{FileShelf, Shelf};
use gm_state::State;
use gm_unlike::{Unequal, unequal_lines, unequal_shelf};
use sqlite::Alter;
use std::alloc::{AllocError, Global};
use std::io::Write;

// Those whose data differ.
fn differing(alloc: Global, found: &[Scrubbed]) -> Result<Vec<Label>, AllocError> {
    found
        .iter()
        .filter(|one| matches!(one.flaw, Flaw::Differs { .. }))
        .map(|one| one.provider)
        .collect(alloc)
}

// What was found, beside each other: an open bench lends none of its images, so those that differ
// are read once more from the folder, which is held.
fn beside<W: Watch>(
    rt: &HostRuntime,
    folder: &str,
    state: &State,
    found: &[Scrubbed],
    watch: &mut W,
) -> Result<Vec<Unequal>, Fault>
    ensures { IfOk result (λ told. map scrubbed told.items ≡ found.now) }
{
    let names = differing(rt.alloc(), found)?;
    let mut shelf = FileShelf::look_at(rt, folder, &names)?;
    Ok(unequal_shelf(rt.alloc(), &mut shelf, state, found, watch)?)
}

/// Says which components were found otherwise than their mirror.
pub fn scrub_report(alloc: Global, found: &[Unequal], form: Form) -> Result<Report, AllocError>
    ensures { IfOk result (IsScrubReport found.now form) }
{
    let text = match form {
        Form::Text => unequal_lines(alloc, found)?,
        Form::Json => as_line(scrub_json(alloc, found)?)?,
    };
    let status = if found.is_empty() {
        Status::Done
    } else {
        Status::Refused
    };
    Ok(Report { status, text })
}

/// Compares the data of components, and says which aren't their mirror's.
pub fn scrub<S: Alter, H: Shelf, I, O, E: Write>(
    rt: &HostRuntime,
    comparing: Comparing,
    bench: &mut Bench<S, H>,
    streams: &mut Streams<'_, I, O, E>,
) -> Result<Report, Fault>
    requires { TakesCommands (progress_of bench.old) }
    ensures { IfOk result (λ report. MayRefuse report.status) }
{
    let alloc = rt.alloc();
    let state = bench.view(alloc)?;
    if let Some(mirror) = comparing.mirror
        && let Some(refusal) = no_mirror(&state, mirror)
    {
        return Ok(refused(alloc, streams, refusal)?);
    }
    let style = streams.explaining.style(comparing.is_quiet);
    let folder = streams.explaining.folder.as_str();
    let mut meter = Meter::new(rt, streams.complaints, style);
    let found = match bench.scrub(alloc, comparing.mirror, &mut meter) {
        Ok(found) => beside(rt, folder, &state, &found, &mut meter),
        Err(fault) => Err(Fault::from(fault)),
    };
    meter.end();
    Ok(scrub_report(alloc, &found?, comparing.form)?)
}
