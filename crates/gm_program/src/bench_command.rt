//! What is done at an open bench, and how it is told.

ghost use Rattle.std.specs.Prelude.{◌≡◌, IfOk};
ghost use Rattle.gm_bench.specs.Benches.{progress_of};
ghost use Rattle.gm_bench.specs.Phases.{TakesCommands};
ghost use Rattle.gm_program.specs.Ends.{MayEnd};

use crate::recover::recovered;
use gm_bench::Bench;
use gm_by_itself::{adopt_all, hand_in_by_itself};
use gm_command_line::Work;
use gm_faults::Fault;
use gm_filling::fill_components;
use gm_handing_in::{Lines, One, hand_in, hand_in_lines_of, hand_in_one, serve};
use gm_looking::scrub;
use gm_mending::mend;
use gm_process::{Status, Streams};
use gm_replacing::replace;
use gm_reports::{Report, audit_report, list_report, status_report};
use gm_shelf::Shelf;
use gm_writing::write_data;
use sqlite::Alter;
use std::alloc::Global;
use std::io::{BufRead, Write};

// That something was done, and all of it printed.
fn told(alloc: Global, status: Status) -> Report
    ensures { result.status ≡ status }
{
    Report {
        status,
        text: String::new(alloc),
    }
}

/// Does the work. A batch reads the input, and prints its answers at once; what serves requests
/// takes them from connections. A recovery without a provider and a renewal are told by who opens
/// their bench; here they tell no more than any recovery.
pub fn perform<S: Alter, H: Shelf, I: BufRead, O: Write, E: Write>(
    work: &Work<'_>,
    rt: &HostRuntime,
    bench: &mut Bench<S, H>,
    streams: &mut Streams<'_, I, O, E>,
) -> Result<Report, Fault>
    requires { TakesCommands (progress_of bench.old) }
    ensures { IfOk result (λ report. MayEnd work.now report.status) }
{
    let alloc = rt.alloc();
    match *work {
        Work::Recover { form, .. } | Work::RecoverWithout { form, .. } => {
            Ok(recovered(alloc, bench.redone(), form)?)
        }
        Work::Renew(renewing) => Ok(recovered(alloc, bench.redone(), renewing.form)?),
        Work::Status(form) => {
            let state = bench.view(alloc)?;
            Ok(status_report(alloc, &state, form)?)
        }
        Work::List(form) => {
            let state = bench.view(alloc)?;
            Ok(list_report(alloc, &state, form)?)
        }
        Work::Audit(form) => {
            let names = bench.audit(alloc)?;
            Ok(audit_report(alloc, &names, form)?)
        }
        Work::Scrub(comparing) => scrub(rt, comparing, bench, streams),
        Work::Do {
            key,
            words,
            checks,
            form,
        } => {
            let one = One {
                key,
                words,
                checks,
                form,
            };
            let status = hand_in_one(rt, one, bench, streams)?;
            Ok(told(alloc, status))
        }
        Work::Command(single) => {
            let status = hand_in_by_itself(rt, single, bench, streams)?;
            Ok(told(alloc, status))
        }
        Work::AdoptAll(checks) => {
            let status = adopt_all(rt, checks, bench, streams)?;
            Ok(told(alloc, status))
        }
        Work::Replace(ref replacing) => {
            let status = replace(rt, replacing, bench, streams)?;
            Ok(told(alloc, status))
        }
        Work::Mend(ref mending) => {
            let status = mend(rt, mending, bench, streams)?;
            Ok(told(alloc, status))
        }
        Work::Write(ref writing) => write_data(rt, writing, bench, streams),
        Work::Batch {
            audits: false,
            stops: false,
            guards: false,
        } => {
            let status = hand_in(rt, bench, streams)?;
            Ok(told(alloc, status))
        }
        Work::Batch {
            audits,
            stops,
            guards,
        } => {
            let lines = Lines {
                audits,
                guards,
                stops,
            };
            let status = hand_in_lines_of(rt, lines, bench, streams)?;
            Ok(told(alloc, status))
        }
        Work::Sync(filling) => fill_components(rt, filling, bench, streams),
        Work::Serve(service) => {
            let status = serve(rt, service, bench, streams)?;
            Ok(told(alloc, status))
        }
    }
}
