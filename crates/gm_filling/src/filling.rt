//! The command itself.

ghost use Rattle.std.specs.Prelude.{◌≡◌, ◌<◌, IfOk, OnOk, vec_len};
ghost use Rattle.gm_bench.specs.Benches.{progress_of};
ghost use Rattle.gm_bench.specs.Phases.{TakesCommands};
ghost use Rattle.gm_process.specs.Statuses.{MayRefuse};
ghost use Rattle.gm_process.specs.declared.status.Status.TheVariants.{Refused};

use crate::needs::{has_room, name_due, name_stale, needed};
use crate::standing::{refused_json, standing_json, standing_text};
use crate::uses::{in_use_report, in_use_to_fill};
use gm_bench::{Bench, BenchFault};
use gm_command_line::{self, Filling, Form};
use gm_faults::Fault;
use gm_in_use::InUse;
use gm_metadata::Label;
use gm_process::{Meter, Status, Streams};
use gm_refusals::CallRefusal;
use gm_reports::{Report, WhyRefused, audit_report, no_component, no_mirror, refused};
use gm_sentences::{About, Image};
use gm_shelf::Shelf;
use gm_state::State;
use gm_sync::{Ending, PassedOver, Progress, Scope, Synced, sync};
use sqlite::Alter;
use std::alloc::{AllocError, Global};
use std::io::Write;

// Tells what waits for a rebuild, and then how far the filling is.
#[derive(Drop)]
struct Filled<'a, E> {
    meter: Meter<'a, E>,
    scope: Scope,
    has_begun: bool,
}

impl<E: Write> Progress for Filled<'_, E> {
    fn looked(&mut self, state: &State, _accepted: u64) {
        if self.has_begun {
            return;
        }
        self.has_begun = true;
        name_stale(self.meter.complaints, state, &self.scope);
    }

    fn filled(&mut self, provider: Label, held: u32, total: u32) {
        self.meter.show(provider, u64::from(held), u64::from(total));
    }
}

// The components that are meant.
fn scope_of(scope: gm_command_line::Scope) -> Scope {
    match scope {
        gm_command_line::Scope::All => Scope::All,
        gm_command_line::Scope::Mirror(mirror) => Scope::Mirror(mirror),
        gm_command_line::Scope::Component { mirror, provider } => {
            Scope::Member { mirror, provider }
        }
    }
}

// That a mirror or a component isn't there that is meant. If all are, nothing is read.
fn not_there<S: Alter, H: Shelf>(
    alloc: Global,
    bench: &mut Bench<S, H>,
    scope: Scope,
) -> Result<Option<WhyRefused>, BenchFault>
    requires { TakesCommands (progress_of bench.old) }
    ensures { OnOk result (TakesCommands (progress_of bench.new)) }
{
    match scope {
        Scope::All => Ok(None),
        Scope::Mirror(mirror) => {
            let state = bench.view(alloc)?;
            Ok(no_mirror(&state, mirror))
        }
        Scope::Member { mirror, provider } => {
            let state = bench.view(alloc)?;
            match no_mirror(&state, mirror) {
                Some(refused) => Ok(Some(refused)),
                None => Ok(no_component(&state, mirror, provider)),
            }
        }
    }
}

// The first image that something else uses, of the mirrors that are to be filled, if that matters.
fn in_use<S: Alter, H: Shelf, I, O, E>(
    rt: &HostRuntime,
    filling: Filling,
    scope: &Scope,
    bench: &mut Bench<S, H>,
    streams: &Streams<'_, I, O, E>,
) -> Result<Option<InUse>, Fault>
    requires { TakesCommands (progress_of bench.old) }
    ensures { OnOk result (TakesCommands (progress_of bench.new)) }
{
    if !filling.heeds_use {
        return Ok(None);
    }
    let state = bench.view(rt.alloc())?;
    let folder = streams.explaining.folder.as_str();
    Ok(in_use_to_fill(rt, folder, &state, scope)?)
}

// Whether the registry takes as many commands as fill what is meant. If it doesn't, or a new one is
// due, it says so.
fn has_room_for<S: Alter, H: Shelf, I, O, E: Write>(
    alloc: Global,
    scope: &Scope,
    bench: &mut Bench<S, H>,
    streams: &mut Streams<'_, I, O, E>,
) -> Result<bool, BenchFault>
    requires { TakesCommands (progress_of bench.old) }
    ensures { OnOk result (TakesCommands (progress_of bench.new)) }
{
    let accepted = bench.accepted()?;
    let state = bench.view(alloc)?;
    let complaints = &mut *streams.complaints;
    let has_room = has_room(complaints, needed(&state, scope), accepted);
    if has_room {
        name_due(complaints, accepted);
    }
    Ok(has_room)
}

// What a refused advance is about.
fn about(provider: Option<Label>) -> About {
    match provider {
        Some(provider) => About::image(provider),
        None => About {
            mirror: None,
            image: Image::Unnamed,
        },
    }
}

// Says which mirrors were passed over.
fn name_passed_over<E: Write>(complaints: &mut E, passed_over: &PassedOver) {
    for mirror in &passed_over.mirrors {
        let name = mirror.as_str();
        let _ = writeln!(
            complaints,
            "{name} is passed over: not all of its images are as they are registered"
        );
    }
}

// Says how a sync ended, of what it didn't pass over.
fn ending_report<I, O, E: Write>(
    alloc: Global,
    streams: &mut Streams<'_, I, O, E>,
    synced: &Synced,
    scope: &Scope,
) -> Result<Report, AllocError>
    ensures { IfOk result (λ report. MayRefuse report.status) }
{
    match &synced.ending {
        Ending::Whole(state) => Ok(Report {
            status: Status::Done,
            text: standing_text(alloc, state, scope, &synced.passed_over)?,
        }),
        Ending::Refused { provider, why } => {
            let about = about(*provider);
            refused(alloc, streams, WhyRefused { why: *why, about })
        }
    }
}

// Says what a sync came to: first the images because of which it passed mirrors over.
fn synced_report<I, O, E: Write>(
    alloc: Global,
    streams: &mut Streams<'_, I, O, E>,
    synced: &Synced,
    scope: &Scope,
) -> Result<Report, AllocError>
    ensures ends { IfOk result (λ report. MayRefuse report.status) }
    ensures passed { 0 < vec_len synced.now.passed_over.images
        → IfOk result (λ report. report.status ≡ Refused) }
{
    let passed_over = &synced.passed_over;
    name_passed_over(streams.complaints, passed_over);
    let ending = ending_report(alloc, streams, synced, scope)?;
    if passed_over.images.is_empty() {
        return Ok(ending);
    }
    let mut report = audit_report(alloc, &passed_over.images, Form::Text)?;
    report.text.push_str(&ending.text)?;
    Ok(report)
}

// The same as a line of JSON.
fn synced_report_as_json<I, O, E: Write>(
    alloc: Global,
    streams: &mut Streams<'_, I, O, E>,
    synced: &Synced,
    scope: &Scope,
) -> Result<Report, AllocError>
    ensures { IfOk result (λ report. MayRefuse report.status) }
{
    let report = synced_report(alloc, streams, synced, scope)?;
    let passed_over = &synced.passed_over;
    let text = match &synced.ending {
        Ending::Whole(state) => standing_json(alloc, state, scope, passed_over)?,
        Ending::Refused { why, .. } => refused_json(alloc, why.number(), &passed_over.images)?,
    };
    Ok(Report {
        status: report.status,
        text,
    })
}

// Says that what is meant isn't there.
fn not_there_report<I, O, E: Write>(
    alloc: Global,
    streams: &mut Streams<'_, I, O, E>,
    why: WhyRefused,
    form: Form,
) -> Result<Report, AllocError>
    ensures { IfOk result (λ report. MayRefuse report.status) }
{
    let report = refused(alloc, streams, why)?;
    match form {
        Form::Text => Ok(report),
        Form::Json => Ok(Report {
            status: report.status,
            text: refused_json(alloc, why.why.number(), &[])?,
        }),
    }
}

// That the registry takes too few commands. What that means is said before.
fn no_room_report(alloc: Global, form: Form) -> Result<Report, AllocError>
    ensures { IfOk result (λ report. report.status ≡ Refused) }
{
    let number = CallRefusal::NoRoom.number();
    let text = match form {
        Form::Text => format!(in alloc; "refused {number}\n")?,
        Form::Json => refused_json(alloc, number, &[])?,
    };
    Ok(Report {
        status: Status::Refused,
        text,
    })
}

// Fills the components that are meant, and says how they stand then.
fn fill<S: Alter, H: Shelf, I, O, E: Write>(
    rt: &HostRuntime,
    filling: Filling,
    scope: Scope,
    bench: &mut Bench<S, H>,
    streams: &mut Streams<'_, I, O, E>,
) -> Result<Report, Fault>
    requires { TakesCommands (progress_of bench.old) }
    ensures ends { IfOk result (λ report. MayRefuse report.status) }
    ensures phase { OnOk result (TakesCommands (progress_of bench.new)) }
{
    let alloc = rt.alloc();
    let style = streams.explaining.style(filling.is_quiet);
    let mut filled = Filled {
        meter: Meter::new(rt, streams.complaints, style),
        scope,
        has_begun: false,
    };
    let synced = sync(alloc, bench, &scope, filling.audits, &mut filled);
    filled.meter.end();
    match filling.form {
        Form::Text => Ok(synced_report(alloc, streams, &synced?, &scope)?),
        Form::Json => Ok(synced_report_as_json(alloc, streams, &synced?, &scope)?),
    }
}

/// Fills components, and says how they stand then. It is refused if a mirror is passed over,
/// because an image of it isn't as it is registered, also if all others are filled. Nothing is
/// filled if the registry doesn't take as many commands as that needs, or if something else uses an
/// image of one of the mirrors and that matters.
pub fn fill_components<S: Alter, H: Shelf, I, O, E: Write>(
    rt: &HostRuntime,
    filling: Filling,
    bench: &mut Bench<S, H>,
    streams: &mut Streams<'_, I, O, E>,
) -> Result<Report, Fault>
    requires { TakesCommands (progress_of bench.old) }
    ensures ends { IfOk result (λ report. MayRefuse report.status) }
    ensures phase { OnOk result (TakesCommands (progress_of bench.new)) }
{
    let alloc = rt.alloc();
    let scope = scope_of(filling.scope);
    if let Some(why) = not_there(alloc, bench, scope)? {
        return Ok(not_there_report(alloc, streams, why, filling.form)?);
    }
    if !has_room_for(alloc, &scope, bench, streams)? {
        return Ok(no_room_report(alloc, filling.form)?);
    }
    if let Some(found) = in_use(rt, filling, &scope, bench, streams)? {
        return Ok(in_use_report(alloc, &found, filling.form, streams)?);
    }
    fill(rt, filling, scope, bench, streams)
}
