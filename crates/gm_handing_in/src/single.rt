//! The command `do`, which hands in one command.

ghost use Rattle.std.specs.Prelude.{◌≡◌, ◌∷◌, IfOk, IsTrue, OnOk};
ghost use Rattle.gm_registry.specs.Registry.{DiskKept, WasClean};
ghost use Rattle.gm_bench.specs.Benches.{progress_of, registry_of, shelf_of};
ghost use Rattle.gm_bench.specs.Phases.{TakesCommands};
ghost use Rattle.gm_front.specs.Closing.{outcome_fault};
ghost use Rattle.gm_front.specs.Guards.{IsGuarded};
ghost use Rattle.gm_front.specs.Outcomes.{is_refused};
ghost use Rattle.gm_lines.specs.Asked.{asked_by, asked_of};
ghost use Rattle.gm_words.specs.Lines.{texts};
ghost use Rattle.gm_process.specs.Statuses.{MayRefuse, status_of_refused};
ghost use Rattle.gm_handing_in.specs.Guarded.{IsOneGuarded, OnlySees};

use crate::lost_by::lets_go;
use crate::uses::are_free;
use gm_answers::{Explainer, outcome_in, print_outcome, say_tip, withheld_in};
use gm_bench::Bench;
use gm_command_line::{Checks, Form};
use gm_commands::is_key;
use gm_faults::Fault;
use gm_front::{Guarded, Outcome, ask, ask_guarded, in_the_way};
use gm_in_use::images_of;
use gm_lines::{Request, request_of};
use gm_looks::Unlike;
use gm_process::{Meter, Status, Streams};
use gm_shelf::Shelf;
use sqlite::Alter;
use std::alloc::{AllocError, Global};
use std::io::{BufRead, Write};

/// A command that is handed in by itself, and how.
#[derive(Clone, Copy)]
pub struct One<'a> {
    pub key: &'a str,
    /// The command's words, the first of which is its name.
    pub words: &'a [&'a str],
    pub checks: Checks,
    /// In which form it is printed what it came to.
    pub form: Form,
}

// The key and the words, as the pieces of a line.
fn pieces<'a>(alloc: Global, key: &'a str, words: &[&'a str]) -> Result<Vec<&'a str>, AllocError>
    ensures { IfOk result (λ pieces. texts pieces.items ≡ key.now ∷ texts words.now) }
{
    let mut pieces = Vec::new(alloc);
    pieces.push(key)?;
    for word in words {
        pieces.push(*word)?;
    }
    Ok(pieces)
}

// How the program ends by what its command came to.
fn status_of(outcome: &Outcome<'_>) -> Result<Status, Fault>
    ensures value { IfOk result (λ status. status ≡ status_of_refused (is_refused outcome.now)) }
    ensures sound { OnOk result (outcome_fault outcome.now ≡ None) }
    ensures ends { IfOk result MayRefuse }
{
    match *outcome {
        Outcome::Failed(_, fault) => Err(Fault::Bench(fault)),
        _ if outcome.is_refused() => Ok(Status::Refused),
        _ => Ok(Status::Done),
    }
}

// Whether a request may be handed in as far as losses go, and what else uses the images. One that
// is answered without being carried out writes nothing, and neither does one that images stand in
// the way of.
fn passes<S: Alter, H: Shelf, I: BufRead, O: Write, E: Write>(
    rt: &HostRuntime,
    request: &Request<'_>,
    one: One<'_>,
    bench: &mut Bench<S, H>,
    streams: &mut Streams<'_, I, O, E>,
) -> Result<bool, Fault>
    ensures sees { OnOk result (OnlySees S.Store H.Shelf bench.old bench.new) }
    ensures same { OnOk result (progress_of bench.new ≡ progress_of bench.old) }
    ensures phase { TakesCommands (progress_of bench.old) → TakesCommands (progress_of bench.new) }
{
    let Request::Call(key, ref command) = *request else {
        return Ok(true);
    };
    let alloc = rt.alloc();
    let Checks {
        images,
        losses,
        uses,
    } = one.checks;
    if !(losses || uses) || !is_key(key) || bench.kept(key)?.is_some() {
        return Ok(true);
    }
    if images && !in_the_way(alloc, bench, key, command)?.is_empty() {
        return Ok(true);
    }
    let state = bench.view(alloc)?;
    let written = images_of(alloc, &state, command)?;
    if uses && !are_free(rt, key, one.form, &written, streams)? {
        return Ok(false);
    }
    if !losses {
        return Ok(true);
    }
    lets_go(rt, key, command, one.form, &state, streams)
}

// Prints what a command came to, and explains it.
fn tell<S: Alter, H: Shelf, I, O: Write, E: Write>(
    rt: &HostRuntime,
    one: One<'_>,
    outcome: &Outcome<'_>,
    bench: &mut Bench<S, H>,
    streams: &mut Streams<'_, I, O, E>,
) -> Result<Status, Fault>
    ensures value { IfOk result (λ status. status ≡ status_of_refused (is_refused outcome.now)) }
    ensures sound { OnOk result (outcome_fault outcome.now ≡ None) }
    ensures ends { IfOk result MayRefuse }
    ensures clean { WasClean S.Store (registry_of bench.old) (registry_of bench.new) }
    ensures phase { TakesCommands (progress_of bench.old) → TakesCommands (progress_of bench.new) }
{
    let alloc = rt.alloc();
    let text = outcome_in(alloc, one.form, outcome)?;
    print_outcome(text.as_str(), outcome, streams)?;
    let state = match outcome.is_refused() && streams.explaining.wanted {
        true => bench.view(alloc).ok(),
        false => None,
    };
    let explainer = Explainer::new(rt, streams.complaints, &streams.explaining);
    let mut explainer = explainer.knowing(state.as_ref());
    explainer.explain(one.words, outcome);
    explainer.explain_repeated(outcome);
    say_tip(streams.complaints, one.words, outcome);
    status_of(outcome)
}

// Prints that a command isn't done, and explains which images stand in its way.
fn tell_withheld<I, O: Write, E: Write>(
    rt: &HostRuntime,
    key: &str,
    list: &[Unlike],
    form: Form,
    streams: &mut Streams<'_, I, O, E>,
) -> Result<Status, Fault>
    ensures { IfOk result (λ status. status ≡ Status.Refused) }
{
    let text = withheld_in(rt.alloc(), form, key, list)?;
    streams.output.write_all(text.as_bytes())?;
    streams.output.flush()?;
    let mut explainer = Explainer::new(rt, streams.complaints, &streams.explaining);
    explainer.explain_withheld(key, list, "--unchecked does it anyway");
    Ok(Status::Refused)
}

// Hands in a request, unless images stand in its way. A terminal is told how far data are compared.
fn asked<'a, S: Alter, H: Shelf, I, O, E: Write>(
    rt: &HostRuntime,
    request: &Request<'a>,
    checks: Checks,
    bench: &mut Bench<S, H>,
    streams: &mut Streams<'_, I, O, E>,
) -> Guarded<'a>
    requires { TakesCommands (progress_of bench.old) }
    ensures guarded { IsTrue checks.images → H.honest (shelf_of bench.old)
        → DiskKept S.Store (registry_of bench.new)
        → IsGuarded S.Store H.Shelf bench.old bench.new (asked_of request.now) result }
    ensures clean { WasClean S.Store (registry_of bench.old) (registry_of bench.new) }
    ensures phase { TakesCommands (progress_of bench.new) }
{
    let alloc = rt.alloc();
    let style = streams.explaining.style(!streams.explaining.at_terminal);
    let mut meter = Meter::new(rt, streams.complaints, style);
    let guarded = if checks.images {
        ask_guarded(alloc, bench, request, &mut meter)
    } else {
        Guarded::Through(ask(alloc, bench, request, &mut meter))
    };
    meter.end();
    guarded
}

/// Hands in a command, if the checks let it pass, and prints what it came to.
pub fn hand_in_one<S: Alter, H: Shelf, I: BufRead, O: Write, E: Write>(
    rt: &HostRuntime,
    one: One<'_>,
    bench: &mut Bench<S, H>,
    streams: &mut Streams<'_, I, O, E>,
) -> Result<Status, Fault>
    requires { TakesCommands (progress_of bench.old) }
    ensures guarded { IsTrue one.entry.checks.images → H.honest (shelf_of bench.old)
        → DiskKept S.Store (registry_of bench.new) → IfOk result
        (IsOneGuarded S.Store H.Shelf bench.old bench.new
        (asked_by (one.entry.key.now ∷ texts one.entry.words.now))) }
    ensures ends { IfOk result MayRefuse }
    ensures phase { TakesCommands (progress_of bench.new) }
{
    let alloc = rt.alloc();
    let pieces = pieces(alloc, one.key, one.words)?;
    let request = request_of(alloc, &pieces)?;
    match passes(rt, &request, one, bench, streams) {
        Ok(true) => {}
        Ok(false) => return Ok(Status::Refused),
        Err(Fault::Bench(fault)) => {
            return tell(rt, one, &Outcome::Failed(one.key, fault), bench, streams);
        }
        Err(fault) => return Err(fault),
    }
    match asked(rt, &request, one.checks, bench, streams) {
        Guarded::Through(outcome) => tell(rt, one, &outcome, bench, streams),
        Guarded::Unlooked(key, fault) => {
            tell(rt, one, &Outcome::Failed(key, fault), bench, streams)
        }
        Guarded::Withheld(key, list) => tell_withheld(rt, key, &list, one.form, streams),
    }
}
