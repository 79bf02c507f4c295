//! What a replacement would take away for good, which is asked about once, before it begins.

ghost use Rattle.std.specs.Prelude.{◌≡◌, ◌<◌, IfOk, IsTrue, OnOk, length};
ghost use Rattle.gm_bench.specs.Benches.{progress_of};

use crate::commands::exchange_of;
use crate::plan::Plan;
use crate::sayings::push_ruined;
use crate::stopped::Stopped;
use crate::way::Going;
use gm_bench::Bench;
use gm_by_itself::following_key;
use gm_command_line::{Checks, Form, Replacing};
use gm_faults::Fault;
use gm_front::in_the_way;
use gm_handing_in::{are_free, is_wanted, losses_told};
use gm_lines::shown;
use gm_looks::Standing;
use gm_metadata::Label;
use gm_process::Streams;
use gm_shelf::{FileShelf, Shelf};
use gm_state::State;
use gm_ways::{Exchange, Step, Way, first_command, gives_up_first};
use sqlite::Alter;
use std::alloc::{AllocError, Global};
use std::io::{BufRead, Write};

// Whether an image stands in the way of the first command. Then that isn't handed in, and nothing
// has to be asked.
fn is_withheld<S: Alter, H: Shelf>(
    alloc: Global,
    exchange: &Exchange,
    first: &str,
    plan: &Plan,
    bench: &mut Bench<S, H>,
) -> Result<bool, Stopped>
    ensures { OnOk result (progress_of bench.new ≡ progress_of bench.old) }
{
    let Some((act, number)) = first_command(&plan.steps) else {
        return Ok(false);
    };
    let key = following_key(alloc, first, number)?;
    let command = act.command(alloc, exchange, plan.did)?;
    let list = in_the_way(alloc, bench, key.as_str(), &command)?;
    Ok(!list.is_empty())
}

// Adds copies of sentences.
fn push_all(alloc: Global, all: &mut Vec<String>, sentences: &[String]) -> Result<(), AllocError> {
    for sentence in sentences {
        let copy = String::from_str(alloc, sentence.as_str())?;
        all.push(copy)?;
    }
    Ok(())
}

// Adds what a step would take away from the records that it finds, and from the images.
fn push_step<I, O, E: Write>(
    rt: &HostRuntime,
    exchange: &Exchange,
    did: u32,
    step: Step,
    state: &State,
    sentences: &mut Vec<String>,
    streams: &mut Streams<'_, I, O, E>,
) -> Result<(), Fault> {
    match step {
        Step::Fill => Ok(()),
        Step::HandIn {
            act,
            number: _number,
        } => {
            let command = act.command(rt.alloc(), exchange, did)?;
            let told = losses_told(rt, state, &command, streams)?;
            push_all(rt.alloc(), sentences, &told)?;
            Ok(())
        }
    }
}

// Adds that the old image goes, and nothing comes: the new one was ACTIVE before.
fn push_way(
    alloc: Global,
    exchange: &Exchange,
    way: Way,
    sentences: &mut Vec<String>,
) -> Result<(), AllocError> {
    if way == Way::Filled {
        let Exchange { mirror, old, new } = *exchange;
        let sentence = format!(in alloc;
            "{new} is ACTIVE in {mirror} already: {old} is taken out, and nothing is put in its place"
        )?;
        sentences.push(sentence)?;
    }
    Ok(())
}

// How many sectors the image has that is taken out.
fn old_sectors<I, O, E>(
    rt: &HostRuntime,
    old: Label,
    streams: &mut Streams<'_, I, O, E>,
) -> Result<u64, Fault> {
    let shelf = FileShelf::look_at(rt, streams.explaining.folder.as_str(), &[old])?;
    Ok(shelf.sectors(old).unwrap_or(0))
}

// Adds that the old image is given up first though it is there, and why.
fn push_given_up<I, O, E>(
    rt: &HostRuntime,
    exchange: &Exchange,
    going: Going,
    plan: &Plan,
    sentences: &mut Vec<String>,
    streams: &mut Streams<'_, I, O, E>,
) -> Result<(), Fault> {
    let standing = match going.old {
        Some(standing) if going.way == Way::LostFirst && gives_up_first(&plan.steps) => standing,
        _ => return Ok(()),
    };
    if standing == Standing::Absent {
        return Ok(());
    }
    let old = exchange.old;
    let registered = match plan.judged.found.first() {
        Some(state) => state.component(old),
        None => None,
    };
    if let Some(component) = registered {
        let sectors = old_sectors(rt, old, streams)?;
        push_ruined(rt.alloc(), &component, standing, sectors, sentences)?;
    }
    Ok(())
}

// What the steps would take away, in a sentence each.
fn sentences_of<I, O, E: Write>(
    rt: &HostRuntime,
    exchange: &Exchange,
    going: Going,
    plan: &Plan,
    streams: &mut Streams<'_, I, O, E>,
) -> Result<Vec<String>, Fault> {
    let mut sentences = Vec::new(rt.alloc());
    push_way(rt.alloc(), exchange, going.way, &mut sentences)?;
    push_given_up(rt, exchange, going, plan, &mut sentences, streams)?;
    for (step, state) in plan.steps.iter().zip(plan.judged.found.iter()) {
        push_step(
            rt,
            exchange,
            plan.did,
            *step,
            state,
            &mut sentences,
            streams,
        )?;
    }
    Ok(sentences)
}

// Whether nothing is taken away, or whoever runs the program wants it all the same.
fn is_agreed<I: BufRead, O: Write, E: Write>(
    alloc: Global,
    first: &str,
    sentences: &[String],
    streams: &mut Streams<'_, I, O, E>,
) -> Result<bool, Fault>
    // Something is taken away only if there is somebody to ask.
    ensures asked { IfOk result (λ is. IsTrue is → 0 < length sentences.now
        → IsTrue streams.old.explaining.asks) }
{
    if sentences.is_empty() {
        return Ok(true);
    }
    is_wanted(alloc, shown(first), Form::Text, sentences, streams)
}

// The images of the mirror that are registered, and the new one.
fn images_of(alloc: Global, state: &State, exchange: &Exchange) -> Result<Vec<Label>, AllocError> {
    let mirror = exchange.mirror;
    let mut images: Vec<Label> = state
        .components()
        .iter()
        .filter(|component| component.mirror == mirror)
        .map(|component| component.provider)
        .collect(alloc)?;
    images.push(exchange.new)?;
    Ok(images)
}

// Whether nothing else uses the new image or one of the mirror's, or nothing is left to be done.
fn has_free_images<I, O: Write, E: Write>(
    rt: &HostRuntime,
    exchange: &Exchange,
    first: &str,
    plan: &Plan,
    streams: &mut Streams<'_, I, O, E>,
) -> Result<bool, Fault> {
    let Some(state) = plan.judged.found.first() else {
        return Ok(true);
    };
    let images = images_of(rt.alloc(), state, exchange)?;
    are_free(rt, shown(first), Form::Text, &images, streams)
}

/// What is still to be looked at before each command, if the replacement may begin: what it would
/// take away is asked about here, and not again, and so is what uses the images. `None` if that
/// isn't wanted or an image is in use, which is printed.
pub(crate) fn checks_left<S: Alter, H: Shelf, I: BufRead, O: Write, E: Write>(
    rt: &HostRuntime,
    replacing: &Replacing<'_>,
    first: &str,
    going: Going,
    plan: &Plan,
    bench: &mut Bench<S, H>,
    streams: &mut Streams<'_, I, O, E>,
) -> Result<Option<Checks>, Stopped>
    ensures { OnOk result (progress_of bench.new ≡ progress_of bench.old) }
{
    let alloc = rt.alloc();
    let checks = replacing.checks;
    if !checks.losses {
        return Ok(Some(checks));
    }
    let exchange = exchange_of(replacing);
    if checks.images && is_withheld(alloc, &exchange, first, plan, bench)? {
        return Ok(Some(checks));
    }
    if !has_free_images(rt, &exchange, first, plan, streams)? {
        return Ok(None);
    }
    let sentences = sentences_of(rt, &exchange, going, plan, streams)?;
    if !is_agreed(alloc, first, &sentences, streams)? {
        return Ok(None);
    }
    Ok(Some(Checks {
        losses: false,
        uses: false,
        ..checks
    }))
}
