//! What is said if an image isn't mended.

ghost use Rattle.std.specs.Prelude.{◌≡◌, IfOk};
ghost use Rattle.gm_process.specs.declared.status.Status.TheVariants.{Done, Refused};

use gm_answers::{Explainer, not_done_in, outcome_in, withheld_in};
use gm_bench::Answer;
use gm_command_line::Form;
use gm_faults::Fault;
use gm_front::Outcome;
use gm_lines::shown;
use gm_looks::Unlike;
use gm_metadata::Label;
use gm_process::{Status, Streams};
use gm_refusals::{CallRefusal, Refusal};
use gm_reports::as_line;
use gm_state::Component;
use serde_json::json;
use std::alloc::{AllocError, Global};
use std::io::{self, Write};

// Prints a text.
fn print<I, O: Write, E>(text: &str, streams: &mut Streams<'_, I, O, E>) -> io::Result<()> {
    streams.output.write_all(text.as_bytes())?;
    streams.output.flush()
}

/// Says that nothing is done, because these images are in the way, and how it is done all the same.
pub(crate) fn withhold<I, O: Write, E: Write>(
    rt: &HostRuntime,
    key: &str,
    list: &[Unlike],
    all_the_same: &str,
    form: Form,
    streams: &mut Streams<'_, I, O, E>,
) -> Result<Status, Fault>
    ensures { IfOk result (λ status. status ≡ Refused) }
{
    let text = withheld_in(rt.alloc(), form, key, list)?;
    print(text.as_str(), streams)?;
    let mut explainer = Explainer::new(rt, streams.complaints, &streams.explaining);
    explainer.explain_withheld(key, list, all_the_same);
    Ok(Status::Refused)
}

/// Says that an image isn't one of a registered mirror.
pub(crate) fn say_no_component<I, O: Write, E: Write>(
    alloc: Global,
    key: &str,
    image: Label,
    form: Form,
    streams: &mut Streams<'_, I, O, E>,
) -> Result<Status, Fault>
    ensures { IfOk result (λ status. status ≡ Refused) }
{
    let why = CallRefusal::ByRules(Refusal::NotMember);
    let number = why.number();
    let text = outcome_in(alloc, form, &Outcome::Answered(key, Answer::Refused(why)))?;
    print(text.as_str(), streams)?;
    let key = shown(key);
    let _ = writeln!(
        streams.complaints,
        "{key}: refused {number}: {image} isn't a component of a registered mirror"
    );
    Ok(Status::Refused)
}

// That an image is as it is registered.
fn as_registered(alloc: Global, image: Label, form: Form) -> Result<String, AllocError> {
    match form {
        Form::Text => format!(in alloc; "{image} is as it is registered\n"),
        Form::Json => {
            let name = image.as_str();
            let value = json!(in alloc; {"answer": "as registered", "image": name})?;
            as_line(value.to_string(alloc)?)
        }
    }
}

/// Says that an image is as it is registered, so that nothing is to be done.
pub(crate) fn say_as_registered<I, O: Write, E>(
    alloc: Global,
    image: Label,
    form: Form,
    streams: &mut Streams<'_, I, O, E>,
) -> Result<Status, Fault>
    ensures { IfOk result (λ status. status ≡ Done) }
{
    let text = as_registered(alloc, image, form)?;
    print(text.as_str(), streams)?;
    Ok(Status::Done)
}

/// How data differ from those of the source.
#[derive(Clone, Copy)]
pub(crate) struct Difference {
    pub(crate) source: Label,
    pub(crate) sectors: u64,
    pub(crate) first: u64,
}

// Whether a name would be taken for an option.
fn begins_as_option(name: Label) -> bool {
    name.as_str().starts_with('-')
}

/// Says that an image isn't mended because its data aren't those of the source, and what fills it
/// anew.
pub(crate) fn say_differs<I, O: Write, E: Write>(
    alloc: Global,
    key: &str,
    component: &Component,
    difference: Difference,
    form: Form,
    streams: &mut Streams<'_, I, O, E>,
) -> Result<Status, Fault>
    ensures { IfOk result (λ status. status ≡ Refused) }
{
    let key = shown(key);
    let text = not_done_in(alloc, form, key)?;
    print(text.as_str(), streams)?;
    let (mirror, image) = (component.mirror, component.provider);
    let Difference {
        source,
        sectors,
        first,
    } = difference;
    let noun = if sectors == 1 { "sector" } else { "sectors" };
    let _ = writeln!(
        streams.complaints,
        "{key}: {image} differs from the source {source} in {sectors} {noun}, first {first}"
    );
    let dashes = if begins_as_option(mirror) || begins_as_option(image) {
        "-- "
    } else {
        ""
    };
    let _ = writeln!(
        streams.complaints,
        "{key}: rebuild --unchecked {dashes}{mirror} {image} has it filled anew by the next sync"
    );
    Ok(Status::Refused)
}
