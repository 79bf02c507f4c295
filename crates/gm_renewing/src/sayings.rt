//! What is said of a renewal: what it came to, or why nothing was done.

ghost use Rattle.std.specs.Prelude.{◌≡◌, IfOk};
ghost use Rattle.gm_process.specs.declared.status.Status.TheVariants.{Done, Refused};

use crate::carried::Difference;
use crate::hindrances::Hindrance;
use gm_command_line::Form;
use gm_in_use::in_use_sentence;
use gm_json::{finished_json, not_renewed_json, renewed_json};
use gm_looks::Unlike;
use gm_metadata::Label;
use gm_process::{Status, Streams};
use gm_reports::{Report, as_line};
use gm_sentences::{About, Image, call_sentence};
use gm_unlike::unlike_lines;
use std::alloc::{AllocError, Global};
use std::io::Write;

/// What a renewal came to.
#[derive(Clone, Copy)]
pub(crate) struct Renewed<'a> {
    /// How many mirrors the new registry has.
    pub mirrors: u64,
    /// How many commands the old one has.
    pub commands: u64,
    /// The path at which the old one is kept.
    pub kept: &'a str,
}

fn renewed_text(alloc: Global, renewed: Renewed<'_>) -> Result<String, AllocError> {
    let Renewed {
        mirrors,
        commands,
        kept,
    } = renewed;
    let mut text = String::new(alloc);
    match mirrors {
        1 => text.push_str("1 mirror is in the new registry\n")?,
        mirrors => writeln!(text, "{mirrors} mirrors are in the new registry")?,
    }
    match commands {
        1 => writeln!(
            text,
            "{kept} keeps the old one, with 1 command; its key is forgotten"
        )?,
        commands => writeln!(
            text,
            "{kept} keeps the old one, with {commands} commands; their keys are forgotten"
        )?,
    }
    Ok(text)
}

/// Says that the registry is renewed.
pub(crate) fn renewed_report(
    alloc: Global,
    renewed: Renewed<'_>,
    form: Form,
) -> Result<Report, AllocError>
    ensures { IfOk result (λ report. report.status ≡ Done) }
{
    let Renewed {
        mirrors,
        commands,
        kept,
    } = renewed;
    let text = match form {
        Form::Text => renewed_text(alloc, renewed)?,
        Form::Json => as_line(renewed_json(alloc, commands, kept, mirrors)?)?,
    };
    Ok(Report {
        status: Status::Done,
        text,
    })
}

/// Says that a renewal is finished which was stopped.
pub(crate) fn finished_report(alloc: Global, kept: &str, form: Form) -> Result<Report, AllocError>
    ensures { IfOk result (λ report. report.status ≡ Done) }
{
    let text = match form {
        Form::Text => {
            let mut text = String::new(alloc);
            writeln!(text, "the renewal that was stopped is done")?;
            writeln!(text, "{kept} keeps the old registry")?;
            text
        }
        Form::Json => as_line(finished_json(alloc, kept)?)?,
    };
    Ok(Report {
        status: Status::Done,
        text,
    })
}

// That nothing is done, because of these images, or for another reason if there are none.
fn not_done(alloc: Global, list: &[Unlike], form: Form) -> Result<Report, AllocError>
    ensures { IfOk result (λ report. report.status ≡ Refused) }
{
    let text = match form {
        Form::Text => {
            let mut text = String::from_str(alloc, "not done\n")?;
            text.push_str(&unlike_lines(alloc, list)?)?;
            text
        }
        Form::Json => as_line(not_renewed_json(alloc, list)?)?,
    };
    Ok(Report {
        status: Status::Refused,
        text,
    })
}

/// Says why a renewal isn't begun.
pub(crate) fn hindered_report<I, O, E: Write>(
    alloc: Global,
    hindrance: &Hindrance,
    form: Form,
    streams: &mut Streams<'_, I, O, E>,
) -> Result<Report, AllocError>
    ensures { IfOk result (λ report. report.status ≡ Refused) }
{
    match hindrance {
        Hindrance::Unlike(list) => {
            let _ = writeln!(
                streams.complaints,
                "not all images are as they are registered: check says what to do"
            );
            not_done(alloc, list, form)
        }
        Hindrance::InUse(found) => {
            let sentence = in_use_sentence(alloc, found)?;
            let _ = writeln!(streams.complaints, "{sentence}");
            let _ = writeln!(streams.complaints, "--force renews anyway");
            not_done(alloc, &[], form)
        }
    }
}

// Why a mirror wouldn't be in the new registry as it is in the old one.
fn difference_sentence(
    alloc: Global,
    mirror: Label,
    why: Difference,
) -> Result<String, AllocError> {
    match why {
        Difference::NoImage => {
            format!(in alloc; "{mirror} has no component, so no image shows it: destroy it first")
        }
        Difference::Refused(why) => {
            let about = About {
                mirror: Some(mirror),
                image: Image::Unnamed,
            };
            about.sentence(alloc, call_sentence(why))
        }
        Difference::Otherwise => {
            format!(in alloc;
                "the images of {mirror} show other than is registered: see scrub and check --data"
            )
        }
    }
}

/// Says which mirror wouldn't be in the new registry as it is in the old one, and why.
pub(crate) fn different_report<I, O, E: Write>(
    alloc: Global,
    mirror: Label,
    why: Difference,
    form: Form,
    streams: &mut Streams<'_, I, O, E>,
) -> Result<Report, AllocError>
    ensures { IfOk result (λ report. report.status ≡ Refused) }
{
    let sentence = difference_sentence(alloc, mirror, why)?;
    let _ = writeln!(streams.complaints, "{sentence}");
    not_done(alloc, &[], form)
}
