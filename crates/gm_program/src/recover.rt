//! The command `recover`, for which a bench is opened and asked nothing; also of one that is opened
//! without a provider.

ghost use Rattle.std.specs.Prelude.{◌≡◌, IfOk};
ghost use Rattle.std.specs.String.{string_bytes};
ghost use Rattle.gm_json.specs.Keyed.{recovered_json};
ghost use Rattle.gm_reports.specs.Reports.{IsDone, IsRefused, in_form};
ghost use Rattle.gm_program.specs.Recoveries.{recovered_text, refused_json, refused_text, without_json, without_text};

use gm_bench::{Answer, LossRefusal};
use gm_command_line::Form;
use gm_front::loss_text;
use gm_json::{Acceptance, keyed_refused_json, recovered_json, recovered_without_json};
use gm_lines::shown;
use gm_process::Status;
use gm_reports::{Report, as_line};
use std::alloc::{AllocError, Global};

// How many pending intents were carried out, in a line.
fn recovered_text(alloc: Global, redone: u64) -> Result<String, AllocError>
    ensures { IfOk result (λ text. string_bytes text ≡ recovered_text redone) }
{
    format!(in alloc; "recovered {redone}\n")
}

/// Says how many pending intents were carried out.
pub fn recovered(alloc: Global, redone: u64, form: Form) -> Result<Report, AllocError>
    ensures { IfOk result
        (IsDone (in_form form (recovered_text redone) (recovered_json redone))) }
{
    let text = match form {
        Form::Text => recovered_text(alloc, redone)?,
        Form::Json => as_line(recovered_json(alloc, redone)?)?,
    };
    Ok(Report {
        status: Status::Done,
        text,
    })
}

// What a loss was answered, and how many intents were pending, in two lines.
fn without_text(alloc: Global, key: &str, answer: Answer, redone: u64) -> Result<String, AllocError>
    ensures { IfOk result (λ text. string_bytes text ≡ without_text key.now answer redone) }
{
    let mut text = loss_text(alloc, key, Ok(answer))?;
    writeln!(text, "recovered {redone}")?;
    Ok(text)
}

// The same as JSON.
fn without_json(alloc: Global, key: &str, answer: Answer, redone: u64) -> Result<String, AllocError>
    ensures { IfOk result (λ text. string_bytes text ≡ without_json key.now answer redone) }
{
    let key = shown(key);
    match answer {
        Answer::Done(number, _) => {
            recovered_without_json(alloc, Acceptance::Now, key, redone, number)
        }
        Answer::Repeated(number, _) => {
            recovered_without_json(alloc, Acceptance::Before, key, redone, number)
        }
        Answer::Refused(why) => keyed_refused_json(alloc, key, why.number()),
    }
}

/// Says what the loss was answered with which a bench was opened, and how many intents were
/// pending.
pub fn recovered_without(
    alloc: Global,
    key: &str,
    answer: Answer,
    redone: u64,
    form: Form,
) -> Result<Report, AllocError>
    ensures { IfOk result (IsDone (in_form form
        (without_text key.now answer redone) (without_json key.now answer redone))) }
{
    let text = match form {
        Form::Text => without_text(alloc, key, answer, redone)?,
        Form::Json => as_line(without_json(alloc, key, answer, redone)?)?,
    };
    Ok(Report {
        status: Status::Done,
        text,
    })
}

// Why a loss is refused, as JSON.
fn refused_json(alloc: Global, key: &str, why: LossRefusal) -> Result<String, AllocError>
    ensures { IfOk result (λ text. string_bytes text ≡ refused_json key.now why) }
{
    keyed_refused_json(alloc, shown(key), why.number())
}

/// Says why the loss is refused with which a bench was to be opened.
pub fn refused_without(
    alloc: Global,
    key: &str,
    why: LossRefusal,
    form: Form,
) -> Result<Report, AllocError>
    ensures { IfOk result (IsRefused
        (in_form form (refused_text key.now why) (refused_json key.now why))) }
{
    let text = match form {
        Form::Text => loss_text(alloc, key, Err(why))?,
        Form::Json => as_line(refused_json(alloc, key, why)?)?,
    };
    Ok(Report {
        status: Status::Refused,
        text,
    })
}
