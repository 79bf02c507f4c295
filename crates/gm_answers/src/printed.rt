//! The texts of what a command came to, each with its line feed.

ghost use Rattle.std.specs.Prelude.{◌≡◌, IfOk};
ghost use Rattle.std.specs.String.{string_bytes};
ghost use Rattle.gm_answers.specs.Printed.{answer_json, not_done_form, not_done_line, outcome_form, outcome_line, withheld_form};

use gm_bench::Answer;
use gm_command_line::Form;
use gm_front::{Outcome, withheld_text};
use gm_json::{
    keyed_done_json, keyed_fault_json, keyed_refused_json, keyed_repeated_json, not_done_json,
    withheld_json,
};
use gm_lines::shown;
use gm_looks::Unlike;
use gm_reports::as_line;
use std::alloc::{AllocError, Global};

// An answer under a key, as JSON.
fn answer_json(alloc: Global, key: &str, answer: Answer) -> Result<String, AllocError>
    ensures { IfOk result (λ text. string_bytes text ≡ answer_json key.now answer) }
{
    match answer {
        Answer::Done(number, reply) => keyed_done_json(alloc, key, number, reply),
        Answer::Repeated(number, _) => keyed_repeated_json(alloc, key, number),
        Answer::Refused(why) => keyed_refused_json(alloc, key, why.number()),
    }
}

// What a command came to as a line of JSON; nothing if nothing was asked.
fn outcome_line(alloc: Global, outcome: &Outcome<'_>) -> Result<String, AllocError>
    ensures { IfOk result (λ text. string_bytes text ≡ outcome_line outcome.now) }
{
    match *outcome {
        Outcome::Nothing => Ok(String::new(alloc)),
        Outcome::Wrong(key) => as_line(keyed_refused_json(alloc, key, 1)?),
        Outcome::Answered(key, answer) => as_line(answer_json(alloc, shown(key), answer)?),
        Outcome::Failed(key, fault) => {
            as_line(keyed_fault_json(alloc, shown(key), fault.number())?)
        }
    }
}

/// What a command came to; nothing if nothing was asked.
pub fn outcome_in(alloc: Global, form: Form, outcome: &Outcome<'_>) -> Result<String, AllocError>
    ensures { IfOk result (λ text. string_bytes text ≡ outcome_form outcome.now form) }
{
    match form {
        Form::Text => outcome.text(alloc),
        Form::Json => outcome_line(alloc, outcome),
    }
}

/// That a command isn't done, and the images that stand in its way.
pub fn withheld_in(
    alloc: Global,
    form: Form,
    key: &str,
    list: &[Unlike],
) -> Result<String, AllocError>
    ensures { IfOk result (λ text. string_bytes text ≡ withheld_form key.now list.now form) }
{
    match form {
        Form::Text => withheld_text(alloc, key, list),
        Form::Json => as_line(withheld_json(alloc, shown(key), list)?),
    }
}

// That a command under this key isn't done, as a line.
fn not_done_line(alloc: Global, key: &str) -> Result<String, AllocError>
    ensures { IfOk result (λ text. string_bytes text ≡ not_done_line key.now) }
{
    let mut text = String::new(alloc);
    writeln!(text, "{key} not done")?;
    Ok(text)
}

/// That a command isn't done, because data would be lost.
pub fn not_done_in(alloc: Global, form: Form, key: &str) -> Result<String, AllocError>
    ensures { IfOk result (λ text. string_bytes text ≡ not_done_form key.now form) }
{
    match form {
        Form::Text => not_done_line(alloc, key),
        Form::Json => as_line(not_done_json(alloc, key)?),
    }
}
