//! What is answered to a command under its key, for a program that reads what the program's own
//! words come to.

ghost use Rattle.std.specs.Prelude.{◌≡◌, IfOk, map};
ghost use Rattle.std.specs.String.{string_bytes};
ghost use Rattle.serde_json.specs.View.{items_of, items_view, view};
ghost use Rattle.gm_json.specs.Keyed.{acceptance_word, in_the_way_data, keyed_done_data, keyed_done_json, keyed_fault_json, keyed_refused_json, keyed_repeated_json, not_done_data, not_done_json, recovered_data, recovered_json, recovered_without_data, recovered_without_json, with_number, with_seq, withheld_data, withheld_json};

use crate::text::text_of;
use gm_looks::Unlike;
use gm_state::Reply;
use gm_unlike::told_standing;
use serde_json::{Value, json};
use std::alloc::{AllocError, Global};

// An answer with the number of a command.
fn with_seq(alloc: Global, answer: &str, key: &str, seq: u64) -> Result<Value, AllocError>
    ensures { IfOk result (λ v. view v ≡ with_seq answer.now key.now seq) }
{
    json!(in alloc; {"answer": answer, "key": key, "seq": seq})
}

// An answer with the number of a refusal or a fault.
fn with_number(alloc: Global, answer: &str, key: &str, number: u8) -> Result<Value, AllocError>
    ensures { IfOk result (λ v. view v ≡ with_number answer.now key.now number) }
{
    json!(in alloc; {"answer": answer, "key": key, "number": number})
}

fn keyed_done_value(alloc: Global, key: &str, seq: u64, reply: Reply) -> Result<Value, AllocError>
    ensures { IfOk result (λ v. view v ≡ keyed_done_data key.now seq reply) }
{
    match reply {
        Reply::Plain => with_seq(alloc, "ok", key, seq),
        Reply::Copied { held, total } => {
            json!(in alloc; {
                "answer": "ok", "copied": held, "key": key, "of": total, "seq": seq
            })
        }
    }
}

/// The answer to a command that was accepted under this number.
pub fn keyed_done_json(
    alloc: Global,
    key: &str,
    seq: u64,
    reply: Reply,
) -> Result<String, AllocError>
    ensures { IfOk result (λ text. string_bytes text ≡ keyed_done_json key.now seq reply) }
{
    let value = keyed_done_value(alloc, key, seq, reply)?;
    text_of(alloc, &value)
}

/// The answer to a command that was accepted before, under this number.
pub fn keyed_repeated_json(alloc: Global, key: &str, seq: u64) -> Result<String, AllocError>
    ensures { IfOk result (λ text. string_bytes text ≡ keyed_repeated_json key.now seq) }
{
    let value = with_seq(alloc, "repeated", key, seq)?;
    text_of(alloc, &value)
}

/// The answer to a command that is refused, by the number of the refusal.
pub fn keyed_refused_json(alloc: Global, key: &str, number: u8) -> Result<String, AllocError>
    ensures { IfOk result (λ text. string_bytes text ≡ keyed_refused_json key.now number) }
{
    let value = with_number(alloc, "refused", key, number)?;
    text_of(alloc, &value)
}

/// That the bench failed at a command, by the number of its fault.
pub fn keyed_fault_json(alloc: Global, key: &str, number: u8) -> Result<String, AllocError>
    ensures { IfOk result (λ text. string_bytes text ≡ keyed_fault_json key.now number) }
{
    let value = with_number(alloc, "fault", key, number)?;
    text_of(alloc, &value)
}

fn in_the_way_value(alloc: Global, unlike: &Unlike) -> Result<Value, AllocError>
    ensures { IfOk result (λ v. view v ≡ in_the_way_data unlike.now) }
{
    let image = unlike.provider.as_str();
    let standing = told_standing(unlike.standing);
    json!(in alloc; {"image": image, "standing": standing})
}

pub(crate) fn in_the_way_values(alloc: Global, list: &[Unlike]) -> Result<Vec<Value>, AllocError>
    ensures { IfOk result (λ vs. items_view vs.items ≡ items_of (map in_the_way_data list.now)) }
{
    let mut values = Vec::new(alloc);
    for unlike in list {
        values.push(in_the_way_value(alloc, unlike)?)?;
    }
    Ok(values)
}

fn withheld_value(alloc: Global, key: &str, list: &[Unlike]) -> Result<Value, AllocError>
    ensures { IfOk result (λ v. view v ≡ withheld_data key.now list.now) }
{
    let images = in_the_way_values(alloc, list)?;
    json!(in alloc; {"answer": "not done", "images": images, "key": key})
}

/// That a command isn't done, because these images stand in its way, and how each stands.
pub fn withheld_json(alloc: Global, key: &str, list: &[Unlike]) -> Result<String, AllocError>
    ensures { IfOk result (λ text. string_bytes text ≡ withheld_json key.now list.now) }
{
    let value = withheld_value(alloc, key, list)?;
    text_of(alloc, &value)
}

fn not_done_value(alloc: Global, key: &str) -> Result<Value, AllocError>
    ensures { IfOk result (λ v. view v ≡ not_done_data key.now) }
{
    json!(in alloc; {"answer": "not done", "key": key})
}

/// That a command isn't done, because data would be lost.
pub fn not_done_json(alloc: Global, key: &str) -> Result<String, AllocError>
    ensures { IfOk result (λ text. string_bytes text ≡ not_done_json key.now) }
{
    let value = not_done_value(alloc, key)?;
    text_of(alloc, &value)
}

fn recovered_value(alloc: Global, redone: u64) -> Result<Value, AllocError>
    ensures { IfOk result (λ v. view v ≡ recovered_data redone) }
{
    json!(in alloc; {"recovered": redone})
}

/// How many pending writes were carried out.
pub fn recovered_json(alloc: Global, redone: u64) -> Result<String, AllocError>
    ensures { IfOk result (λ text. string_bytes text ≡ recovered_json redone) }
{
    let value = recovered_value(alloc, redone)?;
    text_of(alloc, &value)
}

/// When a command was accepted that is answered.
#[derive(Clone, Copy, Debug, PartialEq, Eq)]
pub enum Acceptance {
    Now,
    /// Under the same key, so that nothing was done anew.
    Before,
}

impl Acceptance {
    // The word for it.
    fn word(self) -> &'static str
        ensures { result.now ≡ acceptance_word self }
    {
        match self {
            Acceptance::Now => "ok",
            Acceptance::Before => "repeated",
        }
    }
}

fn recovered_without_value(
    alloc: Global,
    acceptance: Acceptance,
    key: &str,
    redone: u64,
    seq: u64,
) -> Result<Value, AllocError>
    ensures { IfOk result
        (λ v. view v ≡ recovered_without_data acceptance key.now redone seq) }
{
    let answer = acceptance.word();
    json!(in alloc; {"answer": answer, "key": key, "recovered": redone, "seq": seq})
}

/// The same after an image was given up by the command with this number.
pub fn recovered_without_json(
    alloc: Global,
    acceptance: Acceptance,
    key: &str,
    redone: u64,
    seq: u64,
) -> Result<String, AllocError>
    ensures { IfOk result (λ text. string_bytes text
        ≡ recovered_without_json acceptance key.now redone seq) }
{
    let value = recovered_without_value(alloc, acceptance, key, redone, seq)?;
    text_of(alloc, &value)
}
