//! What a registry keeps of a command that it accepted, and of all that are shown.

ghost use Rattle.std.specs.Prelude.{◌≡◌, ◌++◌, false, IfOk, List, map};
ghost use Rattle.std.specs.String.{string_bytes};
ghost use Rattle.serde_json.specs.Data.{Data, string};
ghost use Rattle.serde_json.specs.View.{items_of, items_view, view};
ghost use Rattle.gm_json.specs.Fields.{text_of};
ghost use Rattle.gm_json.specs.History.{closing, history_data, kept_data, kept_json, opening, pieces_text, texts};

use crate::text::text_of;
use gm_state::Reply;
use serde_json::{Value, json};
use std::alloc::{AllocError, Global};

/// What is printed before the first of the commands that are shown.
pub fn history_opening() -> &'static str
    ensures { result.now ≡ opening }
{
    "{\"commands\":["
}

/// What is printed after the last of them.
pub fn history_closing() -> &'static str
    ensures { result.now ≡ closing }
{
    "]}"
}

fn word_values(alloc: Global, words: &[&str]) -> Result<Vec<Value>, AllocError>
    ensures { IfOk result (λ vs. items_view vs.items
        ≡ items_of (map string (texts words.now))) }
{
    let mut values = Vec::new(alloc);
    for word in words {
        values.push(Value::try_from_str(alloc, word)?)?;
    }
    Ok(values)
}

fn kept_value(
    alloc: Global,
    key: &str,
    number: u32,
    words: &[&str],
    reply: Reply,
) -> Result<Value, AllocError>
    ensures { IfOk result (λ v. view v ≡ kept_data key.now number (texts words.now) reply) }
{
    let words = word_values(alloc, words)?;
    match reply {
        Reply::Plain => json!(in alloc; {
            "answer": "ok", "key": key, "number": number, "words": words
        }),
        Reply::Copied { held, total } => json!(in alloc; {
            "answer": "ok", "copied": held, "key": key, "number": number, "of": total,
            "words": words
        }),
    }
}

/// A command that was accepted: its key, its number, its words and its answer.
pub fn kept_json(
    alloc: Global,
    key: &str,
    number: u32,
    words: &[&str],
    reply: Reply,
) -> Result<String, AllocError>
    ensures { IfOk result (λ text. string_bytes text
        ≡ kept_json key.now number (texts words.now) reply) }
{
    let value = kept_value(alloc, key, number, words, reply)?;
    text_of(alloc, &value)
}

/// What is printed piece by piece is the text of one object, which has each of them in turn.
pub fn pieces_make_history()
    ensures { (ds : List Data)
        → opening ++ pieces_text false ds ++ closing ≡ text_of (history_data ds) }
{}
