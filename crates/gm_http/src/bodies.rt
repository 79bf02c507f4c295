//! The call that the body of a request holds, and whether it is forced.

ghost use Rattle.std.specs.Prelude.{◌≡◌, IfOk, map, option_map, string_bytes};
ghost use Rattle.serde_json.specs.View.{items_view, view};
ghost use Rattle.gm_http.specs.Bodies.{call_by, call_in, call_of, force_in, forced_in, has_count, key_in, texts_in, texts_of, words_in};

use serde_json::Value;
use std::alloc::{AllocError, Global};
use std::str;

/// A key and the words of a command, and whether it is forced.
#[derive(Drop)]
pub(crate) struct Call {
    pub(crate) key: String,
    pub(crate) words: Vec<String>,
    pub(crate) forced: bool,
}

#[tactic(auto, using(crate::proofs::Members::count_of), unfolding(crate::specs::Bodies::has_count))]
fn has_count(value: &Value, count: usize) -> bool
    ensures { result ≡ has_count count (view value.now) }
{
    match value.as_object() {
        Some(members) => members.len() == count,
        None => false,
    }
}

#[tactic(auto, unfolding(crate::specs::Bodies::key_in))]
fn key_in(value: &Value) -> Option<&str>
    ensures { option_map (λ key. key.now) result ≡ key_in (view value.now) }
{
    value.get("key")?.as_str()
}

// The texts of strings, if each value is one.
fn texts_of(alloc: Global, values: &[Value]) -> Result<Option<Vec<String>>, AllocError>
    ensures { IfOk result (λ found. option_map (λ texts. map string_bytes texts.items) found
        ≡ texts_of (items_view values.now)) }
{
    let mut texts = Vec::new(alloc);
    for value in values {
        let Some(text) = value.as_str() else {
            return Ok(None);
        };
        texts.push(String::from_str(alloc, text)?)?;
    }
    Ok(Some(texts))
}

#[tactic(auto, unfolding(crate::specs::Bodies::words_in))]
fn words_in(alloc: Global, value: &Value) -> Result<Option<Vec<String>>, AllocError>
    ensures { IfOk result (λ found. option_map (λ words. map string_bytes words.items) found
        ≡ words_in (view value.now)) }
{
    match value.get("words").and_then(Value::as_array) {
        Some(values) => texts_of(alloc, values),
        None => Ok(None),
    }
}

#[tactic(auto, unfolding(crate::specs::Bodies::force_in))]
fn force_in(value: &Value) -> Option<bool>
    ensures { result ≡ force_in (view value.now) }
{
    value.get("force")?.as_bool()
}

#[tactic(auto, unfolding(crate::specs::Bodies::forced_in))]
fn forced_in(value: &Value, takes_force: bool) -> Option<bool>
    ensures { result ≡ forced_in takes_force (view value.now) }
{
    if has_count(value, 2) {
        return Some(false);
    }
    if takes_force && has_count(value, 3) {
        return force_in(value);
    }
    None
}

#[tactic(auto, unfolding(crate::specs::Bodies::call_by))]
fn call_by(alloc: Global, value: &Value, forced: bool) -> Result<Option<Call>, AllocError>
    ensures { IfOk result (λ found. option_map texts_in found ≡ call_by (view value.now) forced) }
{
    let Some(key) = key_in(value) else {
        return Ok(None);
    };
    let Some(words) = words_in(alloc, value)? else {
        return Ok(None);
    };
    let key = String::from_str(alloc, key)?;
    Ok(Some(Call { key, words, forced }))
}

#[tactic(auto, unfolding(crate::specs::Bodies::call_in))]
fn call_in(alloc: Global, value: &Value, takes_force: bool) -> Result<Option<Call>, AllocError>
    ensures { IfOk result (λ found. option_map texts_in found
        ≡ call_in takes_force (view value.now)) }
{
    match forced_in(value, takes_force) {
        Some(forced) => call_by(alloc, value, forced),
        None => Ok(None),
    }
}

/// The call that a body holds; `None` if it isn't in UTF-8, JSON and an object of just the
/// members `key`, a string, and `words`, an array of strings. If `force` is taken, that may be a
/// member too, `true` or `false`.
#[tactic(auto, unfolding(crate::specs::Bodies::call_of))]
pub(crate) fn call_of(
    alloc: Global,
    bytes: &[u8],
    takes_force: bool,
) -> Result<Option<Call>, AllocError>
    ensures { IfOk result (λ found. option_map texts_in found ≡ call_of takes_force bytes.now) }
{
    let Ok(text) = str::from_utf8(bytes) else {
        return Ok(None);
    };
    match Value::from_str(alloc, text) {
        Ok(value) => call_in(alloc, &value, takes_force),
        Err(e) if e.is_memory() => Err(AllocError),
        Err(_) => Ok(None),
    }
}
