//! What is told of a registry that is renewed.

ghost use Rattle.std.specs.Prelude.{◌≡◌, IfOk};
ghost use Rattle.std.specs.String.{string_bytes};
ghost use Rattle.serde_json.specs.View.{view};
ghost use Rattle.gm_json.specs.Renewals.{finished_data, finished_json, not_renewed_data, not_renewed_json, renewed_data, renewed_json};

use crate::keyed::in_the_way_values;
use crate::text::text_of;
use gm_looks::Unlike;
use serde_json::{Value, json};
use std::alloc::{AllocError, Global};

fn renewed_value(
    alloc: Global,
    commands: u64,
    kept: &str,
    mirrors: u64,
) -> Result<Value, AllocError>
    ensures { IfOk result (λ v. view v ≡ renewed_data commands kept.now mirrors) }
{
    json!(in alloc; {"commands": commands, "kept": kept, "mirrors": mirrors})
}

/// So many mirrors have a new registry. The old one, with so many commands, is kept at a path.
pub fn renewed_json(
    alloc: Global,
    commands: u64,
    kept: &str,
    mirrors: u64,
) -> Result<String, AllocError>
    ensures { IfOk result (λ text. string_bytes text ≡ renewed_json commands kept.now mirrors) }
{
    let value = renewed_value(alloc, commands, kept, mirrors)?;
    text_of(alloc, &value)
}

fn finished_value(alloc: Global, kept: &str) -> Result<Value, AllocError>
    ensures { IfOk result (λ v. view v ≡ finished_data kept.now) }
{
    json!(in alloc; {"kept": kept})
}

/// A renewal that was stopped is finished, and the old registry is kept at a path.
pub fn finished_json(alloc: Global, kept: &str) -> Result<String, AllocError>
    ensures { IfOk result (λ text. string_bytes text ≡ finished_json kept.now) }
{
    let value = finished_value(alloc, kept)?;
    text_of(alloc, &value)
}

fn not_renewed_value(alloc: Global, list: &[Unlike]) -> Result<Value, AllocError>
    ensures { IfOk result (λ v. view v ≡ not_renewed_data list.now) }
{
    let images = in_the_way_values(alloc, list)?;
    json!(in alloc; {"answer": "not done", "images": images})
}

/// Nothing is renewed, because these images aren't as they are registered, or for another reason if
/// there are none.
pub fn not_renewed_json(alloc: Global, list: &[Unlike]) -> Result<String, AllocError>
    ensures { IfOk result (λ text. string_bytes text ≡ not_renewed_json list.now) }
{
    let value = not_renewed_value(alloc, list)?;
    text_of(alloc, &value)
}
