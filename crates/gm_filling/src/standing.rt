//! How components stand, in a line each or as JSON, and that filling them is refused or isn't done,
//! as JSON.

use gm_metadata::Label;
use gm_reports::as_line;
use gm_state::{Component, State, component_state};
use gm_sync::{PassedOver, Scope};
use serde_json::{Map, Value, json, put};
use std::alloc::{AllocError, Global};

// The name of the state of a component.
fn standing_of(state: &State, component: &Component) -> &'static str {
    match component_state(state, component.provider) {
        Some(standing) => standing.name(),
        None => "",
    }
}

// Adds the line of a component.
fn push_standing(
    text: &mut String,
    state: &State,
    component: &Component,
) -> Result<(), AllocError> {
    let mirror = component.mirror.as_str();
    let provider = component.provider.as_str();
    let standing = standing_of(state, component);
    writeln!(text, "{mirror} {provider} {standing}")
}

/// A line for each component that is meant, but for those of mirrors that are passed over.
pub(crate) fn standing_text(
    alloc: Global,
    state: &State,
    scope: &Scope,
    passed_over: &PassedOver,
) -> Result<String, AllocError> {
    let mut text = String::new(alloc);
    for component in state.components() {
        if scope.has(component) && !passed_over.has(component.mirror) {
            push_standing(&mut text, state, component)?;
        }
    }
    Ok(text)
}

// A component, and how it stands.
fn component_value(
    alloc: Global,
    state: &State,
    component: &Component,
) -> Result<Value, AllocError> {
    let mirror = component.mirror.as_str();
    let name = component.provider.as_str();
    let standing = standing_of(state, component);
    json!(in alloc; {"mirror": mirror, "name": name, "state": standing})
}

fn name_values(alloc: Global, names: &[Label]) -> Result<Vec<Value>, AllocError> {
    let mut values = Vec::new(alloc);
    for name in names {
        values.push(Value::try_from_str(alloc, name.as_str())?)?;
    }
    Ok(values)
}

/// A line of JSON with the same components, and the images because of which mirrors are passed
/// over.
pub(crate) fn standing_json(
    alloc: Global,
    state: &State,
    scope: &Scope,
    passed_over: &PassedOver,
) -> Result<String, AllocError> {
    let mut components = Vec::new(alloc);
    for component in state.components() {
        if scope.has(component) && !passed_over.has(component.mirror) {
            components.push(component_value(alloc, state, component)?)?;
        }
    }
    let images = name_values(alloc, &passed_over.images)?;
    let value = json!(in alloc; {"amiss": images, "components": components})?;
    as_line(value.to_string(alloc)?)
}

/// A line of JSON that nothing is done.
pub(crate) fn not_done_json(alloc: Global) -> Result<String, AllocError> {
    let value = json!(in alloc; {"answer": "not done"})?;
    as_line(value.to_string(alloc)?)
}

/// A line of JSON with the number of a refusal, and these images, if there are any, because of
/// which mirrors were passed over before.
pub(crate) fn refused_json(
    alloc: Global,
    number: u8,
    images: &[Label],
) -> Result<String, AllocError> {
    let mut map = Map::new(alloc);
    let answer = Value::try_from_str(alloc, "refused")?;
    put(&mut map, alloc, "answer", answer)?;
    put(&mut map, alloc, "number", Value::from(number))?;
    if !images.is_empty() {
        let images = name_values(alloc, images)?;
        put(&mut map, alloc, "amiss", Value::Array(images))?;
    }
    as_line(Value::Object(map).to_string(alloc)?)
}
