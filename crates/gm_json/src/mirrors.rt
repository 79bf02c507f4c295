//! How the mirrors stand, and what is known of one.

ghost use Rattle.std.specs.Prelude.{◌≡◌, IfOk, map, option_map};
ghost use Rattle.std.specs.String.{string_bytes};
ghost use Rattle.serde_json.specs.View.{items_of, items_view, view};
ghost use Rattle.gm_state.specs.Records.{members};
ghost use Rattle.gm_json.specs.Mirrors.{component_data, component_with, mirror_data, mirror_json, mirror_with, standing_component, standing_mirror, standing_with, state_of, status_data, status_json};

use crate::text::{put_text, text_of};
use gm_metadata::Label;
use gm_state::{Component, Mirror, State, bytes_of, state_among, state_by};
use serde_json::{Map, Value, json, put};
use std::alloc::{AllocError, Global};

// The name of the state of a component.
pub(crate) fn state_of(m: &Mirror, k: &Component) -> &'static str
    ensures { result.now ≡ state_of m.now k.now }
{
    state_by(m.flags, k.disk).name()
}

// A component in the status.
fn standing_component(alloc: Global, m: &Mirror, k: &Component) -> Result<Value, AllocError>
    ensures { IfOk result (λ v. view v ≡ standing_component m.now k.now) }
{
    let mut map = Map::new(alloc);
    put_text(&mut map, alloc, "name", k.provider.as_str())?;
    put_text(&mut map, alloc, "state", state_of(m, k))?;
    Ok(Value::Object(map))
}

fn standing_components(
    alloc: Global,
    m: &Mirror,
    members: &[Component],
) -> Result<Vec<Value>, AllocError>
    ensures { IfOk result (λ vs. items_view vs.items
        ≡ items_of (map (standing_component m.now) members.now)) }
{
    let mut values = Vec::new(alloc);
    for component in members {
        values.push(standing_component(alloc, m, component)?)?;
    }
    Ok(values)
}

// A mirror in the status that has these components, which are told so.
pub(crate) fn standing_with(
    alloc: Global,
    components: Value,
    m: &Mirror,
    members: &[Component],
) -> Result<Value, AllocError>
    ensures { IfOk result (λ v. view v ≡ standing_with (view components) m.now members.now) }
{
    let mut map = Map::new(alloc);
    put(&mut map, alloc, "components", components)?;
    put_text(&mut map, alloc, "name", m.name.as_str())?;
    put_text(&mut map, alloc, "state", state_among(m, members).name())?;
    Ok(Value::Object(map))
}

// A mirror with these components in the status.
fn standing_mirror(alloc: Global, m: &Mirror, members: &[Component]) -> Result<Value, AllocError>
    ensures { IfOk result (λ v. view v ≡ standing_mirror m.now members.now) }
{
    let components = Value::Array(standing_components(alloc, m, members)?);
    standing_with(alloc, components, m, members)
}

// Each mirror in the status.
pub(crate) fn standing_mirrors(alloc: Global, state: &State) -> Result<Vec<Value>, AllocError>
    ensures { IfOk result (λ vs. items_view vs.items ≡ items_of
        (map (λ m. standing_mirror m (members state.now.components m.name)) state.now.mirrors)) }
{
    let mut values = Vec::new(alloc);
    for mirror in state.mirrors() {
        let members = state.members(alloc, mirror.name)?;
        values.push(standing_mirror(alloc, mirror, &members)?)?;
    }
    Ok(values)
}

// How each mirror stands.
fn status_value(alloc: Global, state: &State) -> Result<Value, AllocError>
    ensures { IfOk result (λ v. view v ≡ status_data state.now) }
{
    let mirrors = standing_mirrors(alloc, state)?;
    json!(in alloc; {"mirrors": mirrors})
}

/// How each mirror stands, and each of its components, in byte order of names.
pub fn status_json(alloc: Global, state: &State) -> Result<String, AllocError>
    ensures { IfOk result (λ text. string_bytes text ≡ status_json state.now) }
{
    let value = status_value(alloc, state)?;
    text_of(alloc, &value)
}

// All that is known of a component, whose flags are told so.
pub(crate) fn component_with(
    alloc: Global,
    flags: Value,
    m: &Mirror,
    k: &Component,
) -> Result<Value, AllocError>
    ensures { IfOk result (λ v. view v ≡ component_with (view flags) m.now k.now) }
{
    let mut map = Map::new(alloc);
    put(&mut map, alloc, "did", Value::from(k.did))?;
    put(&mut map, alloc, "flags", flags)?;
    put(&mut map, alloc, "hardcoded", Value::from(k.hardcoded))?;
    put_text(&mut map, alloc, "name", k.provider.as_str())?;
    put(
        &mut map,
        alloc,
        "offset",
        Value::from(bytes_of(k.disk.held())),
    )?;
    put(&mut map, alloc, "priority", Value::from(k.priority))?;
    put(
        &mut map,
        alloc,
        "provsize",
        Value::from(bytes_of(k.sectors)),
    )?;
    put_text(&mut map, alloc, "state", state_of(m, k))?;
    put(&mut map, alloc, "syncid", Value::from(k.syncid))?;
    Ok(Value::Object(map))
}

// All that is known of a component, with its flags as a number.
fn component_value(alloc: Global, m: &Mirror, k: &Component) -> Result<Value, AllocError>
    ensures { IfOk result (λ v. view v ≡ component_data m.now k.now) }
{
    let flags = Value::from(k.disk.flags().bits());
    component_with(alloc, flags, m, k)
}

fn component_values(
    alloc: Global,
    m: &Mirror,
    members: &[Component],
) -> Result<Vec<Value>, AllocError>
    ensures { IfOk result (λ vs. items_view vs.items
        ≡ items_of (map (component_data m.now) members.now)) }
{
    let mut values = Vec::new(alloc);
    for component in members {
        values.push(component_value(alloc, m, component)?)?;
    }
    Ok(values)
}

// All that is known of a mirror with these components, of which it has these values, and whose
// flags are told so.
pub(crate) fn mirror_with(
    alloc: Global,
    flags: Value,
    components: Value,
    m: &Mirror,
    members: &[Component],
) -> Result<Value, AllocError>
    ensures { IfOk result
        (λ v. view v ≡ mirror_with (view flags) (view components) m.now members.now) }
{
    let mut map = Map::new(alloc);
    put(&mut map, alloc, "all", Value::from(m.all))?;
    put_text(&mut map, alloc, "balance", m.balance.name())?;
    put(&mut map, alloc, "components", components)?;
    put(&mut map, alloc, "flags", flags)?;
    put(&mut map, alloc, "genid", Value::from(m.genid))?;
    put(
        &mut map,
        alloc,
        "mediasize",
        Value::from(bytes_of(m.data_sectors)),
    )?;
    put(&mut map, alloc, "mid", Value::from(m.mid))?;
    put_text(&mut map, alloc, "name", m.name.as_str())?;
    put(&mut map, alloc, "slice", Value::from(m.slice))?;
    put_text(&mut map, alloc, "state", state_among(m, members).name())?;
    put(&mut map, alloc, "syncid", Value::from(m.syncid))?;
    Ok(Value::Object(map))
}

// All that is known of a mirror with these components, with flags as numbers.
fn mirror_value(alloc: Global, m: &Mirror, members: &[Component]) -> Result<Value, AllocError>
    ensures { IfOk result (λ v. view v ≡ mirror_data m.now members.now) }
{
    let components = Value::Array(component_values(alloc, m, members)?);
    let flags = Value::from(m.flags.bits());
    mirror_with(alloc, flags, components, m, members)
}

/// All that is known of the mirror of this name and of its components, in byte order of names;
/// `None` if no mirror has the name. Flags are numbers, and sizes and offsets are in bytes.
pub fn mirror_json(alloc: Global, state: &State, name: Label) -> Result<Option<String>, AllocError>
    ensures { IfOk result
        (λ text. option_map string_bytes text ≡ mirror_json state.now name) }
{
    let Some(mirror) = state.mirror(name) else {
        return Ok(None);
    };
    let members = state.members(alloc, mirror.name)?;
    let value = mirror_value(alloc, &mirror, &members)?;
    Ok(Some(text_of(alloc, &value)?))
}
