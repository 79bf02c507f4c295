//! What is told of images that were tasted, and of what in their folder is none.

ghost use Rattle.std.specs.Prelude.{◌≡◌, IfOk, map};
ghost use Rattle.std.specs.String.{string_bytes};
ghost use Rattle.serde_json.specs.View.{items_of, items_view, view};
ghost use Rattle.gm_json.specs.Sectors.{provider_name};
ghost use Rattle.gm_json.specs.Tastings.{filled_to, left_data, passed_data, reason_text, tasted_component, tasted_mirror, tasted_with, tasting_data, tasting_json};

use crate::text::{put_text, text_of};
use gm_metadata::{DecodeFault, Label};
use gm_shelf::PassedOver;
use gm_taste::{Group, LeftOut, Member, MemberState, Reason, Tasted, has_sure_member, source_of};
use serde_json::{Map, Value, json, put};
use std::alloc::{AllocError, Global};

// Up to where a component has the data that is to be filled, in bytes.
fn filled_to(state: MemberState) -> Option<u64>
    ensures { result ≡ filled_to state }
{
    match state {
        MemberState::Inactive | MemberState::Broken | MemberState::Active => None,
        MemberState::Stale(offset) | MemberState::Synchronizing(offset) => Some(offset),
    }
}

fn component_with(alloc: Global, filled: Option<u64>, x: &Member) -> Result<Value, AllocError>
    ensures { IfOk result (λ v. view v ≡ tasted_with filled x.now) }
{
    let (name, state) = (x.provider.as_str(), x.state.name());
    let dirty = x.metadata.dflags.dirty;
    match filled {
        None => json!(in alloc; {"dirty": dirty, "name": name, "state": state}),
        Some(offset) => {
            let (held, all) = (offset / 512, x.metadata.mediasize / 512);
            json!(in alloc; {
                "copied": held, "dirty": dirty, "name": name, "of": all, "state": state
            })
        }
    }
}

fn component_value(alloc: Global, member: &Member) -> Result<Value, AllocError>
    ensures { IfOk result (λ v. view v ≡ tasted_component member.now) }
{
    component_with(alloc, filled_to(member.state), member)
}

fn component_values(alloc: Global, members: &[Member]) -> Result<Vec<Value>, AllocError>
    ensures { IfOk result
        (λ vs. items_view vs.items ≡ items_of (map tasted_component members.now)) }
{
    let mut values = Vec::new(alloc);
    for member in members {
        values.push(component_value(alloc, member)?)?;
    }
    Ok(values)
}

// The name of the component that the data are taken from.
fn source_name(source: &Option<Label>) -> &str
    ensures { result.now ≡ provider_name source.now }
{
    match source {
        Some(name) => name.as_str(),
        None => "",
    }
}

fn mirror_value(alloc: Global, group: &Group) -> Result<Value, AllocError>
    ensures { IfOk result (λ v. view v ≡ tasted_mirror group.now) }
{
    let source = source_of(group);
    let sure = has_sure_member(group);
    let components = component_values(alloc, &group.members)?;
    let mut map = Map::new(alloc);
    put(&mut map, alloc, "components", Value::Array(components))?;
    put(&mut map, alloc, "genid", Value::from(group.genid))?;
    put(&mut map, alloc, "mid", Value::from(group.mid))?;
    put_text(&mut map, alloc, "name", group.name.as_str())?;
    put_text(&mut map, alloc, "source", source_name(&source))?;
    put(&mut map, alloc, "sure", Value::from(sure))?;
    put(&mut map, alloc, "syncid", Value::from(group.syncid))?;
    Ok(Value::Object(map))
}

fn mirror_values(alloc: Global, groups: &[Group]) -> Result<Vec<Value>, AllocError>
    ensures { IfOk result (λ vs. items_view vs.items ≡ items_of (map tasted_mirror groups.now)) }
{
    let mut values = Vec::new(alloc);
    for group in groups {
        values.push(mirror_value(alloc, group)?)?;
    }
    Ok(values)
}

// Why an image is left out.
fn reason_text(alloc: Global, reason: Reason) -> Result<String, AllocError>
    ensures { IfOk result (λ text. string_bytes text ≡ reason_text reason) }
{
    match reason {
        Reason::Decode(DecodeFault::Magic) => String::from_str(alloc, "no metadata"),
        Reason::Decode(fault) => {
            let number = fault.number();
            format!(in alloc; "fault {number}")
        }
        Reason::OtherName => String::from_str(alloc, "names another image"),
        Reason::OtherSize => String::from_str(alloc, "tells another size"),
    }
}

fn left_value(alloc: Global, left: &LeftOut) -> Result<Value, AllocError>
    ensures { IfOk result (λ v. view v ≡ left_data left.now) }
{
    let reason = reason_text(alloc, left.reason)?;
    let mut map = Map::new(alloc);
    put_text(&mut map, alloc, "name", left.provider.as_str())?;
    put_text(&mut map, alloc, "reason", reason.as_str())?;
    Ok(Value::Object(map))
}

fn left_values(alloc: Global, left: &[LeftOut]) -> Result<Vec<Value>, AllocError>
    ensures { IfOk result (λ vs. items_view vs.items ≡ items_of (map left_data left.now)) }
{
    let mut values = Vec::new(alloc);
    for x in left {
        values.push(left_value(alloc, x)?)?;
    }
    Ok(values)
}

fn passed_value(alloc: Global, passed: &PassedOver) -> Result<Value, AllocError>
    ensures { IfOk result (λ v. view v ≡ passed_data passed.now) }
{
    let reason = format!(in alloc; "{}", passed.reason)?;
    let mut map = Map::new(alloc);
    put_text(&mut map, alloc, "name", passed.name.as_str())?;
    put_text(&mut map, alloc, "reason", reason.as_str())?;
    Ok(Value::Object(map))
}

fn passed_values(alloc: Global, passed: &[PassedOver]) -> Result<Vec<Value>, AllocError>
    ensures { IfOk result (λ vs. items_view vs.items ≡ items_of (map passed_data passed.now)) }
{
    let mut values = Vec::new(alloc);
    for x in passed {
        values.push(passed_value(alloc, x)?)?;
    }
    Ok(values)
}

fn tasting_value(alloc: Global, tasted: &Tasted, passed: &[PassedOver]) -> Result<Value, AllocError>
    ensures { IfOk result (λ v. view v ≡ tasting_data tasted.now passed.now) }
{
    let left = left_values(alloc, &tasted.left)?;
    let mirrors = mirror_values(alloc, &tasted.groups)?;
    let passed = passed_values(alloc, passed)?;
    json!(in alloc; {"left_out": left, "mirrors": mirrors, "passed_over": passed})
}

/// What the last sectors of images tell: each mirror with its components and the one that its data
/// are taken from, which is empty if there is none, and whether any is sure; the images that are
/// left out, and the entries of the folder that aren't images, with the reasons. Of a component
/// that is to be filled it tells also how many sectors of how many it has.
pub fn tasting_json(
    alloc: Global,
    tasted: &Tasted,
    passed: &[PassedOver],
) -> Result<String, AllocError>
    ensures { IfOk result (λ text. string_bytes text ≡ tasting_json tasted.now passed.now) }
{
    let value = tasting_value(alloc, tasted, passed)?;
    text_of(alloc, &value)
}
