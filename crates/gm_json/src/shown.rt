//! What a program reads of mirrors that the program's own commands show: flags by their names, and
//! of each component how many of the mirror's data sectors it holds.

ghost use Rattle.std.specs.Prelude.{◌≡◌, ◌++◌, IfOk, OnOk, map};
ghost use Rattle.std.specs.String.{string_bytes};
ghost use Rattle.serde_json.specs.View.{items_of, items_view, view};
ghost use Rattle.gm_state.specs.Disks.{held_by};
ghost use Rattle.gm_state.specs.Records.{members};
ghost use Rattle.gm_json.specs.Shown.{disk_flag_names, held_component, held_data, held_json, held_mirror, mirror_flag_names, name_where, shown_component, shown_data, shown_json, shown_mirror};

use crate::mirrors::{component_with, mirror_with, standing_with, state_of};
use crate::text::{put_text, text_of};
use gm_metadata::{DiskFlags, MirrorFlags};
use gm_state::{Component, Disk, Mirror, State};
use serde_json::{Map, Value, json, put};
use std::alloc::{AllocError, Global};

// Adds a name, if it holds.
fn push_name_where(
    names: &mut Vec<Value>,
    alloc: Global,
    holds: bool,
    name: &str,
) -> Result<(), AllocError>
    ensures { OnOk result
        (map view names.new.items ≡ map view names.old.items ++ name_where holds name.now) }
{
    if holds {
        names.push(Value::try_from_str(alloc, name)?)?;
    }
    Ok(())
}

// The names of a mirror's flags that are set.
fn mirror_flag_names(alloc: Global, flags: MirrorFlags) -> Result<Vec<Value>, AllocError>
    ensures { IfOk result (λ names. map view names.items ≡ mirror_flag_names flags) }
{
    let mut names = Vec::new(alloc);
    push_name_where(&mut names, alloc, flags.no_autosync, "NOAUTOSYNC")?;
    push_name_where(&mut names, alloc, flags.no_failsync, "NOFAILSYNC")?;
    Ok(names)
}

// The names of a component's flags that are set.
fn disk_flag_names(alloc: Global, flags: DiskFlags) -> Result<Vec<Value>, AllocError>
    ensures { IfOk result (λ names. map view names.items ≡ disk_flag_names flags) }
{
    let mut names = Vec::new(alloc);
    push_name_where(&mut names, alloc, flags.dirty, "DIRTY")?;
    push_name_where(&mut names, alloc, flags.synchronizing, "SYNCHRONIZING")?;
    push_name_where(&mut names, alloc, flags.force_sync, "FORCE_SYNC")?;
    push_name_where(&mut names, alloc, flags.inactive, "INACTIVE")?;
    Ok(names)
}

// How many of so many data sectors a component holds that is so.
fn held_by(disk: Disk, all: u32) -> u32
    ensures { result ≡ held_by disk all }
{
    match disk {
        Disk::InSync => all,
        Disk::Inactive => 0,
        Disk::Copying { forced: _, held } => held,
    }
}

// A component in the status, with how many sectors of how many it holds.
fn held_component(alloc: Global, m: &Mirror, k: &Component) -> Result<Value, AllocError>
    ensures { IfOk result (λ v. view v ≡ held_component m.now k.now) }
{
    let held = held_by(k.disk, m.data_sectors);
    let mut map = Map::new(alloc);
    put_text(&mut map, alloc, "name", k.provider.as_str())?;
    put(&mut map, alloc, "of", Value::from(m.data_sectors))?;
    put(&mut map, alloc, "sectors", Value::from(held))?;
    put_text(&mut map, alloc, "state", state_of(m, k))?;
    Ok(Value::Object(map))
}

fn held_components(
    alloc: Global,
    m: &Mirror,
    members: &[Component],
) -> Result<Vec<Value>, AllocError>
    ensures { IfOk result (λ vs. items_view vs.items
        ≡ items_of (map (held_component m.now) members.now)) }
{
    let mut values = Vec::new(alloc);
    for component in members {
        values.push(held_component(alloc, m, component)?)?;
    }
    Ok(values)
}

// A mirror with these components in the status.
fn held_mirror(alloc: Global, m: &Mirror, members: &[Component]) -> Result<Value, AllocError>
    ensures { IfOk result (λ v. view v ≡ held_mirror m.now members.now) }
{
    let components = Value::Array(held_components(alloc, m, members)?);
    standing_with(alloc, components, m, members)
}

fn held_mirrors(alloc: Global, state: &State) -> Result<Vec<Value>, AllocError>
    ensures { IfOk result (λ vs. items_view vs.items ≡ items_of
        (map (λ m. held_mirror m (members state.now.components m.name)) state.now.mirrors)) }
{
    let mut values = Vec::new(alloc);
    for mirror in state.mirrors() {
        let members = state.members(alloc, mirror.name)?;
        values.push(held_mirror(alloc, mirror, &members)?)?;
    }
    Ok(values)
}

fn held_value(alloc: Global, state: &State) -> Result<Value, AllocError>
    ensures { IfOk result (λ v. view v ≡ held_data state.now) }
{
    let mirrors = held_mirrors(alloc, state)?;
    json!(in alloc; {"mirrors": mirrors})
}

/// How each mirror stands, and each of its components, in byte order of names, with how many of
/// the mirror's data sectors a component holds.
pub fn held_json(alloc: Global, state: &State) -> Result<String, AllocError>
    ensures { IfOk result (λ text. string_bytes text ≡ held_json state.now) }
{
    let value = held_value(alloc, state)?;
    text_of(alloc, &value)
}

// All that is known of a component, with the names of its flags.
fn shown_component(alloc: Global, m: &Mirror, k: &Component) -> Result<Value, AllocError>
    ensures { IfOk result (λ v. view v ≡ shown_component m.now k.now) }
{
    let flags = Value::Array(disk_flag_names(alloc, k.disk.flags())?);
    component_with(alloc, flags, m, k)
}

fn shown_components(
    alloc: Global,
    m: &Mirror,
    members: &[Component],
) -> Result<Vec<Value>, AllocError>
    ensures { IfOk result (λ vs. items_view vs.items
        ≡ items_of (map (shown_component m.now) members.now)) }
{
    let mut values = Vec::new(alloc);
    for component in members {
        values.push(shown_component(alloc, m, component)?)?;
    }
    Ok(values)
}

// All that is known of a mirror with these components, with the names of flags.
fn shown_mirror(alloc: Global, m: &Mirror, members: &[Component]) -> Result<Value, AllocError>
    ensures { IfOk result (λ v. view v ≡ shown_mirror m.now members.now) }
{
    let components = Value::Array(shown_components(alloc, m, members)?);
    let flags = Value::Array(mirror_flag_names(alloc, m.flags)?);
    mirror_with(alloc, flags, components, m, members)
}

fn shown_mirrors(alloc: Global, state: &State) -> Result<Vec<Value>, AllocError>
    ensures { IfOk result (λ vs. items_view vs.items ≡ items_of
        (map (λ m. shown_mirror m (members state.now.components m.name)) state.now.mirrors)) }
{
    let mut values = Vec::new(alloc);
    for mirror in state.mirrors() {
        let members = state.members(alloc, mirror.name)?;
        values.push(shown_mirror(alloc, mirror, &members)?)?;
    }
    Ok(values)
}

fn shown_value(alloc: Global, state: &State) -> Result<Value, AllocError>
    ensures { IfOk result (λ v. view v ≡ shown_data state.now) }
{
    let mirrors = shown_mirrors(alloc, state)?;
    json!(in alloc; {"mirrors": mirrors})
}

/// All that is known of each mirror and of its components, in byte order of names. Flags are lists
/// of their names in `g_mirror.h`, and sizes and offsets are in bytes.
pub fn shown_json(alloc: Global, state: &State) -> Result<String, AllocError>
    ensures { IfOk result (λ text. string_bytes text ≡ shown_json state.now) }
{
    let value = shown_value(alloc, state)?;
    text_of(alloc, &value)
}
