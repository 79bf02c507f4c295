//! The text of a list: all that is known of the mirrors and their components.

ghost use Rattle.std.specs.Prelude.{◌≡◌, IfOk};
ghost use Rattle.std.specs.String.{string_bytes};
ghost use Rattle.gm_words.specs.Listing.{block, component_lines, list_text, mirror_lines, setting_lines, standing_lines, yes_where};

use crate::lines::{disk_flags_text, mirror_flags_text, push_field, push_number};
use gm_state::{Component, Mirror, State, bytes_of, state_among, state_by};
use std::alloc::{AllocError, Global};

fn yes_where(holds: bool) -> &'static str
    ensures { result.now ≡ yes_where holds }
{
    if holds { "yes" } else { "no" }
}

// The lines that tell which mirror it is, and how it stands with these components.
fn standing_lines(alloc: Global, m: &Mirror, members: &[Component]) -> Result<String, AllocError>
    ensures { IfOk result (λ text. string_bytes text ≡ standing_lines m.now members.now) }
{
    let state_name = state_among(m, members).name();
    let mut text = String::new(alloc);
    push_field(&mut text, "Mirror", m.name.as_str())?;
    push_field(&mut text, "State", state_name)?;
    push_number(&mut text, "Mid", u64::from(m.mid))?;
    push_number(&mut text, "All", u64::from(m.all))?;
    push_number(&mut text, "Genid", u64::from(m.genid))?;
    push_number(&mut text, "Syncid", u64::from(m.syncid))?;
    Ok(text)
}

// The lines that tell how it is set, and how large it is.
fn setting_lines(alloc: Global, m: &Mirror) -> Result<String, AllocError>
    ensures { IfOk result (λ text. string_bytes text ≡ setting_lines m.now) }
{
    let flags = mirror_flags_text(alloc, m.flags)?;
    let mut text = String::new(alloc);
    push_field(&mut text, "Balance", m.balance.name())?;
    push_number(&mut text, "Slice", u64::from(m.slice))?;
    push_field(&mut text, "Flags", flags.as_str())?;
    push_number(&mut text, "Mediasize", bytes_of(m.data_sectors))?;
    Ok(text)
}

// The lines of a mirror that has these components.
fn mirror_lines(alloc: Global, m: &Mirror, members: &[Component]) -> Result<String, AllocError>
    ensures { IfOk result (λ text. string_bytes text ≡ mirror_lines m.now members.now) }
{
    let settings = setting_lines(alloc, m)?;
    let mut text = standing_lines(alloc, m, members)?;
    text.push_str(settings.as_str())?;
    push_number(&mut text, "Components", members.len() as u64)?;
    Ok(text)
}

// The lines of a component.
fn component_lines(alloc: Global, m: &Mirror, k: &Component) -> Result<String, AllocError>
    ensures { IfOk result (λ text. string_bytes text ≡ component_lines m.now k.now) }
{
    let provider = k.provider;
    let flags = disk_flags_text(alloc, k.disk.flags())?;
    let mut text = format!(in alloc; "- {provider}\n")?;
    push_field(&mut text, "  State", state_by(m.flags, k.disk).name())?;
    push_number(&mut text, "  Did", u64::from(k.did))?;
    push_number(&mut text, "  Priority", u64::from(k.priority))?;
    push_number(&mut text, "  Syncid", u64::from(k.syncid))?;
    push_field(&mut text, "  Flags", flags.as_str())?;
    push_number(&mut text, "  Offset", bytes_of(k.disk.held()))?;
    push_number(&mut text, "  Provsize", bytes_of(k.sectors))?;
    push_field(&mut text, "  Hardcoded", yes_where(k.hardcoded))?;
    Ok(text)
}

// A mirror, and below it its components.
fn block(alloc: Global, mirror: &Mirror, members: &[Component]) -> Result<String, AllocError>
    ensures { IfOk result (λ text. string_bytes text ≡ block mirror.now members.now) }
{
    let mut text = mirror_lines(alloc, mirror, members)?;
    for component in members {
        text.push_str(component_lines(alloc, mirror, component)?.as_str())?;
    }
    Ok(text)
}

/// All that is known of each mirror, in byte order of names, and of each of its components, with an
/// empty line between two mirrors; `no mirrors` if there is none. The form is this project's
/// own, after `gmirror list`.
pub fn list_text(alloc: Global, state: &State) -> Result<String, AllocError>
    ensures { IfOk result (λ text. string_bytes text ≡ list_text state.now) }
{
    if state.mirrors().is_empty() {
        return String::from_str(alloc, "no mirrors\n");
    }
    let mut blocks = Vec::new(alloc);
    for mirror in state.mirrors() {
        let members = state.members(alloc, mirror.name)?;
        blocks.push(block(alloc, mirror, &members)?)?;
    }
    blocks.join(alloc, "\n")
}
