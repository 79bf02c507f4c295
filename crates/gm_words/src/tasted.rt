//! The text of what the last sectors of images tell: the mirrors, and the images that are left out.

ghost use Rattle.std.specs.Prelude.{◌≡◌, ◌++◌, codes, IfOk, OnOk};
ghost use Rattle.std.specs.String.{string_bytes};
ghost use Rattle.gm_words.specs.Lines.{field};
ghost use Rattle.gm_words.specs.Tasting.{dirty_mark, filled, group_block, group_line, groups_text, left_line, left_text, member_line, named_number, named_source, reason_text, sectors_of, source_line, standing, tasting_text};

use crate::lines::{push_field, push_left_in_15};
use gm_metadata::DecodeFault;
use gm_taste::{Group, LeftOut, Member, MemberState, Reason, Tasted, has_sure_member, source_of};
use std::alloc::{AllocError, Global};

// Appends how many sectors of how many these bytes are.
fn push_sectors(text: &mut String, offset: u64, mediasize: u64) -> Result<(), AllocError>
    ensures { OnOk result (string_bytes text.new
        ≡ string_bytes text.old ++ sectors_of offset mediasize) }
{
    let held = offset / 512;
    let all = mediasize / 512;
    write!(text, " {held} of {all}")
}

// Appends how far a member is that is to be filled.
fn push_filled(text: &mut String, state: MemberState, mediasize: u64) -> Result<(), AllocError>
    ensures { OnOk result (string_bytes text.new
        ≡ string_bytes text.old ++ filled state mediasize) }
{
    match state {
        MemberState::Inactive | MemberState::Broken | MemberState::Active => Ok(()),
        MemberState::Stale(offset) | MemberState::Synchronizing(offset) => {
            push_sectors(text, offset, mediasize)
        }
    }
}

// Appends that a member says DIRTY, if it does.
fn push_dirty_mark(text: &mut String, dirty: bool) -> Result<(), AllocError>
    ensures { OnOk result (string_bytes text.new ≡ string_bytes text.old ++ dirty_mark dirty) }
{
    if dirty {
        text.push_str(" DIRTY")?;
    }
    Ok(())
}

// Appends how a member stands.
fn push_standing(text: &mut String, member: &Member) -> Result<(), AllocError>
    ensures { OnOk result (string_bytes text.new ≡ string_bytes text.old ++ standing member.now) }
{
    let state = member.state;
    let state_name = state.name();
    write!(text, " {state_name}")?;
    push_filled(text, state, member.metadata.mediasize)?;
    push_dirty_mark(text, member.metadata.dflags.dirty)
}

// Appends the line of a member.
fn push_member_line(text: &mut String, member: &Member) -> Result<(), AllocError>
    ensures { OnOk result
        (string_bytes text.new ≡ string_bytes text.old ++ member_line member.now) }
{
    text.push_str("  ")?;
    push_left_in_15(text, member.provider)?;
    push_standing(text, member)?;
    text.push('\n')
}

// Appends a number after its name.
fn push_named_number(text: &mut String, name: &str, value: u32) -> Result<(), AllocError>
    ensures { OnOk result (string_bytes text.new
        ≡ string_bytes text.old ++ named_number name.now value) }
{
    write!(text, " {name} {value}")
}

// Appends the line of a mirror.
fn push_group_line(text: &mut String, group: &Group) -> Result<(), AllocError>
    ensures { OnOk result (string_bytes text.new ≡ string_bytes text.old ++ group_line group.now) }
{
    push_left_in_15(text, group.name)?;
    push_named_number(text, "mid", group.mid)?;
    push_named_number(text, "genid", group.genid)?;
    push_named_number(text, "syncid", group.syncid)?;
    text.push('\n')
}

// Appends the line of a source.
fn push_named_source(text: &mut String, name: &str, sure: bool) -> Result<(), AllocError>
    ensures { OnOk result (string_bytes text.new
        ≡ string_bytes text.old ++ field (codes "  source") (named_source name.now sure)) }
{
    if sure {
        push_field(text, "  source", name)
    } else {
        writeln!(
            text,
            "  source: {name}, but none is sure: each ACTIVE one is DIRTY"
        )
    }
}

// Appends the line of the member that the data are taken from.
fn push_source_line(text: &mut String, group: &Group) -> Result<(), AllocError>
    ensures { OnOk result (string_bytes text.new ≡ string_bytes text.old ++ source_line group.now) }
{
    match source_of(group) {
        Some(name) => push_named_source(text, name.as_str(), has_sure_member(group)),
        None => push_field(text, "  source", "(none)"),
    }
}

// Appends a mirror, and below it its members and its source.
fn push_group(text: &mut String, group: &Group) -> Result<(), AllocError>
    ensures { OnOk result (string_bytes text.new ≡ string_bytes text.old ++ group_block group.now) }
{
    push_group_line(text, group)?;
    for member in &group.members {
        push_member_line(text, member)?;
    }
    push_source_line(text, group)
}

// Appends why an image is left out.
fn push_reason(text: &mut String, reason: Reason) -> Result<(), AllocError>
    ensures { OnOk result (string_bytes text.new ≡ string_bytes text.old ++ reason_text reason) }
{
    match reason {
        Reason::Decode(DecodeFault::Magic) => text.push_str("no metadata"),
        Reason::Decode(fault) => {
            let number = fault.number();
            write!(text, "fault {number}")
        }
        Reason::OtherName => text.push_str("names another image"),
        Reason::OtherSize => text.push_str("tells another size"),
    }
}

// Appends the line of an image that is left out.
fn push_left_line(text: &mut String, left: &LeftOut) -> Result<(), AllocError>
    ensures { OnOk result (string_bytes text.new ≡ string_bytes text.old ++ left_line left.now) }
{
    text.push_str("  ")?;
    push_left_in_15(text, left.provider)?;
    text.push_str(" ")?;
    push_reason(text, left.reason)?;
    text.push('\n')
}

// Appends the images that are left out, if some are.
fn push_left(text: &mut String, left: &[LeftOut]) -> Result<(), AllocError>
    ensures { OnOk result (string_bytes text.new ≡ string_bytes text.old ++ left_text left.now) }
{
    if left.is_empty() {
        return Ok(());
    }
    text.push_str("left out:\n")?;
    for x in left {
        push_left_line(text, x)?;
    }
    Ok(())
}

// The mirrors; `no mirrors` if there is none.
fn groups_text(alloc: Global, groups: &[Group]) -> Result<String, AllocError>
    ensures { IfOk result (λ text. string_bytes text ≡ groups_text groups.now) }
{
    if groups.is_empty() {
        return String::from_str(alloc, "no mirrors\n");
    }
    let mut text = String::new(alloc);
    for group in groups {
        push_group(&mut text, group)?;
    }
    Ok(text)
}

/// What the last sectors of images tell: each mirror, below it its members and the one that its
/// data are taken from, and last the images that are left out. `no mirrors` if there is none.
/// A member that says DIRTY is marked, and if each ACTIVE one does, the source is no sure one.
/// The form is this project's own.
pub fn tasting_text(alloc: Global, tasted: &Tasted) -> Result<String, AllocError>
    ensures { IfOk result (λ text. string_bytes text ≡ tasting_text tasted.now) }
{
    let mut text = groups_text(alloc, &tasted.groups)?;
    push_left(&mut text, &tasted.left)?;
    Ok(text)
}
