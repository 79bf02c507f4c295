//! The text of what was passed over in a folder, since it is no image.

ghost use Rattle.std.specs.Prelude.{◌≡◌, ◌++◌, ◌-◌, IfOk, OnOk, count_by, replicate};
ghost use Rattle.std.specs.String.{string_bytes};
ghost use Rattle.gm_process.specs.Legible.{legible_name};
ghost use Rattle.gm_reports.specs.PassedOver.{begins_character, has_space, passed_line, passed_text, told_name};

use gm_process::legible_name;
use gm_shelf::PassedOver;
use std::alloc::{AllocError, Global};

// Whether a character begins with this byte.
fn begins_character(byte: u8) -> bool
    ensures { result ≡ begins_character byte }
{
    byte < 128 || byte >= 192
}

// How many characters a text has.
fn characters_of(text: &str) -> usize
    ensures { result ≡ count_by begins_character text.now }
{
    text.as_bytes()
        .iter()
        .filter(|byte| begins_character(**byte))
        .count()
}

// Appends what something of so many places lacks to 15.
fn push_rest_of_15(text: &mut String, taken: usize) -> Result<(), AllocError>
    ensures { OnOk result
        (string_bytes text.new ≡ string_bytes text.old ++ replicate (15 - taken) 32) }
{
    for _ in taken..15 {
        text.push(' ')?;
    }
    Ok(())
}

// Whether a name has a space.
fn has_space(name: &str) -> bool
    ensures { result ≡ has_space name.now }
{
    name.as_bytes().iter().any(|byte| *byte == b' ')
}

// A name as it is told: between quotes if it has a space, which nobody would see at its end.
fn told_name(alloc: Global, name: &str) -> Result<String, AllocError>
    ensures { IfOk result (λ text. string_bytes text ≡ told_name (legible_name name.now)) }
{
    let name = legible_name(alloc, name)?;
    if has_space(&name) {
        format!(in alloc; "'{name}'")
    } else {
        Ok(name)
    }
}

// Appends the line of an entry.
fn push_line(alloc: Global, text: &mut String, passed: &PassedOver) -> Result<(), AllocError>
    ensures { OnOk result
        (string_bytes text.new ≡ string_bytes text.old ++ passed_line passed.now) }
{
    let reason = passed.reason;
    let name = told_name(alloc, &passed.name)?;
    text.push_str("  ")?;
    text.push_str(&name)?;
    push_rest_of_15(text, characters_of(&name))?;
    writeln!(text, " {reason}")
}

/// Appends what was passed over, if something was: a name a line, and why.
pub(crate) fn push_passed(
    alloc: Global,
    text: &mut String,
    passed: &[PassedOver],
) -> Result<(), AllocError>
    ensures { OnOk result
        (string_bytes text.new ≡ string_bytes text.old ++ passed_text passed.now) }
{
    if passed.is_empty() {
        return Ok(());
    }
    text.push_str("passed over:\n")?;
    for x in passed {
        push_line(alloc, text, x)?;
    }
    Ok(())
}
