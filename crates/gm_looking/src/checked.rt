//! How it is told what a check found, and whether all is well.

ghost use Rattle.std.specs.Prelude.{◌≡◌, ◌++◌, IfOk, OnOk};
ghost use Rattle.std.specs.String.{string_bytes};
ghost use Rattle.gm_looking.specs.Checks.{check_text, pending_lines, renewal_line, usage_line, used_words, verdict, IsChecked};

use gm_command_line::Form;
use gm_commands::MAX_COMMANDS;
use gm_json::check_json;
use gm_process::Status;
use gm_reports::{Report, as_line};
use gm_state::MAX_MIRRORS;
use gm_unlike::{Checkup, Renewal, claim_lines, unequal_lines, unlike_lines};
use gm_words::status_text;
use std::alloc::{AllocError, Global};

/// Appends how many writes are pending, if any are.
pub(crate) fn push_pending(text: &mut String, pending: usize) -> Result<(), AllocError>
    ensures { OnOk result
        (string_bytes text.new ≡ string_bytes text.old ++ pending_lines pending) }
{
    match pending {
        0 => Ok(()),
        1 => text.push_str("1 write is pending\n"),
        pending => writeln!(text, "{pending} writes are pending"),
    }
}

// Appends how many of something there are, of how many there may be.
fn push_used(text: &mut String, what: &str, used: u64, most: u64) -> Result<(), AllocError>
    ensures { OnOk result
        (string_bytes text.new ≡ string_bytes text.old ++ used_words what.now used most) }
{
    write!(text, "{what} {used} of {most}, ")
}

// Appends that a new registry is due, if it is.
fn push_renewal(text: &mut String, found: &Checkup<'_>) -> Result<(), AllocError>
    ensures { OnOk result (string_bytes text.new ≡ string_bytes text.old
        ++ renewal_line found.now.commands) }
{
    let when = match found.renewal() {
        Renewal::NotYet => return Ok(()),
        Renewal::Soon => "soon",
        Renewal::Now => "now",
    };
    let commands = found.commands;
    write!(text, "commands {commands} of {MAX_COMMANDS}: ")?;
    writeln!(text, "renew the registry {when}, by gmbench renew")
}

// Appends how much of the registry is used.
fn push_usage(text: &mut String, found: &Checkup<'_>) -> Result<(), AllocError>
    ensures { OnOk result (string_bytes text.new ≡ string_bytes text.old ++ usage_line found.now) }
{
    let mirrors = found.state.mirrors().len() as u64;
    let bytes = found.bytes;
    push_used(text, "commands", found.commands, u64::from(MAX_COMMANDS))?;
    push_used(text, "mirrors", mirrors, MAX_MIRRORS as u64)?;
    writeln!(text, "registry {bytes} bytes")
}

// What it comes to.
fn verdict(well: bool) -> &'static str
    ensures { result.now ≡ verdict well }
{
    if well {
        "all is well\n"
    } else {
        "not all is well\n"
    }
}

// What was found, as lines.
fn check_text(alloc: Global, found: &Checkup<'_>) -> Result<String, AllocError>
    ensures { IfOk result (λ text. string_bytes text ≡ check_text found.now) }
{
    let mut text = status_text(alloc, found.state)?;
    text.push_str(&unlike_lines(alloc, found.unlike)?)?;
    text.push_str(&claim_lines(alloc, found.claims)?)?;
    text.push_str(&unequal_lines(alloc, found.flaws)?)?;
    push_pending(&mut text, found.pending)?;
    push_renewal(&mut text, found)?;
    push_usage(&mut text, found)?;
    text.push_str(verdict(found.is_well()))?;
    Ok(text)
}

/// Says what was found. It is refused if not all is well.
pub fn check_report(alloc: Global, found: &Checkup<'_>, form: Form) -> Result<Report, AllocError>
    ensures { IfOk result (IsChecked found.now form) }
{
    let text = match form {
        Form::Text => check_text(alloc, found)?,
        Form::Json => as_line(check_json(alloc, found)?)?,
    };
    let status = if found.is_well() {
        Status::Done
    } else {
        Status::Refused
    };
    Ok(Report { status, text })
}
