//! The command `audit`: the components that images no longer show as they are registered.

ghost use Rattle.std.specs.Prelude.{◌≡◌, IfOk};
ghost use Rattle.std.specs.String.{string_bytes};
ghost use Rattle.gm_json.specs.Audits.{audit_json};
ghost use Rattle.gm_reports.specs.Reports.{IsAudited, in_form, names_text};

use crate::json_line::as_line;
use crate::report::Report;
use gm_command_line::Form;
use gm_json::audit_json;
use gm_metadata::Label;
use gm_process::Status;
use std::alloc::{AllocError, Global};

// A line for each name.
fn names_text(alloc: Global, names: &[Label]) -> Result<String, AllocError>
    ensures { IfOk result (λ text. string_bytes text ≡ names_text names.now) }
{
    let mut text = String::new(alloc);
    for name in names {
        text.push_str(name.as_str())?;
        text.push('\n')?;
    }
    Ok(text)
}

/// Says which components are amiss.
pub fn audit_report(alloc: Global, names: &[Label], form: Form) -> Result<Report, AllocError>
    ensures { IfOk result (IsAudited names.now
        (in_form form (names_text names.now) (audit_json names.now))) }
{
    let text = match form {
        Form::Text => names_text(alloc, names)?,
        Form::Json => as_line(audit_json(alloc, names)?)?,
    };
    let status = if names.is_empty() {
        Status::Done
    } else {
        Status::Refused
    };
    Ok(Report { status, text })
}
