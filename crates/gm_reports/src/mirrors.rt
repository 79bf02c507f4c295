//! The commands `status` and `list`, which show mirrors.

ghost use Rattle.std.specs.Prelude.{IfOk};
ghost use Rattle.gm_json.specs.Shown.{held_json, shown_json};
ghost use Rattle.gm_words.specs.Listing.{list_text};
ghost use Rattle.gm_words.specs.Status.{status_text};
ghost use Rattle.gm_reports.specs.Reports.{IsDone, in_form};

use crate::json_line::as_line;
use crate::report::Report;
use gm_command_line::Form;
use gm_json::{held_json, shown_json};
use gm_process::Status;
use gm_state::State;
use gm_words::{list_text, status_text};
use std::alloc::{AllocError, Global};

/// Says how the mirrors stand.
pub fn status_report(alloc: Global, state: &State, form: Form) -> Result<Report, AllocError>
    ensures { IfOk result (IsDone
        (in_form form (status_text state.now) (held_json state.now))) }
{
    let text = match form {
        Form::Text => status_text(alloc, state)?,
        Form::Json => as_line(held_json(alloc, state)?)?,
    };
    Ok(Report {
        status: Status::Done,
        text,
    })
}

/// Says all that is known of the mirrors.
pub fn list_report(alloc: Global, state: &State, form: Form) -> Result<Report, AllocError>
    ensures { IfOk result (IsDone (in_form form (list_text state.now) (shown_json state.now))) }
{
    let text = match form {
        Form::Text => list_text(alloc, state)?,
        Form::Json => as_line(shown_json(alloc, state)?)?,
    };
    Ok(Report {
        status: Status::Done,
        text,
    })
}
