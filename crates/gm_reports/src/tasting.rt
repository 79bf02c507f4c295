//! The command `taste`: what the images of a folder tell by themselves.

ghost use Rattle.std.specs.Prelude.{◌≡◌, ◌++◌, IfOk};
ghost use Rattle.std.specs.List.{list_any};
ghost use Rattle.std.specs.String.{string_bytes};
ghost use Rattle.gm_taste.specs.Verdicts.{of_metadata};
ghost use Rattle.gm_json.specs.Tastings.{tasting_json};
ghost use Rattle.gm_words.specs.Tasting.{tasting_text};
ghost use Rattle.gm_reports.specs.PassedOver.{passed_text};
ghost use Rattle.gm_reports.specs.Reports.{IsTasting, in_form};

use crate::json_line::as_line;
use crate::passed_over::push_passed;
use crate::report::Report;
use gm_command_line::Form;
use gm_json::tasting_json;
use gm_process::Status;
use gm_shelf::PassedOver;
use gm_taste::{LeftOut, Tasted};
use gm_words::tasting_text;
use std::alloc::{AllocError, Global};

// Whether one of them was left out for metadata that it carries.
fn tells_damage(left: &[LeftOut]) -> bool
    ensures { result ≡ list_any (λ x. of_metadata x.reason) left.now }
{
    left.iter().any(|x| x.reason.is_of_metadata())
}

// What was tasted, and below it what was passed over.
fn text_with(alloc: Global, tasted: &Tasted, passed: &[PassedOver]) -> Result<String, AllocError>
    ensures { IfOk result
        (λ text. string_bytes text ≡ tasting_text tasted.now ++ passed_text passed.now) }
{
    let mut text = tasting_text(alloc, tasted)?;
    push_passed(alloc, &mut text, passed)?;
    Ok(text)
}

/// Says what was tasted, and what of the folder was passed over, which doesn't change the status.
pub fn taste_report(
    alloc: Global,
    tasted: &Tasted,
    passed: &[PassedOver],
    form: Form,
) -> Result<Report, AllocError>
    ensures { IfOk result (IsTasting tasted.now (in_form form
        (tasting_text tasted.now ++ passed_text passed.now)
        (tasting_json tasted.now passed.now))) }
{
    let text = match form {
        Form::Text => text_with(alloc, tasted, passed)?,
        Form::Json => as_line(tasting_json(alloc, tasted, passed)?)?,
    };
    let status = if tells_damage(&tasted.left) {
        Status::Refused
    } else {
        Status::Done
    };
    Ok(Report { status, text })
}
