//! Whether something else uses the images of mirrors that are to be filled.

ghost use Rattle.std.specs.Prelude.{◌≡◌, IfOk};
ghost use Rattle.gm_process.specs.declared.status.Status.TheVariants.{Refused};

use crate::standing::not_done_json;
use gm_command_line::Form;
use gm_in_use::{InUse, first_in_use, in_use_sentence};
use gm_metadata::Label;
use gm_process::{Status, Streams};
use gm_reports::Report;
use gm_state::{Component, ComponentState, State, component_state};
use gm_sync::Scope;
use std::alloc::{AllocError, Global};
use std::io::Write;

// Whether a component is to be filled.
fn is_due(state: &State, scope: &Scope, component: &Component) -> bool {
    let found = component_state(state, component.provider);
    scope.has(component) && found == Some(ComponentState::Synchronizing)
}

// Whether a mirror has a component that is to be filled.
fn has_due(state: &State, scope: &Scope, mirror: Label) -> bool {
    let mut components = state.components().iter();
    components.any(|component| component.mirror == mirror && is_due(state, scope, component))
}

/// The first image that something else uses, of the mirrors with a component that is to be filled.
/// If none is, nothing is looked at.
pub(crate) fn in_use_to_fill(
    rt: &HostRuntime,
    folder: &str,
    state: &State,
    scope: &Scope,
) -> Result<Option<InUse>, AllocError> {
    let images: Vec<Label> = state
        .components()
        .iter()
        .filter(|component| has_due(state, scope, component.mirror))
        .map(|component| component.provider)
        .collect(rt.alloc())?;
    if images.is_empty() {
        return Ok(None);
    }
    first_in_use(rt, folder, &images)
}

// That nothing is done.
fn not_done_text(alloc: Global, form: Form) -> Result<String, AllocError> {
    match form {
        Form::Text => String::from_str(alloc, "not done\n"),
        Form::Json => not_done_json(alloc),
    }
}

/// Says that nothing is filled, because something else uses an image.
pub(crate) fn in_use_report<I, O, E: Write>(
    alloc: Global,
    found: &InUse,
    form: Form,
    streams: &mut Streams<'_, I, O, E>,
) -> Result<Report, AllocError>
    ensures { IfOk result (λ report. report.status ≡ Refused) }
{
    let sentence = in_use_sentence(alloc, found)?;
    let _ = writeln!(streams.complaints, "{sentence}");
    let _ = writeln!(streams.complaints, "--force fills anyway");
    Ok(Report {
        status: Status::Refused,
        text: not_done_text(alloc, form)?,
    })
}
