//! Whether what a command of the program names is there, and how it is told that it isn't.

ghost use Rattle.std.specs.Prelude.{◌≡◌, IfOk};
ghost use Rattle.gm_process.specs.Statuses.{MayRefuse};

use crate::report::Report;
use gm_metadata::Label;
use gm_process::{Status, Streams};
use gm_refusals::{CallRefusal, Refusal};
use gm_sentences::{About, Image, call_sentence};
use gm_state::State;
use std::alloc::{AllocError, Global};
use std::io::Write;

/// A refusal, and what it is about.
#[derive(Clone, Copy)]
pub struct WhyRefused {
    pub why: CallRefusal,
    pub about: About,
}

/// That no mirror has the name, if none has it.
pub fn no_mirror(state: &State, mirror: Label) -> Option<WhyRefused> {
    match state.mirror(mirror) {
        Some(_) => None,
        None => Some(WhyRefused {
            why: CallRefusal::ByRules(Refusal::NoMirror),
            about: About {
                mirror: Some(mirror),
                image: Image::Unnamed,
            },
        }),
    }
}

/// That the mirror has no such component, if it hasn't.
pub fn no_component(state: &State, mirror: Label, image: Label) -> Option<WhyRefused> {
    match state.component(image) {
        Some(component) if component.mirror == mirror => None,
        _ => Some(WhyRefused {
            why: CallRefusal::ByRules(Refusal::NotMember),
            about: About {
                mirror: Some(mirror),
                image: Image::Named(image),
            },
        }),
    }
}

/// Tells a refusal: its number, and why if that is wanted.
pub fn refused<I, O, E: Write>(
    alloc: Global,
    streams: &mut Streams<'_, I, O, E>,
    refused: WhyRefused,
) -> Result<Report, AllocError>
    ensures { IfOk result (λ report. MayRefuse report.status) }
{
    let number = refused.why.number();
    if streams.explaining.wanted {
        let sentence = refused.about.sentence(alloc, call_sentence(refused.why))?;
        let _ = writeln!(streams.complaints, "refused {number}: {sentence}");
    }
    Ok(Report {
        status: Status::Refused,
        text: format!(in alloc; "refused {number}\n")?,
    })
}
