//! Why a renewal isn't begun.

use gm_command_line::Renewing;
use gm_faults::Fault;
use gm_in_use::{InUse, first_in_use};
use gm_looks::{Meant, Unlike, unlike_shelf};
use gm_metadata::Label;
use gm_shelf::Shelf;
use gm_state::State;
use std::alloc::{AllocError, Global};

/// Why a renewal isn't begun.
#[derive(Drop)]
pub(crate) enum Hindrance {
    /// These components' images aren't as they are registered.
    Unlike(Vec<Unlike>),
    /// Something else uses an image.
    InUse(InUse),
}

// The images of all components.
fn images_of(alloc: Global, state: &State) -> Result<Vec<Label>, AllocError> {
    state
        .components()
        .iter()
        .map(|component| component.provider)
        .collect(alloc)
}

/// Why a renewal isn't begun, if it isn't. Images are only read.
pub(crate) fn first_hindrance<H: Shelf>(
    rt: &HostRuntime,
    renewing: Renewing,
    folder: &str,
    state: &State,
    shelf: &mut H,
) -> Result<Option<Hindrance>, Fault> {
    let alloc = rt.alloc();
    let unlike = unlike_shelf(alloc, shelf, state, Meant::All)?;
    if !unlike.is_empty() {
        return Ok(Some(Hindrance::Unlike(unlike)));
    }
    if !renewing.heeds_use {
        return Ok(None);
    }
    let images = images_of(alloc, state)?;
    match first_in_use(rt, folder, &images)? {
        Some(found) => Ok(Some(Hindrance::InUse(found))),
        None => Ok(None),
    }
}
