//! The images that pending writes name and that no stop leaves so.

use gm_looks::{Standing, standing_of_named};
use gm_metadata::Label;
use gm_shelf::{Shelf, ShelfFault};
use gm_state::{Intent, State};
use gm_stopped::{Stopped, strange_images};
use gm_unlike::told_standing;
use std::alloc::{AllocError, Global};

/// An image that no stop leaves so, and how it stands.
#[derive(Clone, Copy)]
pub struct Strange {
    pub image: Label,
    pub standing: Standing,
}

/// The images that these pending writes name and that no stop of the command leaves so, with how
/// they stand by the state. `Device` if a last sector can't be read, or `Memory`.
pub fn strange_on<H: Shelf>(
    alloc: Global,
    state: &State,
    intents: &[Intent],
    stopped: &Stopped,
    shelf: &mut H,
) -> Result<Vec<Strange>, ShelfFault> {
    let mut list = Vec::new(alloc);
    for image in strange_images(alloc, shelf, state, intents, stopped)? {
        let standing = standing_of_named(shelf, state, image)?;
        list.push(Strange { image, standing })?;
    }
    Ok(list)
}

/// A line for each: `a.img isn't what the stop left: no metadata`.
pub(crate) fn strange_lines(alloc: Global, list: &[Strange]) -> Result<String, AllocError> {
    let mut text = String::new(alloc);
    for strange in list {
        let standing = told_standing(strange.standing);
        writeln!(
            text,
            "{} isn't what the stop left: {standing}",
            strange.image
        )?;
    }
    Ok(text)
}

/// The same after the fault that comes of it, and how one goes on.
pub fn strange_way_on(alloc: Global, list: &[Strange]) -> Result<String, AllocError> {
    let mut text = String::new(alloc);
    for strange in list {
        let standing = told_standing(strange.standing);
        writeln!(
            text,
            "F5: {} isn't what the stop left: {standing}",
            strange.image
        )?;
    }
    text.push_str("F5: put the right file back; recover --unchecked goes on with what is there\n")?;
    Ok(text)
}
