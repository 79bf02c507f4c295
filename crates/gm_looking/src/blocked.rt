//! What waits for an image that fails as the source of a pending copy, and how one goes on without
//! what is copied.

use crate::read_only::loaded_at;
use gm_metadata::Label;
use gm_process::Place;
use gm_registry::Loaded;
use gm_shelf::{FileShelf, Shelf};
use gm_state::Intent;
use std::alloc::{AllocError, Global};
use std::collections::BTreeSet;

// A stretch of an image that is still to be copied to another.
#[derive(Clone, Copy)]
struct Copying {
    target: Label,
    first: u32,
    end: u32,
}

// The image that a pending write is written to.
fn written_by(intent: &Intent) -> Label {
    match *intent {
        Intent::Meta { provider }
        | Intent::Clear { provider }
        | Intent::Dirty { provider }
        | Intent::Patch { provider, .. } => provider,
        Intent::Copy { target, .. } => target,
    }
}

// What is pending to be copied from an image.
fn copying_from(intents: &[Intent], image: Label) -> Option<Copying> {
    for intent in intents {
        match *intent {
            Intent::Copy {
                source,
                target,
                first,
                end,
            } if source == image => return Some(Copying { target, first, end }),
            _ => {}
        }
    }
    None
}

// The first sector of a stretch that can't be read.
fn unread_sector<H: Shelf>(shelf: &mut H, image: Label, copying: Copying) -> Option<u32> {
    let mut sector = [0; 512];
    for place in copying.first..copying.end {
        if shelf.read(image, u64::from(place), &mut sector).is_err() {
            return Some(place);
        }
    }
    None
}

// The same of an image of a folder; `None` too if the folder can't be read.
fn unread_in(rt: &HostRuntime, folder: &str, image: Label, copying: Copying) -> Option<u32> {
    let mut shelf = FileShelf::look_at(rt, folder, &[image]).ok()?;
    unread_sector(&mut shelf, image, copying)
}

// The mirrors that wait for pending writes, by their names.
fn waiting_mirrors(alloc: Global, records: &Loaded) -> Result<BTreeSet<Label>, AllocError> {
    let mut names = BTreeSet::new(alloc);
    for intent in records.intents.as_slice() {
        if let Some(component) = records.state.component(written_by(intent)) {
            names.insert(component.mirror)?;
        }
    }
    Ok(names)
}

// Adds which mirrors wait.
fn push_waiting(text: &mut String, alloc: Global, records: &Loaded) -> Result<(), AllocError> {
    for mirror in waiting_mirrors(alloc, records)?.iter() {
        writeln!(
            text,
            "F3: {mirror} waits for a pending write: status --read-only shows it"
        )?;
    }
    Ok(())
}

// Adds how one goes on if the source stays as it is.
fn push_way_on(text: &mut String, source: Label, target: Label) -> Result<(), AllocError> {
    write!(text, "F3: if {source} stays so, move {target} away: ")?;
    writeln!(
        text,
        "then recover --without {target} --key KEY gives it up"
    )?;
    Ok(())
}

// All that is told of an image that something is still to be copied from.
fn told(
    rt: &HostRuntime,
    folder: &str,
    records: &Loaded,
    source: Label,
    copying: Copying,
) -> Result<String, AllocError> {
    let target = copying.target;
    let mut text = String::new(rt.alloc());
    if let Some(place) = unread_in(rt, folder, source, copying) {
        writeln!(text, "F3: sector {place} of {source} can't be read")?;
    }
    push_waiting(&mut text, rt.alloc(), records)?;
    push_way_on(&mut text, source, target)?;
    Ok(text)
}

/// What waits for an image that failed, and how one goes on without it, in lines; `None` if nothing
/// is pending to be copied from it, or if that can't be read. The registry must be closed.
pub fn way_on(rt: &HostRuntime, place: Place<'_>, image: Label) -> Option<String> {
    let records = loaded_at(rt, place.registry)?;
    let copying = copying_from(&records.intents, image)?;
    told(rt, place.folder, &records, image, copying).ok()
}
