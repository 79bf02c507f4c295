//! What is pending, as JSON: an object for each write, with the words that its line has.

use crate::strange::{Strange, strange_on};
use gm_faults::Fault;
use gm_looks::{Standing, standing_of_cleared, standing_of_named};
use gm_metadata::Label;
use gm_process::Status;
use gm_registry::Loaded;
use gm_reports::{Report, as_line};
use gm_shelf::{Shelf, ShelfFault};
use gm_state::{Intent, State};
use gm_stopped::Stopped;
use gm_unlike::told_standing;
use serde_json::{Map, Value, json, put};
use std::alloc::{AllocError, Global};

// Which sectors a write is of: so many, from this one on.
#[derive(Clone, Copy)]
struct Stretch {
    from: u32,
    sectors: u32,
}

// A pending write, by its words.
#[derive(Clone, Copy)]
struct Words {
    write: &'static str,
    of: Label,
    to: Option<Label>,
    stretch: Option<Stretch>,
}

fn stretch_between(first: u32, end: u32) -> Option<Stretch> {
    Some(Stretch {
        from: first,
        sectors: end.saturating_sub(first),
    })
}

// The words of a write of a last sector.
fn last_sector(write: &'static str, of: Label) -> Words {
    Words {
        write,
        of,
        to: None,
        stretch: None,
    }
}

fn words_of(intent: &Intent) -> Words {
    match *intent {
        Intent::Meta { provider } => last_sector("metadata", provider),
        Intent::Clear { provider } => last_sector("clear", provider),
        Intent::Dirty { provider } => last_sector("mark dirty", provider),
        Intent::Copy {
            source,
            target,
            first,
            end,
        } => Words {
            write: "copy",
            of: source,
            to: Some(target),
            stretch: stretch_between(first, end),
        },
        Intent::Patch {
            provider,
            first,
            end,
        } => Words {
            write: "patch",
            of: provider,
            to: None,
            stretch: stretch_between(first, end),
        },
    }
}

// A write, and how its images stand, if that was looked at.
fn write_value(
    alloc: Global,
    intent: &Intent,
    images: Option<Vec<Value>>,
) -> Result<Value, AllocError> {
    let words = words_of(intent);
    let mut map = Map::new(alloc);
    if let Some(stretch) = words.stretch {
        put(&mut map, alloc, "from", Value::from(stretch.from))?;
    }
    if let Some(images) = images {
        put(&mut map, alloc, "images", Value::Array(images))?;
    }
    let of = Value::try_from_str(alloc, words.of.as_str())?;
    put(&mut map, alloc, "of", of)?;
    if let Some(stretch) = words.stretch {
        put(&mut map, alloc, "sectors", Value::from(stretch.sectors))?;
    }
    if let Some(to) = words.to {
        let to = Value::try_from_str(alloc, to.as_str())?;
        put(&mut map, alloc, "to", to)?;
    }
    let write = Value::try_from_str(alloc, words.write)?;
    put(&mut map, alloc, "write", write)?;
    Ok(Value::Object(map))
}

// An image, and how it stands.
fn image_value(alloc: Global, image: Label, standing: Standing) -> Result<Value, AllocError> {
    let (image, standing) = (image.as_str(), standing.word());
    json!(in alloc; {"image": image, "standing": standing})
}

// How an image stands to the write that is pending for it.
fn standing_of<H: Shelf>(
    state: &State,
    intent: &Intent,
    image: Label,
    shelf: &mut H,
) -> Result<Standing, ShelfFault> {
    match intent {
        Intent::Clear { .. } => standing_of_cleared(shelf, state, image),
        _ => standing_of_named(shelf, state, image),
    }
}

// How the images stand that a write names, in that order.
fn images_of<H: Shelf>(
    alloc: Global,
    state: &State,
    intent: &Intent,
    shelf: &mut H,
) -> Result<Vec<Value>, ShelfFault> {
    let words = words_of(intent);
    let mut images = Vec::new(alloc);
    let standing = standing_of(state, intent, words.of, shelf)?;
    images.push(image_value(alloc, words.of, standing)?)?;
    if let Some(to) = words.to {
        let standing = standing_of(state, intent, to, shelf)?;
        images.push(image_value(alloc, to, standing)?)?;
    }
    Ok(images)
}

// The report of this.
fn report_of(alloc: Global, value: Value) -> Result<Report, AllocError> {
    Ok(Report {
        status: Status::Done,
        text: as_line(value.to_string(alloc)?)?,
    })
}

fn writes_of(alloc: Global, intents: &[Intent]) -> Result<Vec<Value>, AllocError> {
    let mut writes = Vec::new(alloc);
    for intent in intents {
        writes.push(write_value(alloc, intent, None)?)?;
    }
    Ok(writes)
}

// The same, with how the images stand that they name.
fn writes_on<H: Shelf>(
    alloc: Global,
    state: &State,
    intents: &[Intent],
    shelf: &mut H,
) -> Result<Vec<Value>, ShelfFault> {
    let mut writes = Vec::new(alloc);
    for intent in intents {
        let images = images_of(alloc, state, intent, shelf)?;
        writes.push(write_value(alloc, intent, Some(images))?)?;
    }
    Ok(writes)
}

/// What is pending, without the images.
pub(crate) fn pending_as_json(alloc: Global, intents: &[Intent]) -> Result<Report, Fault> {
    let writes = writes_of(alloc, intents)?;
    Ok(report_of(alloc, json!(in alloc; {"pending": writes})?)?)
}

// The images that no stop leaves so, with the words of how they stand.
fn strange_values(alloc: Global, list: &[Strange]) -> Result<Vec<Value>, AllocError> {
    let mut values = Vec::new(alloc);
    for strange in list {
        let (image, standing) = (strange.image.as_str(), told_standing(strange.standing));
        values.push(json!(in alloc; {"image": image, "standing": standing})?)?;
    }
    Ok(values)
}

/// What is pending, how the images stand to that, and which of them no stop leaves so.
pub(crate) fn pending_as_json_on<H: Shelf>(
    alloc: Global,
    records: &Loaded,
    stopped: &Stopped,
    shelf: &mut H,
) -> Result<Report, Fault> {
    let (state, intents) = (&records.state, records.intents.as_slice());
    let writes = writes_on(alloc, state, intents, shelf)?;
    let list = strange_on(alloc, state, intents, stopped, shelf)?;
    let strange = strange_values(alloc, &list)?;
    Ok(report_of(
        alloc,
        json!(in alloc; {"pending": writes, "strange": strange})?,
    )?)
}
