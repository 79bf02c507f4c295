//! What is done before a bench is opened, if writes are pending. If something else uses an image
//! that they name, nothing is opened. Else these images are made what their media hold, and those
//! that no stop leaves so are kept from the opening.

use gm_bench::BenchFault;
use gm_command_line::Work;
use gm_faults::Fault;
use gm_in_use::{first_in_use, in_use_sentence};
use gm_looking::{strange_on, strange_way_on};
use gm_metadata::Label;
use gm_pending::{Pending, pending_in};
use gm_process::Streams;
use gm_registry::{StoreFault, named_images};
use gm_shelf::{FileId, FileShelf, ShelfFault};
use sqlite::{Alter, Connection};
use std::alloc::AllocError;
use std::{fs, io};

/// What an opening heeds of the images that pending writes name.
#[derive(Clone, Copy)]
pub(crate) struct Care {
    /// Whether they are what a stop left.
    looks: bool,
    /// Whether something else uses them.
    heeds_use: bool,
    /// The image that the opening gives up, which says by itself why it can't.
    given_up: Option<Label>,
}

impl Care {
    /// What the opening for this work heeds.
    pub(crate) fn of(work: &Work<'_>) -> Care {
        let (looks, given_up) = match *work {
            Work::Recover { checks, .. } => (checks.images, None),
            Work::RecoverWithout {
                provider,
                checks,
                ..
            } => (checks.images, Some(provider)),
            _ => (true, None),
        };
        Care {
            looks,
            heeds_use: heeds_use(work),
            given_up,
        }
    }
}

// Whether something else may not use images meanwhile.
fn heeds_use(work: &Work<'_>) -> bool {
    match *work {
        Work::Recover { checks, .. }
        | Work::RecoverWithout { checks, .. }
        | Work::Do { checks, .. }
        | Work::AdoptAll(checks) => checks.uses,
        Work::Command(single) => single.checks.uses,
        Work::Sync(filling) => filling.heeds_use,
        Work::Renew(renewing) => renewing.heeds_use,
        _ => true,
    }
}

// Whether something else uses one of these images, which it then says.
fn are_used<I, O, E>(
    rt: &HostRuntime,
    images: &[Label],
    streams: &mut Streams<'_, I, O, E>,
) -> Result<bool, AllocError> {
    let alloc = rt.alloc();
    let found = first_in_use(rt, streams.explaining.folder.as_str(), images)?;
    let Some(used) = found else {
        return Ok(false);
    };
    let mut text = in_use_sentence(alloc, &used)?;
    text.push_str("\nnothing pending is carried out; recover --force does it anyway\n")?;
    streams.explaining.way_on = Some(text);
    Ok(true)
}

// What can be read of a store, but for want of memory. The rest is left to its opening.
fn read_early<T>(read: Result<T, StoreFault>) -> Result<Option<T>, BenchFault> {
    match read {
        Ok(found) => Ok(Some(found)),
        Err(StoreFault::Memory) => Err(BenchFault::Memory),
        Err(_) => Ok(None),
    }
}

// Keeps an image from the opening, as if it weren't there.
fn leave_out(
    rt: &HostRuntime,
    folder: &str,
    image: Label,
    shelf: &mut FileShelf<HostRuntime>,
) -> io::Result<()> {
    let path = format!(in rt.alloc(); "{folder}/{image}")?;
    let file = FileId::of(&fs::symlink_metadata(rt, path.as_str())?);
    shelf.leave_out(&[file]);
    Ok(())
}

// Keeps the images from the opening that no stop leaves so, and says which these are and how one
// goes on.
fn leave_out_strange<I, O, E>(
    rt: &HostRuntime,
    pending: &Pending,
    care: Care,
    shelf: &mut FileShelf<HostRuntime>,
    streams: &mut Streams<'_, I, O, E>,
) -> Result<(), Fault> {
    let alloc = rt.alloc();
    let found = strange_on(
        alloc,
        &pending.state,
        &pending.intents,
        &pending.stopped,
        shelf,
    )?;
    let list: Vec<_> = found
        .iter()
        .copied()
        .filter(|strange| care.given_up != Some(strange.image))
        .collect(alloc)?;
    for strange in &list {
        let folder = streams.explaining.folder.as_str();
        leave_out(rt, folder, strange.image, shelf)?;
    }
    if !list.is_empty() {
        streams.explaining.way_on = Some(strange_way_on(alloc, &list)?);
    }
    Ok(())
}

/// Makes ready what an opening reads of the images that pending writes name, if any are: they are
/// settled, and those left out that no stop leaves so. What can't be read of the store is left to
/// its opening. `InputOrOutput` if something else uses one of them.
pub(crate) fn make_ready<S: Alter, I, O, E>(
    rt: &HostRuntime,
    store: &mut Connection<S>,
    care: Care,
    shelf: &mut FileShelf<HostRuntime>,
    streams: &mut Streams<'_, I, O, E>,
) -> Result<(), Fault> {
    let alloc = rt.alloc();
    let Some(names) = read_early(named_images(alloc, store))? else {
        return Ok(());
    };
    if names.is_empty() {
        return Ok(());
    }
    if care.heeds_use && are_used(rt, &names, streams)? {
        return Err(Fault::InputOrOutput);
    }
    let settled = shelf.settle(&names);
    streams.explaining.failure = shelf.last_failure();
    settled?;
    if !care.looks {
        return Ok(());
    }
    if let Some(pending) = read_early(pending_in(alloc, store))? {
        leave_out_strange(rt, &pending, care, shelf, streams)?;
    }
    Ok(())
}
