//! The look at images before they are written.

ghost use Rattle.std.specs.Prelude.{◌≡◌, ◌++◌, IfOk, IfSome, Contains, codes};
ghost use Rattle.std.specs.Fs.{file_type, IsFile};
ghost use Rattle.std.specs.String.{string_bytes};

use crate::answered::answered;
use crate::locks::is_locked;
use crate::loop_devices::note_loop_devices;
use crate::uses::{Use, Uses};
use crate::writers::note_writers;
use gm_metadata::Label;
use gm_shelf::FileId;
use std::alloc::AllocError;
use std::fs::{self, Metadata};

/// An image that something else uses, and what that is.
#[derive(Debug, Drop)]
pub struct InUse {
    pub image: Label,
    pub by: Use,
}

// The path of an image of a folder.
fn path_of(rt: &HostRuntime, folder: &str, image: Label) -> Result<String, AllocError>
    ensures { IfOk result (λ path. string_bytes path ≡ folder.now ++ (codes "/" ++ image)) }
{
    format!(in rt.alloc(); "{folder}/{image}")
}

// The regular file that has this path, if one has it; links aren't followed.
fn file_at(rt: &HostRuntime, path: &str) -> Result<Option<Metadata>, AllocError>
    ensures { IfOk result (λ found. IfSome found (λ file. IsFile (file_type file))) }
{
    let found = answered(fs::symlink_metadata(rt, path))?;
    Ok(found.filter(|found| found.is_file()))
}

// Has the files of these images be looked for.
fn files_of(rt: &HostRuntime, folder: &str, images: &[Label]) -> Result<Uses, AllocError> {
    let mut uses = Uses::new(rt.alloc());
    for image in images {
        let path = path_of(rt, folder, *image)?;
        if let Some(found) = file_at(rt, path.as_str())? {
            uses.look_for(FileId::of(&found))?;
        }
    }
    Ok(uses)
}

// What uses an image, by what was found and the locks on it.
fn use_of(
    rt: &HostRuntime,
    folder: &str,
    image: Label,
    uses: &mut Uses,
) -> Result<Option<Use>, AllocError> {
    let path = path_of(rt, folder, image)?;
    let Some(found) = file_at(rt, path.as_str())? else {
        return Ok(None);
    };
    if let Some(by) = uses.take(FileId::of(&found)) {
        return Ok(Some(by));
    }
    if is_locked(rt, path.as_str(), found.len())? {
        return Ok(Some(Use::Locked));
    }
    Ok(None)
}

/// The first of these images of a folder that something else uses: it backs a loop device, another
/// process has it open for writing, or a lock is in the way of an exclusive one. An image that
/// isn't there is passed over, and so is what the system doesn't answer.
pub fn first_in_use(
    rt: &HostRuntime,
    folder: &str,
    images: &[Label],
) -> Result<Option<InUse>, AllocError>
    ensures { IfOk result (λ found. IfSome found (λ it. Contains images.now it.image)) }
{
    let mut uses = files_of(rt, folder, images)?;
    note_loop_devices(rt, &mut uses)?;
    note_writers(rt, &mut uses)?;
    for image in images {
        if let Some(by) = use_of(rt, folder, *image, &mut uses)? {
            return Ok(Some(InUse { image: *image, by }));
        }
    }
    Ok(None)
}
