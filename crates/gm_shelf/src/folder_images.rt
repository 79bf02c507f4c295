//! The images of a folder, as they are found.

ghost use Rattle.std.specs.Prelude.{◌≡◌};
ghost use Rattle.gm_shelf.specs.Folder.{images_but};

use crate::file_id::FileId;
use crate::no_image::length_of;
use gm_metadata::Label;
use std::alloc::Global;
use std::collections::{BTreeMap, BTreeSet};
use std::fs::{self, DirEntry, Metadata};
use std::io::{self, ErrorKind};
use std::rt::Files;

/// A file that is an image: its length in bytes, and which file it is.
#[derive(Clone, Copy)]
pub(crate) struct ImageFile {
    pub(crate) length: u64,
    pub(crate) file: FileId,
}

/// The images of a folder by their names.
pub(crate) type Images = BTreeMap<Label, ImageFile>;

// The image that something with these attributes is, if it is one.
fn image_with(found: &Metadata) -> Option<ImageFile> {
    let length = length_of(found).ok()?;
    Some(ImageFile {
        length,
        file: FileId::of(found),
    })
}

// A file of a folder that is an image, by its name.
#[derive(Clone, Copy)]
struct Found {
    name: Label,
    image: ImageFile,
}

// The image that something of this name with these attributes is, if it is one.
fn image_by(name: Label, found: &Metadata) -> Option<Found> {
    let image = image_with(found)?;
    Some(Found { name, image })
}

// The image that an entry of a folder is, if it is one.
fn image_of<R: Files + Drop>(entry: io::Result<DirEntry<R>>) -> io::Result<Option<Found>> {
    let entry = match entry {
        Ok(entry) => entry,
        Err(e) if e.kind() == ErrorKind::InvalidFilename => return Ok(None),
        Err(e) => return Err(e),
    };
    let Some(name) = Label::new(entry.file_name()) else {
        return Ok(None);
    };
    match entry.metadata() {
        Ok(found) => Ok(image_by(name, &found)),
        Err(e) if e.kind() == ErrorKind::NotFound => Ok(None),
        Err(e) => Err(e),
    }
}

// Two names of one file would be two components of a mirror that is none.
fn check_apart(alloc: Global, images: &Images) -> io::Result<()> {
    let mut files = BTreeSet::new(alloc);
    for image in images.values() {
        if !files.insert(image.file)? {
            return Err(io::Error::from(ErrorKind::InvalidData));
        }
    }
    Ok(())
}

/// The images of a folder. Fails if the folder can't be listed, if an entry can't be looked
/// at, and if two names are one file.
pub(crate) fn images_in<R: Files + AllocGlobal + Clone + Drop>(
    rt: &R,
    folder: &str,
) -> io::Result<Images> {
    let mut images = BTreeMap::new(rt.alloc());
    for entry in fs::read_dir(rt, folder)? {
        if let Some(found) = image_of(entry)? {
            images.insert(found.name, found.image)?;
        }
    }
    check_apart(rt.alloc(), &images)?;
    Ok(images)
}

/// Takes out the images that are one of these files.
pub(crate) fn leave_out(images: &mut Images, files: &[FileId])
    ensures { images.new.entries ≡ images_but files.now images.old.entries }
{
    images.retain(|_, image| !files.contains(&image.file));
}

/// What has this name in a folder, if something has: its attributes, and no link's target's.
pub(crate) fn found_as<R: Files + AllocGlobal>(
    rt: &R,
    folder: &str,
    name: Label,
) -> io::Result<Option<Metadata>> {
    let path = format!(in rt.alloc(); "{folder}/{name}")?;
    match fs::symlink_metadata(rt, path.as_str()) {
        Ok(found) => Ok(Some(found)),
        Err(e) if e.kind() == ErrorKind::NotFound => Ok(None),
        Err(e) => Err(e),
    }
}

/// The images of a folder that have these names; no other entry is looked at. Fails if there is
/// no such folder, if one of the entries can't be looked at, and if two of the names are one
/// file.
pub(crate) fn images_named<R: Files + AllocGlobal>(
    rt: &R,
    folder: &str,
    names: &[Label],
) -> io::Result<Images> {
    if !fs::metadata(rt, folder)?.is_dir() {
        return Err(io::Error::from(ErrorKind::NotADirectory));
    }
    let mut images = BTreeMap::new(rt.alloc());
    for name in names {
        if let Some(image) = found_as(rt, folder, *name)?.and_then(|found| image_with(&found)) {
            images.insert(*name, image)?;
        }
    }
    check_apart(rt.alloc(), &images)?;
    Ok(images)
}
