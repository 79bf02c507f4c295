//! The folder of images, which is looked at to explain a refusal.

use gm_metadata::{Label, Metadata, decode};
use gm_process::Explaining;
use gm_shelf::{FileShelf, NoImage, Shelf, read_last};
use std::alloc::Global;

/// The folder as it is now: each look opens it anew, and locks nothing.
#[derive(Clone, Copy)]
pub(crate) struct Folder<'a> {
    rt: &'a HostRuntime,
    name: &'a str,
}

impl<'a> Folder<'a> {
    /// The folder that the explanations are about.
    pub(crate) fn of(rt: &'a HostRuntime, explaining: &'a Explaining) -> Folder<'a> {
        Folder {
            rt,
            name: explaining.folder.as_str(),
        }
    }

    pub(crate) fn alloc(self) -> Global {
        self.rt.alloc()
    }

    /// How many sectors an image has; `None` if it can't be looked at.
    pub(crate) fn sectors(self, image: Label) -> Option<u64> {
        let shelf = FileShelf::look_at(self.rt, self.name, &[image]).ok()?;
        shelf.sectors(image)
    }

    /// Why what has an image's name is none; `None` if it is one, or nothing has that name.
    pub(crate) fn no_image(self, image: Label) -> Option<NoImage> {
        let passed_over = FileShelf::passed_over(self.rt, self.name).ok()?;
        let found = passed_over
            .iter()
            .find(|entry| entry.name.as_str() == image.as_str())?;
        Some(found.reason)
    }

    /// What the last sector of an image says, if it is metadata.
    pub(crate) fn metadata(self, image: Label) -> Option<Metadata> {
        let mut shelf = FileShelf::look_at(self.rt, self.name, &[image]).ok()?;
        let last = read_last(&mut shelf, image).ok()??;
        decode(&last).ok()
    }

    /// The first of these images that isn't there.
    pub(crate) fn first_absent(self, images: &[Label]) -> Option<Label> {
        for image in images {
            if self.sectors(*image).is_none() {
                return Some(*image);
            }
        }
        None
    }
}
