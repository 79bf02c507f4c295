//! The files of a folder that are open.

ghost use Rattle.std.specs.Prelude.{◌≡◌, ◌↔◌, IfOk, IsTrue};
ghost use Rattle.std.specs.String.{string_bytes};

use crate::failure::FileFault;
use crate::file_id::FileId;
use crate::folder_images::ImageFile;
use crate::size_limit::check_size;
use crate::whole_transfers::{forget_pages, read_whole, sync_whole, write_whole};
use gm_metadata::Label;
use std::collections::BTreeMap;
use std::fs::{self, File, Metadata, OpenOptions};
use std::io;
use std::rt::Files;

/// How many files of its folder a `FileShelf` keeps open at once. With what else a program holds
/// that is well below 64, which is little for a system to allow.
pub const OPEN_FILES: usize = 32;

/// What images are opened for.
#[derive(Clone, Copy)]
pub(crate) enum Access {
    /// To be read alone, so that files and media that can't be written will do.
    Reading,
    /// To be read and written.
    Writing,
}

/// A file that is open.
#[derive(Drop)]
pub(crate) struct OpenFile {
    file: File,
    // Whether it was written since its last sync.
    is_unsynced: bool,
}

impl OpenFile {
    /// Fills all of this from the file, from this offset on.
    pub(crate) fn read(&self, out: &mut [u8], offset: u64) -> io::Result<()> {
        read_whole(&self.file, out, offset)
    }

    /// Writes all of these bytes to the file, from this offset on. A write for which the system
    /// would end the process isn't begun.
    pub(crate) fn write(&mut self, bytes: &[u8], offset: u64) -> io::Result<()> {
        check_size(offset.saturating_add(bytes.len() as u64))?;
        self.is_unsynced = true;
        write_whole(&self.file, bytes, offset)
    }

    /// Writes through what the file holds. If that fails, the system counts what it couldn't write
    /// as written, and would go on showing it: so it is to forget that.
    pub(crate) fn sync(&mut self) -> io::Result<()> {
        match sync_whole(&self.file) {
            Ok(()) => {
                self.is_unsynced = false;
                Ok(())
            }
            Err(error) => {
                let _ = forget_pages(&self.file);
                Err(error)
            }
        }
    }

    /// Writes through what the file holds, and has the system forget what it holds of it: what is
    /// read next is what the medium has.
    pub(crate) fn settle(&mut self) -> io::Result<()> {
        self.sync()?;
        forget_pages(&self.file)
    }
}

/// The files of a folder that are open.
#[derive(Drop)]
pub(crate) struct OpenFiles<R: Files<File = File> + AllocGlobal + Clone + Drop> {
    pub(crate) rt: R,
    pub(crate) folder: String,
    access: Access,
    opened: BTreeMap<Label, OpenFile>,
}

// A file that has another one in its place is gone, and one whose length changed is no image any
// more: its last sector is another one.
fn check_image(found: &Metadata, image: ImageFile) -> Result<(), FileFault> {
    if !found.is_file() || FileId::of(found) != image.file || found.len() != image.length {
        return Err(FileFault::Replaced);
    }
    Ok(())
}

impl<R: Files<File = File> + AllocGlobal + Clone + Drop> OpenFiles<R> {
    pub(crate) fn new(rt: &R, folder: &str, access: Access) -> io::Result<OpenFiles<R>>
        ensures { IfOk result (λ files. string_bytes files.folder ≡ folder.now) }
    {
        let alloc = rt.alloc();
        Ok(OpenFiles {
            rt: rt.clone()?,
            folder: String::from_str(alloc, folder)?,
            access,
            opened: BTreeMap::new(alloc),
        })
    }

    fn path_of(&self, name: Label) -> io::Result<String> {
        let folder = self.folder.as_str();
        Ok(format!(in self.rt.alloc(); "{folder}/{name}")?)
    }

    // Looks at what stands under the name of an image, without following a link.
    fn look(&self, name: Label, image: ImageFile) -> Result<(), FileFault> {
        let path = self.path_of(name)?;
        check_image(&fs::symlink_metadata(&self.rt, path.as_str())?, image)
    }

    // Opens what was looked at. It is looked at again once it is open, since it may have changed
    // its place meanwhile, and so is its name, which may be that of a link by now.
    fn open(&self, name: Label, image: ImageFile) -> Result<OpenFile, FileFault> {
        let path = self.path_of(name)?;
        let file = OpenOptions::new()
            .read(true)
            .write(matches!(self.access, Access::Writing))
            .open(&self.rt, path.as_str())?;
        check_image(&file.metadata()?, image)?;
        self.look(name, image)?;
        Ok(OpenFile {
            file,
            is_unsynced: false,
        })
    }

    // Which file to close before this one is opened: the next after it that holds nothing to be
    // synced, or else the first that does. Images are mostly visited in the order of their names,
    // so that what was opened last is closed last.
    fn to_close(&self, opening: Label) -> Option<Label> {
        let synced = self.opened.iter().filter(|(_, open)| !open.is_unsynced);
        synced
            .map(|(name, _)| *name)
            .min_by_key(|name| *name < opening)
    }

    // If as many are open as may be, closes one before this one is opened: rather one that holds
    // nothing to be synced, because nobody would hear of an error in syncing it.
    fn make_room(&mut self, opening: Label) -> io::Result<()>
        ensures { self.new.folder ≡ self.old.folder }
    {
        if self.opened.len() < OPEN_FILES {
            return Ok(());
        }
        if let Some(name) = self.to_close(opening) {
            self.opened.remove(&name);
            return Ok(());
        }
        match self.opened.pop_first() {
            Some((_, mut first)) => first.sync(),
            None => Ok(()),
        }
    }

    /// Acts on the file of an image, which is opened at its first use and kept. Each time its name
    /// is looked at before: if the image isn't there, or something else is in its place, nothing
    /// is done. If too many are open, another one is closed.
    pub(crate) fn with<F: FnOnce(&mut OpenFile) -> io::Result<()>>(
        &mut self,
        name: Label,
        image: ImageFile,
        act: F,
    ) -> Result<(), FileFault>
        requires { F.IsAlwaysCallable act }
        ensures { self.new.folder ≡ self.old.folder }
    {
        self.look(name, image)?;
        if let Some(file) = self.opened.get_mut(&name) {
            return Ok(act(file)?);
        }
        let file = self.open(name, image)?;
        self.make_room(name)?;
        Ok(act(self.opened.entry(name)?.or_insert(file))?)
    }
}
