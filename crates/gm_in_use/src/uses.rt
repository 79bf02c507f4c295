//! What uses files.

ghost use Rattle.std.specs.Prelude.{◌≡◌, true, None, OnOk, OnErr};
ghost use Rattle.std.specs.BTreeMap as map;
ghost use Rattle.std.specs.BTreeSet as set;
ghost use Rattle.gm_in_use.specs.Uses.{NotesFirst};

use gm_shelf::FileId;
use std::alloc::{AllocError, Global};
use std::collections::{BTreeMap, BTreeSet};

/// How something else uses an image.
#[derive(Debug, Drop)]
pub enum Use {
    /// It backs a loop device.
    LoopDevice {
        /// The path of the device.
        device: String,
    },
    /// A process has it open for writing.
    Writer {
        process: u32,
        /// The name of its program, in one line.
        name: String,
    },
    /// Another program has it locked, or some bytes of it.
    Locked,
}

/// Files, and what was found to use one of them.
#[derive(Drop)]
pub(crate) struct Uses {
    files: BTreeSet<FileId>,
    found: BTreeMap<FileId, Use>,
}

impl Uses {
    /// Of no files yet.
    pub(crate) fn new(alloc: Global) -> Uses
        ensures files { set.IsEmpty result.files }
        ensures found { map.IsEmpty result.found }
    {
        Uses {
            files: BTreeSet::new(alloc),
            found: BTreeMap::new(alloc),
        }
    }

    /// Has this file be looked for too.
    pub(crate) fn look_for(&mut self, file: FileId) -> Result<(), AllocError>
        ensures added { OnOk result (set.Updates ⟦<FileId as Ord>⟧.cmp
            self.old.files self.new.files file true) }
        ensures err { OnErr result (set.IsUnchanged self.old.files self.new.files) }
        ensures found { self.new.found ≡ self.old.found }
    {
        self.files.insert(file)?;
        Ok(())
    }

    /// Whether this file is looked for.
    pub(crate) fn is_looked_for(&self, file: FileId) -> bool
        ensures { result ≡ set.contains ⟦<FileId as Ord>⟧.cmp self.now.files file }
    {
        self.files.contains(&file)
    }

    /// Keeps what uses a file, unless something else was found to use it before.
    pub(crate) fn note(&mut self, file: FileId, by: Use) -> Result<(), AllocError>
        ensures noted { OnOk result (NotesFirst ⟦<FileId as Ord>⟧.cmp self.old.found
            self.new.found file by) }
        ensures err { OnErr result (map.IsUnchanged self.old.found self.new.found) }
        ensures files { self.new.files ≡ self.old.files }
    {
        if !self.found.contains_key(&file) {
            self.found.insert(file, by)?;
        }
        Ok(())
    }

    /// What was found to use a file, which is taken out.
    pub(crate) fn take(&mut self, file: FileId) -> Option<Use>
        ensures found { result ≡ map.get ⟦<FileId as Ord>⟧.cmp self.old.found file }
        ensures taken { map.Updates ⟦<FileId as Ord>⟧.cmp self.old.found self.new.found file
            None }
        ensures files { self.new.files ≡ self.old.files }
    {
        self.found.remove(&file)
    }
}
