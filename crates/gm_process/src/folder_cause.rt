//! Why a folder with images can't be used, as a sentence.

use crate::trouble::Trouble;
use gm_metadata::Label;
use gm_shelf::FileId;
use std::collections::BTreeMap;
use std::fs::{self, DirEntry};
use std::io::{self, ErrorKind};

/// Why a folder with images can't be used.
#[derive(Clone, Copy, Debug, PartialEq, Eq)]
pub enum FolderCause {
    /// Its lock is held.
    InUse,
    /// Nothing has its path.
    Gone,
    /// Something that is no folder has its path.
    NotAFolder,
    /// The user who runs the program may not.
    Forbidden,
    /// Two of its names are one file.
    OneFile,
    /// The system says anything else.
    Other,
}

impl FolderCause {
    // What the system's answer tells of it.
    fn of(error: &io::Error) -> FolderCause {
        match error.kind() {
            ErrorKind::WouldBlock => FolderCause::InUse,
            ErrorKind::NotFound => FolderCause::Gone,
            ErrorKind::NotADirectory => FolderCause::NotAFolder,
            ErrorKind::PermissionDenied => FolderCause::Forbidden,
            ErrorKind::InvalidData => FolderCause::OneFile,
            _ => FolderCause::Other,
        }
    }

    // The sentence, with PATH in the place of the folder's; of two names, of theirs.
    fn sentence(self) -> &'static str {
        match self {
            FolderCause::InUse => "another gmbench holds the folder PATH",
            FolderCause::Gone => "there is no folder PATH",
            FolderCause::NotAFolder => "PATH isn't a folder",
            FolderCause::Forbidden => "the folder PATH can't be entered or read by this user",
            FolderCause::OneFile => "PATH are one file, by a hard link",
            FolderCause::Other => "the folder PATH can't be read or locked",
        }
    }
}

// Which file an entry is, if it is an image.
fn file_of(entry: &DirEntry<HostRuntime>) -> Option<FileId> {
    Label::new(entry.file_name())?;
    let found = entry.metadata().ok()?;
    if !found.is_file() || found.len() % 512 != 0 {
        return None;
    }
    Some(FileId::of(&found))
}

// Two names of a folder that are one file.
fn two_names(rt: &HostRuntime, folder: &str) -> io::Result<Option<String>> {
    let alloc = rt.alloc();
    let mut names: BTreeMap<FileId, String> = BTreeMap::new(alloc);
    for entry in fs::read_dir(rt, folder)? {
        let entry = entry?;
        let Some(file) = file_of(&entry) else {
            continue;
        };
        let name = entry.file_name();
        if let Some(other) = names.get(&file) {
            return Ok(Some(format!(in alloc; "{} and {name}", other.as_str())?));
        }
        names.insert(file, String::from_str(alloc, name)?)?;
    }
    Ok(None)
}

/// What is known of a folder that can't be used.
pub(crate) fn folder_trouble(rt: &HostRuntime, folder: &str, error: &io::Error) -> Option<Trouble> {
    let cause = FolderCause::of(error);
    let path = match cause {
        FolderCause::OneFile => two_names(rt, folder).ok()??,
        _ => String::from_str(rt.alloc(), folder).ok()?,
    };
    Some(Trouble::new(cause.sentence(), path))
}
