//! Which file a file is.

use std::fs::Metadata;
use std::os::unix::fs::MetadataExt;
use std::time::SystemTime;

/// A file as the system knows it, by its device, its inode and the time of its birth: the same for
/// every path that leads to it, and for no other file while it is there. A file that is made later
/// may get its inode, but was born later, if the system tells times of birth.
#[derive(Clone, Copy, Debug, PartialEq, Eq, PartialOrd, Ord)]
pub struct FileId {
    device: u64,
    inode: u64,
    // in nanoseconds since 1970; 0 if the system doesn't tell it
    born: u64,
}

// When a file was born, in nanoseconds since 1970; 0 if the system doesn't tell it.
fn born_of(found: &Metadata) -> u64 {
    let Ok(time) = found.created() else {
        return 0;
    };
    match time.duration_since(SystemTime::UNIX_EPOCH) {
        Ok(since) => u64::try_from(since.as_nanos()).unwrap_or(0),
        Err(_) => 0,
    }
}

impl FileId {
    /// Of a file with these attributes.
    pub fn of(found: &Metadata) -> FileId {
        FileId {
            device: found.dev(),
            inode: found.ino(),
            born: born_of(found),
        }
    }
}
