//! The folder with the images, held while it is worked in.

use crate::patience::Patience;
use std::fs::{self, File, TryLockError};
use std::io::{self, ErrorKind};

/// A folder of images, held so that no gmbench changes them meanwhile, until this is let go.
#[derive(Drop)]
pub struct HeldFolder {
    _file: File,
}

// Who else may hold a folder meanwhile.
#[derive(Clone, Copy)]
enum Beside {
    Nobody,
    Lookers,
}

impl HeldFolder {
    /// Holds a folder whose images are changed: alone. The lock is on the folder itself. A folder
    /// that can't be locked isn't held, for whatever reason; one in use is tried again.
    pub fn hold(rt: &HostRuntime, folder: &str, patience: Patience) -> io::Result<HeldFolder> {
        held(rt, folder, Beside::Nobody, patience)
    }

    /// Holds a folder whose images are looked at, beside others that look.
    pub fn share(rt: &HostRuntime, folder: &str, patience: Patience) -> io::Result<HeldFolder> {
        held(rt, folder, Beside::Lookers, patience)
    }
}

fn held(
    rt: &HostRuntime,
    folder: &str,
    beside: Beside,
    patience: Patience,
) -> io::Result<HeldFolder> {
    let file = open_folder(rt, folder)?;
    lock(rt, &file, beside, patience)?;
    Ok(HeldFolder { _file: file })
}

// Never waits in the call itself, so that it ends with the time.
fn lock(rt: &HostRuntime, file: &File, beside: Beside, patience: Patience) -> io::Result<()> {
    for _ in 0..u64::MAX {
        let tried = match beside {
            Beside::Nobody => file.try_lock(),
            Beside::Lookers => file.try_lock_shared(),
        };
        match tried {
            Err(TryLockError::WouldBlock) if patience.pauses(rt) => {}
            done => return Ok(done?),
        }
    }
    Err(io::Error::from(ErrorKind::WouldBlock))
}

fn open_folder(rt: &HostRuntime, folder: &str) -> io::Result<File> {
    if !fs::metadata(rt, folder)?.is_dir() {
        return Err(io::Error::from(ErrorKind::NotADirectory));
    }
    File::open(rt, folder)
}
