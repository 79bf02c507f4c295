//! Locks on an image.

use crate::answered::answered;
use os::RangeLock;
use std::alloc::AllocError;
use std::fs::{File, OpenOptions, TryLockError};
use std::os::fd::AsRawFd;

// Whether a lock is in the way of an exclusive one on all bytes of a file.
fn has_locked_bytes(file: &File, length: u64) -> bool {
    let descriptor = file.as_raw_fd();
    if os::try_lock_range(descriptor, RangeLock::Exclusive, 0, length) != 0 {
        return os::errno() == libc::EAGAIN;
    }
    os::try_lock_range(descriptor, RangeLock::Unlock, 0, length);
    false
}

// Whether a lock is in the way of an exclusive one on a file as a whole.
fn is_locked_whole(file: &File) -> bool {
    match file.try_lock() {
        Err(TryLockError::WouldBlock) => true,
        _ => false,
    }
}

/// Whether another program has a file of this length in bytes locked, or some of its bytes: a lock
/// is in the way of an exclusive one, which is tried, and let go at once. Nothing is told of a file
/// that can't be opened for writing.
pub(crate) fn is_locked(rt: &HostRuntime, path: &str, length: u64) -> Result<bool, AllocError> {
    match answered(OpenOptions::new().read(true).write(true).open(rt, path))? {
        Some(file) => Ok(has_locked_bytes(&file, length) || is_locked_whole(&file)),
        None => Ok(false),
    }
}
