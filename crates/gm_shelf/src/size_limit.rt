//! How long the system lets this process make a file.

use std::io::{self, ErrorKind};

// Of which limit the system is asked: that of a file's size, on Linux.
const FILE_SIZE: i32 = 1;

/// Fails if a write that ends at this offset goes past the limit: the system would end the
/// process for it, by a signal, before it could say anything.
pub(crate) fn check_size(end: u64) -> io::Result<()> {
    let mut limit = libc::types::rlimit {
        rlim_cur: 0,
        rlim_max: 0,
    };
    if libc::getrlimit(FILE_SIZE, &mut limit) != 0 {
        return Err(io::Error::from_raw_os_error(os::errno()));
    }
    if end > limit.rlim_cur {
        return Err(io::Error::from(ErrorKind::FileTooLarge));
    }
    Ok(())
}
