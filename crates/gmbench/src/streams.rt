//! The standard streams of a process that was started without some of them.

use std::fs::File;
use std::io;
use std::os::fd::AsRawFd;

/// Holds the descriptors 0 to 2 that the process was started without, so that no file which is
/// opened later becomes a standard stream. What holds their place can be neither read nor written,
/// so that the stream fails.
#[derive(Drop)]
pub struct StandardStreams {
    _held: [Option<File>; 3],
}

// A folder that is always there, under the least free descriptor, if that is one of a standard
// stream.
fn hold(rt: &HostRuntime) -> io::Result<Option<File>> {
    let file = File::open(rt, "/")?;
    if file.as_raw_fd() > 2 {
        return Ok(None);
    }
    Ok(Some(file))
}

impl StandardStreams {
    /// Takes those that are free. Fails if no file can be opened.
    pub fn take(rt: &HostRuntime) -> io::Result<StandardStreams> {
        Ok(StandardStreams {
            _held: [hold(rt)?, hold(rt)?, hold(rt)?],
        })
    }
}
