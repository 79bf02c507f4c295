//! Reads, writes and syncs of a file that are whole: what comes in parts goes on, and what signals
//! interrupt is tried again, but not without end. What the system holds of a file can be forgotten.

ghost use Rattle.std.specs.Io.{ReadsAtMost, WritesAtMost};

use std::fs::File;
use std::io::{self, ErrorKind};
use std::os::fd::AsRawFd;
use std::os::unix::fs::FileExt;

// How often in a row a call is tried that signals interrupt.
const TRIES: u32 = 1000;

// One read, of some of the bytes.
fn read_some<F: FileExt>(file: &F, out: &mut [u8], offset: u64) -> io::Result<usize>
    ensures bound { ReadsAtMost result out.new }
{
    for _ in 0..TRIES {
        match file.read_at(out, offset) {
            Err(e) if e.kind() == ErrorKind::Interrupted => {}
            answer => return answer,
        }
    }
    Err(io::Error::from(ErrorKind::Interrupted))
}

// One write, of some of the bytes.
fn write_some<F: FileExt>(file: &F, bytes: &[u8], offset: u64) -> io::Result<usize>
    ensures bound { WritesAtMost result bytes.now }
{
    for _ in 0..TRIES {
        match file.write_at(bytes, offset) {
            Err(e) if e.kind() == ErrorKind::Interrupted => {}
            answer => return answer,
        }
    }
    Err(io::Error::from(ErrorKind::Interrupted))
}

/// Fills all of this from the file, from this offset on. Fails if the file ends before.
pub(crate) fn read_whole<F: FileExt>(file: &F, out: &mut [u8], offset: u64) -> io::Result<()> {
    let mut done = 0;
    // Each turn reads a byte at least.
    for _ in 0..out.len() {
        if done >= out.len() {
            return Ok(());
        }
        match read_some(file, &mut out[done..], offset.saturating_add(done as u64))? {
            0 => return Err(io::Error::from(ErrorKind::UnexpectedEof)),
            count => done += count,
        }
    }
    if done < out.len() {
        return Err(io::Error::from(ErrorKind::UnexpectedEof));
    }
    Ok(())
}

/// Writes all of these bytes to the file, from this offset on.
pub(crate) fn write_whole<F: FileExt>(file: &F, bytes: &[u8], offset: u64) -> io::Result<()> {
    let mut done = 0;
    // Each turn writes a byte at least.
    for _ in 0..bytes.len() {
        if done >= bytes.len() {
            return Ok(());
        }
        match write_some(file, &bytes[done..], offset.saturating_add(done as u64))? {
            0 => return Err(io::Error::from(ErrorKind::WriteZero)),
            count => done += count,
        }
    }
    if done < bytes.len() {
        return Err(io::Error::from(ErrorKind::WriteZero));
    }
    Ok(())
}

// Writes through what the file holds, once. The standard library's own call would be tried again
// without end.
fn sync_once(file: &File) -> io::Result<()> {
    if libc::fdatasync(file.as_raw_fd()) == 0 {
        return Ok(());
    }
    Err(io::Error::from_raw_os_error(os::errno()))
}

/// Has the system forget what it holds of the file and needn't write, so that the next read asks
/// the medium.
pub(crate) fn forget_pages(file: &File) -> io::Result<()> {
    // A length of 0 is the whole file, its last page too.
    match libc::posix_fadvise(file.as_raw_fd(), 0, 0, libc::POSIX_FADV_DONTNEED) {
        0 => Ok(()),
        number => Err(io::Error::from_raw_os_error(number)),
    }
}

/// Writes through what the file holds.
pub(crate) fn sync_whole(file: &File) -> io::Result<()> {
    for _ in 0..TRIES {
        match sync_once(file) {
            Err(e) if e.kind() == ErrorKind::Interrupted => {}
            answer => return answer,
        }
    }
    Err(io::Error::from(ErrorKind::Interrupted))
}
