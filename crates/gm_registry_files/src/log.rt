//! What has the name of a registry's log: whether it is one.
//!
//! SQLite's crate takes any file of that name for a log, and writes over one that isn't. A log that
//! a stop leaves passes here. It is made in 41 bytes. To empty a longer one, the crate writes a
//! zero for its first byte, then its bytes 1 to 40, and then the first byte, and syncs in between;
//! bytes 1 to 3 are the same before and after.

ghost use Rattle.std.specs.Prelude.{◌≡◌};
ghost use Rattle.gm_registry_files.specs.Obstacles.{is_gate, is_log_head, is_order, log_kind};

use std::fs::File;
use std::io;
use std::os::unix::fs::FileExt;

/// What a file is that has the name of a registry's log.
#[derive(Clone, Copy, Debug, PartialEq, Eq)]
pub enum LogKind {
    /// There is none, or none that is longer than an empty one.
    Empty,
    /// A log that may hold commands.
    Filled,
    /// Another file.
    Other,
}

// How long a log is that holds nothing, in bytes: its header, and the first frame up to its gate.
const EMPTY_BYTES: u64 = 41;

fn is_gate(byte: u8) -> bool
    ensures { result ≡ is_gate byte }
{
    byte == 0x37 || byte == 0
}

fn is_order(byte: u8) -> bool
    ensures { result ≡ is_order byte }
{
    byte == 0x82 || byte == 0x83
}

// Whether a log begins so that holds something.
fn is_log_head(head: &[u8; 4]) -> bool
    ensures { result ≡ is_log_head head.now }
{
    is_gate(head[0]) && head[1] == 0x7f && head[2] == 0x06 && is_order(head[3])
}

// What a file is that is so long, and begins so.
fn log_kind(bytes: u64, head: &[u8; 4]) -> LogKind
    ensures { result ≡ log_kind bytes head.now }
{
    if bytes <= EMPTY_BYTES {
        return LogKind::Empty;
    }
    if is_log_head(head) {
        LogKind::Filled
    } else {
        LogKind::Other
    }
}

// What this file is.
fn kind_of_file(file: &File) -> io::Result<LogKind> {
    let bytes = file.metadata()?.len();
    let mut head = [0; 4];
    if bytes > EMPTY_BYTES {
        file.read_exact_at(&mut head, 0)?;
    }
    Ok(log_kind(bytes, &head))
}

/// What has the name of a registry's log, if anything has.
pub(crate) fn kind_of_log(log: &Option<File>) -> io::Result<LogKind> {
    match log {
        Some(file) => kind_of_file(file),
        None => Ok(LogKind::Empty),
    }
}
