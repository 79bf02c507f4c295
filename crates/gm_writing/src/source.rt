//! Where the data come from: a file, or the input.

use gm_faults::Fault;
use gm_process::{Streams, Trouble};
use std::alloc::Global;
use std::fs::File;
use std::io::{self, BufRead, ErrorKind, Read};

/// What stands for the input in the place of a file.
const INPUT: &str = "-";

/// How sentences name a source.
pub(crate) fn named(file: &str) -> &str {
    if file == INPUT { "the input" } else { file }
}

// Reads to the end, or so many bytes.
fn read_up_to<R: Read + Drop>(alloc: Global, source: R, limit: u64) -> io::Result<Vec<u8>> {
    let mut bytes = Vec::new(alloc);
    let mut limited = source.take(limit);
    limited.read_to_end(&mut bytes)?;
    Ok(bytes)
}

fn read_file(rt: &HostRuntime, file: &str, limit: u64) -> io::Result<Vec<u8>> {
    read_up_to(rt.alloc(), File::open(rt, file)?, limit)
}

// Why a source can't be read, with PATH in the place of its name. If the input is closed, another
// file has its number, so that an error says nothing of it.
fn sentence(file: &str, error: &io::Error) -> &'static str {
    if file == INPUT {
        return "PATH can't be read";
    }
    match error.kind() {
        ErrorKind::NotFound => "there is no file PATH",
        ErrorKind::IsADirectory => "PATH is a folder",
        ErrorKind::PermissionDenied => "PATH may not be read by this user",
        _ => "PATH can't be read",
    }
}

/// Reads the data to their end, or so many bytes of them. Keeps which file can't be read, and why.
pub(crate) fn read_source<I: BufRead, O, E>(
    rt: &HostRuntime,
    file: &str,
    limit: u64,
    streams: &mut Streams<'_, I, O, E>,
) -> Result<Vec<u8>, Fault> {
    let found = if file == INPUT {
        read_up_to(rt.alloc(), &mut *streams.input, limit)
    } else {
        read_file(rt, file, limit)
    };
    match found {
        Ok(bytes) => Ok(bytes),
        Err(error) => {
            let path = String::from_str(rt.alloc(), named(file))?;
            streams.explaining.trouble = Some(Trouble::new(sentence(file, &error), path));
            Err(Fault::from(error))
        }
    }
}
