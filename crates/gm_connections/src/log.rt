//! What is logged of a connection: a line with the time, the request's method and target as its
//! first line has them, the status of the response, and how many bytes its body has.

ghost use Rattle.std.specs.Prelude.{◌≡◌, true};
ghost use Rattle.std.specs.Char.{is_ascii_graphic};

use httpdate::HttpDate;
use libc::STDERR_FILENO;
use libc::net::{POLLOUT, poll};
use libc::types::pollfd;
use std::io::{self, Write};
use std::time::SystemTime;

// The time now, as HTTP has it; nothing if the clock can't be read.
fn time_now(rt: &HostRuntime) -> Option<[u8; 29]> {
    let now = SystemTime::now(rt).ok()?;
    let since = now.duration_since(SystemTime::UNIX_EPOCH).ok()?;
    Some(HttpDate::from_unix_secs(since.as_secs()).ok()?.to_bytes())
}

// A byte of a word as it is logged: none that a terminal acts upon.
fn shown(byte: u8) -> u8
    ensures graphic { is_ascii_graphic result ≡ true }
    ensures same { is_ascii_graphic byte ≡ true → result ≡ byte }
{
    if byte.is_ascii_graphic() { byte } else { b'?' }
}

// Writes a word of the request, with `?` for what isn't shown; `-` if there is none.
fn write_word<W: Write>(text: &mut W, word: Option<&[u8]>) -> io::Result<()> {
    let Some(word) = word else {
        return text.write_all(b" -");
    };
    text.write_all(b" ")?;
    for byte in word {
        text.write_all(&[shown(*byte)])?;
    }
    Ok(())
}

/// What was told of a request: the status of the response, and the length of its body in bytes.
#[derive(Clone, Copy, Debug, PartialEq, Eq)]
pub struct Told {
    pub status: u16,
    pub length: usize,
}

// Writes the line of a connection.
fn write_line<W: Write>(
    rt: &HostRuntime,
    text: &mut W,
    beginning: &[u8],
    told: Option<Told>,
) -> io::Result<()> {
    text.write_all(&time_now(rt).unwrap_or([b'-'; 29]))?;
    let mut lines = beginning.split(|byte| *byte == b'\r' || *byte == b'\n');
    let line = lines.next().unwrap_or(&[]);
    let mut words = line
        .split(|byte| *byte == b' ')
        .filter(|word| !word.is_empty());
    write_word(text, words.next())?;
    write_word(text, words.next())?;
    match told {
        Some(Told { status, length }) => writeln!(text, " {status} {length}"),
        None => text.write_all(b" - -\n"),
    }
}

// Whether a line can be written to a descriptor at once.
fn takes_line(descriptor: i32) -> bool {
    let mut asked = [pollfd {
        fd: descriptor,
        events: POLLOUT,
        revents: 0,
    }];
    poll(&mut asked, 0) == 1
}

/// A log, with a line for each connection. Nobody waits for whoever reads it: a line that can't be
/// written is lost, and how many were lost is said before the next one.
#[derive(Drop)]
pub struct Log<'a, W> {
    stream: &'a mut W,
    // What is asked whether a line can be written at once; `None` if it always can.
    descriptor: Option<i32>,
    lost: u64,
}

impl<'a, W: Write> Log<'a, W> {
    /// A log on a stream that takes every line at once.
    pub fn new(stream: &'a mut W) -> Log<'a, W> {
        Log {
            stream,
            descriptor: None,
            lost: 0,
        }
    }

    /// A log on a stream that is standard error, which may be a pipe that nobody reads.
    pub fn on_standard_error(stream: &'a mut W) -> Log<'a, W> {
        Log {
            stream,
            descriptor: Some(STDERR_FILENO),
            lost: 0,
        }
    }

    // Writes a text at once, or says that it can't.
    fn put(&mut self, text: &[u8]) -> bool {
        let takes = match self.descriptor {
            Some(descriptor) => takes_line(descriptor),
            None => true,
        };
        takes && self.stream.write_all(text).is_ok()
    }

    // How many lines were lost, if any were, and then the line of a connection.
    fn text(&self, rt: &HostRuntime, beginning: &[u8], told: Option<Told>) -> io::Result<Vec<u8>> {
        let mut text = Vec::new(rt.alloc());
        if self.lost > 0 {
            writeln!(text, "{} lines lost", self.lost)?;
        }
        write_line(rt, &mut text, beginning, told)?;
        Ok(text)
    }

    /// Logs a connection, by the beginning of what came and by what was told, if a response went
    /// out.
    pub fn tell(&mut self, rt: &HostRuntime, beginning: &[u8], told: Option<Told>) {
        let is_written = match self.text(rt, beginning, told) {
            Ok(text) => self.put(&text),
            Err(_) => false,
        };
        self.lost = if is_written {
            0
        } else {
            self.lost.saturating_add(1)
        };
    }

    /// Says how many lines were lost after the last one, if any were.
    pub fn end(&mut self, rt: &HostRuntime) {
        let mut text = Vec::new(rt.alloc());
        if self.lost > 0 && writeln!(text, "{} lines lost", self.lost).is_ok() {
            let _ = self.put(&text);
        }
    }
}
