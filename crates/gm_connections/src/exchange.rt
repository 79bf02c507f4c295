//! One connection: a request that is taken and a response that is written, each in its time.

use crate::expectation::{GO_ON, waits_for_word};
use std::io::{self, ErrorKind, Read, Write};
use std::net::{Shutdown, TcpStream};
use std::time::{Duration, Instant};

// How many seconds a request may take to come, and a response to be taken.
const PATIENCE: u64 = 10;

// How many seconds a request may take to begin to come.
const FIRST_PATIENCE: u64 = 2;

// For how many seconds what still comes after a response is taken, and how many bytes of it.
const LINGERING: u64 = 2;

const LINGERING_BYTES: u64 = 16 << 20;

// How many bytes of a request are kept: a head has no more.
const HEAD_BYTES: usize = 8192;

// How many of them the log sees.
const LINE_BYTES: usize = 256;

// A time by which something is to be done.
#[derive(Clone, Copy)]
struct Deadline<'a> {
    rt: &'a HostRuntime,
    begun: Instant,
    length: Duration,
}

impl<'a> Deadline<'a> {
    // So many seconds from now on.
    fn within(rt: &'a HostRuntime, seconds: u64) -> io::Result<Deadline<'a>> {
        Ok(Deadline {
            rt,
            begun: Instant::now(rt)?,
            length: Duration::from_secs(seconds),
        })
    }

    // What is left of the time, more than none.
    fn left(&self) -> io::Result<Duration> {
        match self.length.checked_sub(self.begun.elapsed(self.rt)?) {
            Some(left) if left > Duration::ZERO => Ok(left),
            _ => Err(io::Error::from(ErrorKind::TimedOut)),
        }
    }
}

/// The side of a connection from which a request is read: its first byte in two seconds, and all of
/// it in ten. It keeps the beginning of what was read, for the log and for a client that waits to
/// be told to go on after its head, and tells it.
#[derive(Drop)]
pub struct Incoming<'a> {
    stream: &'a TcpStream,
    first: Deadline<'a>,
    deadline: Deadline<'a>,
    head: [u8; HEAD_BYTES],
    kept: usize,
    told: bool,
}

impl<'a> Incoming<'a> {
    /// Begins the time of the request.
    pub fn begin(rt: &'a HostRuntime, stream: &'a TcpStream) -> io::Result<Incoming<'a>> {
        Ok(Incoming {
            stream,
            first: Deadline::within(rt, FIRST_PATIENCE)?,
            deadline: Deadline::within(rt, PATIENCE)?,
            head: [0; HEAD_BYTES],
            kept: 0,
            told: false,
        })
    }

    /// The beginning of what was read.
    pub fn beginning(&self) -> &[u8] {
        self.head.get(..self.kept.min(LINE_BYTES)).unwrap_or(&[])
    }

    // What is left of the time for what is missing.
    fn left(&self) -> io::Result<Duration> {
        if self.kept == 0 {
            self.first.left()
        } else {
            self.deadline.left()
        }
    }

    // Keeps as much of the bytes as there is room for.
    fn keep(&mut self, bytes: &[u8]) {
        for byte in bytes {
            let Some(place) = self.head.get_mut(self.kept) else {
                return;
            };
            *place = *byte;
            self.kept += 1;
        }
    }
}

impl Incoming<'_> {
    // Tells a client to go on that waits for that, once.
    fn tell_to_go_on(&mut self) -> io::Result<()> {
        let head = self.head.get(..self.kept).unwrap_or(&[]);
        if self.told || !waits_for_word(head) {
            return Ok(());
        }
        self.told = true;
        self.stream.set_write_timeout(Some(self.left()?))?;
        (&mut &*self.stream).write_all(GO_ON)
    }
}

impl Read for Incoming<'_> {
    fn read(&mut self, buf: &mut [u8]) -> io::Result<usize> {
        self.tell_to_go_on()?;
        self.stream.set_read_timeout(Some(self.left()?))?;
        let count = (&mut &*self.stream).read(buf)?;
        self.keep(&buf[..count]);
        Ok(count)
    }
}

/// The side of a connection to which a response is written, in ten seconds in all.
#[derive(Drop)]
pub struct Outgoing<'a> {
    rt: &'a HostRuntime,
    stream: &'a TcpStream,
    deadline: Option<Deadline<'a>>,
}

impl<'a> Outgoing<'a> {
    /// The time of the response begins with its first byte.
    pub fn new(rt: &'a HostRuntime, stream: &'a TcpStream) -> Outgoing<'a> {
        Outgoing {
            rt,
            stream,
            deadline: None,
        }
    }

    fn left(&mut self) -> io::Result<Duration> {
        match self.deadline {
            Some(deadline) => deadline.left(),
            None => {
                let deadline = Deadline::within(self.rt, PATIENCE)?;
                self.deadline = Some(deadline);
                deadline.left()
            }
        }
    }
}

impl Write for Outgoing<'_> {
    fn write(&mut self, buf: &[u8]) -> io::Result<usize> {
        self.stream.set_write_timeout(Some(self.left()?))?;
        (&mut &*self.stream).write(buf)
    }

    fn flush(&mut self) -> io::Result<()> {
        (&mut &*self.stream).flush()
    }
}

/// Ends a connection after its response: says that no more is sent, and takes what still comes, so
/// that whoever is still sending gets to read the response.
pub fn end(rt: &HostRuntime, stream: &TcpStream) -> io::Result<()> {
    stream.shutdown(Shutdown::Write)?;
    let deadline = Deadline::within(rt, LINGERING)?;
    let mut room = [0; 8192];
    let mut taken = 0u64;
    for _ in 0..u64::MAX {
        if taken >= LINGERING_BYTES {
            break;
        }
        stream.set_read_timeout(Some(deadline.left()?))?;
        match (&mut &*stream).read(&mut room) {
            Ok(0) => break,
            Ok(count) => taken = taken.saturating_add(count as u64),
            Err(e) if e.kind() == ErrorKind::Interrupted => {}
            Err(e) => return Err(e),
        }
    }
    Ok(())
}
