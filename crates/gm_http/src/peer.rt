//! The peer that a request is read from.

ghost use Rattle.std.specs.Prelude.{◌≡◌, ◌<◌, ◌≤◌, IfOk, IsTrue, OnErr, false, length, take};
ghost use Rattle.std.specs.Io.KnownBytes.{Consumes, IsAtEnd};
ghost use Rattle.gm_http.specs.Peers.{has_failed};

use crate::request::RequestFault;
use std::io::{ErrorKind, Read};

/// What a request is read from, and whether that failed. It is kept so that whoever is answered
/// `Read` can rely on it.
#[derive(Drop)]
pub struct Peer<R> {
    pub reader: R,
    failed: bool,
}

impl<R: Read> Peer<R> {
    /// A peer from which nothing was read yet.
    pub fn new(reader: R) -> Peer<R>
        ensures reader { result.reader ≡ reader }
        ensures failed { has_failed result ≡ false }
    {
        Peer {
            reader,
            failed: false,
        }
    }

    /// Whether reading from it failed: its reader did, or was interrupted over and over.
    pub fn has_failed(&self) -> bool
        ensures { result ≡ has_failed self.now }
    {
        self.failed
    }

    /// Reads into the buffer once.
    pub(crate) fn read(&mut self, buffer: &mut [u8]) -> Result<usize, RequestFault>
        ensures bytes { IfOk result (λ n. Consumes (R.remaining self.old.reader)
            (R.remaining self.new.reader) (take n buffer.new)) }
        ensures within { IfOk result (λ n. n ≤ length buffer.new) }
        ensures end { IfOk result (λ n. n ≡ 0 → 0 < length buffer.new
            → IsAtEnd (R.remaining self.new.reader)) }
        ensures failed { OnErr result (IsTrue (has_failed self.new)) }
    {
        for _ in 0..u64::MAX {
            match self.reader.read(buffer) {
                Ok(n) => return Ok(n),
                Err(e) if e.kind() == ErrorKind::Interrupted => {}
                Err(_) => break,
            }
        }
        self.failed = true;
        Err(RequestFault::Read)
    }
}
