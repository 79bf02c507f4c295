//! The bytes of a request, as far as they are asked for.

ghost use Rattle.std.specs.Prelude.{◌≡◌, ◌<◌, ◌≤◌, ◌+◌, IfOk, OnOk, IsTrue, false, length, max, take, vec_len};
ghost use Rattle.std.specs.Io.KnownBytes.{Consumes, IsAtEnd};
ghost use Rattle.gm_http.specs.Input.{Takes};
ghost use Rattle.gm_http.specs.Peers.{ReadsUnlessFailed};

use crate::peer::Peer;
use crate::request::RequestFault;
use std::io::Read;

/// Takes what the peer has, up to so many bytes, and says whether it had any.
pub(crate) fn take_some<R: Read>(
    peer: &mut Peer<R>,
    bytes: &mut Vec<u8>,
    most: usize,
) -> Result<bool, RequestFault>
    requires { 0 < most }
    ensures takes { OnOk result (Takes (R.remaining peer.old.reader)
        (R.remaining peer.new.reader) bytes.old.items bytes.new.items) }
    ensures most { OnOk result (vec_len bytes.new ≤ vec_len bytes.old + most) }
    ensures some { IfOk result (λ some. IsTrue some → vec_len bytes.old < vec_len bytes.new) }
    ensures end { IfOk result (λ some. some ≡ false → IsAtEnd (R.remaining peer.new.reader)
        × (bytes.new ≡ bytes.old)) }
    ensures read { ReadsUnlessFailed peer.new result }
{
    let mut buffer = [0u8; 1024];
    let room = most.min(1024);
    let n = peer.read(&mut buffer[..room])?;
    if n == 0 {
        return Ok(false);
    }
    match bytes.extend_from_slice(&buffer[..n]) {
        Ok(()) => Ok(true),
        Err(_) => Err(RequestFault::Memory),
    }
}

/// Takes what is missing to so many bytes, or all if the input ends before.
pub(crate) fn fill<R: Read>(
    peer: &mut Peer<R>,
    bytes: &mut Vec<u8>,
    total: usize,
) -> Result<(), RequestFault>
    ensures takes { OnOk result (Takes (R.remaining peer.old.reader)
        (R.remaining peer.new.reader) bytes.old.items bytes.new.items) }
    ensures most { OnOk result (vec_len bytes.new ≤ max (vec_len bytes.old) total) }
    ensures end { OnOk result (vec_len bytes.new < total
        → IsAtEnd (R.remaining peer.new.reader)) }
    ensures read { ReadsUnlessFailed peer.new result }
{
    while bytes.len() < total {
        let missing = total - bytes.len();
        if !take_some(peer, bytes, missing)? {
            return Ok(());
        }
    }
    Ok(())
}
