//! The head of a request.

ghost use Rattle.std.specs.Prelude.{◌≡◌, ◌≤◌, ◌<◌, ℕ, List, [], IfSome, IfNone, IfOk, OnOk, length, vec_len};
ghost use Rattle.httparse.specs.Grammar.{HasNoRequest};
ghost use Rattle.httparse.specs.Spans.{IsRequestOf, IsRequestWithin, RequestOverflows};
ghost use Rattle.gm_http.specs.Input.{HasNoHead, IsHead, Takes};
ghost use Rattle.gm_http.specs.Heads.{Looks};
ghost use Rattle.gm_http.specs.Peers.{ReadsUnlessFailed};

use crate::input::take_some;
use crate::peer::Peer;
use crate::request::RequestFault;
use httparse::Status;
use httparse::spans::{HeaderSpan, RequestSpans, parse_request};
use std::io::Read;

/// How many bytes a head has at most.
const MOST_BYTES: usize = 8192;

/// How many fields a head has at most.
pub(crate) const MOST_FIELDS: usize = 64;

/// What bytes are that an input begins with.
enum Beginning {
    /// A head, and what follows it.
    Head(RequestSpans),
    /// A head may come of them.
    Open,
    /// Whatever follows, there is no head of at most 64 fields.
    Never,
}

// What the bytes are.
fn look(bytes: &[u8], headers: &mut [HeaderSpan; MOST_FIELDS]) -> Beginning
    ensures { Looks bytes.now headers.new result }
{
    match parse_request(bytes, headers) {
        Ok(Status::Complete(spans)) => Beginning::Head(spans),
        Ok(Status::Partial) => Beginning::Open,
        Err(_) => Beginning::Never,
    }
}

#[tactic(auto, using(crate::proofs::Beginnings::readings))]
/// Reads the head of a request, of at most 8,192 bytes and 64 fields, and what comes with it;
/// `None` if the input has no such head. Reads nothing once that is decided.
pub(crate) fn read_head<R: Read>(
    peer: &mut Peer<R>,
    bytes: &mut Vec<u8>,
    headers: &mut [HeaderSpan; MOST_FIELDS],
) -> Result<Option<RequestSpans>, RequestFault>
    requires { bytes.old.items ≡ [] }
    ensures takes { OnOk result
        (Takes (R.remaining peer.old.reader) (R.remaining peer.new.reader) [] bytes.new.items) }
    ensures most { OnOk result (vec_len bytes.new ≤ 8192) }
    ensures head { IfOk result (λ found. IfSome found (λ spans.
        IsHead bytes.new.items headers.new spans)) }
    ensures none { IfOk result (λ found. IfNone found
        (IfSome (R.remaining peer.old.reader) HasNoHead)) }
    ensures read { ReadsUnlessFailed peer.new result }
{
    while bytes.len() < MOST_BYTES {
        let missing = MOST_BYTES - bytes.len();
        if !take_some(peer, bytes, missing)? {
            return Ok(None);
        }
        match look(bytes, headers) {
            Beginning::Head(spans) => return Ok(Some(spans)),
            Beginning::Open => {}
            Beginning::Never => return Ok(None),
        }
    }
    Ok(None)
}
