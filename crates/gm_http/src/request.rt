//! What a request asks.

ghost use Rattle.std.specs.Prelude.{◌≡◌, ◌≤◌, ◌+◌, ◌++◌, All, IfOk, IfSome, IsUtf8, OnOk, drop, length, map, max};
ghost use Rattle.std.specs.Str.{bytes_eq};
ghost use Rattle.httparse.specs.Spans.{IsHeaderWithin, IsWithin, header_bytes, span_bytes};
ghost use Rattle.gm_http.specs.Fields.{length_by};
ghost use Rattle.gm_http.specs.Input.{AsksAtHead, IsHead, Takes, TakesUpTo};
ghost use Rattle.gm_http.specs.Peers.{ReadsUnlessFailed};
ghost use Rattle.gm_http.specs.Requests.{Asks, AsksWith, asked_of, sent};
ghost use Rattle.gm_http.specs.Responses.{method_name};
ghost use Rattle.gm_http.specs.Routes.{target_of};
ghost use Rattle.gm_http.specs.Senders.{Sends};

use crate::bodies::call_of;
use crate::fields::length_by;
use crate::head::{MOST_FIELDS, read_head};
use crate::input::fill;
use crate::peer::Peer;
use crate::routes::{Target, target_of};
use crate::sender::{Sender, sender_of};
use crate::status::Allowed;
use gm_metadata::Label;
use httparse::spans::{EMPTY_HEADER_SPAN, HeaderSpan, RequestSpans};
use std::alloc::{AllocError, Global};
use std::io::Read;
use std::str;

/// How many bytes a body has at most.
const MOST_BODY: u64 = 131_072;

/// What a request asks.
#[derive(Drop)]
pub enum Request {
    /// It isn't one that can be read.
    BadRequest,
    /// Its target is on no route.
    NotFound,
    /// The route of its target takes another method, this one.
    NotAllowed(Allowed),
    /// Its body has more than 131,072 bytes.
    TooLarge,
    /// The mirrors.
    Status,
    /// A mirror.
    Mirror(Label),
    /// What the last sector of a provider holds.
    Metadata(Label),
    /// That a command be carried out.
    Command {
        /// The key that it is handed in under.
        key: String,
        words: Vec<String>,
        /// Whether it is to be carried out whatever is lost by it.
        forced: bool,
    },
}

/// Why a request couldn't be read.
#[derive(Clone, Copy, Debug, PartialEq, Eq)]
pub enum RequestFault {
    /// Want of memory.
    Memory,
    /// The reader failed.
    Read,
}

impl From<AllocError> for RequestFault {
    ghost use Rattle.std.specs.Prelude.{◌≡◌};
    ghost use Rattle.gm_http.specs.declared.request.RequestFault.TheVariants.{Memory};

    ghost from_gives = { λ _ fault. fault ≡ Memory };

    fn from(_: AllocError) -> RequestFault {
        RequestFault::Memory
    }
}

// What the target names that these spans are of.
fn target_at(
    alloc: Global,
    bytes: &[u8],
    spans: &RequestSpans,
) -> Result<Option<Target>, AllocError>
    requires within { IsWithin (length bytes.now) spans.now.path }
    requires text { IsUtf8 (span_bytes bytes.now spans.now.path) }
    ensures { IfOk result (λ target.
        target ≡ target_of (span_bytes bytes.now spans.now.path)) }
{
    let Ok(text) = str::from_utf8(spans.path.of(bytes)) else {
        unreachable!();
    };
    target_of(alloc, text)
}

// Whether the method is this one.
fn has_method(bytes: &[u8], spans: &RequestSpans, method: Allowed) -> bool
    requires { IsWithin (length bytes.now) spans.now.method }
    ensures { result ≡ bytes_eq (span_bytes bytes.now spans.now.method) (method_name method) }
{
    spans.method.of(bytes) == method.name().as_bytes()
}

// What the body asks that begins at `start`, by the fields of its head.
fn read_call<R: Read>(
    alloc: Global,
    peer: &mut Peer<R>,
    bytes: &mut Vec<u8>,
    headers: &[HeaderSpan],
    start: usize,
    takes_force: bool,
) -> Result<Request, RequestFault>
    requires within { All (IsHeaderWithin (length bytes.old.items)) headers.now }
    requires start { start ≤ length bytes.old.items }
    ensures asks { IfOk result (λ request. IfSome (R.remaining peer.old.reader) (λ rest.
        asked_of request ≡ sent takes_force
        (length_by (map (header_bytes bytes.old.items) headers.now))
        (drop start bytes.old.items ++ rest))) }
    ensures takes { OnOk result (Takes (R.remaining peer.old.reader)
        (R.remaining peer.new.reader) bytes.old.items bytes.new.items) }
    ensures most { OnOk result
        (length bytes.new.items ≤ max (length bytes.old.items) (start + 131072)) }
    ensures read { ReadsUnlessFailed peer.new result }
{
    let Some(length) = length_by(alloc, bytes, headers)? else {
        return Ok(Request::BadRequest);
    };
    if length > MOST_BODY {
        return Ok(Request::TooLarge);
    }
    let end = start + length as usize;
    fill(peer, bytes, end)?;
    if bytes.len() < end {
        return Ok(Request::BadRequest);
    }
    match call_of(alloc, &bytes[start..end], takes_force)? {
        Some(call) => Ok(Request::Command {
            key: call.key,
            words: call.words,
            forced: call.forced,
        }),
        None => Ok(Request::BadRequest),
    }
}

// What a head asks that stands at the front of what was read.
fn read_rest<R: Read>(
    alloc: Global,
    peer: &mut Peer<R>,
    bytes: &mut Vec<u8>,
    headers: &[HeaderSpan; MOST_FIELDS],
    spans: &RequestSpans,
    takes_force: bool,
) -> Result<Request, RequestFault>
    requires { IsHead bytes.old.items headers.now spans.now }
    ensures asks { IfOk result (λ request. IfSome (R.remaining peer.old.reader) (λ rest.
        AsksAtHead takes_force bytes.old.items headers.now spans.now rest (asked_of request))) }
    ensures takes { OnOk result (Takes (R.remaining peer.old.reader)
        (R.remaining peer.new.reader) bytes.old.items bytes.new.items) }
    ensures most { OnOk result
        (length bytes.new.items ≤ max (length bytes.old.items) (8192 + 131072)) }
    ensures read { ReadsUnlessFailed peer.new result }
{
    let Some(target) = target_at(alloc, bytes, spans)? else {
        return Ok(Request::NotFound);
    };
    let method = target.method();
    if !has_method(bytes, spans, method) {
        return Ok(Request::NotAllowed(method));
    }
    match &target {
        Target::Status => Ok(Request::Status),
        Target::Mirror(name) => Ok(Request::Mirror(*name)),
        Target::Metadata(name) => Ok(Request::Metadata(*name)),
        Target::Commands => {
            let fields = &headers[..spans.headers];
            read_call(alloc, peer, bytes, fields, spans.len, takes_force)
        }
    }
}

/// A request that was read, and who sent it.
#[derive(Drop)]
pub struct Received {
    pub request: Request,
    pub sender: Sender,
}

#[tactic(auto, using(crate::proofs::Senders::sendings))]
/// Reads one request as `receive_request` does. If `force` is taken, the body of a command may have
/// it for a member.
pub fn receive_forcible<R: Read>(
    alloc: Global,
    peer: &mut Peer<R>,
    takes_force: bool,
) -> Result<Received, RequestFault>
    ensures asks { IfOk result (λ received. IfSome (R.remaining peer.old.reader) (λ input.
        AsksWith takes_force input (asked_of received.request))) }
    ensures sends { IfOk result (λ received. IfSome (R.remaining peer.old.reader) (λ input.
        Sends input received.sender)) }
    ensures front { OnOk result (TakesUpTo (8192 + 131072) (R.remaining peer.old.reader)
        (R.remaining peer.new.reader)) }
    ensures read { ReadsUnlessFailed peer.new result }
{
    let mut bytes = Vec::new(alloc);
    let mut headers = [EMPTY_HEADER_SPAN; MOST_FIELDS];
    let Some(spans) = read_head(peer, &mut bytes, &mut headers)? else {
        return Ok(Received {
            request: Request::BadRequest,
            sender: Sender::Program,
        });
    };
    let sender = sender_of(&bytes, &headers[..spans.headers]);
    let request = read_rest(alloc, peer, &mut bytes, &headers, &spans, takes_force)?;
    Ok(Received { request, sender })
}

/// Reads one request, and says who sent it. A request that is answered without its body isn't read
/// to its end, and none waits for a byte past it; what the reader gives beyond is ignored. Fails
/// if the reader does, or for want of memory. Bytes that are no request were sent by a program.
pub fn receive_request<R: Read>(alloc: Global, peer: &mut Peer<R>) -> Result<Received, RequestFault>
    ensures asks { IfOk result (λ received. IfSome (R.remaining peer.old.reader) (λ input.
        Asks input (asked_of received.request))) }
    ensures sends { IfOk result (λ received. IfSome (R.remaining peer.old.reader) (λ input.
        Sends input received.sender)) }
    ensures front { OnOk result (TakesUpTo (8192 + 131072) (R.remaining peer.old.reader)
        (R.remaining peer.new.reader)) }
    ensures read { ReadsUnlessFailed peer.new result }
{
    receive_forcible(alloc, peer, false)
}

/// Reads one request, as `receive_request` does, whoever sent it.
pub fn read_request<R: Read>(alloc: Global, peer: &mut Peer<R>) -> Result<Request, RequestFault>
    ensures asks { IfOk result (λ request. IfSome (R.remaining peer.old.reader) (λ input.
        Asks input (asked_of request))) }
    ensures front { OnOk result (TakesUpTo (8192 + 131072) (R.remaining peer.old.reader)
        (R.remaining peer.new.reader)) }
    ensures read { ReadsUnlessFailed peer.new result }
{
    Ok(receive_request(alloc, peer)?.request)
}
