//! One request over HTTP, answered.

ghost use Rattle.std.specs.Prelude.{◌≡◌, ℕ, List, [], Err, IfOk, IfSome, None, OnErr, Option};
ghost use Rattle.std.specs.Io.KnownBytes.{Appends};
ghost use Rattle.gm_metadata.specs.Images.{Image};
ghost use Rattle.gm_state.specs.World.{World};
ghost use Rattle.gm_registry.specs.Registry.{DiskKept};
ghost use Rattle.gm_http.specs.Requests.{Asks, asked_of};
ghost use Rattle.gm_http.specs.Senders.{IsFromPage};
ghost use Rattle.gm_bench.specs.Benches.{progress_of, registry_of, shelf_of};
ghost use Rattle.gm_bench.specs.Calls.{Keep};
ghost use Rattle.gm_bench.specs.Phases.{TakesCommands};
ghost use Rattle.gm_bench.specs.Recovering.{IsAt};
ghost use Rattle.gm_front.specs.Batch.{AppendsFront};
ghost use Rattle.gm_front.specs.Findings.{LeavesBench, told_in, told_of};
ghost use Rattle.gm_front.specs.Services.{Serves, ServesOne, ServesUnlessFailed, ServesUnlessPage, TurnsAway, WasRead, bytes_of, code_told};

use crate::answer_lines::{FrontFault, write_whole};
use crate::demand::demand_of;
use crate::finding::{Finding, Told, find};
use gm_bench::{Bench, BenchFault};
use gm_http::{
    Peer, Request, RequestFault, Sender, Status, read_request, receive_request, response,
};
use gm_shelf::Shelf;
use sqlite::Alter;
use std::alloc::Global;
use std::io::{Read, Write};

/// A response that was written whole.
#[derive(Clone, Copy, Debug, PartialEq, Eq)]
pub struct Response {
    pub status: Status,
    /// How many bytes its body has.
    pub length: usize,
}

/// How a request was served.
#[derive(Clone, Copy)]
pub struct Served {
    /// The response, or why not all of it was written.
    pub response: Result<Response, FrontFault>,
    /// Why the bench failed, if it did.
    pub fault: Option<BenchFault>,
}

/// Writes the response that tells this.
pub(crate) fn write_told<W: Write>(
    alloc: Global,
    writer: &mut W,
    told: &Told,
) -> Result<Response, FrontFault>
    ensures ok { IfOk result (λ response. (response.status ≡ (told_in told.now).status)
        × Appends (W.contents writer.old) (W.contents writer.new) (bytes_of (told_in told.now))) }
    ensures front { OnErr result (AppendsFront (W.contents writer.old) (W.contents writer.new)
        (bytes_of (told_in told.now))) }
    ensures read { WasRead result }
{
    let Ok(text) = response(alloc, told.status, &told.body) else {
        return Err(FrontFault::Memory);
    };
    write_whole(writer, text.as_bytes())?;
    match writer.flush() {
        Ok(()) => Ok(Response {
            status: told.status,
            length: told.body.len(),
        }),
        Err(_) => Err(FrontFault::Write),
    }
}

/// Writes the response that tells a finding.
pub(crate) fn tell<W: Write>(
    alloc: Global,
    writer: &mut W,
    finding: &Finding,
) -> Result<Response, FrontFault>
    ensures ok { IfOk result (λ response. (response.status ≡ (told_of finding.now).status)
        × Appends (W.contents writer.old) (W.contents writer.new)
        (bytes_of (told_of finding.now))) }
    ensures front { OnErr result (AppendsFront (W.contents writer.old) (W.contents writer.new)
        (bytes_of (told_of finding.now))) }
    ensures read { WasRead result }
{
    let Ok(told) = finding.told(alloc) else {
        return Err(FrontFault::Memory);
    };
    write_told(alloc, writer, &told)
}

/// A request that wasn't put to the bench.
pub(crate) fn unserved(fault: FrontFault) -> Served
    ensures response { result.response ≡ Err fault }
    ensures none { result.fault ≡ None }
{
    Served {
        response: Err(fault),
        fault: None,
    }
}

// Asks the bench what a request demands that was read, and writes the response.
fn respond<W: Write, S: Alter, H: Shelf>(
    alloc: Global,
    writer: &mut W,
    bench: &mut Bench<S, H>,
    request: Request,
) -> Served
    requires { TakesCommands (progress_of bench.old) }
    ensures serves { H.honest (shelf_of bench.old) → DiskKept S.Store (registry_of bench.new)
        → (input : Option (List ℕ)) → IfSome input (λ bytes. Asks bytes (asked_of request))
        → (away : Image) (u : World)
        → IsAt S.Store H.Shelf (registry_of bench.old) (shelf_of bench.old) away [] [] u u
        → Serves S.Store H.Shelf input (W.contents writer.old) (W.contents writer.new)
        (registry_of bench.old) (registry_of bench.new)
        (shelf_of bench.old) (shelf_of bench.new) away u (code_told result.response)
        result.fault }
    ensures leaves { LeavesBench S.Store H.Shelf bench.old bench.new result.fault }
    ensures read { WasRead result.response }
{
    let Ok(demand) = demand_of(alloc, request) else {
        return unserved(FrontFault::Memory);
    };
    let finding = find(alloc, bench, &demand);
    let response = tell(alloc, writer, &finding);
    Served {
        response,
        fault: finding.fault(),
    }
}

/// Reads one request, asks the bench what it demands, and writes the response. Asks for a bench in
/// phase Ready or Failed.
pub fn serve_request<R: Read, W: Write, S: Alter, H: Shelf>(
    alloc: Global,
    peer: &mut Peer<R>,
    writer: &mut W,
    bench: &mut Bench<S, H>,
) -> Served
    requires { TakesCommands (progress_of bench.old) }
    ensures serves { H.honest (shelf_of bench.old) → DiskKept S.Store (registry_of bench.new)
        → (away : Image) (u : World)
        → IsAt S.Store H.Shelf (registry_of bench.old) (shelf_of bench.old) away [] [] u u
        → Serves S.Store H.Shelf (R.remaining peer.old.reader)
        (W.contents writer.old) (W.contents writer.new)
        (registry_of bench.old) (registry_of bench.new)
        (shelf_of bench.old) (shelf_of bench.new) away u (code_told result.response)
        result.fault }
    ensures leaves { LeavesBench S.Store H.Shelf bench.old bench.new result.fault }
    ensures read { ServesUnlessFailed peer.new result.response }
{
    match read_request(alloc, peer) {
        Ok(request) => respond(alloc, writer, bench, request),
        Err(RequestFault::Memory) => unserved(FrontFault::Memory),
        Err(RequestFault::Read) => unserved(FrontFault::Read),
    }
}

/// Tells a page that it isn't served.
pub(crate) fn turn_away<W: Write>(alloc: Global, writer: &mut W) -> Served
    ensures response { TurnsAway (W.contents writer.old) (W.contents writer.new)
        (code_told result.response) }
    ensures none { result.fault ≡ None }
    ensures read { WasRead result.response }
{
    let finding = Finding::TurnedDown(Status::Forbidden, "not from a page");
    Served {
        response: tell(alloc, writer, &finding),
        fault: None,
    }
}

/// The same as `serve_request`, but a request that a web page sent is turned away: the bench isn't
/// asked of it, and stays what it is.
pub fn serve_request_unless_page<R: Read, W: Write, S: Alter, H: Shelf>(
    alloc: Global,
    peer: &mut Peer<R>,
    writer: &mut W,
    bench: &mut Bench<S, H>,
) -> Served
    requires { TakesCommands (progress_of bench.old) }
    ensures page { IfSome (R.remaining peer.old.reader) (λ input. IsFromPage input
        → (bench.new ≡ bench.old) × TurnsAway (W.contents writer.old) (W.contents writer.new)
        (code_told result.response)) }
    ensures serves { H.honest (shelf_of bench.old) → DiskKept S.Store (registry_of bench.new)
        → (away : Image) (u : World)
        → IsAt S.Store H.Shelf (registry_of bench.old) (shelf_of bench.old) away [] [] u u
        → ServesUnlessPage S.Store H.Shelf (R.remaining peer.old.reader)
        (W.contents writer.old) (W.contents writer.new)
        (registry_of bench.old) (registry_of bench.new)
        (shelf_of bench.old) (shelf_of bench.new) away u (code_told result.response)
        result.fault }
    ensures leaves { LeavesBench S.Store H.Shelf bench.old bench.new result.fault }
    ensures read { ServesUnlessFailed peer.new result.response }
{
    let received = match receive_request(alloc, peer) {
        Ok(received) => received,
        Err(RequestFault::Memory) => return unserved(FrontFault::Memory),
        Err(RequestFault::Read) => return unserved(FrontFault::Read),
    };
    match received.sender {
        Sender::Page => turn_away(alloc, writer),
        Sender::Program => respond(alloc, writer, bench, received.request),
    }
}

/// Serves one request, and answers the status of the response. A `Read` fault asked the bench
/// nothing and wrote nothing; after any other a beginning of the response was written, and what
/// the bench accepted stays accepted.
pub fn serve_one<R: Read, W: Write, S: Alter, H: Shelf>(
    alloc: Global,
    peer: &mut Peer<R>,
    writer: &mut W,
    bench: &mut Bench<S, H>,
) -> Result<u16, FrontFault>
    requires { TakesCommands (progress_of bench.old) }
    ensures serves { ServesOne S.Store H.Shelf (R.remaining peer.old.reader)
        (W.contents writer.old) (W.contents writer.new) bench.old bench.new result }
    ensures phase { TakesCommands (progress_of bench.new) }
    ensures keep { Keep S.Store H.Shelf (registry_of bench.old) (registry_of bench.new)
        (shelf_of bench.old) (shelf_of bench.new) }
    ensures read { ServesUnlessFailed peer.new result }
{
    match serve_request(alloc, peer, writer, bench).response {
        Ok(response) => Ok(response.status.code()),
        Err(fault) => Err(fault),
    }
}
