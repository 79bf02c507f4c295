//! One request over HTTP, answered; its command is carried out only if the images that it is about
//! are as they are registered.

ghost use Rattle.std.specs.Prelude.{◌≡◌, ℕ, List, [], false, IfSome, Option};
ghost use Rattle.gm_metadata.specs.Images.{Image};
ghost use Rattle.gm_state.specs.World.{World};
ghost use Rattle.gm_registry.specs.Registry.{DiskKept};
ghost use Rattle.gm_http.specs.Requests.{Asks, asked_of};
ghost use Rattle.gm_http.specs.Senders.{IsFromPage};
ghost use Rattle.gm_bench.specs.Benches.{progress_of, registry_of, shelf_of};
ghost use Rattle.gm_bench.specs.Calls.{Keep};
ghost use Rattle.gm_bench.specs.Phases.{TakesCommands};
ghost use Rattle.gm_bench.specs.Recovering.{IsAt};
ghost use Rattle.gm_front.specs.Findings.{LeavesBench, TellsStoreAt, demand_in, fault_of, progress_behind};
ghost use Rattle.gm_front.specs.GuardedServices.{FindsUnlessWithheld, HadNothing, ServesGuarded, ServesOrWithholds};
ghost use Rattle.gm_front.specs.Closing.{KeepsClosed};
ghost use Rattle.gm_front.specs.Services.{ServesUnlessFailed, TurnsAway, WasRead, code_told};

use crate::answer_lines::FrontFault;
use crate::demand::{Demand, demand_of};
use crate::finding::{Finding, find};
use crate::guard::in_the_way;
use crate::service::{Served, tell, turn_away, unserved};
use gm_bench::Bench;
use gm_http::{Peer, Request, RequestFault, Sender, receive_request};
use gm_shelf::Shelf;
use sqlite::Alter;
use std::alloc::Global;
use std::io::{Read, Write};

// Puts a demand to a bench, in phase Ready or Failed; a command only if nothing stands in its way.
fn find_guarded<S: Alter, H: Shelf>(
    alloc: Global,
    bench: &mut Bench<S, H>,
    demand: &Demand,
) -> Finding
    requires { TakesCommands (progress_of bench.old) }
    ensures finds { H.honest (shelf_of bench.old) → DiskKept S.Store (registry_of bench.new)
        → (away : Image) (u : World)
        → IsAt S.Store H.Shelf (registry_of bench.old) (shelf_of bench.old) away [] [] u u
        → FindsUnlessWithheld S.Store H.Shelf bench.old bench.new away u (demand_in demand.now)
        result }
    ensures guarded { H.honest (shelf_of bench.old) → DiskKept S.Store (registry_of bench.new)
        → HadNothing S.Store H.Shelf bench.old bench.new (demand_in demand.now) result }
    ensures progress { progress_of bench.new
        ≡ progress_behind (progress_of bench.old) (fault_of result) }
    ensures closes { KeepsClosed bench.old bench.new (fault_of result) }
    ensures store { TellsStoreAt S.Store H.Shelf bench.old bench.new (fault_of result) }
    ensures keep { Keep S.Store H.Shelf (registry_of bench.old) (registry_of bench.new)
        (shelf_of bench.old) (shelf_of bench.new) }
{
    let Demand::Carry(key, command) = demand else {
        return find(alloc, bench, demand);
    };
    match in_the_way(alloc, bench, key.as_str(), command) {
        Ok(list) if list.is_empty() => find(alloc, bench, demand),
        Ok(list) => Finding::Withheld(list),
        Err(fault) => Finding::Failed(fault),
    }
}

/// Asks the bench what a request demands that was read, and writes the response, as
/// `serve_request_guarded` does to any input that asks the same. The caller turns pages away.
pub fn respond_guarded<W: Write, S: Alter, H: Shelf>(
    alloc: Global,
    writer: &mut W,
    bench: &mut Bench<S, H>,
    request: Request,
) -> Served
    requires { TakesCommands (progress_of bench.old) }
    ensures serves { H.honest (shelf_of bench.old) → DiskKept S.Store (registry_of bench.new)
        → (input : Option (List ℕ)) → IfSome input (λ bytes. Asks bytes (asked_of request))
        → (away : Image) (u : World)
        → IsAt S.Store H.Shelf (registry_of bench.old) (shelf_of bench.old) away [] [] u u
        → ServesOrWithholds S.Store H.Shelf bench.old bench.new away u input
        (W.contents writer.old) (W.contents writer.new) (code_told result.response)
        result.fault }
    ensures leaves { LeavesBench S.Store H.Shelf bench.old bench.new result.fault }
    ensures read { WasRead result.response }
{
    let Ok(demand) = demand_of(alloc, request) else {
        return unserved(FrontFault::Memory);
    };
    let finding = find_guarded(alloc, bench, &demand);
    let response = tell(alloc, writer, &finding);
    Served {
        response,
        fault: finding.fault(),
    }
}

/// The same as `serve_request`, but a command isn't handed in if images that it is about aren't as
/// they are registered: that is told with status 409. Unless those of any origin are wanted, a
/// request that a web page sent is turned away, as by `serve_request_unless_page`.
pub fn serve_request_guarded<R: Read, W: Write, S: Alter, H: Shelf>(
    alloc: Global,
    peer: &mut Peer<R>,
    writer: &mut W,
    any_origin: bool,
    bench: &mut Bench<S, H>,
) -> Served
    requires { TakesCommands (progress_of bench.old) }
    ensures page { any_origin ≡ false → IfSome (R.remaining peer.old.reader) (λ input.
        IsFromPage input → (bench.new ≡ bench.old)
        × TurnsAway (W.contents writer.old) (W.contents writer.new) (code_told result.response)) }
    ensures serves { H.honest (shelf_of bench.old) → DiskKept S.Store (registry_of bench.new)
        → (away : Image) (u : World)
        → IsAt S.Store H.Shelf (registry_of bench.old) (shelf_of bench.old) away [] [] u u
        → ServesGuarded S.Store H.Shelf bench.old bench.new any_origin away u
        (R.remaining peer.old.reader) (W.contents writer.old) (W.contents writer.new)
        (code_told result.response) result.fault }
    ensures leaves { LeavesBench S.Store H.Shelf bench.old bench.new result.fault }
    ensures read { ServesUnlessFailed peer.new result.response }
{
    let received = match receive_request(alloc, peer) {
        Ok(received) => received,
        Err(RequestFault::Memory) => return unserved(FrontFault::Memory),
        Err(RequestFault::Read) => return unserved(FrontFault::Read),
    };
    match received.sender {
        Sender::Page if !any_origin => turn_away(alloc, writer),
        _ => respond_guarded(alloc, writer, bench, received.request),
    }
}
