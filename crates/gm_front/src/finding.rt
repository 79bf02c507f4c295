//! What a demand comes to at a bench, and what is told of it.

ghost use Rattle.std.specs.Prelude.{◌≡◌, [], IfOk, Some};
ghost use Rattle.gm_metadata.specs.Images.{Image};
ghost use Rattle.gm_metadata.specs.Reading.{decode_of};
ghost use Rattle.gm_state.specs.World.{World};
ghost use Rattle.gm_registry.specs.Registry.{DiskKept};
ghost use Rattle.gm_json.specs.Mirrors.{mirror_json};
ghost use Rattle.gm_bench.specs.Benches.{progress_of, registry_of, shelf_of};
ghost use Rattle.gm_bench.specs.Calls.{Keep};
ghost use Rattle.gm_bench.specs.Phases.{TakesCommands};
ghost use Rattle.gm_bench.specs.Recovering.{IsAt};
ghost use Rattle.gm_bench.specs.Running.{answer_of};
ghost use Rattle.gm_front.specs.Demands.{answer_told, decoded_told, fault_status, mirror_told, not_found};
ghost use Rattle.gm_front.specs.Findings.{ComesToFinding, IsPut, TellsStoreAt, demand_in, fault_of, progress_behind, told_in, told_of, withheld_told};
ghost use Rattle.gm_front.specs.Closing.{KeepsClosed};

use crate::demand::Demand;
use crate::guard::withheld_message;
use gm_bench::{Answer, Bench, BenchFault};
use gm_http::Status;
use gm_json::{
    decode_json, done_json, error_json, fault_json, metadata_json, mirror_json, refused_json,
    repeated_json, status_json,
};
use gm_looks::Unlike;
use gm_metadata::{Label, decode};
use gm_shelf::Shelf;
use gm_state::State;
use sqlite::Alter;
use std::alloc::{AllocError, Global};

/// What a demand came to.
#[derive(Drop)]
pub(crate) enum Finding {
    /// The bench wasn't asked: the request is turned down.
    TurnedDown(Status, &'static str),
    /// The mirrors.
    Mirrors(State),
    /// The mirrors, of which one is asked for.
    OneMirror(State, Label),
    /// The last sector of a provider, if it has one.
    LastSector(Option<[u8; 512]>),
    /// The bench wasn't asked: the words are no command.
    NoCommand,
    /// The bench answered the command.
    Answered(Answer),
    /// The bench failed.
    Failed(BenchFault),
    /// The command wasn't handed in, because of these components.
    Withheld(Vec<Unlike>),
}

/// What is told: a status, and a body.
#[derive(Drop)]
pub(crate) struct Told {
    pub(crate) status: Status,
    pub(crate) body: String,
}

// That something isn't there.
fn not_found(alloc: Global) -> Result<Told, AllocError>
    ensures { IfOk result (λ told. told_in told ≡ not_found) }
{
    Ok(Told {
        status: Status::NotFound,
        body: error_json(alloc, "not found")?,
    })
}

// A mirror, if one has the name.
fn mirror_told(alloc: Global, state: &State, name: Label) -> Result<Told, AllocError>
    ensures { IfOk result (λ told. told_in told ≡ mirror_told (mirror_json state.now name)) }
{
    match mirror_json(alloc, state, name)? {
        Some(body) => Ok(Told {
            status: Status::Ok,
            body,
        }),
        None => not_found(alloc),
    }
}

// What a last sector says, or why it says nothing.
fn decoded_told(alloc: Global, sector: &[u8; 512]) -> Result<Told, AllocError>
    ensures { IfOk result (λ told. told_in told ≡ decoded_told (decode_of sector.now)) }
{
    match decode(sector) {
        Ok(metadata) => {
            let body = metadata_json(alloc, &metadata)?;
            Ok(Told {
                status: Status::Ok,
                body,
            })
        }
        Err(fault) => {
            let body = decode_json(alloc, fault)?;
            Ok(Told {
                status: Status::NotFound,
                body,
            })
        }
    }
}

// An answer to a command.
fn answer_told(alloc: Global, answer: Answer) -> Result<Told, AllocError>
    ensures { IfOk result (λ told. told_in told ≡ answer_told (answer_of answer)) }
{
    Ok(match answer {
        Answer::Done(number, reply) => Told {
            status: Status::Ok,
            body: done_json(alloc, number, reply)?,
        },
        Answer::Repeated(number, _) => Told {
            status: Status::Ok,
            body: repeated_json(alloc, number)?,
        },
        Answer::Refused(why) => Told {
            status: Status::Conflict,
            body: refused_json(alloc, why.number())?,
        },
    })
}

// The status that tells a fault: want of memory may pass, and a closed bench may be opened again.
fn fault_status(fault: BenchFault) -> Status
    ensures { result ≡ fault_status fault }
{
    match fault {
        BenchFault::Memory | BenchFault::Closed => Status::Unavailable,
        _ => Status::Internal,
    }
}

// That a command isn't done, because of these components.
fn withheld_told(alloc: Global, list: &[Unlike]) -> Result<Told, AllocError>
    ensures { IfOk result (λ told. told_in told ≡ withheld_told list.now) }
{
    let message = withheld_message(alloc, list)?;
    Ok(Told {
        status: Status::Conflict,
        body: error_json(alloc, message.as_str())?,
    })
}

impl Finding {
    /// What is told of it.
    pub(crate) fn told(&self, alloc: Global) -> Result<Told, AllocError>
        ensures { IfOk result (λ told. told_in told ≡ told_of self.now) }
    {
        match self {
            Finding::TurnedDown(status, message) => Ok(Told {
                status: *status,
                body: error_json(alloc, message)?,
            }),
            Finding::Mirrors(state) => Ok(Told {
                status: Status::Ok,
                body: status_json(alloc, state)?,
            }),
            Finding::OneMirror(state, name) => mirror_told(alloc, state, *name),
            Finding::LastSector(None) => not_found(alloc),
            Finding::LastSector(Some(sector)) => decoded_told(alloc, sector),
            Finding::NoCommand => Ok(Told {
                status: Status::Conflict,
                body: refused_json(alloc, 1)?,
            }),
            Finding::Answered(answer) => answer_told(alloc, *answer),
            Finding::Failed(fault) => Ok(Told {
                status: fault_status(*fault),
                body: fault_json(alloc, fault.number())?,
            }),
            Finding::Withheld(list) => withheld_told(alloc, list),
        }
    }

    /// The fault of the bench, if it failed.
    pub(crate) fn fault(&self) -> Option<BenchFault>
        ensures { result ≡ fault_of self.now }
    {
        match self {
            Finding::Failed(fault) => Some(*fault),
            _ => None,
        }
    }
}

/// Puts a demand to a bench, in phase Ready or Failed.
pub(crate) fn find<S: Alter, H: Shelf>(
    alloc: Global,
    bench: &mut Bench<S, H>,
    demand: &Demand,
) -> Finding
    requires { TakesCommands (progress_of bench.old) }
    ensures comes { H.honest (shelf_of bench.old) → DiskKept S.Store (registry_of bench.new)
        → (away : Image) (u : World)
        → IsAt S.Store H.Shelf (registry_of bench.old) (shelf_of bench.old) away [] [] u u
        → ComesToFinding S.Store H.Shelf (registry_of bench.old) (registry_of bench.new)
        (shelf_of bench.old) (shelf_of bench.new) away u (demand_in demand.now) result }
    ensures put { IsPut result }
    ensures progress { progress_of bench.new
        ≡ progress_behind (progress_of bench.old) (fault_of result) }
    ensures closes { KeepsClosed bench.old bench.new (fault_of result) }
    ensures store { TellsStoreAt S.Store H.Shelf bench.old bench.new (fault_of result) }
    ensures keep { Keep S.Store H.Shelf (registry_of bench.old) (registry_of bench.new)
        (shelf_of bench.old) (shelf_of bench.new) }
{
    match demand {
        Demand::TurnedDown(status, message) => Finding::TurnedDown(*status, message),
        Demand::NoCommand => Finding::NoCommand,
        Demand::AllMirrors => match bench.view(alloc) {
            Ok(state) => Finding::Mirrors(state),
            Err(fault) => Finding::Failed(fault),
        },
        Demand::OneMirror(name) => match bench.view(alloc) {
            Ok(state) => Finding::OneMirror(state, *name),
            Err(fault) => Finding::Failed(fault),
        },
        Demand::LastSector(provider) => match bench.last_sector(*provider) {
            Ok(found) => Finding::LastSector(found),
            Err(fault) => Finding::Failed(fault),
        },
        Demand::Carry(key, command) => match bench.run(alloc, key.as_str(), command) {
            Ok(answer) => Finding::Answered(answer),
            Err(fault) => Finding::Failed(fault),
        },
    }
}
