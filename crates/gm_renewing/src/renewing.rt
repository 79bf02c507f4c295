//! The command itself.

ghost use Rattle.std.specs.Prelude.{◌≡◌, false, IfOk};
ghost use Rattle.gm_process.specs.Statuses.{MayRefuse};

use crate::carried::{Carried, carry_over};
use crate::exchange::{clear_left, drop_unused, exchange, name_left};
use crate::hindrances::first_hindrance;
use crate::names::Names;
use crate::sayings::{Renewed, different_report, finished_report, hindered_report, renewed_report};
use gm_bench::{Bench, BenchFault};
use gm_command_line::{Form, Renewing};
use gm_faults::Fault;
use gm_opener::open_store;
use gm_process::{Streams, Trouble};
use gm_registry::StoreFault;
use gm_registry_files::{StoreCause, leave_out_registry};
use gm_reports::Report;
use gm_shelf::{FileShelf, Shelf};
use gm_state::State;
use sqlite::{Alter, Connection, Error, ErrorCode, File, FileStore, Files, Unknown};
use std::alloc::Global;
use std::io::{self, ErrorKind, Write};

// That something else has a name which a renewal uses.
const IN_THE_WAY: &str =
    "another file has a name that a renewal uses: PATH.new, or the same with .kept";

// What the old registry has.
#[derive(Drop)]
struct Survey {
    state: State,
    commands: u64,
}

fn surveyed<S: Alter, H: Shelf>(
    alloc: Global,
    bench: &mut Bench<S, H>,
) -> Result<Survey, BenchFault> {
    let state = bench.view(alloc)?;
    let commands = bench.accepted()?;
    Ok(Survey { state, commands })
}

// A new registry, closed, and what became of the mirrors. Its files stay locked as long as these
// are there.
#[derive(Drop)]
struct Made {
    carried: Carried,
    _files: Files<File>,
}

// Why a file of a renewal can't be read or written.
fn cause_of(error: &io::Error) -> StoreCause {
    match error.kind() {
        ErrorKind::PermissionDenied => StoreCause::Forbidden,
        ErrorKind::ReadOnlyFilesystem => StoreCause::ReadOnly,
        ErrorKind::StorageFull | ErrorKind::QuotaExceeded => StoreCause::Full,
        _ => StoreCause::Failed,
    }
}

// What is known of a file of a renewal that failed; nothing if memory is refused.
fn trouble_of(alloc: Global, registry: &str, error: &io::Error) -> Option<Trouble> {
    if error.kind() != ErrorKind::AlreadyExists {
        return cause_of(error).trouble(alloc, registry);
    }
    let path = String::from_str(alloc, registry).ok()?;
    Some(Trouble::new(IN_THE_WAY, path))
}

// Hands on how a call on the files went, and keeps what is known of one that failed.
fn heed<T, I, O, E>(
    rt: &HostRuntime,
    registry: &str,
    done: io::Result<T>,
    streams: &mut Streams<'_, I, O, E>,
) -> Result<T, Fault> {
    match done {
        Ok(value) => Ok(value),
        Err(e) if e.kind() == ErrorKind::OutOfMemory => Err(Fault::MEMORY),
        Err(e) => {
            streams.explaining.trouble = trouble_of(rt.alloc(), registry, &e);
            Err(Fault::Bench(BenchFault::Store))
        }
    }
}

// Closes a store: its file alone holds everything then, and is locked as long as these are there.
fn closed(store: Connection<FileStore<File>>) -> Result<Files<File>, Fault> {
    match store.close_files() {
        Ok(files) => Ok(files),
        Err((error, _)) => Err(Fault::from(StoreFault::from(error))),
    }
}

// Opens the store of the new registry.
fn open_new<I, O, E>(
    rt: &HostRuntime,
    made: &str,
    streams: &mut Streams<'_, I, O, E>,
) -> Result<Connection<FileStore<File>>, Fault> {
    match open_store(rt, made, Unknown) {
        Ok(store) => Ok(store),
        Err((error, _)) => {
            let cause = match error {
                Error::SqliteFailure(ErrorCode::DatabaseBusy) => StoreCause::InUse,
                Error::SqliteFailure(ErrorCode::DiskFull) => StoreCause::Full,
                _ => StoreCause::NotMade,
            };
            streams.explaining.trouble = cause.trouble(rt.alloc(), made);
            Err(Fault::from(StoreFault::from(error)))
        }
    }
}

// Makes the new registry, carries the mirrors over, and closes it.
fn make<I, O, E>(
    rt: &HostRuntime,
    names: &Names,
    old: &State,
    mut shelf: FileShelf<HostRuntime>,
    streams: &mut Streams<'_, I, O, E>,
) -> Result<Made, Fault> {
    let made = names.made.as_str();
    let store = open_new(rt, made, streams)?;
    leave_out_registry(rt, made, &mut shelf)?;
    if !store.is_autocommit() {
        return Err(Fault::Bench(BenchFault::Store));
    }
    match Bench::open(rt.alloc(), store, shelf) {
        Ok(mut bench) => {
            let carried = carry_over(rt.alloc(), &mut bench, old);
            let (store, shelf) = bench.close();
            streams.explaining.failure = shelf.last_failure();
            let files = closed(store)?;
            Ok(Made {
                carried: carried?,
                _files: files,
            })
        }
        Err(left) => {
            streams.explaining.failure = left.shelf.last_failure();
            Err(Fault::Bench(left.fault))
        }
    }
}

// Puts the new registry in the old one's place, if all mirrors are in it as they were, and says
// what that came to.
fn exchanged<I, O, E: Write>(
    rt: &HostRuntime,
    names: &Names,
    form: Form,
    found: &Survey,
    made: &Made,
    streams: &mut Streams<'_, I, O, E>,
) -> Result<Report, Fault>
    ensures { IfOk result (λ report. MayRefuse report.status) }
{
    if let Carried::Not { mirror, why } = made.carried {
        return Ok(different_report(rt.alloc(), mirror, why, form, streams)?);
    }
    let kept = exchange(rt, names);
    let kept = heed(rt, names.registry.as_str(), kept, streams)?;
    let renewed = Renewed {
        mirrors: found.state.mirrors().len() as u64,
        commands: found.commands,
        kept: kept.as_str(),
    };
    Ok(renewed_report(rt.alloc(), renewed, form)?)
}

// Makes the new registry, and puts it in the place of the old one, which is closed. What isn't used
// of it is removed.
fn renew_anew<I, O, E: Write>(
    rt: &HostRuntime,
    names: &Names,
    form: Form,
    found: &Survey,
    shelf: FileShelf<HostRuntime>,
    streams: &mut Streams<'_, I, O, E>,
) -> Result<Report, Fault>
    ensures { IfOk result (λ report. MayRefuse report.status) }
{
    let cleared = clear_left(rt, names);
    heed(rt, names.registry.as_str(), cleared, streams)?;
    let report = match make(rt, names, &found.state, shelf, streams) {
        Ok(made) => exchanged(rt, names, form, found, &made, streams),
        Err(fault) => Err(fault),
    };
    drop_unused(rt, names);
    report
}

// The same unless a renewal that was stopped is nearly done, which is finished then, or something
// is in the way.
fn renew_closed<I, O, E: Write>(
    rt: &HostRuntime,
    names: &Names,
    renewing: Renewing,
    found: &Survey,
    mut shelf: FileShelf<HostRuntime>,
    streams: &mut Streams<'_, I, O, E>,
) -> Result<Report, Fault>
    ensures { IfOk result (λ report. MayRefuse report.status) }
{
    let alloc = rt.alloc();
    let left = name_left(rt, names);
    if let Some(kept) = heed(rt, names.registry.as_str(), left, streams)? {
        return Ok(finished_report(alloc, kept.as_str(), renewing.form)?);
    }
    let folder = streams.explaining.folder.as_str();
    let hindered = first_hindrance(rt, renewing, folder, &found.state, &mut shelf);
    streams.explaining.failure = shelf.last_failure();
    if let Some(hindrance) = hindered? {
        return Ok(hindered_report(alloc, &hindrance, renewing.form, streams)?);
    }
    renew_anew(rt, names, renewing.form, found, shelf, streams)
}

/// Opens the bench of a registry over these media, which carries out what is pending, and puts a
/// new registry in its place. It is refused if an image isn't as it is registered, if something
/// else uses one and that matters, or if a mirror wouldn't be in the new registry as it is in the
/// old one. Both stay locked until the new one has the name. After a fault the old one has it, or
/// the new one.
pub fn renew<I, O, E: Write>(
    rt: &HostRuntime,
    registry: &str,
    renewing: Renewing,
    store: Connection<FileStore<File>>,
    shelf: FileShelf<HostRuntime>,
    streams: &mut Streams<'_, I, O, E>,
) -> Result<Report, Fault>
    requires { store.in_transaction ≡ false }
    ensures { IfOk result (λ report. MayRefuse report.status) }
{
    match Bench::open(rt.alloc(), store, shelf) {
        Ok(mut bench) => {
            let found = surveyed(rt.alloc(), &mut bench);
            let (store, shelf) = bench.close();
            let _locked = closed(store)?;
            let names = Names::of(rt, registry);
            let names = heed(rt, registry, names, streams)?;
            renew_closed(rt, &names, renewing, &found?, shelf, streams)
        }
        Err(left) => {
            streams.explaining.failure = left.shelf.last_failure();
            Err(Fault::Bench(left.fault))
        }
    }
}
