//! Where work at a bench is done: a folder of images, which is held meanwhile, and a registry,
//! which is opened and closed again.

ghost use Rattle.std.specs.Prelude.{◌≡◌, false, Err, IfOk};
ghost use Rattle.gm_process.specs.Statuses.{MayRefuse};
ghost use Rattle.gm_program.specs.Ends.{MayEnd};

use crate::before_opening::{Care, make_ready};
use crate::bench_command::perform;
use crate::recover::{recovered_without, refused_without};
use gm_bench::{Bench, BenchFault, OpenFault, Without};
use gm_command_line::{Form, Renewing, Work};
use gm_faults::{Fault, explain_loss};
use gm_looking::{complain_of_pending, way_on};
use gm_metadata::Label;
use gm_opener::open_store;
use gm_process::{HeldFolder, Patience, Place, Status, Streams};
use gm_registry::StoreFault;
use gm_registry_files::{
    Obstacle, StoreCause, is_there, leave_out_registry, obstacle_to_opening, store_cause,
};
use gm_renewing::renew;
use gm_reports::Report;
use gm_shelf::{FileId, FileShelf};
use sqlite::{Alter, Connection, Error, ErrorCode, File, FileStore, Unknown};
use sqlite_disk::Disk;
use std::alloc::Global;
use std::fs;
use std::io::{self, BufRead, Write};

// Lets the media go over which no bench is opened, and hands on why. It is done here alone, since
// it is dear to prove.
fn unopened<S: Alter + Drop, T>(
    _store: Connection<S>,
    _shelf: FileShelf<HostRuntime>,
    fault: Fault,
) -> Result<T, Fault>
    ensures { result ≡ Err fault }
{
    Err(fault)
}

// Why a bench wasn't opened over media, which are let go.
fn heed_unopened<S: Alter + Drop, I, O, E>(
    left: OpenFault<S, FileShelf<HostRuntime>>,
    streams: &mut Streams<'_, I, O, E>,
) -> Fault {
    streams.explaining.failure = left.shelf.last_failure();
    Fault::Bench(left.fault)
}

// Closes a bench, of which the store alone is kept.
fn store_of<S: Alter + Drop>(bench: Bench<S, FileShelf<HostRuntime>>) -> Connection<S> {
    let (store, _) = bench.close();
    store
}

// What is left of work at a bench, which is closed.
struct ClosedBench<S: Alter + Drop> {
    report: Result<Report, Fault>,
    store: Connection<S>,
    // the images, if a command that was answered may be pending on them
    shelf: Option<FileShelf<HostRuntime>>,
}

// Opens a bench without a provider, and gives its store back with what is told of that.
fn without<S: Alter + Drop, I, O, E: Write>(
    alloc: Global,
    store: Connection<S>,
    shelf: FileShelf<HostRuntime>,
    provider: Label,
    key: &str,
    form: Form,
    streams: &mut Streams<'_, I, O, E>,
) -> Result<ClosedBench<S>, Fault>
    requires { store.in_transaction ≡ false }
    ensures { IfOk result (λ it. IfOk it.report (λ report. MayRefuse report.status)) }
{
    match Bench::open_without(alloc, store, shelf, provider, key) {
        Ok(Without::Opened { bench, answer }) => {
            let report = recovered_without(alloc, key, answer, bench.redone(), form);
            Ok(ClosedBench {
                report: report.map_err(Fault::from),
                store: store_of(bench),
                shelf: None,
            })
        }
        Ok(Without::Refused { why, store, .. }) => {
            explain_loss(alloc, streams, key, provider, why);
            let report = refused_without(alloc, key, why, form);
            Ok(ClosedBench {
                report: report.map_err(Fault::from),
                store,
                shelf: None,
            })
        }
        Err(left) => Err(heed_unopened(left, streams)),
    }
}

// Whether a command that was answered may be pending: the bench failed among several commands.
fn may_be_pending(work: &Work<'_>, report: &Result<Report, Fault>) -> bool {
    matches!(work, Work::Batch { .. } | Work::Write(_)) && matches!(report, Err(Fault::Bench(_)))
}

// Opens a bench, has the work done at it, and gives its store back with the report.
fn worked<S: Alter + Drop, I: BufRead, O: Write, E: Write>(
    rt: &HostRuntime,
    store: Connection<S>,
    shelf: FileShelf<HostRuntime>,
    work: &Work<'_>,
    streams: &mut Streams<'_, I, O, E>,
) -> Result<ClosedBench<S>, Fault>
    requires { store.in_transaction ≡ false }
    ensures { IfOk result (λ it. IfOk it.report (λ report. MayEnd work.now report.status)) }
{
    match Bench::open(rt.alloc(), store, shelf) {
        Ok(mut bench) => {
            let report = perform(work, rt, &mut bench, streams);
            let (store, shelf) = bench.close();
            streams.explaining.failure = shelf.last_failure();
            let shelf = if may_be_pending(work, &report) {
                Some(shelf)
            } else {
                None
            };
            Ok(ClosedBench {
                report,
                store,
                shelf,
            })
        }
        Err(left) => Err(heed_unopened(left, streams)),
    }
}

// Opens a bench, which carries out what is pending, has the work done at it, and gives its store
// back with the report. The images that pending writes name are made ready before.
fn at_bench<S: Alter + Drop, I: BufRead, O: Write, E: Write>(
    rt: &HostRuntime,
    mut store: Connection<S>,
    mut shelf: FileShelf<HostRuntime>,
    work: &Work<'_>,
    streams: &mut Streams<'_, I, O, E>,
) -> Result<ClosedBench<S>, Fault>
    ensures { IfOk result (λ it. IfOk it.report (λ report. MayEnd work.now report.status)) }
{
    if let Err(fault) = make_ready(rt, &mut store, Care::of(work), &mut shelf, streams) {
        return unopened(store, shelf, fault);
    }
    if !store.is_autocommit() {
        return unopened(store, shelf, Fault::Bench(BenchFault::Store));
    }
    match *work {
        Work::RecoverWithout {
            provider,
            key,
            form,
            ..
        } => without(rt.alloc(), store, shelf, provider, key, form, streams),
        _ => worked(rt, store, shelf, work, streams),
    }
}

// Keeps what waits for an image that failed, if a pending write is about it.
fn heed_waiting<I, O, E>(
    rt: &HostRuntime,
    place: Place<'_>,
    fault: &Fault,
    streams: &mut Streams<'_, I, O, E>,
) {
    if !streams.explaining.wanted || *fault != Fault::Bench(BenchFault::Disk) {
        return;
    }
    if let Some(failure) = streams.explaining.failure {
        streams.explaining.way_on = way_on(rt, place, failure.image);
    }
}

// Keeps why the registry failed while it was open, if that isn't known yet.
fn heed_failure<I, O, E>(
    rt: &HostRuntime,
    registry: &str,
    fault: &Fault,
    streams: &mut Streams<'_, I, O, E>,
) {
    if *fault == Fault::Bench(BenchFault::Store) && streams.explaining.trouble.is_none() {
        let cause = store_cause(rt, registry).unwrap_or(StoreCause::Failed);
        streams.explaining.trouble = cause.trouble(rt.alloc(), registry);
    }
}

// Opens a bench, which carries out what is pending, and gives its store back. The images that
// pending writes name are made ready before.
fn settled<S: Alter + Drop, I, O, E>(
    rt: &HostRuntime,
    mut store: Connection<S>,
    care: Care,
    mut shelf: FileShelf<HostRuntime>,
    streams: &mut Streams<'_, I, O, E>,
) -> Result<Connection<S>, Fault> {
    if let Err(fault) = make_ready(rt, &mut store, care, &mut shelf, streams) {
        return unopened(store, shelf, fault);
    }
    if !store.is_autocommit() {
        return unopened(store, shelf, Fault::Bench(BenchFault::Store));
    }
    match Bench::open(rt.alloc(), store, shelf) {
        Ok(bench) => Ok(store_of(bench)),
        Err(left) => Err(heed_unopened(left, streams)),
    }
}

// Opens the bench of a registry that is there, which carries out what is pending, and closes it.
fn carry_out<I, O, E>(
    rt: &HostRuntime,
    registry: &str,
    care: Care,
    shelf: FileShelf<HostRuntime>,
    streams: &mut Streams<'_, I, O, E>,
) -> Result<(), Fault> {
    if let Some(found) = obstacle_to_opening(rt, registry, false) {
        return Err(Fault::from(found.fault));
    }
    let store = open_store(rt, registry, Unknown).map_err(|(error, _)| StoreFault::from(error))?;
    let store = settled(rt, store, care, shelf, streams)?;
    Ok(store.close().map_err(StoreFault::from)?)
}

// Opens a bench anew after a fault, with the shelf that the fault left, so that no command that was
// answered waits for a later opening. If that fails too, it says what is pending.
fn open_again<I, O, E: Write>(
    rt: &HostRuntime,
    registry: &str,
    care: Care,
    shelf: FileShelf<HostRuntime>,
    streams: &mut Streams<'_, I, O, E>,
) {
    let failure = streams.explaining.failure;
    if carry_out(rt, registry, care, shelf, streams).is_err() {
        complain_of_pending(rt, registry, streams.complaints);
    }
    streams.explaining.failure = failure;
}

// Has the work done at a store of two files, and closes it. Of two faults the first is told.
fn at_files<D: Disk + Drop, I: BufRead, O: Write, E: Write>(
    rt: &HostRuntime,
    registry: &str,
    store: Connection<FileStore<D>>,
    shelf: FileShelf<HostRuntime>,
    work: &Work<'_>,
    streams: &mut Streams<'_, I, O, E>,
) -> Result<Report, Fault>
    ensures { IfOk result (λ report. MayEnd work.now report.status) }
{
    let ClosedBench {
        report,
        store,
        shelf,
    } = at_bench(rt, store, shelf, work, streams)?;
    let closed = store.close();
    if let Err(error) = closed {
        let cause = cause_of(rt, registry, error);
        streams.explaining.trouble = cause.and_then(|cause| cause.trouble(rt.alloc(), registry));
    }
    if let Some(shelf) = shelf {
        open_again(rt, registry, Care::of(work), shelf, streams);
    }
    let report = report?;
    closed.map_err(StoreFault::from)?;
    Ok(report)
}

/// On which terms a bench is opened.
#[derive(Clone, Copy)]
pub struct Terms {
    /// Whether a registry is made if there is none.
    pub makes: bool,
    /// For how long a folder or a registry that is in use is tried again.
    pub patience: Patience,
}

// Which file has a path, if one has.
fn file_at(rt: &HostRuntime, path: &str) -> Option<FileId> {
    match fs::metadata(rt, path) {
        Ok(found) => Some(FileId::of(&found)),
        Err(_) => None,
    }
}

// Opens a registry over files; one in use is tried again. If another file got its name meanwhile,
// as a renewal gives it, what was opened may be the one that had it before, and is let go.
fn open_patiently(
    rt: &HostRuntime,
    registry: &str,
    patience: Patience,
) -> Result<Connection<FileStore<File>>, Error> {
    let busy = Error::SqliteFailure(ErrorCode::DatabaseBusy);
    for _ in 0..u64::MAX {
        let before = file_at(rt, registry);
        let opened = open_store(rt, registry, Unknown).map_err(|(error, _)| error);
        if before.is_some() && before != file_at(rt, registry) {
            continue;
        }
        match opened {
            Err(e) if e == busy && patience.pauses(rt) => {}
            opened => return opened,
        }
    }
    Err(busy)
}

// What is in the way of a registry. One in use is looked at again.
fn obstacle_on(rt: &HostRuntime, registry: &str, terms: Terms) -> Option<Obstacle> {
    for _ in 0..u64::MAX {
        match obstacle_to_opening(rt, registry, terms.makes) {
            Some(found) if found.is_in_use() && terms.patience.pauses(rt) => {}
            found => return found,
        }
    }
    obstacle_to_opening(rt, registry, terms.makes)
}

// Why a registry couldn't be opened, by SQLite's answer and a look at its files.
fn cause_of(rt: &HostRuntime, registry: &str, error: Error) -> Option<StoreCause> {
    match error {
        Error::SqliteFailure(ErrorCode::DatabaseBusy) => Some(StoreCause::InUse),
        Error::SqliteFailure(ErrorCode::DiskFull) => Some(StoreCause::Full),
        _ => match store_cause(rt, registry) {
            Some(StoreCause::Missing) => Some(StoreCause::NotMade),
            cause => cause,
        },
    }
}

// Alone in naming a registry over files. Whoever mistyped its path made a new one, and is told so.
fn open_registry<I, O, E: Write>(
    rt: &HostRuntime,
    registry: &str,
    terms: Terms,
    streams: &mut Streams<'_, I, O, E>,
) -> Result<Connection<FileStore<File>>, StoreFault> {
    let alloc = rt.alloc();
    let was_there = is_there(rt, registry);
    if let Some(found) = obstacle_on(rt, registry, terms) {
        streams.explaining.trouble = found.cause.and_then(|cause| cause.trouble(alloc, registry));
        return Err(found.fault);
    }
    match open_patiently(rt, registry, terms.patience) {
        Ok(store) => {
            if !was_there {
                let _ = writeln!(streams.complaints, "a new registry was made at {registry}");
            }
            Ok(store)
        }
        Err(error) => {
            let cause = cause_of(rt, registry, error);
            streams.explaining.trouble = cause.and_then(|cause| cause.trouble(alloc, registry));
            Err(StoreFault::from(error))
        }
    }
}

// Carries out what is pending, and renews a registry that is open, over media that are made ready
// before.
fn renewed<I, O, E: Write>(
    rt: &HostRuntime,
    registry: &str,
    renewing: Renewing,
    mut store: Connection<FileStore<File>>,
    mut shelf: FileShelf<HostRuntime>,
    streams: &mut Streams<'_, I, O, E>,
) -> Result<Report, Fault>
    ensures { IfOk result (λ report. MayRefuse report.status) }
{
    let care = Care::of(&Work::Renew(renewing));
    if let Err(fault) = make_ready(rt, &mut store, care, &mut shelf, streams) {
        return unopened(store, shelf, fault);
    }
    if !store.is_autocommit() {
        return unopened(store, shelf, Fault::Bench(BenchFault::Store));
    }
    renew(rt, registry, renewing, store, shelf, streams)
}

// Has the work done with a registry that is opened and closed again.
fn report_of<I: BufRead, O: Write, E: Write>(
    rt: &HostRuntime,
    registry: &str,
    mut shelf: FileShelf<HostRuntime>,
    terms: Terms,
    work: &Work<'_>,
    streams: &mut Streams<'_, I, O, E>,
) -> Result<Report, Fault>
    ensures { IfOk result (λ report. MayEnd work.now report.status) }
{
    let store = open_registry(rt, registry, terms, streams)?;
    leave_out_registry(rt, registry, &mut shelf)?;
    let done = match *work {
        Work::Renew(renewing) => renewed(rt, registry, renewing, store, shelf, streams),
        _ => at_files(rt, registry, store, shelf, work, streams),
    };
    if let Err(fault) = &done {
        heed_failure(rt, registry, fault, streams);
    }
    done
}

// The images of a folder, which is held. One that can't be listed is told before the registry is
// looked for.
fn images_at(
    rt: &HostRuntime,
    folder: &str,
    patience: Patience,
) -> io::Result<(HeldFolder, FileShelf<HostRuntime>)> {
    let held = HeldFolder::hold(rt, folder, patience)?;
    Ok((held, FileShelf::open(rt, folder)?))
}

/// Opens the bench of a place, which carries out what is pending, has the work done at it, and
/// closes its store, so that the registry's file alone holds everything; also if an opening
/// without a provider is refused. Then it prints the text of the report.
pub fn work_at<I: BufRead, O: Write, E: Write>(
    rt: &HostRuntime,
    place: Place<'_>,
    terms: Terms,
    work: &Work<'_>,
    streams: &mut Streams<'_, I, O, E>,
) -> Result<Status, Fault>
    ensures { IfOk result (MayEnd work.now) }
{
    let images = images_at(rt, place.folder, terms.patience);
    let (_held, shelf) = streams.explaining.heed(rt, place.folder, images)?;
    let report = match report_of(rt, place.registry, shelf, terms, work, streams) {
        Ok(report) => report,
        Err(fault) => {
            heed_waiting(rt, place, &fault, streams);
            return Err(fault);
        }
    };
    streams.output.write_all(report.text.as_bytes())?;
    Ok(report.status)
}
