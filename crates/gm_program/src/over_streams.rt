//! All that the program does, over any streams.

use crate::place::{Terms, work_at};
use clap::Error;
use clap::error::ErrorKind;
use gm_bench::BenchFault;
use gm_command_line::{Asked, Job, Manner, Reading, Work, asked_of, tip_for};
use gm_dump::dump;
use gm_faults::{Fault, explain_fault};
use gm_looking::{check_place, look_at, show_pending, show_pending_at, taste_folder};
use gm_process::{Environment, Patience, Place, Status, Streams};
use gm_recalling::show_history;
use std::io::{BufRead, Write};

// Prints what clap has to say of words, on the stream where it belongs, and a tip after a
// complaint.
fn print_error<O: Write, E: Write>(
    words: &[&str],
    error: &Error,
    output: &mut O,
    complaints: &mut E,
) -> Result<Status, Fault> {
    if error.kind() == ErrorKind::OutOfMemory {
        return Err(Fault::MEMORY);
    }
    if error.use_stderr() {
        write!(complaints, "{error}")?;
        if let Some(tip) = tip_for(words) {
            writeln!(complaints, "{tip}")?;
        }
        return Ok(Status::Words);
    }
    write!(output, "{error}")?;
    Ok(Status::Done)
}

// Whether work comes from words that somebody types, or that run at night, so that it is explained.
fn is_explained(work: &Work<'_>) -> bool {
    match *work {
        Work::Do { .. } | Work::Command(_) | Work::AdoptAll(_) | Work::Replace(_) => true,
        Work::Mend(_) | Work::Write(_) | Work::Sync(_) | Work::Scrub(_) | Work::Renew(_) => true,
        _ => false,
    }
}

// The same of any job.
fn explains_itself(job: &Job<'_>) -> bool {
    match job {
        Job::Check { .. } | Job::Pending { .. } => true,
        Job::AtBench { work, .. } => is_explained(work),
        _ => false,
    }
}

// Has work done at the bench of a place.
fn work_there<I: BufRead, O: Write, E: Write>(
    rt: &HostRuntime,
    place: Place<'_>,
    work: &Work<'_>,
    manner: Manner,
    patience: Patience,
    streams: &mut Streams<'_, I, O, E>,
) -> Result<Status, Fault> {
    streams.explaining.folder = String::from_str(rt.alloc(), place.folder)?;
    let terms = Terms {
        makes: work.makes_registry() && !manner.existing,
        patience,
    };
    work_at(rt, place, terms, work, streams)
}

// Does what is asked.
fn perform<I: BufRead, O: Write, E: Write>(
    rt: &HostRuntime,
    asked: &Asked<'_>,
    streams: &mut Streams<'_, I, O, E>,
) -> Result<Status, Fault> {
    let patience = Patience::begin(rt, asked.manner.wait);
    streams.explaining.wanted |= asked.manner.explains || explains_itself(&asked.job);
    match asked.job {
        Job::Introduce => {
            writeln!(streams.output, "gmbench: GEOM_MIRROR version 4")?;
            if streams.explaining.at_terminal {
                writeln!(streams.complaints, "try gmbench --help")?;
            }
            Ok(Status::Done)
        }
        Job::Dump {
            folder,
            provider,
            form,
        } => Ok(dump(rt, folder, provider, form, streams)?),
        Job::Taste { folder, form } => taste_folder(rt, folder, form, streams),
        Job::Pending {
            registry,
            folder: None,
            form,
        } => show_pending(rt, registry, form, patience, streams),
        Job::Pending {
            registry,
            folder: Some(folder),
            form,
        } => show_pending_at(rt, Place { registry, folder }, form, patience, streams),
        Job::Recall {
            ref recalling,
            registry,
        } => Ok(show_history(rt, registry, recalling, patience, streams)?),
        Job::LookAt {
            look,
            registry,
            folder,
        } => look_at(rt, look, Place { registry, folder }, patience, streams),
        Job::Check {
            checking,
            registry,
            folder,
        } => check_place(rt, checking, Place { registry, folder }, patience, streams),
        Job::AtBench {
            ref work,
            registry,
            folder,
        } => work_there(
            rt,
            Place { registry, folder },
            work,
            asked.manner,
            patience,
            streams,
        ),
    }
}

fn run<I: BufRead, O: Write, E: Write>(
    rt: &HostRuntime,
    words: &[&str],
    streams: &mut Streams<'_, I, O, E>,
) -> Result<Status, Fault> {
    let environment = Environment::find(rt)?;
    let done = match asked_of(rt.alloc(), &*words, environment.settings()) {
        Ok(Reading::Asked(asked)) => perform(rt, &asked, streams),
        Ok(Reading::Handed(handed)) => {
            let asked = handed.asked();
            perform(rt, &asked, streams)
        }
        Err(error) => print_error(words, &error, streams.output, streams.complaints),
    };
    // What was printed before a fault is to be seen as well.
    let flushed = streams.output.flush();
    let status = done?;
    flushed?;
    Ok(status)
}

// Says how to go on after a fault, or without an image that a pending write needs.
fn say_way_on<I, O, E: Write>(streams: &mut Streams<'_, I, O, E>, fault: &Fault) {
    if let Some(way_on) = &streams.explaining.way_on {
        let _ = streams.complaints.write_all(way_on.as_bytes());
        return;
    }
    let Fault::Bench(fault) = fault else {
        return;
    };
    if let (BenchFault::Absent(image), true) = (fault, streams.explaining.wanted) {
        let number = fault.number();
        let _ = writeln!(
            streams.complaints,
            "F{number}: put it back, or recover --without {image} --key KEY gives it up"
        );
    }
}

/// Runs the program on its words, without its own name, and answers how it ends. The environment
/// stands for options that are left out.
///
/// A batch takes its commands from the input. Lines go to the output; faults, and complaints about
/// the words, go to the complaints.
pub fn program<I, O, E>(
    rt: &HostRuntime,
    words: &[&str],
    streams: &mut Streams<'_, I, O, E>,
) -> Status
where
    I: BufRead,
    O: Write,
    E: Write,
{
    match run(rt, words, streams) {
        Ok(status) => status,
        Err(fault) => {
            let _ = writeln!(streams.complaints, "{fault}");
            explain_fault(rt.alloc(), streams, &fault);
            say_way_on(streams, &fault);
            Status::Fault
        }
    }
}
