//! What a command would take away for good.

ghost use Rattle.std.specs.Prelude.{◌≡◌, ◌<◌, IfOk, IsErrOf, IsTrue, length};
ghost use Rattle.gm_shelf.specs.Keeping.{ReadsOnly};
ghost use Rattle.gm_handing_in.specs.LettingGo.{IsLetGo, IsTold};

use crate::insistence::is_wanted;
use crate::loss_sentences::sentences_of;
use gm_bench::{BenchFault, Unwatched, Watch};
use gm_command_line::Form;
use gm_commands::Command;
use gm_faults::Fault;
use gm_losses::losses;
use gm_process::{Meter, Streams};
use gm_refusals::providers_of;
use gm_shelf::{FileShelf, Shelf, ShelfFault};
use gm_state::State;
use std::alloc::Global;
use std::io::{self, BufRead, Write};

// The images as they are now, to be looked at alone: those that the command names, or all of the
// folder if others than these may be of the mirror.
fn shelf_for(
    rt: &HostRuntime,
    folder: &str,
    command: &Command,
) -> io::Result<FileShelf<HostRuntime>> {
    let names = match command {
        Command::Adopt { .. } => FileShelf::open(rt, folder)?.names()?,
        _ => Vec::from_slice(rt.alloc(), providers_of(command))?,
    };
    FileShelf::look_at(rt, folder, &names)
}

// What the command would take away for good, in sentences, by the mirrors and by these images.
fn told_on<H: Shelf, W: Watch>(
    alloc: Global,
    shelf: &mut H,
    state: &State,
    command: &Command,
    watch: &mut W,
) -> Result<Vec<String>, Fault>
    ensures told { H.honest shelf.old → IfOk result (λ told.
        IsTold H.Shelf shelf.old shelf.new state.now command.now (length told.items)) }
    ensures only { ReadsOnly H.Shelf shelf.old shelf.new }
    ensures disk { IsErrOf result (Fault.Bench BenchFault.Disk)
        → (H.view shelf.old).faults < (H.view shelf.new).faults }
{
    let found = match (losses(alloc, shelf, state, command, watch), command) {
        // Whoever gives an image up may do so because it can't be read.
        (Err(ShelfFault::Device), Command::Lost { .. }) => Vec::new(alloc),
        (found, _) => found?,
    };
    Ok(sentences_of(alloc, command, &found)?)
}

// The same, which tells on the complaints how far the images are read.
fn told_meanwhile<H: Shelf, I, O, E: Write>(
    rt: &HostRuntime,
    shelf: &mut H,
    state: &State,
    command: &Command,
    streams: &mut Streams<'_, I, O, E>,
) -> Result<Vec<String>, Fault>
    ensures told { H.honest shelf.old → IfOk result (λ told.
        IsTold H.Shelf shelf.old shelf.new state.now command.now (length told.items)) }
    ensures only { ReadsOnly H.Shelf shelf.old shelf.new }
    ensures input { streams.new.input.now ≡ streams.old.input.now }
    ensures asks { streams.new.explaining ≡ streams.old.explaining }
{
    let style = streams.explaining.style(!streams.explaining.at_terminal);
    let mut meter = Meter::new(rt, streams.complaints, style);
    let told = told_on(rt.alloc(), shelf, state, command, &mut meter);
    meter.end();
    told
}

/// The same as `losses_told` for images in a folder, if nobody is told how far they are read.
pub(crate) fn losses_unwatched(
    rt: &HostRuntime,
    folder: &str,
    state: &State,
    command: &Command,
) -> Result<Vec<String>, Fault> {
    let mut shelf = shelf_for(rt, folder, command)?;
    told_on(rt.alloc(), &mut shelf, state, command, &mut Unwatched)
}

/// What a command would take away for good, in sentences, by these mirrors and by the images as
/// they are now.
pub fn losses_told<I, O, E: Write>(
    rt: &HostRuntime,
    state: &State,
    command: &Command,
    streams: &mut Streams<'_, I, O, E>,
) -> Result<Vec<String>, Fault> {
    let mut shelf = shelf_for(rt, streams.explaining.folder.as_str(), command)?;
    let told = told_meanwhile(rt, &mut shelf, state, command, streams);
    streams.explaining.failure = shelf.last_failure();
    told
}

// Whether nothing is lost by a command, by these mirrors and these images, or whoever runs the
// program wants it all the same; else it prints that it isn't done, and what would be lost.
fn lets_go_on<H: Shelf, I: BufRead, O: Write, E: Write>(
    rt: &HostRuntime,
    shelf: &mut H,
    key: &str,
    command: &Command,
    form: Form,
    state: &State,
    streams: &mut Streams<'_, I, O, E>,
) -> Result<bool, Fault>
    ensures goes { H.honest shelf.old → IfOk result (λ goes. IsTrue goes
        → IsLetGo H.Shelf shelf.old shelf.new state.now command.now
        streams.old.explaining.asks (I.remaining streams.old.input.now)) }
    ensures only { ReadsOnly H.Shelf shelf.old shelf.new }
{
    let sentences = told_meanwhile(rt, shelf, state, command, streams)?;
    if sentences.is_empty() {
        return Ok(true);
    }
    is_wanted(rt.alloc(), key, form, &sentences, streams)
}

/// The same by the images as they are now.
pub(crate) fn lets_go<I: BufRead, O: Write, E: Write>(
    rt: &HostRuntime,
    key: &str,
    command: &Command,
    form: Form,
    state: &State,
    streams: &mut Streams<'_, I, O, E>,
) -> Result<bool, Fault> {
    let mut shelf = shelf_for(rt, streams.explaining.folder.as_str(), command)?;
    let goes = lets_go_on(rt, &mut shelf, key, command, form, state, streams);
    streams.explaining.failure = shelf.last_failure();
    goes
}
