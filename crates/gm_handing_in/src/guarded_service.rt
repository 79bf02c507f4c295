//! One request over HTTP, answered; its command is carried out only if no image stands in its way,
//! and nothing would be lost by it, unless it is forced.

ghost use Rattle.std.specs.Prelude.{◌≡◌, [], IfOk, IsTrue};
ghost use Rattle.gm_bench.specs.Benches.{progress_of};
ghost use Rattle.gm_bench.specs.Phases.{TakesCommands};

use crate::guard::{Ground, against};
use gm_bench::{Bench, BenchFault};
use gm_faults::Fault;
use gm_front::{FrontFault, Served, TurnedBack, respond_guarded, turn_back};
use gm_http::{Peer, Request, RequestFault, Sender, receive_forcible};
use gm_shelf::Shelf;
use gm_words::read_words;
use sqlite::Alter;
use std::alloc::{AllocError, Global};
use std::io::{Read, Write};

// A request that couldn't be read.
fn unread(fault: RequestFault) -> Served {
    let fault = match fault {
        RequestFault::Memory => FrontFault::Memory,
        RequestFault::Read => FrontFault::Read,
    };
    Served {
        response: Err(fault),
        fault: None,
    }
}

// The texts of words.
fn texts_of<'a>(alloc: Global, words: &'a [String]) -> Result<Vec<&'a str>, AllocError> {
    let mut texts = Vec::new(alloc);
    for word in words {
        texts.push(word.as_str())?;
    }
    Ok(texts)
}

// What speaks against handing in the command of these words under a key. Nothing does if they are
// none, or if it is forced.
fn against_words<S: Alter, H: Shelf>(
    ground: Ground<'_>,
    bench: &mut Bench<S, H>,
    key: &str,
    words: &[String],
    forced: bool,
) -> Result<Vec<String>, Fault>
    ensures forced { IsTrue forced → IfOk result (λ against. against.items ≡ []) }
    ensures phase { TakesCommands (progress_of bench.old) → TakesCommands (progress_of bench.new) }
{
    let alloc = ground.rt.alloc();
    let texts = texts_of(alloc, words)?;
    match read_words(alloc, &texts)? {
        Ok(command) => against(ground, bench, key, &command, forced),
        Err(_) => Ok(Vec::new(alloc)),
    }
}

// Answers a request for a command.
fn carry_weighed<W: Write, S: Alter, H: Shelf>(
    ground: Ground<'_>,
    writer: &mut W,
    bench: &mut Bench<S, H>,
    key: String,
    words: Vec<String>,
    forced: bool,
) -> Served
    requires { TakesCommands (progress_of bench.old) }
    ensures { TakesCommands (progress_of bench.new) }
{
    let alloc = ground.rt.alloc();
    match against_words(ground, bench, key.as_str(), &words, forced) {
        Ok(sentences) if sentences.is_empty() => {
            let request = Request::Command {
                key,
                words,
                forced: false,
            };
            respond_guarded(alloc, writer, bench, request)
        }
        Ok(sentences) => turn_back(alloc, writer, &TurnedBack::Losing(&sentences)),
        Err(Fault::Bench(fault)) => turn_back(alloc, writer, &TurnedBack::Unlooked(fault)),
        Err(Fault::InputOrOutput) => {
            turn_back(alloc, writer, &TurnedBack::Unlooked(BenchFault::Disk))
        }
    }
}

/// The same as `serve_request_guarded` of `gm_front`, but a command isn't handed in either, unless
/// it is forced, if something would be lost by it: that is told with status 409. The body of a
/// command may have the member `force`.
pub(crate) fn serve_weighed<R: Read, W: Write, S: Alter, H: Shelf>(
    ground: Ground<'_>,
    peer: &mut Peer<R>,
    writer: &mut W,
    any_origin: bool,
    bench: &mut Bench<S, H>,
) -> Served
    requires { TakesCommands (progress_of bench.old) }
    ensures { TakesCommands (progress_of bench.new) }
{
    let alloc = ground.rt.alloc();
    let received = match receive_forcible(alloc, peer, true) {
        Ok(received) => received,
        Err(fault) => return unread(fault),
    };
    match received.sender {
        Sender::Page if !any_origin => turn_back(alloc, writer, &TurnedBack::Page),
        _ => match received.request {
            Request::Command { key, words, forced } => {
                carry_weighed(ground, writer, bench, key, words, forced)
            }
            request => respond_guarded(alloc, writer, bench, request),
        },
    }
}
