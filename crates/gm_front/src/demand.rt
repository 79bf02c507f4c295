//! What a request over HTTP demands of a bench.

ghost use Rattle.std.specs.Prelude.{◌≡◌, IfOk, map};
ghost use Rattle.std.specs.String.{string_bytes};
ghost use Rattle.gm_http.specs.Requests.{asked_of};
ghost use Rattle.gm_words.specs.Lines.{texts};
ghost use Rattle.gm_words.specs.Spelling.{spelled};
ghost use Rattle.gm_front.specs.Demands.{carried, demand_of};
ghost use Rattle.gm_front.specs.Findings.{demand_in};

use gm_commands::Command;
use gm_http::{Request, Status};
use gm_metadata::Label;
use gm_words::read_words;
use std::alloc::{AllocError, Global};

/// What a request demands of a bench.
#[derive(Drop)]
pub(crate) enum Demand {
    /// Nothing: it is turned down with this status, and for this reason.
    TurnedDown(Status, &'static str),
    AllMirrors,
    OneMirror(Label),
    LastSector(Label),
    /// Nothing: its words are no command.
    NoCommand,
    /// That a command be carried out, under this key.
    Carry(String, Command),
}

// The texts of words.
fn texts_of<'a>(alloc: Global, words: &'a [String]) -> Result<Vec<&'a str>, AllocError>
    ensures { IfOk result (λ found. texts found.items ≡ map string_bytes words.now) }
{
    let mut found = Vec::new(alloc);
    for word in words {
        found.push(word.as_str())?;
    }
    Ok(found)
}

// What words under a key demand.
fn carried(alloc: Global, key: String, words: &[&str]) -> Result<Demand, AllocError>
    ensures { IfOk result (λ demand. demand_in demand
        ≡ carried (string_bytes key) (spelled (texts words.now))) }
{
    match read_words(alloc, words)? {
        Ok(command) => Ok(Demand::Carry(key, command)),
        Err(_) => Ok(Demand::NoCommand),
    }
}

/// What a request demands.
pub(crate) fn demand_of(alloc: Global, request: Request) -> Result<Demand, AllocError>
    ensures { IfOk result (λ demand. demand_in demand ≡ demand_of (asked_of request)) }
{
    match request {
        Request::BadRequest => Ok(Demand::TurnedDown(Status::BadRequest, "bad request")),
        Request::NotFound => Ok(Demand::TurnedDown(Status::NotFound, "not found")),
        Request::NotAllowed(method) => {
            let status = Status::NotAllowed(method);
            Ok(Demand::TurnedDown(status, "method not allowed"))
        }
        Request::TooLarge => Ok(Demand::TurnedDown(Status::TooLarge, "too large")),
        Request::Status => Ok(Demand::AllMirrors),
        Request::Mirror(name) => Ok(Demand::OneMirror(name)),
        Request::Metadata(provider) => Ok(Demand::LastSector(provider)),
        Request::Command { key, words, .. } => {
            let texts = texts_of(alloc, &words)?;
            carried(alloc, key, &texts)
        }
    }
}
