//! What is told of a request that isn't put to the bench.

ghost use Rattle.std.specs.Prelude.{◌≡◌, ◌++◌, IfOk, OnErr, OnOk, string_bytes};
ghost use Rattle.std.specs.Io.KnownBytes.{Appends};
ghost use Rattle.gm_json.specs.Answers.{error_json};
ghost use Rattle.gm_front.specs.Batch.{AppendsFront};
ghost use Rattle.gm_front.specs.Demands.{told_as};
ghost use Rattle.gm_front.specs.Findings.{told_in};
ghost use Rattle.gm_front.specs.GuardedServices.{TellsOf};
ghost use Rattle.gm_front.specs.Services.{WasRead, bytes_of, code_told};
ghost use Rattle.gm_front.specs.TurnedBack.{losing_message, sentence_part, turned_back_fault, turned_back_told};

use crate::answer_lines::FrontFault;
use crate::finding::{Finding, Told};
use crate::service::{Response, Served, write_told};
use gm_bench::BenchFault;
use gm_http::Status;
use gm_json::error_json;
use std::alloc::{AllocError, Global};
use std::io::Write;

/// Why a request isn't put to the bench.
#[derive(Clone, Copy)]
pub enum TurnedBack<'a> {
    /// A web page sent it.
    Page,
    /// Its command would lose what these sentences say.
    Losing(&'a [String]),
    /// The bench failed as it was looked at what the command would lose.
    Unlooked(BenchFault),
}

// Adds a sentence to what is told.
fn push_sentence(text: &mut String, sentence: &String) -> Result<(), AllocError>
    ensures { OnOk result (string_bytes text.new
        ≡ string_bytes text.old ++ sentence_part sentence.now) }
{
    let sentence = sentence.as_str();
    write!(text, "; {sentence}")
}

// That a command isn't done, because of what these sentences say.
fn losing_message(alloc: Global, sentences: &[String]) -> Result<String, AllocError>
    ensures { IfOk result (λ text. string_bytes text ≡ losing_message sentences.now) }
{
    let mut text = String::from_str(alloc, "not done")?;
    for sentence in sentences {
        push_sentence(&mut text, sentence)?;
    }
    Ok(text)
}

fn told_as(alloc: Global, status: Status, message: &str) -> Result<Told, AllocError>
    ensures { IfOk result (λ told. told_in told ≡ told_as status (error_json message.now)) }
{
    Ok(Told {
        status,
        body: error_json(alloc, message)?,
    })
}

impl TurnedBack<'_> {
    // What is told of it.
    fn told(&self, alloc: Global) -> Result<Told, AllocError>
        ensures { IfOk result (λ told. told_in told ≡ turned_back_told self.now) }
    {
        match self {
            TurnedBack::Page => told_as(alloc, Status::Forbidden, "not from a page"),
            TurnedBack::Losing(sentences) => {
                let message = losing_message(alloc, sentences)?;
                told_as(alloc, Status::Conflict, message.as_str())
            }
            TurnedBack::Unlooked(fault) => Finding::Failed(*fault).told(alloc),
        }
    }

    // The fault of the bench, if it failed.
    fn fault(&self) -> Option<BenchFault>
        ensures { result ≡ turned_back_fault self.now }
    {
        match self {
            TurnedBack::Page | TurnedBack::Losing(_) => None,
            TurnedBack::Unlooked(fault) => Some(*fault),
        }
    }
}

// Writes the response that tells why a request isn't put to the bench.
fn tell_why<W: Write>(
    alloc: Global,
    writer: &mut W,
    why: &TurnedBack<'_>,
) -> Result<Response, FrontFault>
    ensures ok { IfOk result (λ response. (response.status ≡ (turned_back_told why.now).status)
        × Appends (W.contents writer.old) (W.contents writer.new)
        (bytes_of (turned_back_told why.now))) }
    ensures front { OnErr result (AppendsFront (W.contents writer.old) (W.contents writer.new)
        (bytes_of (turned_back_told why.now))) }
    ensures read { WasRead result }
{
    let Ok(told) = why.told(alloc) else {
        return Err(FrontFault::Memory);
    };
    write_told(alloc, writer, &told)
}

/// Tells why a request isn't put to the bench: a page with status 403, a loss with 409, and a fault
/// of the bench as any.
pub fn turn_back<W: Write>(alloc: Global, writer: &mut W, why: &TurnedBack<'_>) -> Served
    ensures response { TellsOf (turned_back_told why.now)
        (W.contents writer.old) (W.contents writer.new) (code_told result.response) }
    ensures fault { result.fault ≡ turned_back_fault why.now }
    ensures read { WasRead result.response }
{
    let response = tell_why(alloc, writer, why);
    Served {
        response,
        fault: why.fault(),
    }
}
