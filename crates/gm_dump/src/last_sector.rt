//! The command `dump`, which says what the last sector of an image says. No registry is opened, and
//! nothing is written or held.

use crate::refusal::DumpRefusal;
use gm_command_line::Form;
use gm_json::{decode_json, metadata_json, refused_json};
use gm_metadata::{Label, decode};
use gm_process::{Failure, Status, Streams};
use gm_refusals::{CallRefusal, Refusal};
use gm_reports::as_line;
use gm_sentences::{About, call_sentence};
use gm_shelf::{FileShelf, Shelf, read_last};
use gm_words::dump_text;
use std::alloc::{AllocError, Global};
use std::io::Write;

// The last sector of a provider, or why there is none.
fn last_sector<H: Shelf>(
    shelf: &mut H,
    provider: Label,
) -> Result<Result<[u8; 512], DumpRefusal>, Failure> {
    match read_last(shelf, provider)? {
        Some(sector) => Ok(Ok(sector)),
        None => Ok(Err(match shelf.sectors(provider) {
            Some(_) => DumpRefusal::WrongSize,
            None => DumpRefusal::Absent,
        })),
    }
}

// What a last sector says, as JSON.
fn sector_json(alloc: Global, sector: &[u8; 512]) -> Result<String, AllocError> {
    let text = match decode(sector) {
        Ok(metadata) => metadata_json(alloc, &metadata)?,
        Err(fault) => decode_json(alloc, fault)?,
    };
    as_line(text)
}

// That there is none, by the number of the refusal.
fn refused_text(alloc: Global, number: u8, form: Form) -> Result<String, AllocError> {
    match form {
        Form::Text => format!(in alloc; "refused {number}\n"),
        Form::Json => as_line(refused_json(alloc, number)?),
    }
}

// Why the last sector of an image can't be printed.
fn explain<I, O, E: Write>(
    alloc: Global,
    streams: &mut Streams<'_, I, O, E>,
    image: Label,
    why: DumpRefusal,
) {
    if !streams.explaining.wanted {
        return;
    }
    let rule = match why {
        DumpRefusal::Absent => Refusal::Absent,
        DumpRefusal::WrongSize => Refusal::WrongSize,
    };
    let sentence = call_sentence(CallRefusal::ByRules(rule));
    if let Ok(sentence) = About::image(image).sentence(alloc, sentence) {
        let number = why.number();
        let _ = writeln!(streams.complaints, "refused {number}: {sentence}");
    }
}

/// Prints what the last sector of a provider says, or why there is none.
pub fn dump<I, O: Write, E: Write>(
    rt: &HostRuntime,
    folder: &str,
    provider: Label,
    form: Form,
    streams: &mut Streams<'_, I, O, E>,
) -> Result<Status, Failure> {
    let alloc = rt.alloc();
    let opened = FileShelf::look_at(rt, folder, &[provider]);
    let mut shelf = streams.explaining.heed(rt, folder, opened)?;
    let found = last_sector(&mut shelf, provider);
    streams.explaining.failure = shelf.last_failure();
    match found? {
        Ok(sector) => {
            let text = match form {
                Form::Text => dump_text(alloc, &sector)?,
                Form::Json => sector_json(alloc, &sector)?,
            };
            streams.output.write_all(text.as_bytes())?;
            Ok(match decode(&sector) {
                Ok(_) => Status::Done,
                Err(_) => Status::Refused,
            })
        }
        Err(refusal) => {
            let text = refused_text(alloc, refusal.number(), form)?;
            streams.output.write_all(text.as_bytes())?;
            explain(alloc, streams, provider, refusal);
            Ok(Status::Refused)
        }
    }
}
