//! A line of a guarded batch: what it asks, and whether its command is forced.

ghost use Rattle.std.specs.Prelude.{◌≡◌, ◌∷◌, [], IfOk};
ghost use Rattle.gm_lines.specs.Asked.{asked_by, asked_of, pieces};
ghost use Rattle.gm_words.specs.Lines.{texts};
ghost use Rattle.gm_handing_in.specs.Forced.{is_forced, unforced};

use gm_lines::{Request, pieces, request_of};
use std::alloc::{AllocError, Global};

// The word that has a command carried out whatever is lost by it.
const FORCE: &str = "--force";

/// What a line asks, without the word that forces its command.
#[derive(Drop)]
pub(crate) struct ForcedLine<'a> {
    /// The key and the words, without that word.
    pub(crate) pieces: Vec<&'a str>,
    pub(crate) request: Request<'a>,
    pub(crate) forced: bool,
}

// Whether the word comes right after the key.
fn is_forced(pieces: &[&str]) -> bool
    ensures { result ≡ is_forced (texts pieces.now) }
{
    match pieces {
        [_, word, ..] => *word == FORCE,
        _ => false,
    }
}

// The pieces of a line without that word.
fn unforced<'a>(alloc: Global, pieces: &[&'a str]) -> Result<Vec<&'a str>, AllocError>
    ensures { IfOk result (λ left. texts left.items ≡ unforced (texts pieces.now)) }
{
    match pieces {
        [key, word, words @ ..] if *word == FORCE => {
            let mut left = Vec::new(alloc);
            left.push(*key)?;
            left.extend_from_slice(words)?;
            Ok(left)
        }
        _ => Vec::from_slice(alloc, pieces),
    }
}

/// Reads a line. Its key and its command are those of the line without the word `--force`, if that
/// comes right after the key.
pub(crate) fn read_forced<'a>(alloc: Global, line: &'a str) -> Result<ForcedLine<'a>, AllocError>
    ensures asks { IfOk result (λ it.
        asked_of it.request ≡ asked_by (unforced (pieces line.now))) }
    ensures forced { IfOk result (λ it. it.forced ≡ is_forced (pieces line.now)) }
{
    let all = pieces(alloc, line)?;
    let forced = is_forced(&all);
    let pieces = unforced(alloc, &all)?;
    let request = request_of(alloc, &pieces)?;
    Ok(ForcedLine {
        pieces,
        request,
        forced,
    })
}
