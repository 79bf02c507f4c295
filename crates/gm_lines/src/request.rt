//! What a line of a batch asks.

ghost use Rattle.std.specs.Prelude.{◌≡◌, ◌≤◌, ℕ, List, IfOk, IfSome, length};
ghost use Rattle.gm_lines.specs.Asked.{Call, IsAhead, asked, asked_at, asked_by, asked_of, pieces, shown};
ghost use Rattle.gm_lines.specs.Input.{Fits};
ghost use Rattle.gm_words.specs.Lines.{texts};

use crate::ahead::Ahead;
use crate::lines::Line;
use gm_commands::{Command, is_key};
use gm_words::read_words;
use std::alloc::{AllocError, Global};
use std::str;

/// What a line asks of the bench.
#[derive(Drop)]
pub enum Request<'a> {
    /// Nothing: it has no pieces.
    Nothing,
    /// No command, under its key as answers show it.
    Wrong(&'a str),
    /// A command under a key.
    Call(&'a str, Command),
}

/// A key as answers show it: `?` if it isn't one.
pub fn shown(key: &str) -> &str
    ensures { result.now ≡ shown key.now }
{
    if is_key(key) { key } else { "?" }
}

/// What stands between spaces, without what is empty.
pub fn pieces<'a>(alloc: Global, text: &'a str) -> Result<Vec<&'a str>, AllocError>
    ensures { IfOk result (λ found. texts found.items ≡ pieces text.now) }
{
    text.split(' ')
        .filter(|piece| !piece.is_empty())
        .collect(alloc)
}

/// What the pieces of a line ask: the first is the key, the others are the words.
pub fn request_of<'a>(alloc: Global, pieces: &[&'a str]) -> Result<Request<'a>, AllocError>
    ensures { IfOk result (λ request. asked_of request ≡ asked_by (texts pieces.now)) }
{
    let Some((key, words)) = pieces.split_first() else {
        return Ok(Request::Nothing);
    };
    match read_words(alloc, words)? {
        Ok(command) => Ok(Request::Call(key, command)),
        Err(_) => Ok(Request::Wrong(shown(key))),
    }
}

/// What a line of at most 131,072 bytes asks.
pub(crate) fn request_in<'a>(alloc: Global, line: &'a [u8]) -> Result<Request<'a>, AllocError>
    requires { length line.now ≤ 131072 }
    ensures { IfOk result (λ request. asked_of request ≡ asked line.now) }
{
    match str::from_utf8(line) {
        Ok(text) => request_of(alloc, &pieces(alloc, text)?),
        Err(_) => Ok(Request::Wrong("?")),
    }
}

// The request of a line whose command is known, under its key, which is its first piece.
fn under_key<'a>(alloc: Global, line: &'a [u8], command: Command) -> Result<Request<'a>, AllocError>
    requires short { length line.now ≤ 131072 }
    requires asks { (key : List ℕ) × (asked line.now ≡ Call key command) }
    ensures { IfOk result (λ request. asked_of request ≡ asked line.now) }
{
    let Ok(text) = str::from_utf8(line) else {
        return Ok(Request::Wrong("?"));
    };
    let found = pieces(alloc, text)?;
    match found.split_first() {
        Some((key, _)) => Ok(Request::Call(key, command)),
        None => Ok(Request::Nothing),
    }
}

// What a line of at most 131,072 bytes asks. Its command may have been read ahead.
fn request_over<'a>(
    alloc: Global,
    line: &'a [u8],
    ahead: Option<Ahead>,
) -> Result<Request<'a>, AllocError>
    requires short { length line.now ≤ 131072 }
    requires ahead { IfSome ahead IsAhead }
    ensures { IfOk result (λ request. asked_of request ≡ asked line.now) }
{
    match ahead {
        Some(ahead) if ahead.line.as_slice() == line => under_key(alloc, line, ahead.command),
        _ => request_in(alloc, line),
    }
}

/// What the line asks that was found at the front of an input. A command that was read ahead is
/// taken if its line is this one.
pub fn request_at<'a>(
    alloc: Global,
    line: &'a [u8],
    found: Line,
    ahead: Option<Ahead>,
) -> Result<Request<'a>, AllocError>
    requires fits { Fits found }
    requires room { length line.now ≡ 131072 }
    requires ahead { IfSome ahead IsAhead }
    ensures { IfOk result (λ request. asked_of request ≡ asked_at line.now found) }
{
    match found {
        Line::End => Ok(Request::Nothing),
        Line::Long => Ok(Request::Wrong("?")),
        Line::Whole(count) => request_over(alloc, &line[..count], ahead),
    }
}
