//! What is told of one command.

ghost use Rattle.std.specs.Prelude.{◌≡◌, ◌++◌, OnOk};
ghost use Rattle.std.specs.List.{list_all};
ghost use Rattle.std.specs.String.{string_bytes};
ghost use Rattle.gm_history.specs.Told.{comma_after, is_data, is_digit, sectors_words, told, told_line, told_reply, told_word, told_words};

use crate::accepted::Accepted;
use gm_command_line::Form;
use gm_json::kept_json;
use gm_state::Reply;
use std::alloc::{AllocError, Global};

// How many digits of a patch's data are shown.
const SHOWN_DIGITS: usize = 8;

// How many digits a sector has.
const SECTOR_DIGITS: usize = 1024;

fn is_digit(byte: u8) -> bool
    ensures { result ≡ is_digit byte }
{
    matches!(byte, b'0'..=b'9' | b'a'..=b'f')
}

fn are_digits(word: &str) -> bool
    ensures { result ≡ list_all is_digit word.now }
{
    word.as_bytes().iter().all(|byte| is_digit(*byte))
}

// Whether a word is a patch's data: no other is as long.
fn is_data(word: &str) -> bool
    ensures { result ≡ is_data word.now }
{
    SECTOR_DIGITS <= word.len() && are_digits(word)
}

// Appends how many sectors are told of by some digits.
fn push_sectors(text: &mut String, sectors: usize) -> Result<(), AllocError>
    ensures { OnOk result (string_bytes text.new ≡ string_bytes text.old ++ sectors_words sectors) }
{
    if sectors == 1 {
        text.push_str("... (1 sector)")
    } else {
        write!(text, "... ({sectors} sectors)")
    }
}

// Appends a word, of data the first digits.
fn push_word(text: &mut String, word: &str) -> Result<(), AllocError>
    ensures { OnOk result (string_bytes text.new ≡ string_bytes text.old ++ told_word word.now) }
{
    if !is_data(word) {
        return text.push_str(word);
    }
    match word.get(..SHOWN_DIGITS) {
        Some(digits) => {
            text.push_str(digits)?;
            push_sectors(text, word.len() / SECTOR_DIGITS)
        }
        None => text.push_str(word),
    }
}

// Appends each word after a space.
fn push_words(text: &mut String, words: &[&str]) -> Result<(), AllocError>
    ensures { OnOk result (string_bytes text.new ≡ string_bytes text.old ++ told_words words.now) }
{
    for word in words {
        text.push(' ')?;
        push_word(text, word)?;
    }
    Ok(())
}

// Appends the answer that a command got, and the line's end.
fn push_answer(text: &mut String, reply: Reply) -> Result<(), AllocError>
    ensures { OnOk result (string_bytes text.new ≡ string_bytes text.old ++ told_reply reply) }
{
    match reply {
        Reply::Plain => text.push_str(": ok\n"),
        Reply::Copied { held, total } => writeln!(text, ": copied {held} of {total}"),
    }
}

// Appends the line of a command with these words.
fn push_line(text: &mut String, command: &Accepted, words: &[&str]) -> Result<(), AllocError>
    ensures { OnOk result
        (string_bytes text.new ≡ string_bytes text.old ++ told_line command.now words.now) }
{
    let key = command.key.as_str();
    write!(text, "{} {key}", command.number)?;
    push_words(text, words)?;
    push_answer(text, command.reply)
}

// Appends a comma, if another command was told before.
fn push_comma(text: &mut String, later: bool) -> Result<(), AllocError>
    ensures { OnOk result (string_bytes text.new ≡ string_bytes text.old ++ comma_after later) }
{
    if later { text.push(',') } else { Ok(()) }
}

/// Appends what is told of a command with these words: its line, or its JSON, after a comma if
/// another was told before.
pub(crate) fn push_told(
    alloc: Global,
    text: &mut String,
    command: &Accepted,
    words: &[&str],
    form: Form,
    later: bool,
) -> Result<(), AllocError>
    ensures { OnOk result (string_bytes text.new
        ≡ string_bytes text.old ++ told form later command.now words.now) }
{
    match form {
        Form::Text => push_line(text, command, words),
        Form::Json => {
            push_comma(text, later)?;
            let key = command.key.as_str();
            let json = kept_json(alloc, key, command.number, words, command.reply)?;
            text.push_str(json.as_str())
        }
    }
}
