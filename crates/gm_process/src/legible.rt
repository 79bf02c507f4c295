//! What names, words and paths may hold, and no terminal is to act upon.

ghost use Rattle.std.specs.Prelude.{◌≡◌, ◌==◌, IfOk, chars, string_bytes};
ghost use Rattle.std.specs.List.{list_all};
ghost use Rattle.gm_process.specs.Legible.{is_control, is_hidden, legible_char, legible_in_text, legible_name, turns_direction};

use std::alloc::{AllocError, Global};
use std::io::{self, Write};

fn is_control(character: char) -> bool
    ensures { result ≡ is_control character }
{
    matches!(character, '\0'..='\x1f' | '\x7f'..='\u{9f}')
}

fn turns_direction(character: char) -> bool
    ensures { result ≡ turns_direction character }
{
    matches!(
        character,
        '\u{61c}' | '\u{200e}'..='\u{200f}' | '\u{202a}'..='\u{202e}' | '\u{2066}'..='\u{2069}'
    )
}

// Whether a terminal acts upon the character, or it turns the direction of others.
fn is_hidden(character: char) -> bool
    ensures { result ≡ is_hidden character }
{
    is_control(character) || turns_direction(character)
}

// The character as it is shown.
fn legible_char(character: char) -> char
    ensures { result ≡ legible_char character }
{
    if is_hidden(character) { '?' } else { character }
}

/// A name as it is shown in a line: `?` for each character that a terminal acts upon, or that turns
/// the direction of others. Spaces stay, and all other characters.
pub fn legible_name(alloc: Global, name: &str) -> Result<String, AllocError>
    ensures { IfOk result (λ text. string_bytes text ≡ legible_name name.now) }
{
    name.chars().map(|c| legible_char(c)).collect(alloc)
}

/// A writer for people. Of what is written to it each character is shown as in a name, but lines
/// end as they do, and what isn't UTF-8 is shown as `?`. Each write has whole characters.
#[derive(Drop)]
pub struct Legible<E> {
    under: E,
}

// A character of a text as it is shown.
fn legible_in_text(character: char) -> char
    ensures { result ≡ legible_in_text character }
{
    match character {
        '\n' => '\n',
        _ => legible_char(character),
    }
}

// Whether a text is shown as it is.
fn is_legible(text: &str) -> bool
    ensures { result ≡ list_all (λ c. legible_in_text c == c) (chars text.now) }
{
    text.chars().all(|c| legible_in_text(c) == c)
}

// Writes the characters of a text one by one, if that is needed. Nothing is allocated: it may be
// memory that lacks.
fn write_text<E: Write>(under: &mut E, text: &str) -> io::Result<()> {
    if is_legible(text) {
        return under.write_all(text.as_bytes());
    }
    for character in text.chars() {
        let mut bytes = [0; 4];
        let shown = legible_in_text(character).encode_utf8(&mut bytes);
        under.write_all(shown.as_bytes())?;
    }
    Ok(())
}

impl<E: Write> Legible<E> {
    /// One that writes on to this one.
    pub fn new(under: E) -> Legible<E> {
        Legible { under }
    }

    /// Begins a terminal's line anew: what is written next takes the place of what it had.
    pub fn clear_line(&mut self) -> io::Result<()> {
        self.under.write_all(b"\r\x1b[K")
    }
}

impl<E: Write> Write for Legible<E> {
    fn write(&mut self, bytes: &[u8]) -> io::Result<usize> {
        for chunk in bytes.utf8_chunks() {
            write_text(&mut self.under, chunk.valid())?;
            if !chunk.invalid().is_empty() {
                self.under.write_all(b"?")?;
            }
        }
        Ok(bytes.len())
    }

    fn flush(&mut self) -> io::Result<()> {
        self.under.flush()
    }
}
