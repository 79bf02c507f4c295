//! Sectors, read from hexadecimal digits.

ghost use Rattle.std.specs.Prelude.{◌≡◌, IfOk};
ghost use Rattle.std.specs.List.{list_all};
ghost use Rattle.gm_words.specs.Digits.{is_digit, sectors_in, sectors_of};
ghost use Rattle.hex.specs.Hex.{decode_of};

use gm_commands::Sectors;
use hex::FromHexError;
use std::alloc::{AllocError, Global};

fn is_digit(byte: u8) -> bool
    ensures { result ≡ is_digit byte }
{
    matches!(byte, b'0'..=b'9' | b'a'..=b'f')
}

// Every byte is looked at: a loop without an early end tests many at a time.
fn are_digits(text: &[u8]) -> bool
    ensures { result ≡ list_all is_digit text.now }
{
    let mut all = true;
    for byte in text {
        all &= is_digit(*byte);
    }
    all
}

// The bytes as sectors, if they are whole ones, 1 to 64.
fn sectors_of(alloc: Global, bytes: &[u8]) -> Result<Option<Sectors>, AllocError>
    ensures { IfOk result (λ r. r ≡ sectors_of (Ok bytes.now)) }
{
    let (sectors, rest) = bytes.as_chunks::<512>();
    if !rest.is_empty() {
        return Ok(None);
    }
    let sectors = Vec::from_slice(alloc, sectors)?;
    Ok(Sectors::new(sectors))
}

/// The sectors that digits say: each byte as two of 0 to 9 and a to f, 512 bytes a sector, 1 to 64
/// sectors. `None` if the text is anything else.
#[tactic(auto, unfolding(crate::specs::Digits::sectors_in))]
pub(crate) fn sectors_in(alloc: Global, text: &str) -> Result<Option<Sectors>, AllocError>
    ensures { IfOk result (λ r. r ≡ sectors_in text.now) }
{
    if !are_digits(text.as_bytes()) {
        return Ok(None);
    }
    match hex::decode(alloc, text) {
        Ok(bytes) => sectors_of(alloc, &bytes),
        Err(FromHexError::OutOfMemory) => Err(AllocError),
        Err(_) => Ok(None),
    }
}
