//! What the fields of a head say of its body.

ghost use Rattle.std.specs.Prelude.{◌≡◌, All, IfOk, length, map};
ghost use Rattle.std.specs.Char.{is_ascii_digit};
ghost use Rattle.std.specs.List.{list_all};
ghost use Rattle.std.specs.Str.{str_eq_ignore_ascii_case};
ghost use Rattle.httparse.specs.Spans.{IsHeaderWithin, header_bytes};
ghost use Rattle.gm_http.specs.Fields.{length_by, number_of, only_number, values_of};

use httparse::spans::HeaderSpan;
use std::alloc::{AllocError, Global};
use std::str;

fn all_digits(text: &[u8]) -> bool
    ensures { result ≡ list_all is_ascii_digit text.now }
{
    text.iter().all(|byte| byte.is_ascii_digit())
}

#[tactic(auto, using(crate::proofs::Digits::no_numbers))]
fn number_of(text: &[u8]) -> Option<u64>
    ensures { result ≡ number_of text.now }
{
    if text.len() > 10 {
        return None;
    }
    if !all_digits(text) {
        return None;
    }
    let Ok(digits) = str::from_utf8(text) else {
        return None;
    };
    digits.parse().ok()
}

// The number that a single value is.
fn only_number(values: &[&[u8]]) -> Option<u64>
    ensures { result ≡ only_number (map (λ value. value.now) values.now) }
{
    match values {
        [value] => number_of(value),
        _ => None,
    }
}

/// Whether a name is this one, in upper or in lower case.
pub(crate) fn is_named(given: &[u8], name: &[u8]) -> bool
    ensures { result ≡ str_eq_ignore_ascii_case given.now name.now }
{
    given.eq_ignore_ascii_case(name)
}

// The values of the fields of a name, in upper or in lower case.
fn values_of<'b>(
    alloc: Global,
    bytes: &'b [u8],
    headers: &[HeaderSpan],
    name: &[u8],
) -> Result<Vec<&'b [u8]>, AllocError>
    requires { All (IsHeaderWithin (length bytes.now)) headers.now }
    ensures { IfOk result (λ found. map (λ value. value.now) found.items
        ≡ values_of name.now (map (header_bytes bytes.now) headers.now)) }
{
    let mut values = Vec::new(alloc);
    for header in headers {
        if is_named(header.name.of(bytes), name) {
            values.push(header.value.of(bytes))?;
        }
    }
    Ok(values)
}

/// The length that a body has by the fields; `None` if it is sent in chunks, or they don't give
/// just one length of 1 to 10 decimal digits.
pub(crate) fn length_by(
    alloc: Global,
    bytes: &[u8],
    headers: &[HeaderSpan],
) -> Result<Option<u64>, AllocError>
    requires { All (IsHeaderWithin (length bytes.now)) headers.now }
    ensures { IfOk result (λ found.
        found ≡ length_by (map (header_bytes bytes.now) headers.now)) }
{
    if !values_of(alloc, bytes, headers, b"transfer-encoding")?.is_empty() {
        return Ok(None);
    }
    let lengths = values_of(alloc, bytes, headers, b"content-length")?;
    Ok(only_number(&lengths))
}
