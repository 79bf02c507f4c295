//! A client that sends its body only after it is told to go on (RFC 9110, `Expect: 100-continue`).

use httparse::Status;
use httparse::spans::{EMPTY_HEADER_SPAN, HeaderSpan, Span, parse_request};
use std::str;

/// What such a client is told.
pub(crate) const GO_ON: &[u8] = b"HTTP/1.1 100 Continue\r\n\r\n";

// How many fields a head has at most.
const MOST_FIELDS: usize = 64;

// How many bytes a body has at most that is taken.
const MOST_BODY: u64 = 131_072;

// The bytes of a span.
fn bytes_of(head: &[u8], span: Span) -> &[u8] {
    head.get(span.start..span.end).unwrap_or(&[])
}

// The value of a field, if it has this name, in upper or in lower case.
fn value_of<'a>(head: &'a [u8], field: &HeaderSpan, name: &[u8]) -> Option<&'a [u8]> {
    if bytes_of(head, field.name).eq_ignore_ascii_case(name) {
        Some(bytes_of(head, field.value))
    } else {
        None
    }
}

// Whether a field says that the client waits.
fn waits(head: &[u8], field: &HeaderSpan) -> bool {
    match value_of(head, field, b"expect") {
        Some(value) => value.eq_ignore_ascii_case(b"100-continue"),
        None => false,
    }
}

// Whether a field says a length that isn't taken.
fn is_too_long(head: &[u8], field: &HeaderSpan) -> bool {
    let Some(value) = value_of(head, field, b"content-length") else {
        return false;
    };
    match str::from_utf8(value) {
        Ok(digits) => !matches!(digits.parse::<u64>(), Ok(length) if length <= MOST_BODY),
        Err(_) => true,
    }
}

/// Whether these bytes are a whole head, and no more, of a client that waits to be told to go on
/// with a body of a length that is taken. Any other head is answered without its body, or is
/// followed by it.
pub(crate) fn waits_for_word(head: &[u8]) -> bool {
    let mut fields = [EMPTY_HEADER_SPAN; MOST_FIELDS];
    let Ok(Status::Complete(spans)) = parse_request(head, &mut fields) else {
        return false;
    };
    let fields = fields.get(..spans.headers).unwrap_or(&[]);
    spans.len == head.len()
        && fields.iter().any(|field| waits(head, field))
        && !fields.iter().any(|field| is_too_long(head, field))
}
