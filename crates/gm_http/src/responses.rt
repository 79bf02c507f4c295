//! The bytes of a response.

ghost use Rattle.std.specs.Prelude.{◌≡◌, IfOk, string_bytes};
ghost use Rattle.gm_http.specs.Responses.{allow_line, phrase_of, response_bytes};

use crate::status::{Allowed, Status};
use std::alloc::{AllocError, Global};

#[tactic(auto, unfolding(crate::specs::Responses::phrase_of))]
fn phrase(status: Status) -> &'static str
    ensures { result.now ≡ phrase_of status }
{
    status.status_code().canonical_reason().unwrap_or("")
}

fn allow(status: Status) -> &'static str
    ensures { result.now ≡ allow_line status }
{
    match status {
        Status::NotAllowed(Allowed::Get) => "Allow: GET\r\n",
        Status::NotAllowed(Allowed::Post) => "Allow: POST\r\n",
        _ => "",
    }
}

/// The bytes of a response whose body is JSON. The connection closes after it.
pub fn response(alloc: Global, status: Status, body: &str) -> Result<String, AllocError>
    ensures { IfOk result (λ text. string_bytes text ≡ response_bytes status body.now) }
{
    let code = status.code();
    let phrase = phrase(status);
    let length = body.len();
    let allow = allow(status);
    format!(in alloc;
        "HTTP/1.1 {code} {phrase}\r\nContent-Type: application/json\r\n\
         Content-Length: {length}\r\n{allow}Connection: close\r\n\r\n{body}"
    )
}
