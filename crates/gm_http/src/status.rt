//! The codes of responses.

ghost use Rattle.std.specs.Prelude.{◌≡◌};
ghost use Rattle.gm_http.specs.Responses.{code_of, method_name};

use http::StatusCode;

/// The one method that a route takes.
#[derive(Clone, Copy, Debug, PartialEq, Eq)]
pub enum Allowed {
    Get,
    Post,
}

impl Allowed {
    pub(crate) fn name(self) -> &'static str
        ensures { result.now ≡ method_name self }
    {
        match self {
            Allowed::Get => "GET",
            Allowed::Post => "POST",
        }
    }
}

/// How a request went, as a response says it.
#[derive(Clone, Copy, Debug, PartialEq, Eq)]
pub enum Status {
    Ok,
    BadRequest,
    Forbidden,
    NotFound,
    /// The route exists with another method, this one.
    NotAllowed(Allowed),
    Conflict,
    TooLarge,
    Internal,
    Unavailable,
}

impl Status {
    pub(crate) fn status_code(self) -> StatusCode
        ensures { result ≡ code_of self }
    {
        match self {
            Status::Ok => StatusCode::OK,
            Status::BadRequest => StatusCode::BAD_REQUEST,
            Status::Forbidden => StatusCode::FORBIDDEN,
            Status::NotFound => StatusCode::NOT_FOUND,
            Status::NotAllowed(_) => StatusCode::METHOD_NOT_ALLOWED,
            Status::Conflict => StatusCode::CONFLICT,
            Status::TooLarge => StatusCode::PAYLOAD_TOO_LARGE,
            Status::Internal => StatusCode::INTERNAL_SERVER_ERROR,
            Status::Unavailable => StatusCode::SERVICE_UNAVAILABLE,
        }
    }

    /// Its three digits.
    pub fn code(self) -> u16
        ensures { result ≡ code_of self }
    {
        self.status_code().as_u16()
    }
}
