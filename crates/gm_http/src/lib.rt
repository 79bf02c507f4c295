//! What a request over HTTP asks of gmbench, read from any reader, and the bytes of a response.
//!
//! It knows no bench and no mirrors, only their labels. `request.rt` reads a request: `head.rt` its
//! head, `routes.rt` its target, `fields.rt` the length of its body and `bodies.rt` what that
//! holds. All of it comes from a peer (`peer.rt`), which keeps whether reading failed.
//! `specs/Requests.antt` says what all of it asks, and is what to read first. `sender.rt` tells a
//! web page from a program by the fields, and `specs/Senders.antt` says how. `status.rt` has the
//! codes of responses, `responses.rt` writes one, and `specs/Responses.antt` has its bytes.
//! `laws.rt` says what holds of all requests.
#![tactic(auto)]

mod bodies;
mod fields;
mod head;
mod input;
mod laws;
mod peer;
mod request;
mod responses;
mod routes;
mod sender;
mod status;

pub use laws::{one_request, targets};
pub use peer::Peer;
pub use request::{
    Received, Request, RequestFault, read_request, receive_forcible, receive_request,
};
pub use responses::response;
pub use sender::Sender;
pub use status::{Allowed, Status};
