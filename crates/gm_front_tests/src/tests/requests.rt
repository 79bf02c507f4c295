//! Requests over HTTP whose input fails, and a bench that fails at one.

use super::readers::failing;
use super::{images, in_memory, must, open};
use gm_bench::{Bench, Phase};
use gm_front::{FrontFault, serve_one};
use gm_http::Peer;
use gm_shelf::{FaultShelf, Shelf};
use sqlite::{Alter, Connection};
use std::io::{Read, Write};
use std::process::Abort;

const REQUEST: &str = "POST /commands HTTP/1.1\r\nContent-Length: 68\r\n\r\n\
    {\"key\":\"k1\",\"words\":[\"label\",\"--mid\",\"7\",\"--did\",\"1\",\"gm0\",\"a.img\"]}";

const STATUS: &str = "GET /status HTTP/1.1\r\n\r\n";

// What is answered when the shelf fails, and from then on.
const FAILED: &str = "HTTP/1.1 500 Internal Server Error\r\nContent-Type: application/json\r\n\
    Content-Length: 11\r\nConnection: close\r\n\r\n{\"fault\":3}";

const CLOSED: &str = "HTTP/1.1 503 Service Unavailable\r\nContent-Type: application/json\r\n\
    Content-Length: 11\r\nConnection: close\r\n\r\n{\"fault\":4}";

fn try_serve<R: Read, W: Write, S: Alter, H: Shelf>(
    rt: &(impl Abort + AllocGlobal),
    reader: &mut R,
    writer: &mut W,
    bench: &mut Bench<S, H>,
) -> Result<u16, FrontFault> {
    let mut peer = Peer::new(reader);
    let served = match bench.phase() {
        Phase::Ready | Phase::Failed => serve_one(rt.alloc(), &mut peer, writer, bench),
        Phase::Pending | Phase::Applied => panic!(rt; "a request in another phase"),
    };
    let failed = peer.has_failed();
    must(
        rt,
        failed == (served == Err(FrontFault::Read)),
        "a peer that failed is told otherwise",
    );
    served
}

// Serves what an input gives, which ends or fails so and is told this.
fn serves<R: Read, S: Alter, H: Shelf>(
    rt: &(impl Abort + AllocGlobal),
    bench: &mut Bench<S, H>,
    input: &mut R,
    end: Result<u16, FrontFault>,
    told: &str,
) {
    let mut text = Vec::new(rt.alloc());
    let ended = try_serve(rt, input, &mut text, bench);
    must(rt, ended == end && text.as_slice() == told.as_bytes(), told);
}

// An input that fails within a request asks nothing of the bench, and is told nothing. The fault of
// a bench is told once as what it is, and then that the bench is closed.
fn fails<S: Alter + Drop, H: Shelf + Drop>(
    rt: &(impl Abort + AllocGlobal),
    store: Connection<S>,
    shelf: H,
) {
    let mut bench = open(rt, store, FaultShelf::stop_from(shelf, 1));
    let mut broken = failing(REQUEST.as_bytes(), 60);
    serves(rt, &mut bench, &mut broken, Err(FrontFault::Read), "");
    serves(rt, &mut bench, &mut REQUEST.as_bytes(), Ok(500), FAILED);
    serves(rt, &mut bench, &mut REQUEST.as_bytes(), Ok(503), CLOSED);
    serves(rt, &mut bench, &mut STATUS.as_bytes(), Ok(503), CLOSED);
}

#[test]
fn a_fault_is_told_and_then_that_the_bench_is_closed(rt: HostRuntime) {
    fails(&rt, in_memory(&rt), images(&rt));
}
