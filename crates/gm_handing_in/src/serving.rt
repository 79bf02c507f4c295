//! The command `serve`, which answers requests over HTTP, one connection after the other.

ghost use Rattle.std.specs.Prelude.{◌≡◌, IfOk};
ghost use Rattle.gm_bench.specs.Benches.{progress_of};
ghost use Rattle.gm_bench.specs.Phases.{TakesCommands};
ghost use Rattle.gm_process.specs.declared.status.Status.TheVariants.{Done};

use crate::guard::Ground;
use crate::guarded_service::serve_weighed;
use gm_bench::{Bench, BenchFault};
use gm_command_line::Service;
use gm_connections::{Incoming, Log, Outgoing, Told, end};
use gm_faults::Fault;
use gm_front::{
    FrontFault, Response, Served, serve_request, serve_request_guarded, serve_request_unless_page,
};
use gm_http::Peer;
use gm_process::{Status, Streams};
use gm_shelf::Shelf;
use sqlite::Alter;
use std::alloc::Global;
use std::io::{self, ErrorKind, Read, Write};
use std::net::{Ipv4Addr, TcpListener, TcpStream};

// Whether a connection was gone before it could be taken.
fn is_gone(error: &io::Error) -> bool {
    matches!(
        error.kind(),
        ErrorKind::Interrupted
            | ErrorKind::ConnectionAborted
            | ErrorKind::ConnectionReset
            | ErrorKind::NetworkDown
            | ErrorKind::NetworkUnreachable
            | ErrorKind::HostUnreachable
    )
}

// What is logged of a response, if all of it was written.
fn told(response: Result<Response, FrontFault>) -> Option<Told> {
    match response {
        Ok(response) => Some(Told {
            status: response.status.code(),
            length: response.length,
        }),
        Err(_) => None,
    }
}

// Serves a request: one that a web page sent only if those of any origin are wanted, and a command
// only if no image stands in its way, if that is looked at, and nothing would be lost by it, if
// that is.
fn serve_from<R: Read, W: Write, S: Alter, H: Shelf>(
    ground: Ground<'_>,
    peer: &mut Peer<R>,
    outgoing: &mut W,
    service: Service,
    bench: &mut Bench<S, H>,
) -> Served
    requires { TakesCommands (progress_of bench.old) }
    ensures { TakesCommands (progress_of bench.new) }
{
    let alloc = ground.rt.alloc();
    let any_origin = service.any_origin;
    if service.guards {
        serve_weighed(ground, peer, outgoing, any_origin, bench)
    } else if service.audits {
        serve_request_guarded(alloc, peer, outgoing, any_origin, bench)
    } else if any_origin {
        serve_request(alloc, peer, outgoing, bench)
    } else {
        serve_request_unless_page(alloc, peer, outgoing, bench)
    }
}

// Serves a connection, and logs it if that is wanted. Whatever breaks of the connection itself
// ends it alone; answers why the bench failed, if it did.
fn serve_connection<S: Alter, H: Shelf, E: Write>(
    ground: Ground<'_>,
    stream: &TcpStream,
    service: Service,
    bench: &mut Bench<S, H>,
    log: &mut Log<'_, E>,
) -> Option<BenchFault>
    requires { TakesCommands (progress_of bench.old) }
    ensures { TakesCommands (progress_of bench.new) }
{
    let rt = ground.rt;
    let Ok(incoming) = Incoming::begin(rt, stream) else {
        return None;
    };
    let mut peer = Peer::new(incoming);
    let mut outgoing = Outgoing::new(rt, stream);
    let served = serve_from(ground, &mut peer, &mut outgoing, service, bench);
    if service.logs {
        log.tell(rt, peer.reader.beginning(), told(served.response));
    }
    if served.response.is_ok() {
        let _ = end(rt, stream);
    }
    served.fault
}

// Serves so many connections of a listener, one after the other, and logs each if that is wanted. A
// bench that fails ends it.
fn serve_connections<S: Alter, H: Shelf, E: Write>(
    ground: Ground<'_>,
    listener: &TcpListener,
    service: Service,
    bench: &mut Bench<S, H>,
    log: &mut Log<'_, E>,
) -> Result<Status, Fault>
    requires { TakesCommands (progress_of bench.old) }
    ensures { IfOk result (λ status. status ≡ Done) }
{
    let mut left = service.count;
    for taken in listener.incoming() {
        let stream = match taken {
            Ok(stream) => stream,
            Err(error) if is_gone(&error) => continue,
            Err(error) => return Err(Fault::from(error)),
        };
        if let Some(fault) = serve_connection(ground, &stream, service, bench, log) {
            return Err(Fault::Bench(fault));
        }
        left = left.saturating_sub(1);
        if left == 0 {
            break;
        }
    }
    Ok(Status::Done)
}

/// Listens on 127.0.0.1, says on which port, and serves what comes.
pub fn serve<S: Alter, H: Shelf, I: Read, O: Write, E: Write>(
    rt: &HostRuntime,
    service: Service,
    bench: &mut Bench<S, H>,
    streams: &mut Streams<'_, I, O, E>,
) -> Result<Status, Fault>
    requires { TakesCommands (progress_of bench.old) }
    ensures { IfOk result (λ status. status ≡ Done) }
{
    let listener = TcpListener::bind(rt, (Ipv4Addr::LOCALHOST, service.port))?;
    let port = listener.local_addr()?.port();
    writeln!(streams.output, "listening on 127.0.0.1:{port}")?;
    streams.output.flush()?;
    let folder = streams.explaining.folder.as_str();
    let mut log = Log::on_standard_error(&mut *streams.complaints);
    let ground = Ground { rt, folder };
    let served = serve_connections(ground, &listener, service, bench, &mut log);
    log.end(rt);
    served
}
