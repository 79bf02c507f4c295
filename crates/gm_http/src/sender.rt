//! Who sent a request, by the fields of its head.

ghost use Rattle.std.specs.Prelude.{◌≡◌, ◌↔◌, All, Any, IsTrue, length, map};
ghost use Rattle.std.specs.List.{list_all};
ghost use Rattle.std.specs.Net.Grammar.{IsIpv4Text, IsSocketText};
ghost use Rattle.std.specs.declared.net.ipv4_addr.Ipv4Addr.{Ipv4Addr};
ghost use Rattle.std.specs.declared.net.socket_addr.SocketAddr.{SocketAddr};
ghost use Rattle.httparse.specs.Spans.{IsHeaderWithin, header_bytes};
ghost use Rattle.gm_http.specs.Senders.{IsAddress, IsBracketed, IsForeign, SendsFields, TellsPage, is_plain};

use crate::fields::is_named;
use httparse::spans::HeaderSpan;
use std::net::{Ipv4Addr, Ipv6Addr, SocketAddr};

/// Who sent a request.
#[derive(Clone, Copy, Debug, PartialEq, Eq)]
pub enum Sender {
    /// A web page in a browser, or whoever asks for a host by a name with a dot, as a page does
    /// whose name was made one of this machine.
    Page,
    /// Any other.
    Program,
}

fn is_plain(byte: u8) -> bool
    ensures { result ≡ is_plain byte }
{
    byte.is_ascii_alphanumeric() || byte == b'-' || byte == b'_' || byte == b':'
}

fn all_plain(host: &[u8]) -> bool
    ensures { result ≡ list_all is_plain host.now }
{
    host.iter().all(|byte| is_plain(*byte))
}

// Whether this is an IPv6 address in brackets.
fn is_bracketed(host: &[u8]) -> bool
    ensures { IsTrue result ↔ IsBracketed host.now }
{
    let Some((b'[', rest)) = host.split_first() else {
        return false;
    };
    let Some((b']', inner)) = rest.split_last() else {
        return false;
    };
    Ipv6Addr::parse_ascii(inner).is_ok()
}

fn is_ipv4(host: &[u8]) -> bool
    ensures { IsTrue result ↔ ((a : Ipv4Addr) × IsIpv4Text host.now a) }
{
    Ipv4Addr::parse_ascii(host).is_ok()
}

fn has_port(host: &[u8]) -> bool
    ensures { IsTrue result ↔ ((a : SocketAddr) × IsSocketText host.now a) }
{
    SocketAddr::parse_ascii(host).is_ok()
}

// Whether this is an address, with a port or without.
fn is_address(host: &[u8]) -> bool
    ensures { IsTrue result ↔ IsAddress host.now }
{
    is_ipv4(host) || is_bracketed(host) || has_port(host)
}

fn is_foreign(host: &[u8]) -> bool
    ensures { IsTrue result ↔ IsForeign host.now }
{
    !all_plain(host) && !is_address(host)
}

// Whether a field is one that only a page's request has.
fn tells_page(name: &[u8], value: &[u8]) -> bool
    ensures { IsTrue result ↔ TellsPage (name.now, value.now) }
{
    is_named(name, b"origin")
        || is_named(name, b"sec-fetch-site") && value != b"none".as_slice()
        || is_named(name, b"host") && is_foreign(value)
}

/// Who sent a request with these fields.
pub(crate) fn sender_of(bytes: &[u8], headers: &[HeaderSpan]) -> Sender
    requires { All (IsHeaderWithin (length bytes.now)) headers.now }
    ensures { SendsFields (map (header_bytes bytes.now) headers.now) result }
{
    for header in headers {
        if tells_page(header.name.of(bytes), header.value.of(bytes)) {
            return Sender::Page;
        }
    }
    Sender::Program
}
