//! What a last sector says of a component, or of mirrors.

ghost use Rattle.std.specs.Prelude.{◌≡◌};
ghost use Rattle.gm_looks.specs.Standings.{belies, is_newer, is_older, said, said_of_mirrors, says, unreadable};

use crate::standing::Standing;
use gm_metadata::{DecodeFault, Metadata, decode};
use gm_state::Mirror;

// Whether these metadata say a greater genid or syncid than are registered.
fn is_newer(registered: &Metadata, found: &Metadata) -> bool
    ensures { result ≡ is_newer registered.now found.now }
{
    registered.genid < found.genid || registered.syncid < found.syncid
}

// Whether they say a lesser one.
fn is_older(registered: &Metadata, found: &Metadata) -> bool
    ensures { result ≡ is_older registered.now found.now }
{
    found.genid < registered.genid || found.syncid < registered.syncid
}

// How metadata stand to others that are registered.
fn says(registered: &Metadata, found: &Metadata) -> Standing
    ensures { result ≡ says registered.now found.now }
{
    if found.name != registered.name || found.mid != registered.mid {
        Standing::AnotherMirror
    } else if found.did != registered.did {
        Standing::AnotherComponent
    } else if is_newer(registered, found) {
        Standing::Newer
    } else if is_older(registered, found) {
        Standing::Older
    } else {
        Standing::Member
    }
}

// How a sector stands that isn't readable as metadata.
fn unreadable(fault: DecodeFault) -> Standing
    ensures { result ≡ unreadable fault }
{
    match fault {
        DecodeFault::Magic => Standing::NoMetadata,
        _ => Standing::Damaged,
    }
}

/// What a sector says that isn't the encoding of the registered metadata.
pub(crate) fn said(registered: &Metadata, sector: &[u8; 512]) -> Standing
    ensures { result ≡ said registered.now sector.now }
{
    match decode(sector) {
        Ok(found) => says(registered, &found),
        Err(fault) => unreadable(fault),
    }
}

// Whether they say the name of one of the mirrors, and another mid.
fn belies(mirrors: &[Mirror], found: &Metadata) -> bool
    ensures { result ≡ belies mirrors.now found.now }
{
    mirrors.iter().any(|mirror| found.name == mirror.name && found.mid != mirror.mid)
}

/// What a sector says of mirrors.
pub(crate) fn said_of_mirrors(mirrors: &[Mirror], sector: &[u8; 512]) -> Standing
    ensures { result ≡ said_of_mirrors mirrors.now sector.now }
{
    match decode(sector) {
        Ok(found) if belies(mirrors, &found) => Standing::AnotherMirror,
        Ok(_) => Standing::Member,
        Err(fault) => unreadable(fault),
    }
}
