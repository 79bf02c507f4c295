//! Whether a provider is taken, and with which state.

ghost use Rattle.std.specs.Prelude.{◌≡◌};
ghost use Rattle.gm_taste.specs.Verdicts.{own_name, own_size, verdict};
ghost use Rattle.gm_taste.specs.States.{behind, state_of};

use crate::provider::Provider;
use crate::tasted::{MemberState, Reason};
use gm_metadata::{Metadata, decode};

fn own_name(provider: &Provider, metadata: &Metadata) -> bool
    ensures { result ≡ own_name provider.now metadata.now }
{
    match metadata.provider {
        None => true,
        Some(name) => name == provider.name,
    }
}

fn own_size(provider: &Provider, metadata: &Metadata) -> bool
    ensures { result ≡ own_size provider.now metadata.now }
{
    let bytes = metadata.provsize;
    bytes == 0 || bytes % 512 == 0 && bytes / 512 == provider.sectors
}

// What a provider's last sector says, or why it is left out.
pub(crate) fn verdict(provider: &Provider) -> Result<Metadata, Reason>
    ensures { result ≡ verdict provider.now }
{
    let metadata = match decode(&provider.last) {
        Ok(metadata) => metadata,
        Err(fault) => return Err(Reason::Decode(fault)),
    };
    if !own_name(provider, &metadata) {
        return Err(Reason::OtherName);
    }
    if !own_size(provider, &metadata) {
        return Err(Reason::OtherSize);
    }
    Ok(metadata)
}

// The state of a member that lacks data from this offset on.
fn behind(metadata: &Metadata, offset: u64) -> MemberState
    ensures { result ≡ behind metadata.now offset }
{
    if metadata.mflags.no_autosync && !metadata.dflags.force_sync {
        MemberState::Stale(offset)
    } else {
        MemberState::Synchronizing(offset)
    }
}

// The state of a member of a group with this genid and syncid.
pub(crate) fn state_of(genid: u32, syncid: u32, metadata: &Metadata) -> MemberState
    ensures { result ≡ state_of genid syncid metadata.now }
{
    if metadata.dflags.inactive {
        return MemberState::Inactive;
    }
    if metadata.genid < genid {
        return MemberState::Broken;
    }
    if metadata.syncid < syncid {
        return behind(metadata, 0);
    }
    if metadata.dflags.synchronizing {
        return behind(metadata, metadata.sync_offset);
    }
    MemberState::Active
}
