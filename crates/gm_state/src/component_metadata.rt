//! The metadata of a component, from the records alone. Nothing here takes memory.

ghost use Rattle.std.specs.Prelude.{◌≡◌};
ghost use Rattle.gm_metadata.specs.Sector.{IsMetadata};
ghost use Rattle.gm_state.specs.declared.records.Component.{Component};
ghost use Rattle.gm_state.specs.declared.records.Mirror.{Mirror};
ghost use Rattle.gm_state.specs.Intents.{IsOf};
ghost use Rattle.gm_state.specs.Records.{Records, IsState};
ghost use Rattle.gm_state.specs.Lookups.{metadata, metadata_of, with_dirty, dirty_metadata_of};

use crate::records::{Component, Mirror};
use crate::sizes::bytes_of;
use crate::state::State;
use gm_metadata::{DiskFlags, Label, Metadata};

/// What the last sector of a component of the mirror says.
pub fn metadata(mirror: &Mirror, component: &Component) -> Metadata
    ensures { result ≡ metadata mirror.now component.now }
{
    Metadata {
        name: mirror.name,
        mid: mirror.mid,
        did: component.did,
        all: mirror.all,
        genid: mirror.genid,
        syncid: component.syncid,
        priority: component.priority,
        slice: mirror.slice,
        balance: mirror.balance,
        mediasize: bytes_of(mirror.data_sectors),
        sync_offset: bytes_of(component.disk.held()),
        mflags: mirror.flags,
        dflags: component.disk.flags(),
        provider: component.hardcoded.then_some(component.provider),
        provsize: bytes_of(component.sectors),
    }
}

/// The metadata of a component, whole; `None` if the provider is no component.
pub fn metadata_of(state: &State, provider: Label) -> Option<Metadata>
    ensures value { result ≡ metadata_of state.now provider }
    ensures state { IsState state.now }
{
    let component = state.component(provider)?;
    let mirror = state.mirror(component.mirror)?;
    Some(metadata(&mirror, &component))
}

/// The metadata with DIRTY set beside their other flags.
fn with_dirty(metadata: &Metadata) -> Metadata
    ensures { result ≡ with_dirty metadata.now }
{
    Metadata {
        dflags: DiskFlags {
            dirty: true,
            ..metadata.dflags
        },
        ..*metadata
    }
}

/// The metadata of a component with DIRTY, which its last sector says while its data change; `None`
/// if the provider is no component.
pub fn dirty_metadata_of(state: &State, provider: Label) -> Option<Metadata>
    ensures value { result ≡ dirty_metadata_of state.now provider }
    ensures state { IsState state.now }
{
    let component = state.component(provider)?;
    let mirror = state.mirror(component.mirror)?;
    Some(with_dirty(&metadata(&mirror, &component)))
}

/// What the rules let a component's metadata be fits the fields of a sector.
pub fn metadata_fits()
    ensures { (s : Records) (m : Mirror) (k : Component) → IsState s → IsOf s m k
        → IsMetadata (metadata m k) }
{}
