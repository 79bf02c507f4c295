//! Whether a last sector can be what a stop left.

ghost use Rattle.std.specs.Prelude.{◌≡◌, Ok};
ghost use Rattle.std.specs.List.{list_any};
ghost use Rattle.std.specs.Str.{bytes_eq};
ghost use Rattle.gm_metadata.specs.Images.{same_label};
ghost use Rattle.gm_state.specs.Lookups.{at_component, mirror_of};
ghost use Rattle.gm_stopped.specs.Leavings.{filled_to, is_at_most_older, is_numbered, is_of_component, is_of_mirror, is_of_none, may_be_before_clear, may_be_cleared, may_be_component, may_be_left, may_be_target, may_be_written, says, says_but_losses, was_removed};

use crate::stopped::{Role, Stopped};
use gm_commands::Command;
use gm_metadata::{Label, Metadata, carries_metadata, decode, encode, same};
use gm_state::{Component, Disk, Mirror, State, bytes_of, metadata};
use gm_taste::{Provider, taken_by};

// Whether they say the mirror, as old as it is or older.
fn is_of_mirror(mirror: &Mirror, found: &Metadata) -> bool
    ensures { result ≡ is_of_mirror mirror.now found.now }
{
    found.name == mirror.name
        && found.mid == mirror.mid
        && found.mediasize == bytes_of(mirror.data_sectors)
        && found.genid <= mirror.genid
        && found.syncid <= mirror.syncid
}

// Whether they say the component of the mirror, as old as it is or older.
fn is_of_component(mirror: &Mirror, component: &Component, found: &Metadata) -> bool
    ensures { result ≡ is_of_component mirror.now component.now found.now }
{
    is_of_mirror(mirror, found) && found.did == component.did && found.syncid <= component.syncid
}

// Whether it is the component of a mirror by this number.
fn is_numbered(name: Label, did: u32, component: &Component) -> bool
    ensures { result ≡ is_numbered name did component.now }
{
    component.mirror == name && component.did == did
}

// Whether one of them is.
fn any_numbered(name: Label, did: u32, components: &[Component]) -> bool
    ensures { result ≡ list_any (is_numbered name did) components.now }
{
    components.iter().any(|k| is_numbered(name, did, k))
}

// Whether they say the mirror, and none of its components.
fn is_of_none(state: &State, mirror: &Mirror, found: &Metadata) -> bool
    ensures { result ≡ is_of_none state.now mirror.now found.now }
{
    is_of_mirror(mirror, found) && !any_numbered(mirror.name, found.did, state.components())
}

// Whether the provider's last sector says the component, and fits its name and its size.
fn says_component(mirror: &Mirror, component: &Component, provider: &Provider) -> bool
    ensures { result ≡ says (is_of_component mirror.now component.now) provider.now }
{
    match taken_by(provider) {
        Some(taken) => is_of_component(mirror, component, &taken.metadata),
        None => false,
    }
}

// Whether a component that is written to may be what was left.
fn may_be_written(
    stopped: &Stopped,
    mirror: &Mirror,
    component: &Component,
    provider: &Provider,
) -> bool
    ensures { result ≡ may_be_written stopped.now.command mirror.now component.now provider.now }
{
    says_component(mirror, component, provider)
        || stopped.takes_in(provider.name) && !carries_metadata(&provider.last)
}

// Whether the image was removed from the mirror of this name.
fn was_removed(state: &State, name: Label, provider: &Provider) -> bool
    ensures { result ≡ was_removed state.now (mirror_of state.now name) provider.now }
{
    let Some(mirror) = state.mirror(name) else {
        return false;
    };
    match taken_by(provider) {
        Some(taken) => is_of_none(state, &mirror, &taken.metadata),
        None => false,
    }
}

// Whether the image said that it was of the mirror of this name.
fn says_name(name: Label, provider: &Provider) -> bool
    ensures { result ≡ says (λ d. same_label d.name name) provider.now }
{
    match taken_by(provider) {
        Some(taken) => taken.metadata.name == name,
        None => false,
    }
}

// Whether the last sector is what the command found that is to wipe it.
fn may_be_before_clear(state: &State, stopped: &Stopped, provider: &Provider) -> bool
    ensures { result ≡ may_be_before_clear state.now stopped.now.command provider.now }
{
    match &stopped.command {
        Some(Command::Clear { provider: named }) => {
            *named == provider.name && carries_metadata(&provider.last)
        }
        Some(
            Command::Remove {
                name,
                provider: named,
            },
        ) => *named == provider.name && was_removed(state, *name, provider),
        Some(Command::Destroy { name }) => says_name(*name, provider),
        _ => false,
    }
}

// Whether an image that is to be wiped may be what was left.
fn may_be_cleared(state: &State, stopped: &Stopped, provider: &Provider) -> bool
    ensures { result ≡ may_be_cleared state.now stopped.now.command provider.now }
{
    is_same(&provider.last, &[0; 512]) || may_be_before_clear(state, stopped, provider)
}

// Whether two sectors are equal.
fn is_same(one: &[u8; 512], other: &[u8; 512]) -> bool
    ensures { result ≡ bytes_eq one.now other.now }
{
    same(one, other)
}

// Whether the sector, of which this was read, is full with these metadata, but for a genid that is
// less by so much at most.
fn is_at_most_older(
    registered: &Metadata,
    losses: usize,
    last: &[u8; 512],
    found: &Metadata,
) -> bool
    ensures { result ≡ is_at_most_older registered.now losses last.now (Ok found.now) }
{
    let older = Metadata {
        genid: found.genid,
        ..*registered
    };
    found.genid <= registered.genid
        && (registered.genid - found.genid) as usize <= losses
        && is_same(last, &encode(&older))
}

// Whether the sector is full with these metadata, but for a genid that is less by so much at most.
fn says_but_losses(registered: &Metadata, losses: usize, last: &[u8; 512]) -> bool
    ensures { result ≡ says_but_losses registered.now losses last.now }
{
    match decode(last) {
        Ok(found) => is_at_most_older(registered, losses, last, &found),
        Err(_) => false,
    }
}

// The component's metadata, as far as it was filled.
fn filled_to(mirror: &Mirror, component: &Component, forced: bool, first: u32) -> Metadata
    ensures { result ≡ filled_to mirror.now component.now forced first }
{
    let before = Component {
        disk: Disk::Copying {
            forced,
            held: first,
        },
        ..*component
    };
    metadata(mirror, &before)
}

// Whether a component that is filled may be what was left.
fn may_be_target(
    losses: usize,
    mirror: &Mirror,
    component: &Component,
    first: u32,
    last: &[u8; 512],
) -> bool
    ensures { result ≡ may_be_target losses mirror.now component.now first last.now }
{
    says_but_losses(&metadata(mirror, component), losses, last)
        || says_but_losses(&filled_to(mirror, component, false, first), losses, last)
        || says_but_losses(&filled_to(mirror, component, true, first), losses, last)
}

// Whether a component may be what was left, by how a pending write needs it.
fn may_be_component(
    stopped: &Stopped,
    role: Role,
    provider: &Provider,
    mirror: &Mirror,
    component: &Component,
) -> bool
    ensures { result
        ≡ may_be_component stopped.now role provider.now mirror.now component.now }
{
    let losses = stopped.losses;
    match role {
        Role::Written => may_be_written(stopped, mirror, component, provider),
        Role::Cleared => true,
        Role::Source => says_but_losses(&metadata(mirror, component), losses, &provider.last),
        Role::Target { first } => {
            may_be_target(losses, mirror, component, first, &provider.last)
        }
    }
}

// The component on a provider, and its mirror.
fn component_and_mirror(state: &State, provider: Label) -> Option<(Mirror, Component)>
    ensures { result ≡ at_component state.now provider (λ m k. (m, k)) }
{
    let component = state.component(provider)?;
    let mirror = state.mirror(component.mirror)?;
    Some((mirror, component))
}

/// Whether the last sector of a provider can be what a stop of this command left, by the records
/// that are registered since it was accepted. A provider that is written to or copied, and is no
/// component, isn't judged.
pub fn may_be_left(state: &State, stopped: &Stopped, role: Role, provider: &Provider) -> bool
    ensures { result ≡ may_be_left state.now stopped.now role provider.now }
{
    if role == Role::Cleared {
        return may_be_cleared(state, stopped, provider);
    }
    match component_and_mirror(state, provider.name) {
        Some((mirror, component)) => {
            may_be_component(stopped, role, provider, &mirror, &component)
        }
        None => true,
    }
}
