//! Which images say that they are components of a mirror, and aren't registered as such. Nothing is
//! written.

ghost use Rattle.std.specs.Prelude.{◌≡◌, IfOk};
ghost use Rattle.std.specs.List.{filter_map};
ghost use Rattle.gm_shelf.specs.Keeping.{Looks};
ghost use Rattle.gm_unlike.specs.Claims.{AreClaims, claim_of, claims_in, is_component_of, named_mirror};

use gm_looks::taste_shelf;
use gm_metadata::{Label, Metadata};
use gm_shelf::{Shelf, ShelfFault};
use gm_state::{Mirror, State};
use gm_taste::{Member, Tasted};
use std::alloc::{AllocError, Global};

/// An image that carries the metadata of a registered mirror, and is no component of it.
#[derive(Clone, Copy, Debug, PartialEq, Eq)]
pub struct Claim {
    pub provider: Label,
    pub mirror: Label,
    /// Whether its genid is less than the mirror's: it was given up as lost, and the mirror went on
    /// without it.
    pub is_given_up: bool,
}

// The mirror that metadata name by name and number.
fn named_mirror(state: &State, metadata: &Metadata) -> Option<Mirror>
    ensures { result ≡ named_mirror state.now metadata.now }
{
    let mirror = state.mirror(metadata.name)?;
    if mirror.mid == metadata.mid {
        Some(mirror)
    } else {
        None
    }
}

// Whether the image of this name is a component of the mirror.
fn is_component_of(state: &State, provider: Label, mirror: Label) -> bool
    ensures { result ≡ is_component_of state.now provider mirror }
{
    match state.component(provider) {
        Some(component) => component.mirror == mirror,
        None => false,
    }
}

// What a member claims that it isn't, if it does.
fn claim_of(state: &State, member: &Member) -> Option<Claim>
    ensures { result ≡ claim_of state.now member.now }
{
    let provider = member.provider;
    let mirror = named_mirror(state, &member.metadata)?;
    if is_component_of(state, provider, mirror.name) {
        return None;
    }
    Some(Claim {
        provider,
        mirror: mirror.name,
        is_given_up: member.metadata.genid < mirror.genid,
    })
}

// What these members claim.
fn claims_of(alloc: Global, state: &State, members: &[Member]) -> Result<Vec<Claim>, AllocError>
    ensures { IfOk result (λ claims. claims.items
        ≡ filter_map (claim_of state.now) members.now) }
{
    members
        .iter()
        .filter_map(|member| claim_of(state, member))
        .collect(alloc)
}

// What all members claim that were tasted.
fn claims_in(alloc: Global, state: &State, tasted: &Tasted) -> Result<Vec<Claim>, AllocError>
    ensures { IfOk result (λ claims. claims.items ≡ claims_in state.now tasted.now) }
{
    let mut claims = Vec::new(alloc);
    for group in &tasted.groups {
        claims.extend_from_slice(&claims_of(alloc, state, &group.members)?)?;
    }
    Ok(claims)
}

/// The images that carry the metadata of a registered mirror, and are no components of it, as they
/// are tasted: by mirror and provider, in byte order. One whose metadata name another image or
/// another size carries none here. `Device` if a last sector can't be read, or `Memory`.
pub fn claims_shelf<H: Shelf>(
    alloc: Global,
    shelf: &mut H,
    state: &State,
) -> Result<Vec<Claim>, ShelfFault>
    ensures claims { H.honest shelf.old → IfOk result (λ claims.
        AreClaims state.now (H.size shelf.old) (H.view shelf.old).seen claims.items) }
    ensures looks { Looks H.Shelf shelf.old shelf.new result }
{
    let tasted = taste_shelf(alloc, shelf)?;
    Ok(claims_in(alloc, state, &tasted)?)
}
