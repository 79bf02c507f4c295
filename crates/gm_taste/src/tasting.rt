//! What the last sectors of providers tell.

ghost use Rattle.std.specs.Prelude.{◌≡◌, IfOk};
ghost use Rattle.std.specs.List.{filter_map};
ghost use Rattle.gm_taste.specs.Tasting.{taken_by, left_by};
ghost use Rattle.gm_taste.specs.Tasted.{IsTasted, DistinctNames};

use crate::groups::{Taken, groups_of};
use crate::member_states::verdict;
use crate::provider::Provider;
use crate::tasted::{LeftOut, Tasted};
use std::alloc::{AllocError, Global};

/// The provider if it is taken: its last sector decodes, and names this provider or none, and
/// its size or none.
pub fn taken_by(provider: &Provider) -> Option<Taken>
    ensures { result ≡ taken_by provider.now }
{
    match verdict(provider) {
        Ok(metadata) => Some(Taken {
            provider: provider.name,
            metadata,
        }),
        Err(_) => None,
    }
}

fn left_by(provider: &Provider) -> Option<LeftOut>
    ensures { result ≡ left_by provider.now }
{
    match verdict(provider) {
        Ok(_) => None,
        Err(reason) => Some(LeftOut {
            provider: provider.name,
            reason,
        }),
    }
}

fn taken_in(alloc: Global, providers: &[Provider]) -> Result<Vec<Taken>, AllocError>
    ensures { IfOk result (λ v. v.items ≡ filter_map taken_by providers.now) }
{
    providers.iter().filter_map(|p| taken_by(p)).collect(alloc)
}

fn left_in(alloc: Global, providers: &[Provider]) -> Result<Vec<LeftOut>, AllocError>
    ensures { IfOk result (λ v. v.items ≡ filter_map left_by providers.now) }
{
    providers.iter().filter_map(|p| left_by(p)).collect(alloc)
}

/// The mirrors that the last sectors of these providers tell of, and why providers tell of none. It
/// is the same for every order in which providers are handed in.
///
/// No two of them have one name: of others nothing is promised but that an answer comes.
pub fn taste(alloc: Global, providers: &[Provider]) -> Result<Tasted, AllocError>
    ensures { IfOk result (λ t. DistinctNames providers.now → IsTasted providers.now t) }
{
    let mut ordered = Vec::from_slice(alloc, providers)?;
    ordered.sort_unstable_by_key(|p| p.name);
    let taken = taken_in(alloc, &ordered)?;
    let left = left_in(alloc, &ordered)?;
    let groups = groups_of(alloc, taken)?;
    Ok(Tasted { groups, left })
}
