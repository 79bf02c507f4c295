//! The named images of a mirror that would be adopted whose data aren't those of its source.

ghost use Rattle.std.specs.Prelude.{◌≡◌, IfOk, filter};
ghost use Rattle.gm_shelf.specs.Keeping.{Looks};
ghost use Rattle.gm_apply.specs.EqualData.{reach_of};
ghost use Rattle.gm_refusals.specs.Adoptable.{data_of};
ghost use Rattle.gm_losses.specs.LeftAmong.{beside_first, beside_source, difference_as, differing_as, is_compared, is_named};

use crate::loss::Loss;
use crate::whole_images::{is_active_of, is_named, named_of};
use gm_apply::{Difference, Watch, differing_sectors};
use gm_metadata::Label;
use gm_refusals::data_of;
use gm_shelf::{Shelf, ShelfFault};
use gm_taste::Member;
use std::alloc::{AllocError, Global};

// How many sectors of a member are compared with those of a source.
fn reach_of<H: Shelf>(shelf: &H, source: &Member, member: &Member) -> u64
    ensures { result ≡ reach_of (H.size shelf.now) source.now.provider member.now.provider
        (data_of source.now.metadata) }
{
    let held = shelf.sectors(source.provider).unwrap_or(0);
    let room = shelf.sectors(member.provider).unwrap_or(0);
    data_of(&source.metadata).min(held.min(room))
}

// What is said of a difference, if there is one.
fn difference_as(provider: Label, found: Difference) -> Option<Loss>
    ensures { result ≡ difference_as provider found.sectors found.first }
{
    let Difference { sectors, first } = found;
    if sectors == 0 {
        return None;
    }
    Some(Loss::Differs {
        provider,
        sectors,
        first,
    })
}

// What is said of a member beside that source.
fn beside_source<H: Shelf, W: Watch>(
    shelf: &mut H,
    source: &Member,
    member: &Member,
    watch: &mut W,
) -> Result<Option<Loss>, ShelfFault>
    ensures told { H.honest shelf.old → IfOk result (λ found. found
        ≡ beside_source (H.size shelf.old) (H.view shelf.old).seen source.now member.now) }
    ensures looks { Looks H.Shelf shelf.old shelf.new result }
{
    if source.provider == member.provider {
        return Ok(None);
    }
    let sectors = reach_of(shelf, source, member);
    let found = differing_sectors(shelf, source.provider, member.provider, sectors, watch)?;
    Ok(difference_as(member.provider, found))
}

// What is said of a member beside the first of these sources.
fn beside_first<H: Shelf, W: Watch>(
    shelf: &mut H,
    sources: &[Member],
    member: &Member,
    watch: &mut W,
) -> Result<Option<Loss>, ShelfFault>
    ensures told { H.honest shelf.old → IfOk result (λ found. found
        ≡ beside_first (H.size shelf.old) (H.view shelf.old).seen sources.now member.now) }
    ensures looks { Looks H.Shelf shelf.old shelf.new result }
{
    match sources {
        [source, ..] => beside_source(shelf, source, member, watch),
        [] => Ok(None),
    }
}

// Whether a member is named, and of those that are it is ACTIVE.
fn is_compared(
    alloc: Global,
    members: &[Member],
    providers: &[Label],
    member: &Member,
) -> Result<bool, AllocError>
    ensures { IfOk result (λ is. is ≡ is_compared members.now providers.now member.now) }
{
    let named = named_of(alloc, members, providers)?;
    Ok(is_named(providers, member) && is_active_of(&named, member))
}

/// What is said of a member that is named and ACTIVE, if its data aren't those of the first of
/// these sources. The watch is told of each run of both. `Device` if a sector can't be read, or
/// `Memory`.
pub(crate) fn differing_as<H: Shelf, W: Watch>(
    alloc: Global,
    shelf: &mut H,
    members: &[Member],
    providers: &[Label],
    sources: &[Member],
    member: &Member,
    watch: &mut W,
) -> Result<Option<Loss>, ShelfFault>
    ensures told { H.honest shelf.old → IfOk result (λ found. found
        ≡ differing_as (H.size shelf.old) (H.view shelf.old).seen members.now providers.now
        sources.now member.now) }
    ensures looks { Looks H.Shelf shelf.old shelf.new result }
{
    if is_compared(alloc, members, providers, member)? {
        return beside_first(shelf, sources, member, watch);
    }
    Ok(None)
}
