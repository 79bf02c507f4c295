//! From which source components differ whose data aren't their mirror's, and which of them hold
//! equal data. Nothing is written.

ghost use Rattle.std.specs.Prelude.{◌≡◌, ◌↔◌, ℕ, List, Option, IfOk, IsTrue, map};
ghost use Rattle.gm_shelf.specs.Keeping.{Looks};
ghost use Rattle.gm_state.specs.Records.{IsState};
ghost use Rattle.gm_looks.specs.Scrubs.{IsScrub};
ghost use Rattle.gm_unlike.specs.Unequals.{AreUnequal, HoldSame, IsFirstLike, MayBeLike, by_itself, scrubbed, sectors_in};

use gm_apply::{Watch, equal_sectors};
use gm_looks::{Flaw, Scrubbed};
use gm_metadata::Label;
use gm_shelf::{Shelf, ShelfFault};
use gm_state::{State, source};
use std::alloc::Global;

/// A component whose data aren't its mirror's, as it is told of beside others.
#[derive(Clone, Copy, Debug, PartialEq, Eq)]
pub struct Unequal {
    pub provider: Label,
    pub mirror: Label,
    /// What is amiss of its data.
    pub flaw: Flaw,
    /// If its data differ: the source of its mirror, from whose they do.
    pub source: Label,
    /// If its data differ: the first component told of that holds equal data; it may be itself.
    pub like: Label,
}

// A component as it is told of if no other holds equal data.
fn by_itself(state: &State, found: &Scrubbed) -> Unequal
    ensures value { result ≡ by_itself state.now found.now }
    ensures state { IsState state.now }
{
    let provider = found.provider;
    Unequal {
        provider,
        mirror: state.component(provider).map_or(provider, |k| k.mirror),
        flaw: found.flaw,
        source: source(state, provider).unwrap_or(provider),
        like: provider,
    }
}

// How many data sectors a mirror has; none if there is no such mirror.
fn sectors_in(state: &State, mirror: Label) -> u64
    ensures { result ≡ sectors_in state.now mirror }
{
    state
        .mirror(mirror)
        .map_or(0, |m| u64::from(m.data_sectors))
}

// Whether one that is told of may hold the data of another: the first of those that hold its own,
// it differs from the same source in as many sectors, with the same first.
fn may_be_like(known: &Unequal, new: &Unequal) -> bool
    ensures { IsTrue result ↔ MayBeLike known.now new.now }
{
    known.like == known.provider
        && known.mirror == new.mirror
        && known.flaw == new.flaw
        && matches!(known.flaw, Flaw::Differs { .. })
}

// Whether two images have so many sectors, and these are equal.
fn hold_same<H: Shelf, W: Watch>(
    shelf: &mut H,
    one: Label,
    other: Label,
    sectors: u64,
    watch: &mut W,
) -> Result<bool, ShelfFault>
    ensures same { H.honest shelf.old → IfOk result (λ same. IsTrue same
        ↔ HoldSame (H.size shelf.old) (H.view shelf.old).seen sectors one other) }
    ensures looks { Looks H.Shelf shelf.old shelf.new result }
{
    let equal = equal_sectors(shelf, one, other, sectors, watch)?;
    Ok(equal == sectors)
}

// The first of these that holds the data of a new one, or that itself.
fn first_like<H: Shelf, W: Watch>(
    shelf: &mut H,
    list: &[Unequal],
    new: &Unequal,
    sectors: u64,
    watch: &mut W,
) -> Result<Label, ShelfFault>
    ensures like { H.honest shelf.old → IfOk result (IsFirstLike
        (HoldSame (H.size shelf.old) (H.view shelf.old).seen sectors) list.now new.now) }
    ensures looks { Looks H.Shelf shelf.old shelf.new result }
{
    for known in list {
        if !may_be_like(known, new) {
            continue;
        }
        let same = hold_same(shelf, known.provider, new.provider, sectors, watch)?;
        if same {
            return Ok(known.provider);
        }
    }
    Ok(new.provider)
}

/// These components in this order, each with the source of its mirror, and those whose data differ
/// with the first of them that holds equal data. Only those are compared that differ from their
/// source in as many sectors, with the same first; of these the watch is told how far it is.
/// `Device` if a sector can't be read, or `Memory`.
pub fn unequal_shelf<H: Shelf, W: Watch>(
    alloc: Global,
    shelf: &mut H,
    state: &State,
    flaws: &[Scrubbed],
    watch: &mut W,
) -> Result<Vec<Unequal>, ShelfFault>
    ensures flaws { IfOk result (λ list. map scrubbed list.items ≡ flaws.now) }
    ensures told { H.honest shelf.old → (asked : Option (List ℕ))
        → IsScrub state.now (H.size shelf.old) (H.view shelf.old).seen asked flaws.now
        → IfOk result (λ list. AreUnequal state.now (H.view shelf.old).seen list.items) }
    ensures looks { Looks H.Shelf shelf.old shelf.new result }
{
    let mut list = Vec::new(alloc);
    for found in flaws {
        let alone = by_itself(state, found);
        let sectors = sectors_in(state, alone.mirror);
        let like = first_like(shelf, &list, &alone, sectors, watch)?;
        list.push(Unequal { like, ..alone })?;
    }
    Ok(list)
}
