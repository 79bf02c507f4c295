//! What a command has to know of the shelf.

ghost use Rattle.std.specs.Prelude.{◌≡◌, ℕ, List, Some, None, IfOk, IfSome, MatchOption};
ghost use Rattle.gm_shelf.specs.LastSector.{last_of};
ghost use Rattle.gm_lists.specs.Ordered.{Has};
ghost use Rattle.gm_bench.specs.ShelfFacts.{AreEqual, Tell, TellSizes, IsFact};
ghost use Rattle.gm_bench.specs.Calls.{Looks};

use crate::adopt_scope::Compared;
use crate::fault::BenchFault;
use gm_apply::{Watch, equal_sectors};
use gm_metadata::Label;
use gm_refusals::{Fact, Facts};
use gm_shelf::{Shelf, read_last};
use std::alloc::Global;

// The last sector of a provider that has so many; zeros if it has none.
fn last_of<H: Shelf>(shelf: &mut H, provider: Label, sectors: u64) -> Result<[u8; 512], BenchFault>
    ensures bytes { H.honest shelf.old → H.size shelf.old provider ≡ Some sectors
        → IfOk result (λ last. last ≡ last_of sectors ((H.view shelf.old).seen provider)) }
    ensures looks { Looks H.Shelf shelf.old shelf.new result }
{
    let last = read_last(shelf, provider)?;
    Ok(last.unwrap_or([0; 512]))
}

// How many first sectors of the provider are equal to those that it is compared with.
fn equal_of<H: Shelf, W: Watch>(
    shelf: &mut H,
    against: Option<Compared>,
    provider: Label,
    watch: &mut W,
) -> Result<u64, BenchFault>
    ensures equal { H.honest shelf.old → IfOk result
        (AreEqual (H.size shelf.old) (H.view shelf.old).seen against provider) }
    ensures looks { Looks H.Shelf shelf.old shelf.new result }
{
    match against {
        None => Ok(0),
        Some(with) => match equal_sectors(shelf, with.source, provider, with.limit, watch) {
            Ok(sectors) => Ok(sectors),
            Err(fault) => Err(BenchFault::of_shelf(fault)),
        },
    }
}

// What the shelf says of a provider that has so many sectors.
fn fact_there<H: Shelf, W: Watch>(
    shelf: &mut H,
    against: Option<Compared>,
    provider: Label,
    sectors: u64,
    watch: &mut W,
) -> Result<Fact, BenchFault>
    ensures fact { H.honest shelf.old → H.size shelf.old provider ≡ Some sectors
        → IfOk result (λ f. IsFact (H.size shelf.old) (H.view shelf.old).seen against f
        × (f.provider ≡ provider)) }
    ensures named { IfOk result (λ f. (f.provider ≡ provider) × (f.sectors ≡ sectors)) }
    ensures looks { Looks H.Shelf shelf.old shelf.new result }
{
    let last = last_of(shelf, provider, sectors)?;
    let equal = equal_of(shelf, against, provider, watch)?;
    Ok(Fact {
        provider,
        sectors,
        last,
        equal,
    })
}

/// What the shelf says of a provider, and how far it is equal to what it is compared with; `None`
/// if it is absent. The watch is told how far that is.
pub(crate) fn fact_of<H: Shelf, W: Watch>(
    shelf: &mut H,
    against: Option<Compared>,
    provider: Label,
    watch: &mut W,
) -> Result<Option<Fact>, BenchFault>
    ensures fact { H.honest shelf.old → IfOk result (λ found. MatchOption found
        (H.size shelf.old provider ≡ None)
        (λ f. IsFact (H.size shelf.old) (H.view shelf.old).seen against f
        × (f.provider ≡ provider))) }
    ensures size { IfOk result (λ found. IfSome found
        (λ f. (f.provider ≡ provider) × (H.size shelf.old provider ≡ Some f.sectors))) }
    ensures looks { Looks H.Shelf shelf.old shelf.new result }
{
    match shelf.sectors(provider) {
        None => Ok(None),
        Some(sectors) => {
            let fact = fact_there(shelf, against, provider, sectors, watch)?;
            Ok(Some(fact))
        }
    }
}

/// What the shelf says of these providers.
pub(crate) fn facts_of<H: Shelf, W: Watch>(
    alloc: Global,
    shelf: &mut H,
    against: &Option<Compared>,
    names: &[Label],
    watch: &mut W,
) -> Result<Facts, BenchFault>
    ensures tell { H.honest shelf.old → IfOk result (λ facts. (q : List ℕ) → Has names.now q
        → Tell facts (H.size shelf.old) (H.view shelf.old).seen against.now q) }
    ensures sizes { IfOk result (λ facts. TellSizes facts (H.size shelf.old)) }
    ensures looks { Looks H.Shelf shelf.old shelf.new result }
{
    let mut entries = Vec::new(alloc);
    for name in names {
        match fact_of(shelf, *against, *name, watch)? {
            None => {}
            Some(fact) => match entries.push(fact) {
                Ok(()) => {}
                Err(_) => return Err(BenchFault::Memory),
            },
        }
    }
    Ok(Facts::new(entries))
}
