//! What a shelf shows of the images that steps are about.

ghost use Rattle.std.specs.Prelude.{◌≡◌, ℕ, List, map, None, Some, IfOk, MatchOption};
ghost use Rattle.gm_lists.specs.Ordered.{Has};
ghost use Rattle.gm_shelf.specs.Keeping.{Looks};
ghost use Rattle.gm_state.specs.Records.{provider};
ghost use Rattle.gm_ways.specs.Shown.{IsFact, Tell, names_of};

use crate::step::Exchange;
use gm_metadata::Label;
use gm_refusals::{Fact, Facts};
use gm_shelf::{Shelf, ShelfFault, read_last};
use gm_state::{Component, State};
use std::alloc::{AllocError, Global};

// The images of these components.
fn images_of(alloc: Global, components: &[Component]) -> Result<Vec<Label>, AllocError>
    ensures { IfOk result (λ names. names.items ≡ map provider components.now) }
{
    components.iter().map(|k| k.provider).collect(alloc)
}

/// The images that the steps are about: those of the mirror, and both.
pub fn names_of(alloc: Global, state: &State, exchange: &Exchange) -> Result<Vec<Label>, AllocError>
    ensures { IfOk result (λ names. names.items ≡ names_of state.now exchange.now) }
{
    let mut names = images_of(alloc, &state.members(alloc, exchange.mirror)?)?;
    names.push(exchange.old)?;
    names.push(exchange.new)?;
    Ok(names)
}

// What the shelf shows of an image; `None` if it isn't there.
fn fact_of<H: Shelf>(shelf: &mut H, provider: Label) -> Result<Option<Fact>, ShelfFault>
    ensures fact { H.honest shelf.old → IfOk result (λ found. MatchOption found
        (H.size shelf.old provider ≡ None)
        (λ f. IsFact (H.size shelf.old) (H.view shelf.old).seen f × (f.provider ≡ provider))) }
    ensures looks { Looks H.Shelf shelf.old shelf.new result }
{
    let Some(sectors) = shelf.sectors(provider) else {
        return Ok(None);
    };
    let last = read_last(shelf, provider)?.unwrap_or([0; 512]);
    Ok(Some(Fact {
        provider,
        sectors,
        last,
        equal: 0,
    }))
}

/// What the shelf shows of these images. `Device` if one of their last sectors can't be read, or
/// `Memory`.
pub fn facts_of<H: Shelf>(
    alloc: Global,
    shelf: &mut H,
    names: &[Label],
) -> Result<Facts, ShelfFault>
    ensures tell { H.honest shelf.old → IfOk result (λ facts. (q : List ℕ) → Has names.now q
        → Tell facts (H.size shelf.old) (H.view shelf.old).seen q) }
    ensures looks { Looks H.Shelf shelf.old shelf.new result }
{
    let mut entries = Vec::new(alloc);
    for name in names {
        match fact_of(shelf, *name)? {
            None => {}
            Some(fact) => entries.push(fact)?,
        }
    }
    Ok(Facts::new(entries))
}
