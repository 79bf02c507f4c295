//! What a command has to know of the shelf whose providers are only counted.

ghost use Rattle.std.specs.Prelude.{◌≡◌, ℕ, List, Some, None, IfOk, MatchOption};
ghost use Rattle.gm_lists.specs.Ordered.{Has};
ghost use Rattle.gm_refusals.specs.Facts.{size_in};

use gm_metadata::Label;
use gm_refusals::{Fact, Facts};
use gm_shelf::Shelf;
use std::alloc::{AllocError, Global};

// How many sectors a provider has, as a fact; `None` if it is absent.
fn size_of<H: Shelf>(shelf: &H, provider: Label) -> Option<Fact>
    ensures { MatchOption result (H.size shelf.now provider ≡ None)
        (λ f. (f.provider ≡ provider) × (H.size shelf.now provider ≡ Some f.sectors)) }
{
    let sectors = shelf.sectors(provider)?;
    Some(Fact {
        provider,
        sectors,
        last: [0; 512],
        equal: 0,
    })
}

/// What the shelf says of the sizes of these providers. No sector is read: their last ones are
/// zeros.
pub(crate) fn sizes_of<H: Shelf>(
    alloc: Global,
    shelf: &H,
    names: &[Label],
) -> Result<Facts, AllocError>
    ensures { IfOk result (λ facts. (q : List ℕ) → Has names.now q
        → size_in facts q ≡ H.size shelf.now q) }
{
    let mut entries = Vec::new(alloc);
    for name in names {
        if let Some(fact) = size_of(shelf, *name) {
            entries.push(fact)?;
        }
    }
    Ok(Facts::new(entries))
}
