//! What the images of a shelf tell by themselves. Nothing is written.

ghost use Rattle.std.specs.Prelude.{IfOk};
ghost use Rattle.gm_shelf.specs.Keeping.{Looks};
ghost use Rattle.gm_looks.specs.Shown.{AreShown, IsTastedOn};

use gm_shelf::{Shelf, ShelfFault, read_last};
use gm_taste::{Provider, Tasted, taste};
use std::alloc::Global;

// The providers of a shelf, with their last sectors; zeros are those of one that has none.
fn providers_on<H: Shelf>(alloc: Global, shelf: &mut H) -> Result<Vec<Provider>, ShelfFault>
    ensures shown { H.honest shelf.old
        → IfOk result (λ ps. AreShown (H.size shelf.old) (H.view shelf.old).seen ps.items) }
    ensures looks { Looks H.Shelf shelf.old shelf.new result }
{
    let names = shelf.names()?;
    let mut providers = Vec::new(alloc);
    for name in &names {
        if let Some(sectors) = shelf.sectors(*name) {
            let last = read_last(shelf, *name)?.unwrap_or([0; 512]);
            providers.push(Provider {
                name: *name,
                sectors,
                last,
            })?;
        }
    }
    Ok(providers)
}

/// What the last sectors of a shelf's providers tell; zeros are the last sector of one that has
/// none. `Device` if one can't be read, or `Memory`.
pub fn taste_shelf<H: Shelf>(alloc: Global, shelf: &mut H) -> Result<Tasted, ShelfFault>
    ensures tasted { H.honest shelf.old
        → IfOk result (IsTastedOn (H.size shelf.old) (H.view shelf.old).seen) }
    ensures looks { Looks H.Shelf shelf.old shelf.new result }
{
    let providers = providers_on(alloc, shelf)?;
    Ok(taste(alloc, &providers)?)
}
