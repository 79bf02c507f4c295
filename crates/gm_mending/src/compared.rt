//! Compares the image of a component with its mirror's source.

ghost use Rattle.std.specs.Prelude.{◌↔◌, IfOk, IsTrue};
ghost use Rattle.gm_shelf.specs.Keeping.{Looks};
ghost use Rattle.gm_apply.specs.Failing.{HasFewer};
ghost use Rattle.gm_mending.specs.Compared.{IsFound, IsFoundWith};

use crate::owed::Owed;
use gm_apply::{Watch, differing_sectors};
use gm_metadata::Label;
use gm_shelf::{Shelf, ShelfFault};

/// What a comparison found.
#[derive(Clone, Copy, Debug, PartialEq, Eq)]
pub enum Compared {
    /// The image has all data that are owed.
    Equal,
    /// So many of these sectors aren't those of the source, of which that is the first.
    Differs {
        source: Label,
        sectors: u64,
        first: u64,
    },
    /// The source, or the image, hasn't as many sectors as are owed.
    Short {
        source: Label,
    },
    /// There is nothing to compare it with.
    Alone,
}

// Whether an image has fewer sectors, or isn't there.
fn has_fewer<H: Shelf>(shelf: &H, image: Label, sectors: u64) -> bool
    ensures { IsTrue result ↔ HasFewer sectors image (H.size shelf.now) }
{
    shelf.sectors(image).unwrap_or(0) < sectors
}

// What is found of so many first sectors beside those of the source.
fn compare_with<H: Shelf, W: Watch>(
    shelf: &mut H,
    source: Label,
    sectors: u64,
    image: Label,
    watch: &mut W,
) -> Result<Compared, ShelfFault>
    ensures found { H.honest shelf.old → IfOk result (IsFoundWith (H.size shelf.old)
        (H.view shelf.old).seen image source sectors) }
    ensures looks { Looks H.Shelf shelf.old shelf.new result }
{
    if has_fewer(shelf, source, sectors) || has_fewer(shelf, image, sectors) {
        return Ok(Compared::Short { source });
    }
    let found = differing_sectors(shelf, source, image, sectors, watch)?;
    if found.first < sectors {
        return Ok(Compared::Differs {
            source,
            sectors: found.sectors,
            first: found.first,
        });
    }
    Ok(Compared::Equal)
}

/// Compares what is owed of an image. The watch is told how far it is. `Device` if a sector can't
/// be read.
pub fn compare<H: Shelf, W: Watch>(
    shelf: &mut H,
    owed: Owed,
    image: Label,
    watch: &mut W,
) -> Result<Compared, ShelfFault>
    ensures found { H.honest shelf.old → IfOk result (IsFound (H.size shelf.old)
        (H.view shelf.old).seen image owed) }
    ensures looks { Looks H.Shelf shelf.old shelf.new result }
{
    match owed {
        Owed::Nothing => Ok(Compared::Equal),
        Owed::Alone => Ok(Compared::Alone),
        Owed::With { source, sectors } => {
            compare_with(shelf, source, u64::from(sectors), image, watch)
        }
    }
}
