//! The last sector of a provider: read, and written so that it is old or new at every moment.

ghost use Rattle.std.specs.Prelude.{◌≡◌, ◌↔◌, ◌⊎◌, Some, None, IfOk};
ghost use Rattle.gm_metadata.specs.Reading.{encoded};
ghost use Rattle.gm_shelf.specs.LastSector.{WritesLast, last_sector};
ghost use Rattle.gm_shelf.specs.Keeping.{Looks};

use crate::fault::ShelfFault;
use crate::shelf::Shelf;
use gm_metadata::{Label, Metadata, encode};

/// The provider's last sector; `None` if the provider is absent or has no sectors.
pub fn read_last<H: Shelf>(shelf: &mut H, provider: Label) -> Result<Option<[u8; 512]>, ShelfFault>
    ensures last { H.honest shelf.old → IfOk result (λ found.
        found ≡ last_sector (H.size shelf.old) (H.view shelf.old).seen provider) }
    ensures there { IfOk result (λ found. found ≡ None
        ↔ (H.size shelf.old provider ≡ None) ⊎ (H.size shelf.old provider ≡ Some 0)) }
    ensures looks { Looks H.Shelf shelf.old shelf.new result }
{
    match shelf.sectors(provider) {
        Some(sectors) if 0 < sectors => {
            let mut last = [0; 512];
            shelf.read(provider, sectors - 1, &mut last)?;
            Ok(Some(last))
        }
        _ => Ok(None),
    }
}

/// Writes the provider's last sector, then syncs the provider. A provider without sectors answers
/// `Range`.
pub fn write_last<H: Shelf>(
    shelf: &mut H,
    provider: Label,
    sector: &[u8; 512],
) -> Result<(), ShelfFault>
    ensures { WritesLast H.Shelf shelf.old shelf.new result provider sector.now }
{
    let Some(count) = shelf.sectors(provider) else {
        return Err(ShelfFault::Absent);
    };
    if count == 0 {
        return Err(ShelfFault::Range);
    }
    shelf.write(provider, count - 1, sector)?;
    shelf.sync(provider)?;
    Ok(())
}

/// Writes the metadata as the provider's last sector, then syncs the provider.
pub fn write_meta<H: Shelf>(
    shelf: &mut H,
    provider: Label,
    metadata: &Metadata,
) -> Result<(), ShelfFault>
    ensures { WritesLast H.Shelf shelf.old shelf.new result provider (encoded metadata.now) }
{
    write_last(shelf, provider, &encode(metadata))
}
