//! Lays bytes over sectors of a provider.

ghost use Rattle.gm_state.specs.declared.intents.Intent.TheVariants.{Patch};
ghost use Rattle.gm_apply.specs.Calls.{Fills, FillsSynced};

use crate::copy::write_stretch;
use gm_metadata::Label;
use gm_shelf::{Shelf, ShelfFault};

// Lays the bytes over the sectors first to end - 1, as far as there are any, and leaves them to be
// synced.
fn lay_run<H: Shelf>(
    shelf: &mut H,
    provider: Label,
    first: u64,
    end: u64,
    bytes: &[[u8; 512]],
) -> Result<(), ShelfFault>
    ensures { Fills H.Shelf shelf.old shelf.new result (Patch provider first end) bytes.now }
{
    if first < end {
        let sectors = (end - first).min(bytes.len() as u64);
        write_stretch(shelf, provider, first, &bytes[..sectors as usize])?;
    }
    Ok(())
}

/// Lays the bytes over the sectors first to end - 1 of the provider, as far as there are any, then
/// syncs the provider.
pub(crate) fn lay_sectors<H: Shelf>(
    shelf: &mut H,
    provider: Label,
    first: u64,
    end: u64,
    bytes: &[[u8; 512]],
) -> Result<(), ShelfFault>
    ensures { FillsSynced H.Shelf shelf.old shelf.new result (Patch provider first end) bytes.now }
{
    lay_run(shelf, provider, first, end, bytes)?;
    shelf.sync(provider)?;
    Ok(())
}
