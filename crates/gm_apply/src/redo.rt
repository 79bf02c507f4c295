//! Carries out intents one after another.

ghost use Rattle.gm_apply.specs.Calls.{AppliesIntents, CarriesOut, WritesFound};

use crate::copy::copy_sectors;
use crate::patch::lay_sectors;
use gm_metadata::{Label, Metadata};
use gm_shelf::{Shelf, ShelfFault, write_last, write_meta};
use gm_state::{Intent, State, dirty_metadata_of, metadata_of};

// Writes the metadata that were found for the provider into its last sector, and nothing if none
// were found.
fn write_found<H: Shelf>(
    shelf: &mut H,
    provider: Label,
    found: Option<Metadata>,
) -> Result<(), ShelfFault>
    ensures { WritesFound H.Shelf shelf.old shelf.new result provider found }
{
    if let Some(metadata) = found {
        write_meta(shelf, provider, &metadata)?;
    }
    Ok(())
}

fn apply_one<H: Shelf>(
    shelf: &mut H,
    state: &State,
    intent: &Intent,
    bytes: &[[u8; 512]],
) -> Result<(), ShelfFault>
    ensures { CarriesOut H.Shelf shelf.old shelf.new result state.now bytes.now intent.now }
{
    match *intent {
        Intent::Meta { provider } => write_found(shelf, provider, metadata_of(state, provider))?,
        Intent::Clear { provider } => write_last(shelf, provider, &[0; 512])?,
        Intent::Copy {
            source,
            target,
            first,
            end,
        } => copy_sectors(shelf, source, target, u64::from(first), u64::from(end))?,
        Intent::Dirty { provider } => {
            write_found(shelf, provider, dirty_metadata_of(state, provider))?;
        }
        Intent::Patch {
            provider,
            first,
            end,
        } => lay_sectors(shelf, provider, u64::from(first), u64::from(end), bytes)?,
    }
    Ok(())
}

/// Carries out the intents in order. Each ends with a sync of the provider that it wrote. It takes
/// no memory of its own; a shelf may answer want of it.
///
/// It is meant for intents that are readable for the state, with the bytes that a `Patch` lays, and
/// none if there is no `Patch`. A `Meta` and a `Dirty` of a provider that is no component write
/// nothing, and a `Patch` no more than there are bytes.
pub fn apply<H: Shelf>(
    shelf: &mut H,
    state: &State,
    intents: &[Intent],
    bytes: &[[u8; 512]],
) -> Result<(), ShelfFault>
    ensures { AppliesIntents H.Shelf shelf.old shelf.new result state.now bytes.now intents.now }
{
    for intent in intents {
        apply_one(shelf, state, intent, bytes)?;
    }
    Ok(())
}
