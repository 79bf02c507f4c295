//! Which images can be taken into a mirror.

ghost use Rattle.std.specs.Prelude.{◌≡◌, ◌<◌, Some, IfOk, IfSome, IsSomeAnd};
ghost use Rattle.gm_shelf.specs.Keeping.{Looks};
ghost use Rattle.gm_refusals.specs.Applies.{has_wrong_size};
ghost use Rattle.gm_losses.specs.FreeImages.{TellsFree, database_magic, is_blank, is_database};

use gm_metadata::{Label, carries_metadata, same};
use gm_shelf::{Shelf, ShelfFault, read_last};
use gm_state::{MAX_SECTORS, State};

const MIN_SECTORS: u64 = 2;

const DATABASE_MAGIC: [u8; 16] = *b"SQLite format 3\0";

/// An image that the rules let a mirror take, as far as it is looked at.
#[derive(Clone, Copy)]
pub(crate) struct FreeImage {
    pub(crate) sectors: u64,
    pub(crate) first: [u8; 512],
    pub(crate) last: [u8; 512],
}

/// Whether an image that begins with this sector begins as a database of SQLite.
#[tactic(auto, unfolding(crate::specs::FreeImages::database_magic))]
pub(crate) fn is_database(first: &[u8; 512]) -> bool
    ensures { result ≡ is_database first.now }
{
    &first[..16] == DATABASE_MAGIC.as_slice()
}

/// Whether a sector is all zeros.
pub(crate) fn is_blank(sector: &[u8; 512]) -> bool
    ensures { result ≡ is_blank sector.now }
{
    same(sector, &[0; 512])
}

/// Whether the rules refuse an image because it has so many sectors.
pub(crate) fn has_wrong_size(sectors: u64) -> bool
    ensures { result ≡ has_wrong_size sectors }
{
    sectors < MIN_SECTORS || sectors > u64::from(MAX_SECTORS)
}

// The first sector of an image that has one.
fn read_first<H: Shelf>(shelf: &mut H, provider: Label) -> Result<[u8; 512], ShelfFault>
    requires some { IsSomeAnd (H.size shelf.old provider) (λ n. 0 < n) }
    ensures first { H.honest shelf.old →
        IfOk result (λ x. x ≡ (H.view shelf.old).seen provider 0) }
    ensures looks { Looks H.Shelf shelf.old shelf.new result }
{
    let mut first = [0; 512];
    shelf.read(provider, 0, &mut first)?;
    Ok(first)
}

/// The image on a provider, if the rules let a mirror take it: it is there in a size that they let
/// pass, is no component, and carries no metadata. `Device` if one of its sectors can't be read.
pub(crate) fn free_image<H: Shelf>(
    shelf: &mut H,
    state: &State,
    provider: Label,
) -> Result<Option<FreeImage>, ShelfFault>
    ensures free { H.honest shelf.old → IfOk result (TellsFree state.now
        (H.size shelf.old) (H.view shelf.old).seen provider) }
    ensures size { IfOk result (λ found. IfSome found
        (λ image. H.size shelf.old provider ≡ Some image.sectors)) }
    ensures looks { Looks H.Shelf shelf.old shelf.new result }
{
    let Some(sectors) = shelf.sectors(provider) else {
        return Ok(None);
    };
    if has_wrong_size(sectors) || state.component(provider).is_some() {
        return Ok(None);
    }
    let Some(last) = read_last(shelf, provider)? else {
        return Ok(None);
    };
    if carries_metadata(&last) {
        return Ok(None);
    }
    let first = read_first(shelf, provider)?;
    Ok(Some(FreeImage {
        sectors,
        first,
        last,
    }))
}
