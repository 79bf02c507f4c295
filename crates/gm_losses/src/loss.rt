//! The kinds of losses.

ghost use Rattle.std.specs.Prelude.{◌≡◌, IfOk};
ghost use Rattle.std.specs.Option.{option_to_list};

use gm_metadata::Label;
use std::alloc::{AllocError, Global};

/// What speaks against a command: something that it would take away for good.
#[derive(Clone, Copy, Debug, PartialEq, Eq)]
pub enum Loss {
    /// Of a `label`: the image's last sector isn't all zeros. The metadata are written over it.
    LastSector {
        provider: Label,
    },
    /// Of a `label` or an `insert`: the image begins as a database of SQLite.
    Database {
        provider: Label,
    },
    /// Of an `insert`: the image's first sector that isn't all zeros is at this place, counted from
    /// 0. The mirror's data are written over the image. Of a database that isn't told.
    Data {
        provider: Label,
        place: u64,
    },
    /// Of a `lost`: the image is there, and as it is registered.
    Intact {
        provider: Label,
    },
    /// Of an `adopt`: the data would be taken from an image that says DIRTY, and this one of the
    /// mirror, with the same genid, says none of DIRTY, SYNCHRONIZING and INACTIVE. It may be named
    /// too.
    Whole {
        provider: Label,
    },
    /// Of an `adopt`: this is another image of the mirror, which isn't named, isn't BROKEN, and
    /// isn't told as `Whole`. One that says DIRTY isn't told if one with its genid is whole.
    Left {
        provider: Label,
        /// Whether its genid is greater than that of each named image, or as great with a greater
        /// syncid.
        newer: bool,
    },
    /// Of an `adopt`: this image is named, would be ACTIVE by what the named images say, and isn't
    /// told as `Whole`; but its data aren't the source's. It would be filled anew.
    Differs {
        provider: Label,
        /// In how many sectors, of the mirror's data and up to the ends of both images.
        sectors: u64,
        /// The first of these, counted from 0.
        first: u64,
    },
    /// Of a `clear`: the image says that it is in a mirror of this name, and none of INACTIVE and
    /// SYNCHRONIZING, and isn't BROKEN beside a registered one of its name and mid.
    Member {
        provider: Label,
        mirror: Label,
    },
    /// Of a `remove` or a `deactivate`: of the ACTIVE components this one alone would stay, while
    /// others are STALE or SYNCHRONIZING.
    OnlyCopy {
        provider: Label,
    },
    /// Of a `destroy`: the mirror has so many components, more than one.
    Mirror {
        components: u64,
    },
}

/// The list of a loss, if there is one.
pub(crate) fn list_of(alloc: Global, lost: Option<Loss>) -> Result<Vec<Loss>, AllocError>
    ensures { IfOk result (λ list. list.items ≡ option_to_list lost) }
{
    let mut list = Vec::new(alloc);
    if let Some(loss) = lost {
        list.push(loss)?;
    }
    Ok(list)
}
