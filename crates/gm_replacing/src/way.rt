//! In which order an image takes another one's place, by the registry and the images.

ghost use Rattle.std.specs.Prelude.{◌≡◌, OnOk};
ghost use Rattle.gm_bench.specs.Benches.{progress_of};
ghost use Rattle.gm_replacing.specs.OldImages.{old_image_by};

use crate::commands::exchange_of;
use crate::filled::is_active_in;
use crate::sayings::{say_not_done, say_nothing_there};
use crate::stopped::Stopped;
use gm_bench::{Bench, BenchFault};
use gm_by_itself::following_key;
use gm_command_line::Replacing;
use gm_commands::Command;
use gm_looks::{Standing, Unlike};
use gm_metadata::Label;
use gm_process::Streams;
use gm_shelf::Shelf;
use gm_state::State;
use gm_unlike::standing_among;
use gm_ways::{Act, OldImage, Way, is_member, way_begun, way_by};
use sqlite::Alter;
use std::alloc::Global;
use std::io::Write;

/// A way, and whether it was begun before, under the keys that it has.
#[derive(Clone, Copy, Debug, PartialEq, Eq)]
pub(crate) struct Going {
    pub(crate) way: Way,
    pub(crate) is_begun: bool,
    /// How the old image stands, if the way goes by that and it isn't as it is registered.
    pub(crate) old: Option<Standing>,
}

// How the image of a component stands, if it isn't as it is registered.
fn standing_of<S: Alter, H: Shelf>(
    alloc: Global,
    bench: &mut Bench<S, H>,
    mirror: Label,
    image: Label,
) -> Result<Option<Standing>, BenchFault>
    ensures { OnOk result (progress_of bench.new ≡ progress_of bench.old) }
{
    let remove = Command::Remove {
        name: mirror,
        provider: image,
    };
    let unlike = bench.unlike(alloc, &remove)?;
    Ok(standing_among(&unlike, image))
}

// What is seen of the image that is taken out, by how it stands if it isn't as it is registered.
fn old_image_by(standing: Option<Standing>) -> OldImage
    ensures { result ≡ old_image_by standing }
{
    match standing {
        Some(Standing::Absent) => OldImage::Gone,
        Some(Standing::AnotherSize | Standing::Zero | Standing::NoMetadata | Standing::Damaged) =>
            OldImage::Ruined,
        _ => OldImage::There,
    }
}

// The way that is to be gone, as the mirror and the images are now; `None` if neither the old one
// nor the new one is in the mirror. The images are looked at only if the old one alone is.
fn way_now<S: Alter, H: Shelf>(
    alloc: Global,
    bench: &mut Bench<S, H>,
    state: &State,
    replacing: &Replacing<'_>,
) -> Result<Option<Going>, BenchFault>
    ensures { OnOk result (progress_of bench.new ≡ progress_of bench.old) }
{
    let mirror = replacing.mirror;
    let has_new = is_member(state, mirror, replacing.new);
    let old = if is_member(state, mirror, replacing.old) && !has_new {
        standing_of(alloc, bench, mirror, replacing.old)?
    } else {
        None
    };
    match way_by(state, &exchange_of(replacing), old_image_by(old)) {
        Some(way) => Ok(Some(Going {
            way,
            is_begun: false,
            old,
        })),
        None => Ok(None),
    }
}

// Whether the old image was removed under the second key: that ends a replacement by a new one that
// was in the mirror already.
fn is_removed_under<S: Alter, H: Shelf>(
    alloc: Global,
    replacing: &Replacing<'_>,
    first: &str,
    bench: &mut Bench<S, H>,
) -> Result<bool, Stopped>
    ensures { OnOk result (progress_of bench.new ≡ progress_of bench.old) }
{
    let key = following_key(alloc, first, 2)?;
    let Some(kept) = bench.kept(key.as_str())? else {
        return Ok(false);
    };
    Ok(Act::Remove.is_said_by(alloc, &exchange_of(replacing), 0, kept.words.as_str())?)
}

// The way of a mirror that has the new image, and not the old one. If the new one is ACTIVE, there
// is nothing to replace, unless that was done under these keys.
fn way_without_old<S: Alter, H: Shelf, I, O: Write, E: Write>(
    alloc: Global,
    replacing: &Replacing<'_>,
    first: &str,
    state: &State,
    bench: &mut Bench<S, H>,
    streams: &mut Streams<'_, I, O, E>,
) -> Result<Going, Stopped>
    ensures { OnOk result (progress_of bench.new ≡ progress_of bench.old) }
{
    if is_removed_under(alloc, replacing, first, bench)? {
        return Ok(Going {
            way: Way::Inserted,
            is_begun: true,
            old: None,
        });
    }
    if is_active_in(state, replacing.new) {
        let (mirror, old, new) = (replacing.mirror, replacing.old, replacing.new);
        let why = format!(in alloc;
            "{new} is ACTIVE in {mirror} already, and {old} isn't in it: nothing is replaced"
        )?;
        say_not_done(first, why.as_str(), streams)?;
        return Err(Stopped::Refused);
    }
    Ok(Going {
        way: Way::OnlyFill,
        is_begun: false,
        old: None,
    })
}

/// The way that was begun under the first key, or else the one that is to be gone now. If there is
/// none, it is said why.
pub(crate) fn way_of<S: Alter, H: Shelf, I, O: Write, E: Write>(
    alloc: Global,
    replacing: &Replacing<'_>,
    first: &str,
    bench: &mut Bench<S, H>,
    streams: &mut Streams<'_, I, O, E>,
) -> Result<Going, Stopped>
    ensures { OnOk result (progress_of bench.new ≡ progress_of bench.old) }
{
    if let Some(kept) = bench.kept(first)? {
        return Ok(Going {
            way: way_begun(kept.words.as_str()),
            is_begun: true,
            old: None,
        });
    }
    let state = bench.view(alloc)?;
    match way_now(alloc, bench, &state, replacing)? {
        Some(going) if going.way == Way::OnlyFill => {
            way_without_old(alloc, replacing, first, &state, bench, streams)
        }
        Some(going) => Ok(going),
        None => {
            say_nothing_there(alloc, replacing, &state, streams)?;
            Err(Stopped::Refused)
        }
    }
}
