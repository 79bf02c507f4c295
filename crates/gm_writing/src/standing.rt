//! Which of the commands were accepted before.

ghost use Rattle.std.specs.Prelude.{◌≡◌, OnOk};
ghost use Rattle.gm_bench.specs.Benches.{progress_of};

use crate::patches::Patches;
use gm_bench::Bench;
use gm_faults::Fault;
use gm_shelf::Shelf;
use sqlite::Alter;
use std::alloc::Global;

/// How the commands stand in the registry.
#[derive(Clone, Copy)]
pub(crate) struct Standing {
    /// The first that isn't accepted yet, counted from 0; if all are, as many as they are.
    pub(crate) first_new: usize,
    /// How many aren't accepted yet.
    pub(crate) new: u64,
    /// The first under whose key another command was accepted, counted from 0.
    pub(crate) other: Option<usize>,
}

// How one of them stands.
#[derive(Clone, Copy, PartialEq, Eq)]
enum One {
    New,
    Accepted,
    Other,
}

fn one_of<S: Alter, H: Shelf>(
    alloc: Global,
    patches: &Patches<'_>,
    index: usize,
    bench: &mut Bench<S, H>,
) -> Result<One, Fault>
    ensures { OnOk result (progress_of bench.new ≡ progress_of bench.old) }
{
    let key = patches.key(alloc, index)?;
    let Some(kept) = bench.kept(key.as_str())? else {
        return Ok(One::New);
    };
    let words = patches.kept_words(alloc, index)?;
    if kept.words.as_str() == words.as_str() {
        Ok(One::Accepted)
    } else {
        Ok(One::Other)
    }
}

/// How the commands stand in the registry. Nothing after one whose key has another command is
/// looked at.
pub(crate) fn standing_of<S: Alter, H: Shelf>(
    alloc: Global,
    patches: &Patches<'_>,
    bench: &mut Bench<S, H>,
) -> Result<Standing, Fault>
    ensures { OnOk result (progress_of bench.new ≡ progress_of bench.old) }
{
    let count = patches.count();
    let mut standing = Standing {
        first_new: count,
        new: 0,
        other: None,
    };
    for index in 0..count {
        match one_of(alloc, patches, index, bench)? {
            One::Accepted => {}
            One::New => {
                standing.first_new = standing.first_new.min(index);
                standing.new = standing.new.saturating_add(1);
            }
            One::Other => {
                standing.other = Some(index);
                return Ok(standing);
            }
        }
    }
    Ok(standing)
}
