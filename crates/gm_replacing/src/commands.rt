//! The commands of a replacement, each under a key that follows from its first.

ghost use Rattle.std.specs.Prelude.{◌≡◌, OnOk};
ghost use Rattle.gm_bench.specs.Benches.{progress_of};
ghost use Rattle.gm_bench.specs.Phases.{TakesCommands};

use crate::stopped::Stopped;
use gm_bench::Bench;
use gm_by_itself::{following_key, hand_in_by_itself};
use gm_command_line::{Form, Replacing, Single, Unnumbered};
use gm_metadata::Label;
use gm_process::{Status, Streams};
use gm_shelf::Shelf;
use gm_ways::{Act, Exchange};
use sqlite::Alter;
use std::alloc::{AllocError, Global};
use std::io::{BufRead, Write};

/// Which image takes which one's place.
pub(crate) fn exchange_of(replacing: &Replacing<'_>) -> Exchange
    ensures mirror { result.mirror ≡ replacing.now.mirror }
    ensures old { result.old ≡ replacing.now.old }
    ensures new { result.new ≡ replacing.now.new }
{
    Exchange {
        mirror: replacing.mirror,
        old: replacing.old,
        new: replacing.new,
    }
}

/// The words of a command about a mirror, and perhaps an image, with the number of a new component
/// if it is given.
pub(crate) fn words_of<'a>(
    alloc: Global,
    act: Act,
    did: &'a Option<String>,
    mirror: &'a Label,
    image: &'a Option<Label>,
) -> Result<Vec<&'a str>, AllocError> {
    let mut words = Vec::new(alloc);
    words.push(act.name())?;
    if let Some(did) = did {
        let number = did.as_str();
        words.push("--did")?;
        words.push(number)?;
    }
    words.push("--")?;
    words.push(mirror.as_str())?;
    if let Some(image) = image {
        words.push(image.as_str())?;
    }
    Ok(words)
}

/// Hands in a command under the key of this number, which follows from the first, and prints its
/// answer.
pub(crate) fn hand_in_step<S: Alter, H: Shelf, I: BufRead, O: Write, E: Write>(
    rt: &HostRuntime,
    replacing: &Replacing<'_>,
    first: &str,
    act: Act,
    number: usize,
    bench: &mut Bench<S, H>,
    streams: &mut Streams<'_, I, O, E>,
) -> Result<(), Stopped>
    requires { TakesCommands (progress_of bench.old) }
    ensures { OnOk result (TakesCommands (progress_of bench.new)) }
{
    let alloc = rt.alloc();
    let key = following_key(alloc, first, number)?;
    let mirror = replacing.mirror;
    let image = act.image(&exchange_of(replacing));
    let did = None;
    let words = words_of(alloc, act, &did, &mirror, &image)?;
    let single = Single {
        key: Some(key.as_str()),
        words: &words,
        unnumbered: Unnumbered {
            mirror: false,
            component: act == Act::Insert,
        },
        checks: replacing.checks,
        form: Form::Text,
    };
    match hand_in_by_itself(rt, single, bench, streams)? {
        Status::Done => Ok(()),
        _ => Err(Stopped::Refused),
    }
}
