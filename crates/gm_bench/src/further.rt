//! Further keys of an advance: which of them may be taken, and what is planned under them.

ghost use Rattle.std.specs.Prelude.{◌≡◌, ◌≤◌, ◌<◌, IfOk, IsTrue, Some, length, map, string_bytes, take};
ghost use Rattle.std.specs.List.{list_any};
ghost use Rattle.std.specs.Str.{bytes_eq};
ghost use Rattle.gm_bench.specs.Asking.{LooksUp};
ghost use Rattle.gm_bench.specs.Judgements.{TakesFurther};
ghost use Rattle.gm_bench.specs.Keys.{AreReadUnderAll, IsFreeBeside, MayBeTaken};
ghost use Rattle.gm_bench.specs.Series.{CanGoOn, GoesOnUnder, HasRoomFor, HaveRoomFor, IsFurtherPlan, PutsComponents};
ghost use Rattle.gm_registry.specs.Replies.{AreWrittenUnder, count_of};

use crate::fault::BenchFault;
use crate::judgement::Judgement;
use crate::media::Media;
use crate::plan::{Planned, plan};
use gm_changes::Change;
use gm_commands::{Command, MAX_COMMANDS, is_key};
use gm_metadata::Label;
use gm_shelf::Shelf;
use gm_state::{Component, Intent, Mirror};
use sqlite::Alter;
use std::alloc::{AllocError, Global};

// Whether a provider has room for so many sectors.
fn has_room_for<H: Shelf>(shelf: &H, provider: Label, sectors: u32) -> bool
    ensures { IsTrue result → HasRoomFor (H.size shelf.now provider) sectors }
{
    match shelf.sectors(provider) {
        Some(all) => u64::from(sectors) <= all,
        None => false,
    }
}

// Whether the intents are a copy of no more than so many sectors between images that have room for
// these, and a write of metadata to one that is there.
fn have_room_for<H: Shelf>(shelf: &H, intents: &[Intent], sectors: u32) -> bool
    ensures { IsTrue result → HaveRoomFor (H.size shelf.now) sectors intents.now }
{
    match intents {
        [
            Intent::Copy {
                source,
                target,
                end,
                ..
            },
            Intent::Meta { provider },
        ] => {
            *end <= sectors
                && has_room_for(shelf, *source, sectors)
                && has_room_for(shelf, *target, sectors)
                && has_room_for(shelf, *provider, 1)
        }
        _ => false,
    }
}

// Whether a change does nothing to records but put components.
fn puts_components(change: &Change) -> bool
    ensures { IsTrue result → PutsComponents change.now }
{
    change.mirror().is_none()
        && change.gone_mirror().is_none()
        && change.gone_components().is_empty()
}

// Whether two components are the same.
fn are_same(component: &Component, other: &Component) -> bool
    ensures { IsTrue result → component.now ≡ other.now }
{
    component == other
}

// The mirror of an advance that can go on.
fn mirror_to_fill<H: Shelf>(shelf: &H, planned: &Planned, name: Label) -> Option<Mirror>
    ensures { (m : Mirror) → result ≡ Some m
        → CanGoOn (H.size shelf.now) planned.now.work.part planned.now.change m × (m.name ≡ name) }
{
    let part = &planned.work.part;
    let component = planned.change.unfilled()?;
    let there = part.component(component.provider)?;
    let mirror = part.mirror(name)?;
    if are_same(&there, &component)
        && component.mirror == name
        && puts_components(&planned.change)
        && have_room_for(shelf, planned.change.intents(), mirror.data_sectors)
    {
        Some(mirror)
    } else {
        None
    }
}

// An advance goes on under these keys, as long as data are to be copied.
fn go_on(
    alloc: Global,
    change: Change,
    mirror: &Mirror,
    keys: &[String],
) -> Result<Change, AllocError>
    ensures { IfOk result (GoesOnUnder mirror.now (map string_bytes keys.now) change) }
{
    let mut change = change;
    for key in keys {
        let Some(component) = change.unfilled() else {
            break;
        };
        let key = String::from_str(alloc, key)?;
        change.stretch(alloc, mirror, component, key)?;
    }
    Ok(change)
}

// What is planned of an advance with its next stretches, under these keys.
fn plan_further(
    alloc: Global,
    planned: Planned,
    mirror: &Mirror,
    keys: &[String],
) -> Result<Planned, BenchFault>
    ensures { IsFurtherPlan planned mirror.now (map string_bytes keys.now) result }
{
    let Planned { change, work } = planned;
    match go_on(alloc, change, mirror, keys) {
        Ok(change) => plan(alloc, &work.part, change),
        Err(_) => Err(BenchFault::Memory),
    }
}

// Whether a key is one of those that are taken.
fn is_among(key: &str, taken: &[String]) -> bool
    ensures { result ≡ list_any (λ other. bytes_eq (string_bytes other) key.now) taken.now }
{
    taken.iter().any(|other| other.as_str() == key)
}

impl<S: Alter, H: Shelf> Media<S, H> {
    // Whether a key may be taken after the first and some others.
    fn may_take(&mut self, key: &str, first: &str, taken: &[String]) -> Result<bool, BenchFault>
        ensures { LooksUp S.Store self.old self.new result
            (IsFreeBeside key.now first.now (map string_bytes taken.now))
            (AreWrittenUnder key.now) }
    {
        if !is_key(key) || key == first || is_among(key, taken) {
            return Ok(false);
        }
        match self.registry.reply_of(key) {
            Ok(found) => Ok(found.is_none()),
            Err(fault) => Err(BenchFault::of_store(fault)),
        }
    }

    // How many of the keys may be taken in turn, after the first.
    fn count_free(&mut self, first: &str, keys: &[String]) -> Result<usize, BenchFault>
        ensures few { IfOk result (λ n. n ≤ length keys.now) }
        ensures looks { LooksUp S.Store self.old self.new result
            (λ n t. count_of t < 100000
            → MayBeTaken first.now (take n (map string_bytes keys.now)) t)
            (AreReadUnderAll (map string_bytes keys.now)) }
    {
        let accepted = self.accepted()?;
        let room = u64::from(MAX_COMMANDS - 1).saturating_sub(accepted);
        let mut free = 0;
        for key in keys {
            if free as u64 >= room {
                break;
            }
            if !self.may_take(key, first, &keys[..free])? {
                break;
            }
            free += 1;
        }
        Ok(free)
    }

    // The same for a command that can be accepted under its first key.
    fn plan_more(
        &mut self,
        alloc: Global,
        words: String,
        planned: Planned,
        key: &str,
        more: &[String],
        command: &Command,
    ) -> Result<Judgement, BenchFault>
        ensures { TakesFurther S.Store H.Shelf self.old self.new result
            (Judgement.New words planned) key.now (map string_bytes more.now) command.now }
    {
        if more.is_empty() {
            return Ok(Judgement::New { words, planned });
        }
        let Command::Advance { name, provider: _ } = *command else {
            return Ok(Judgement::New { words, planned });
        };
        let Some(mirror) = mirror_to_fill(&self.shelf, &planned, name) else {
            return Ok(Judgement::New { words, planned });
        };
        let free = self.count_free(key, more)?;
        let planned = plan_further(alloc, planned, &mirror, &more[..free])?;
        Ok(Judgement::New { words, planned })
    }

    /// Takes a judgement further: under as many more keys, in turn, as may be taken, while the
    /// command is an advance with data to be copied. It only reads both media.
    pub(crate) fn take_further(
        &mut self,
        alloc: Global,
        judgement: Judgement,
        key: &str,
        more: &[String],
        command: &Command,
    ) -> Result<Judgement, BenchFault>
        ensures { TakesFurther S.Store H.Shelf self.old self.new result judgement key.now
            (map string_bytes more.now) command.now }
    {
        match judgement {
            Judgement::New { words, planned } => {
                self.plan_more(alloc, words, planned, key, more, command)
            }
            Judgement::Repeated(number, reply) => Ok(Judgement::Repeated(number, reply)),
            Judgement::Refused(why) => Ok(Judgement::Refused(why)),
        }
    }
}
