//! Commands that are handed in one after another: each settles the one before it.

ghost use Rattle.gm_bench.specs.Benches.{progress_of};
ghost use Rattle.std.specs.Prelude.{map, string_bytes};
ghost use Rattle.gm_commands.specs.declared.command.Command.TheVariants.{Advance};
ghost use Rattle.gm_bench.specs.HandedIn.{HandsInAdvances, HandsInCommand, HandsInSeries};
ghost use Rattle.gm_bench.specs.Phases.{TakesNext};
ghost use Rattle.gm_bench.specs.HandedIn.{SettlesLast};

use crate::answer::{Answer, SeriesAnswer};
use crate::bench::Bench;
use crate::fault::BenchFault;
use crate::phase::{Phase, Progress};
use gm_apply::{Unwatched, Watch};
use gm_commands::Command;
use gm_metadata::Label;
use gm_shelf::Shelf;
use sqlite::Alter;
use std::alloc::Global;

/// How many advances a series has at most.
pub const MAX_SERIES: usize = 64;

impl<S: Alter, H: Shelf> Bench<S, H> {
    /// `accept` and `apply` in turn, in phase Ready or Applied: what is done is then still to be
    /// settled, by the next command or by `settle_waiting`. What was accepted before a fault is
    /// carried out by the next opening.
    pub fn hand_in(
        &mut self,
        alloc: Global,
        key: &str,
        command: &Command,
    ) -> Result<Answer, BenchFault>
        requires { TakesNext (progress_of self.old) }
        ensures { HandsInCommand S.Store H.Shelf self.old self.new result key.now command.now }
    {
        self.hand_in_watched(alloc, key, command, &mut Unwatched)
    }

    /// The same. The watch is told how far data are compared, which `adopt` does.
    pub(crate) fn hand_in_watched<W: Watch>(
        &mut self,
        alloc: Global,
        key: &str,
        command: &Command,
        watch: &mut W,
    ) -> Result<Answer, BenchFault>
        requires { TakesNext (progress_of self.old) }
        ensures { HandsInCommand S.Store H.Shelf self.old self.new result key.now command.now }
    {
        let answered = self.hand_in_keys(alloc, key, &[], command, watch)?;
        Ok(answered.answer)
    }

    // The same, under as many of these further keys too, in turn, as it can be.
    fn hand_in_keys<W: Watch>(
        &mut self,
        alloc: Global,
        key: &str,
        more: &[String],
        command: &Command,
        watch: &mut W,
    ) -> Result<SeriesAnswer, BenchFault>
        requires { TakesNext (progress_of self.old) }
        ensures { HandsInSeries S.Store H.Shelf self.old self.new result key.now
            (map string_bytes more.now) command.now }
    {
        let answered = self.accept_keys(alloc, key, more, command, watch)?;
        match self.phase() {
            Phase::Pending => {
                self.apply()?;
                Ok(answered)
            }
            _ => Ok(answered),
        }
    }

    /// A series: the same advance under each of these keys in turn, in one commit, carried out by
    /// one copy. The first is answered as `hand_in` answers it. A later key that isn't one, or that
    /// is taken, ends the series before it; so do the stretch that fills the component, and the
    /// greatest number of commands. None if there is no key, or more than `MAX_SERIES`: then
    /// nothing is done.
    pub fn hand_in_series(
        &mut self,
        alloc: Global,
        keys: &[String],
        name: Label,
        provider: Label,
    ) -> Result<Option<SeriesAnswer>, BenchFault>
        requires { TakesNext (progress_of self.old) }
        ensures { HandsInAdvances S.Store H.Shelf self.old self.new result
            (map string_bytes keys.now) (Advance name provider) }
    {
        let Some((first, more)) = keys.split_first() else {
            return Ok(None);
        };
        if keys.len() > MAX_SERIES {
            return Ok(None);
        }
        let command = Command::Advance { name, provider };
        let answered = self.hand_in_keys(alloc, first, more, &command, &mut Unwatched)?;
        Ok(Some(answered))
    }

    /// Settles the last command if it is still to be settled. At rest it does nothing.
    pub fn settle_waiting(&mut self) -> Result<(), BenchFault>
        requires { TakesNext (progress_of self.old) }
        ensures { SettlesLast S.Store H.Shelf self.old self.new result }
    {
        match self.phase() {
            Phase::Ready => Ok(()),
            _ => self.settle(),
        }
    }
}
