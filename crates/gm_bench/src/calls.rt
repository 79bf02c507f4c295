//! Commands: handed in, carried out and settled, one call each or in one.

ghost use Rattle.gm_bench.specs.Benches.{progress_of};
ghost use Rattle.std.specs.Prelude.{map, string_bytes};
ghost use Rattle.gm_bench.specs.HandedIn.{AcceptsCommand, AcceptsSeries, RunsCommand};
ghost use Rattle.gm_bench.specs.Phases.{TakesCommands, TakesNext, HasWork, HasDone};
ghost use Rattle.gm_bench.specs.HandedIn.{CarriesOutWork, SettlesWork};

use crate::answer::{Answer, SeriesAnswer};
use crate::bench::Bench;
use crate::fault::BenchFault;
use crate::phase::{Phase, Progress};
use gm_apply::{Unwatched, Watch};
use gm_commands::Command;
use gm_shelf::Shelf;
use sqlite::Alter;
use std::alloc::Global;
use std::mem;

impl<S: Alter, H: Shelf> Bench<S, H> {
    /// Hands in a command under a key, in phase Ready or Applied. It reads the shelf, and writes
    /// the registry alone; what is done is then pending. In phase Applied the transaction that
    /// accepts it settles the last one too; if it is repeated or refused, nothing is written and
    /// that stays to be settled. `Closed` after an earlier fault, before anything is read or
    /// written; any other fault closes the bench.
    pub fn accept(
        &mut self,
        alloc: Global,
        key: &str,
        command: &Command,
    ) -> Result<Answer, BenchFault>
        requires { TakesNext (progress_of self.old) }
        ensures { AcceptsCommand S.Store H.Shelf self.old self.new result key.now command.now }
    {
        let answered = self.accept_keys(alloc, key, &[], command, &mut Unwatched)?;
        Ok(answered.answer)
    }

    /// The same, under as many of these further keys too, in turn, as it can be. The watch is told
    /// how far data are compared, which `adopt` does.
    pub(crate) fn accept_keys<W: Watch>(
        &mut self,
        alloc: Global,
        key: &str,
        more: &[String],
        command: &Command,
        watch: &mut W,
    ) -> Result<SeriesAnswer, BenchFault>
        requires { TakesNext (progress_of self.old) }
        ensures { AcceptsSeries S.Store H.Shelf self.old self.new result key.now
            (map string_bytes more.now) command.now }
    {
        let Some(waiting) = self.progress.waiting() else {
            return Err(BenchFault::Closed);
        };
        let before = mem::replace(&mut self.progress, Progress::Failed);
        let accepted = self
            .media
            .accept(alloc, waiting, key, more, command, watch)?;
        let (answer, progress) = accepted.tell(before);
        self.progress = progress;
        Ok(answer)
    }

    /// Carries out what is pending. It writes the shelf alone.
    pub fn apply(&mut self) -> Result<(), BenchFault>
        requires { HasWork (progress_of self.old) }
        ensures { CarriesOutWork S.Store H.Shelf self.old self.new result }
    {
        match mem::replace(&mut self.progress, Progress::Failed) {
            Progress::Pending(work) => {
                self.media.apply(&work.part, &work.intents, &work.bytes)?;
                self.progress = Progress::Applied(work);
                Ok(())
            }
            _ => Err(BenchFault::Closed),
        }
    }

    /// Forgets what was pending, once it is carried out. It writes the registry alone.
    pub fn settle(&mut self) -> Result<(), BenchFault>
        requires { HasDone (progress_of self.old) }
        ensures { SettlesWork S.Store H.Shelf self.old self.new result }
    {
        match mem::replace(&mut self.progress, Progress::Failed) {
            Progress::Applied(_) => {
                self.media.settle()?;
                self.progress = Progress::Ready;
                Ok(())
            }
            _ => Err(BenchFault::Closed),
        }
    }

    /// `accept`, `apply` and `settle` in turn. What was accepted before a fault is carried out by
    /// the next opening.
    pub fn run(&mut self, alloc: Global, key: &str, command: &Command) -> Result<Answer, BenchFault>
        requires { TakesCommands (progress_of self.old) }
        ensures { RunsCommand S.Store H.Shelf self.old self.new result key.now command.now }
    {
        self.run_watched(alloc, key, command, &mut Unwatched)
    }

    /// The same. The watch is told how far data are compared, which `adopt` does.
    pub fn run_watched<W: Watch>(
        &mut self,
        alloc: Global,
        key: &str,
        command: &Command,
        watch: &mut W,
    ) -> Result<Answer, BenchFault>
        requires { TakesCommands (progress_of self.old) }
        ensures { RunsCommand S.Store H.Shelf self.old self.new result key.now command.now }
    {
        let answer = self.hand_in_watched(alloc, key, command, watch)?;
        self.settle_waiting()?;
        Ok(answer)
    }
}
