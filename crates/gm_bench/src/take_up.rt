//! The opening of a bench.

ghost use Rattle.gm_bench.specs.CarryingOut.{FinishesFound, FinishesIntents, LoadsTables, TakesUp};

use crate::fault::BenchFault;
use crate::media::Media;
use crate::presence::first_absent;
use gm_rows::Loaded;
use gm_shelf::Shelf;
use gm_state::{Intent, State};
use sqlite::Alter;
use std::alloc::Global;

impl<S: Alter, H: Shelf> Media<S, H> {
    /// Carries out what is pending, and settles it.
    pub(crate) fn finish(
        &mut self,
        part: &State,
        intents: &[Intent],
        bytes: &[[u8; 512]],
    ) -> Result<(), BenchFault>
        ensures { FinishesIntents S.Store H.Shelf self.old self.new result part.now intents.now
            bytes.now }
    {
        self.apply(part, intents, bytes)?;
        self.settle()
    }

    /// All that the registry holds. It writes nothing.
    pub(crate) fn load(&mut self, alloc: Global) -> Result<Loaded, BenchFault>
        ensures { LoadsTables S.Store H.Shelf self.old self.new result }
    {
        match self.registry.load(alloc) {
            Ok(loaded) => Ok(loaded),
            Err(fault) => Err(BenchFault::of_store(fault)),
        }
    }

    /// Carries out what was loaded, if each image that it needs is there.
    pub(crate) fn check_and_finish(
        &mut self,
        state: &State,
        intents: &[Intent],
        bytes: &[[u8; 512]],
    ) -> Result<(), BenchFault>
        ensures { FinishesFound S.Store H.Shelf self.old self.new result state.now intents.now
            bytes.now }
    {
        match first_absent(&self.shelf, state, intents) {
            Some(provider) => Err(BenchFault::Absent(provider)),
            None => self.finish(state, intents, bytes),
        }
    }

    /// Carries out what an earlier run left pending, and answers how many intents it found.
    pub(crate) fn take_up(&mut self, alloc: Global) -> Result<u64, BenchFault>
        ensures { TakesUp S.Store H.Shelf self.old self.new result }
    {
        let loaded = self.load(alloc)?;
        self.check_and_finish(&loaded.state, &loaded.intents, &loaded.bytes)?;
        Ok(loaded.intents.len() as u64)
    }
}
