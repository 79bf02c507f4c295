//! The two media of a bench, and what is written to them.

ghost use Rattle.gm_bench.specs.CarryingOut.{AppliesWork, SettlesIntents};

use crate::fault::BenchFault;
use gm_apply::apply;
use gm_registry::Registry;
use gm_shelf::Shelf;
use gm_state::{Intent, State};
use sqlite::Alter;

/// A registry, and the images that it keeps record of.
#[derive(Drop)]
pub(crate) struct Media<S: Alter, H> {
    pub(crate) registry: Registry<S>,
    pub(crate) shelf: H,
}

impl<S: Alter, H: Shelf> Media<S, H> {
    /// Carries out intents, with the sectors that they lay. It writes the shelf alone.
    pub(crate) fn apply(
        &mut self,
        part: &State,
        intents: &[Intent],
        bytes: &[[u8; 512]],
    ) -> Result<(), BenchFault>
        ensures { AppliesWork S.Store H.Shelf self.old self.new result part.now intents.now
            bytes.now }
    {
        match apply(&mut self.shelf, part, intents, bytes) {
            Ok(()) => Ok(()),
            Err(fault) => Err(BenchFault::of_shelf(fault)),
        }
    }

    /// Forgets what was pending, once it is carried out. It writes the registry alone.
    pub(crate) fn settle(&mut self) -> Result<(), BenchFault>
        ensures { SettlesIntents S.Store H.Shelf self.old self.new result }
    {
        match self.registry.settle() {
            Ok(()) => Ok(()),
            Err(fault) => Err(BenchFault::of_store(fault)),
        }
    }
}
