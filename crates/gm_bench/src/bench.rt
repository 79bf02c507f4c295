//! The opening of a bench, and what it may be asked.

ghost use Rattle.std.specs.Prelude.{◌≡◌, false, IfOk, IfErr};
ghost use Rattle.gm_bench.specs.Benches.{progress_of, redone_of, registry_of, shelf_of};
ghost use Rattle.gm_bench.specs.Phases.{phase_of};
ghost use Rattle.gm_bench.specs.Opened.{IsOpened, IsUnopened, OpeningKeeps, OpeningLeaves, TurnsOthersAway};

use crate::fault::BenchFault;
use crate::media::Media;
use crate::phase::{Phase, Progress};
use gm_registry::Registry;
use gm_shelf::Shelf;
use sqlite::{Alter, Connection};
use std::alloc::Global;

/// Why a bench wasn't opened, and its media.
#[derive(Drop)]
pub struct OpenFault<S: Alter, H> {
    pub fault: BenchFault,
    pub store: Connection<S>,
    pub shelf: H,
}

/// A registry, and the images that it keeps record of.
#[derive(Drop)]
pub struct Bench<S: Alter, H> {
    pub(crate) media: Media<S, H>,
    pub(crate) progress: Progress,
    pub(crate) redone: u64,
}

impl<S: Alter, H: Shelf> Bench<S, H> {
    /// Carries out what is pending, and settles it. `Absent` before anything is written, if the
    /// image of a pending intent isn't there, has no sectors or, of a component, another size than
    /// is registered. `Unreadable` if the store has tables that aren't a registry's, or whose
    /// rows don't say a state with readable intents. A registry of the first schema is carried over
    /// before that.
    pub fn open(
        alloc: Global,
        store: Connection<S>,
        shelf: H,
    ) -> Result<Bench<S, H>, OpenFault<S, H>>
        requires { store.in_transaction ≡ false }
        ensures leaves { OpeningLeaves S.Store H.Shelf store shelf result }
        ensures foreign { TurnsOthersAway S.Store H.Shelf store shelf result }
        ensures opened { IfOk result (IsOpened S.Store H.Shelf store shelf) }
        ensures unopened { IfErr result (IsUnopened S.Store H.Shelf store shelf) }
        ensures keep { OpeningKeeps S.Store H.Shelf store shelf result }
    {
        let registry = match Registry::open(store) {
            Ok(registry) => registry,
            Err(e) => {
                return Err(OpenFault {
                    fault: BenchFault::of_store(e.fault),
                    store: e.store,
                    shelf,
                });
            }
        };
        let mut media = Media { registry, shelf };
        match media.take_up(alloc) {
            Ok(redone) => Ok(Bench {
                media,
                progress: Progress::Ready,
                redone,
            }),
            Err(fault) => Err(OpenFault {
                fault,
                store: media.registry.close(),
                shelf: media.shelf,
            }),
        }
    }

    /// What it may be asked next.
    pub fn phase(&self) -> Phase
        ensures { result ≡ phase_of (progress_of self.now) }
    {
        self.progress.phase()
    }

    /// How many intents the opening carried out that an earlier run had left pending.
    pub fn redone(&self) -> u64
        ensures { result ≡ redone_of self.now }
    {
        self.redone
    }

    /// Gives the store and the shelf back.
    pub fn close(self) -> (Connection<S>, H)
        ensures { (result.0 ≡ registry_of self) × (result.1 ≡ shelf_of self) }
    {
        (self.media.registry.close(), self.media.shelf)
    }
}
