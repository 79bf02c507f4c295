//! The opening of a bench without a provider whose image is gone for good.

ghost use Rattle.std.specs.Prelude.{◌≡◌, false, IfOk, IfErr};
ghost use Rattle.gm_bench.specs.GivingUp.{GivesNoOthersUp, GivingUpKeeps, GivingUpLeaves, IsOpenedWithout, IsUnopenedWithout};

use crate::answer::Answer;
use crate::bench::{Bench, OpenFault};
use crate::fault::BenchFault;
use crate::loss::LossRefusal;
use crate::media::Media;
use crate::phase::Progress;
use crate::take_up_without::TakenUp;
use gm_metadata::Label;
use gm_registry::Registry;
use gm_shelf::Shelf;
use sqlite::{Alter, Connection};
use std::alloc::Global;

/// What an opening without a provider came to.
#[derive(Drop)]
pub enum Without<S: Alter, H> {
    /// The bench, and the answer to the loss: `Done` or `Repeated`.
    Opened {
        bench: Bench<S, H>,
        answer: Answer,
    },
    /// The loss is refused. Neither medium is written to, and what was pending still is.
    Refused {
        why: LossRefusal,
        store: Connection<S>,
        shelf: H,
    },
}

impl<S: Alter, H: Shelf> Bench<S, H> {
    /// Opens a bench of which a component's image is gone for good. The component is given up, by
    /// a `lost` of its provider alone, in the transaction that takes out what is pending there; a
    /// pending copy from it takes its data from the mirror's next source. Then the rest is carried
    /// out as by `open`. Under a key for which that was accepted before it is answered again.
    ///
    /// Faults are those of `open`. `Absent` of the intents that stay comes before the loss is
    /// written.
    pub fn open_without(
        alloc: Global,
        store: Connection<S>,
        shelf: H,
        provider: Label,
        key: &str,
    ) -> Result<Without<S, H>, OpenFault<S, H>>
        requires { store.in_transaction ≡ false }
        ensures leaves { GivingUpLeaves S.Store H.Shelf store shelf key.now provider result }
        ensures foreign { GivesNoOthersUp S.Store H.Shelf store shelf result }
        ensures opened { IfOk result
            (IsOpenedWithout S.Store H.Shelf store shelf key.now provider) }
        ensures unopened { IfErr result
            (IsUnopenedWithout S.Store H.Shelf store shelf key.now provider) }
        ensures keep { GivingUpKeeps S.Store H.Shelf store shelf result }
    {
        let registry = match Registry::open(store) {
            Ok(registry) => registry,
            Err(e) => {
                return Err(OpenFault {
                    fault: BenchFault::of_store(e.fault),
                    store: e.store,
                    shelf,
                });
            }
        };
        let mut media = Media { registry, shelf };
        match media.take_up_without(alloc, provider, key) {
            Ok(TakenUp::Carried(answer, redone)) => {
                let progress = Progress::Ready;
                let bench = Bench {
                    media,
                    progress,
                    redone,
                };
                Ok(Without::Opened { bench, answer })
            }
            Ok(TakenUp::NotLost(why)) => Ok(Without::Refused {
                why,
                store: media.registry.close(),
                shelf: media.shelf,
            }),
            Err(fault) => Err(OpenFault {
                fault,
                store: media.registry.close(),
                shelf: media.shelf,
            }),
        }
    }
}
