//! The opening of a bench without a provider.

ghost use Rattle.gm_bench.specs.Judging.{LooksForLoss, TakesUpWithout};

use crate::answer::Answer;
use crate::fault::BenchFault;
use crate::loss::{Judged, LossRefusal};
use crate::media::Media;
use gm_metadata::Label;
use gm_shelf::Shelf;
use gm_state::{Intent, State};
use sqlite::Alter;
use std::alloc::Global;

/// All records, what is pending, with the sectors that it lays, and what is found of the loss.
#[derive(Drop)]
pub(crate) struct Looked {
    pub(crate) state: State,
    pub(crate) intents: Vec<Intent>,
    pub(crate) bytes: Vec<[u8; 512]>,
    pub(crate) judged: Judged,
}

/// What an opening without a provider comes to.
#[derive(Clone, Copy)]
pub(crate) enum TakenUp {
    /// What was pending is carried out, and the loss now or before: its answer, and how many
    /// intents were pending.
    Carried(Answer, u64),
    /// Nothing is written.
    NotLost(LossRefusal),
}

impl<S: Alter, H: Shelf> Media<S, H> {
    // Loads what the registry says, and judges the loss. It reads the registry alone.
    fn look_for_loss(
        &mut self,
        alloc: Global,
        provider: Label,
        key: &str,
    ) -> Result<Looked, BenchFault>
        ensures { LooksForLoss S.Store H.Shelf self.old self.new provider key.now result }
    {
        let loaded = self.load(alloc)?;
        let judged = self.judge_loss(
            alloc,
            &loaded.state,
            &loaded.intents,
            &loaded.bytes,
            provider,
            key,
        )?;
        Ok(Looked {
            state: loaded.state,
            intents: loaded.intents,
            bytes: loaded.bytes,
            judged,
        })
    }

    /// Judges the loss of a provider, and carries out what is pending: with the loss, if it is
    /// to be written. A loss that is refused writes nothing.
    pub(crate) fn take_up_without(
        &mut self,
        alloc: Global,
        provider: Label,
        key: &str,
    ) -> Result<TakenUp, BenchFault>
        ensures { TakesUpWithout S.Store H.Shelf self.old self.new provider key.now result }
    {
        let looked = self.look_for_loss(alloc, provider, key)?;
        let redone = looked.intents.len() as u64;
        match &looked.judged {
            Judged::Refused(why) => Ok(TakenUp::NotLost(*why)),
            Judged::Kept(number, reply) => {
                self.check_and_finish(&looked.state, &looked.intents, &looked.bytes)?;
                Ok(TakenUp::Carried(Answer::Repeated(*number, *reply), redone))
            }
            Judged::New(loss) => {
                let number = self.lose(loss, key)?;
                let reply = loss.change.reply();
                Ok(TakenUp::Carried(Answer::Done(number, reply), redone))
            }
        }
    }
}
