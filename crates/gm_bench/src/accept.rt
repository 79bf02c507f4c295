//! Commands that are handed in: each is judged, and then committed.

ghost use Rattle.std.specs.Prelude.{◌≡◌, map, string_bytes};
ghost use Rattle.gm_rules.specs.Series.{keyed_of, last_reply};
ghost use Rattle.gm_registry.specs.Accepting.{Accepts as WritesAccepted};
ghost use Rattle.gm_registry.specs.Changes.{with_accepted};
ghost use Rattle.gm_registry.specs.Registry.{Writes};
ghost use Rattle.gm_bench.specs.Accepting.{left_by};
ghost use Rattle.gm_bench.specs.Stepping.{CommitsJudgement, TakesCommand};

use crate::answer::Accepted;
use crate::fault::BenchFault;
use crate::judgement::Judgement;
use crate::media::Media;
use crate::phase::Waiting;
use gm_apply::Watch;
use gm_changes::Change;
use gm_commands::Command;
use gm_rows::StoreFault;
use gm_shelf::Shelf;
use gm_state::Reply;
use sqlite::Alter;
use std::alloc::Global;

// What a change is answered under the last of its keys.
fn last_reply(change: &Change) -> Reply
    ensures { result ≡ last_reply change.now.reply (map keyed_of change.now.further) }
{
    match change.further().last() {
        Some(further) => further.reply,
        None => change.reply(),
    }
}

impl<S: Alter, H: Shelf> Media<S, H> {
    // Writes a change and its key in one transaction, which takes out what waits.
    fn write(
        &mut self,
        waiting: Waiting,
        change: &Change,
        key: &str,
        words: &str,
    ) -> Result<u64, StoreFault>
        ensures accepts { WritesAccepted S.Store self.old.registry self.new.registry result
            change.now (left_by waiting) key.now words.now }
        ensures writes { Writes S.Store self.old.registry self.new.registry result
            (λ t. with_accepted change.now key.now words.now (left_by waiting t)) }
        ensures shelf { self.new.shelf ≡ self.old.shelf }
    {
        match waiting {
            Waiting::Nothing => self.registry.accept(change, key, words),
            Waiting::Done => {
                let (intents, bytes) = (change.intents(), change.bytes());
                self.registry
                    .accept_instead(change, intents, bytes, key, words)
            }
        }
    }

    // Writes what is planned of a command, if that is what it comes to. Nothing else in the call
    // writes.
    fn commit(
        &mut self,
        waiting: Waiting,
        judgement: Judgement,
        key: &str,
    ) -> Result<Accepted, BenchFault>
        ensures { CommitsJudgement S.Store H.Shelf self.old self.new waiting result judgement
            key.now }
    {
        let (words, planned) = match judgement {
            Judgement::Repeated(number, reply) => return Ok(Accepted::Repeated(number, reply)),
            Judgement::Refused(why) => return Ok(Accepted::Refused(why)),
            Judgement::New { words, planned } => (words, planned),
        };
        match self.write(waiting, &planned.change, key, &words) {
            Ok(number) => Ok(Accepted::Done {
                number,
                count: planned.change.further().len() as u64 + 1,
                reply: last_reply(&planned.change),
                work: planned.work,
            }),
            Err(fault) => Err(BenchFault::of_store(fault)),
        }
    }

    /// Hands in a command under a key, and under as many of these further ones, in turn, as it can
    /// be. It reads the shelf, and writes the registry alone: the transaction that accepts the
    /// command settles what waits. The watch is told how far data are compared, which `adopt` does.
    pub(crate) fn accept<W: Watch>(
        &mut self,
        alloc: Global,
        waiting: Waiting,
        key: &str,
        more: &[String],
        command: &Command,
        watch: &mut W,
    ) -> Result<Accepted, BenchFault>
        ensures { TakesCommand S.Store H.Shelf self.old self.new waiting result
            key.now (map string_bytes more.now) command.now }
    {
        let first = self.judge(alloc, key, command, watch)?;
        let judgement = self.take_further(alloc, first, key, more, command)?;
        self.commit(waiting, judgement, key)
    }
}
