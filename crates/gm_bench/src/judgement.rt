//! What a command comes to under its key, before anything is written.

ghost use Rattle.std.specs.Prelude.{ℕ, List, string_bytes};
ghost use Rattle.gm_bench.specs.Judgements.{AreAny, IsLeftToRules, JudgesCommand};

use crate::fault::BenchFault;
use crate::found_key::{Expected, FoundKey};
use crate::media::Media;
use crate::plan::Planned;
use gm_apply::Watch;
use gm_commands::{Command, words_of};
use gm_refusals::CallRefusal;
use gm_shelf::Shelf;
use gm_state::Reply;
use sqlite::Alter;
use std::alloc::Global;

/// What a command comes to under its key.
#[derive(Drop)]
pub(crate) enum Judgement {
    /// It was accepted before, under this number.
    Repeated(u64, Reply),
    Refused(CallRefusal),
    /// It can be accepted: its words, and what is planned of it.
    New { words: String, planned: Planned },
}

impl<S: Alter, H: Shelf> Media<S, H> {
    // What a command comes to by the rules alone.
    fn judge_by_rules<W: Watch>(
        &mut self,
        alloc: Global,
        words: String,
        command: &Command,
        watch: &mut W,
    ) -> Result<Judgement, BenchFault>
        ensures { (key : List ℕ) → JudgesCommand S.Store H.Shelf self.old self.new result
            key command.now (IsLeftToRules key (string_bytes words) command.now) }
    {
        match self.ask(alloc, command, watch)? {
            Ok(planned) => Ok(Judgement::New { words, planned }),
            Err(refusal) => Ok(Judgement::Refused(CallRefusal::ByRules(refusal))),
        }
    }

    /// Judges a command under a key. It only reads both media. The watch is told how far data are
    /// compared, which `adopt` does.
    pub(crate) fn judge<W: Watch>(
        &mut self,
        alloc: Global,
        key: &str,
        command: &Command,
        watch: &mut W,
    ) -> Result<Judgement, BenchFault>
        ensures { JudgesCommand S.Store H.Shelf self.old self.new result key.now command.now
            AreAny }
    {
        let Ok(words) = words_of(alloc, command) else {
            return Err(BenchFault::Memory);
        };
        match self.look_up(key, &Expected::Words(&words))? {
            FoundKey::Kept(number, reply) => Ok(Judgement::Repeated(number, reply)),
            FoundKey::Refused(why) => Ok(Judgement::Refused(why)),
            FoundKey::Free => self.judge_by_rules(alloc, words, command, watch),
        }
    }
}
