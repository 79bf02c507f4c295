//! What the registry says of a key, before the rules are asked.

ghost use Rattle.std.specs.Prelude.{◌↔◌, IsTrue};
ghost use Rattle.gm_bench.specs.Asking.{LooksUp};
ghost use Rattle.gm_bench.specs.FoundKeys.{AreReadUnder, IsCounted, IsExpected, TellsKey, TellsRoom};

use crate::fault::BenchFault;
use crate::loss::are_of_loss;
use crate::media::Media;
use gm_commands::{MAX_COMMANDS, is_key};
use gm_metadata::Label;
use gm_refusals::CallRefusal;
use gm_shelf::Shelf;
use gm_state::Reply;
use sqlite::Alter;

/// The words that a key may have been used for before.
#[derive(Clone, Copy)]
pub(crate) enum Expected<'a> {
    /// These.
    Words(&'a str),
    /// Those of a loss of this provider, whatever its mirror is.
    LossOf(Label),
}

impl Expected<'_> {
    fn are_kept(&self, kept: &str) -> bool
        ensures { IsTrue result ↔ IsExpected self.now kept.now }
    {
        match self {
            Expected::Words(words) => kept == *words,
            Expected::LossOf(provider) => are_of_loss(kept, *provider),
        }
    }
}

/// What is found of a key.
#[derive(Clone, Copy)]
pub(crate) enum FoundKey {
    /// The command was accepted under it before: its number, and its reply.
    Kept(u64, Reply),
    /// No command may be accepted under it.
    Refused(CallRefusal),
    /// One may.
    Free,
}

impl<S: Alter, H: Shelf> Media<S, H> {
    // Whether one more command may be accepted, under a key that is free.
    fn look_for_room(&mut self) -> Result<FoundKey, BenchFault>
        ensures { LooksUp S.Store self.old self.new result TellsRoom IsCounted }
    {
        let count = self.accepted()?;
        if count < u64::from(MAX_COMMANDS) {
            Ok(FoundKey::Free)
        } else {
            Ok(FoundKey::Refused(CallRefusal::NoRoom))
        }
    }

    /// Looks a key up: whether it has the form of one, whether the command that was accepted under
    /// it is the one that is expected, and whether there is room for one more. It reads the
    /// registry alone.
    pub(crate) fn look_up(
        &mut self,
        key: &str,
        expected: &Expected<'_>,
    ) -> Result<FoundKey, BenchFault>
        ensures { LooksUp S.Store self.old self.new result
            (TellsKey key.now (IsExpected expected.now)) (AreReadUnder key.now) }
    {
        if !is_key(key) {
            return Ok(FoundKey::Refused(CallRefusal::NoKey));
        }
        match self.registry.reply_of(key) {
            Ok(None) => self.look_for_room(),
            Ok(Some((number, kept, reply))) => {
                if expected.are_kept(&kept) {
                    Ok(FoundKey::Kept(number, reply))
                } else {
                    Ok(FoundKey::Refused(CallRefusal::KeyTaken))
                }
            }
            Err(fault) => Err(BenchFault::of_store(fault)),
        }
    }
}
