//! A component whose image is gone for good is given up, and the rest is carried out.

ghost use Rattle.gm_bench.specs.Judging.{CommitsLoss, Loses};

use crate::fault::BenchFault;
use crate::loss::Loss;
use crate::media::Media;
use crate::presence::first_absent;
use gm_metadata::Label;
use gm_shelf::Shelf;
use sqlite::Alter;

impl<S: Alter, H: Shelf> Media<S, H> {
    // Writes a loss, in place of what is pending.
    fn commit_loss(&mut self, loss: &Loss, key: &str) -> Result<u64, BenchFault>
        ensures { CommitsLoss S.Store H.Shelf self.old self.new key.now loss.now result }
    {
        let words = loss.words.as_str();
        match self
            .registry
            .accept_instead(&loss.change, &loss.intents, &loss.bytes, key, words)
        {
            Ok(number) => Ok(number),
            Err(fault) => Err(BenchFault::of_store(fault)),
        }
    }

    /// Writes a loss, in place of what is pending, and carries out what is pending then. `Absent`
    /// before anything is written, if an image that this needs isn't there.
    pub(crate) fn lose(&mut self, loss: &Loss, key: &str) -> Result<u64, BenchFault>
        ensures { Loses S.Store H.Shelf self.old self.new key.now loss.now result }
    {
        if let Some(absent) = first_absent(&self.shelf, &loss.after, &loss.intents) {
            return Err(BenchFault::Absent(absent));
        }
        let number = self.commit_loss(loss, key)?;
        self.finish(&loss.after, &loss.intents, &loss.bytes)?;
        Ok(number)
    }
}
