//! Who hears of each line of a batch.

ghost use Rattle.std.specs.Prelude.{ℕ, List, [], ◌∷◌, Option, None, option_map};
ghost use Rattle.gm_front.specs.Heard.{Heard, Hears};
ghost use Rattle.gm_front.specs.Outcomes.{text_of};

use crate::outcome::Outcome;

/// Hears of each line of a batch, once its answer is told.
pub trait Listener {
    // What it heard so far, as long as that is known.
    ghost heard: { Self → Option (List Heard) } = { λ _. None };

    /// A line came to this. One of more than 131,072 bytes isn't handed on.
    fn answered(&mut self, line: Option<&[u8]>, outcome: &Outcome<'_>)
        ensures { Hears (heard self.old) (heard self.new)
            ((record {
              line = option_map (λ bytes. bytes.now) line.entry;
              answer = text_of outcome.now;
            }) ∷ []) };
}

/// Hears nothing.
#[derive(Drop)]
pub(crate) struct NoListener;

impl Listener for NoListener {
    fn answered(&mut self, _line: Option<&[u8]>, _outcome: &Outcome<'_>) {}
}
