//! The change of clear: metadata of a provider that is no component are wiped out.

ghost use Rattle.std.specs.Prelude.{◌≡◌, ◌-◌, ◌<◌, [], ◌∷◌, None, IfOk};
ghost use Rattle.gm_changes.specs.Decides.{no_change};
ghost use Rattle.gm_state.specs.declared.intents.Intent.TheVariants as intents;
ghost use Rattle.gm_state.specs.declared.intents.Reply.TheVariants as replies;

use crate::change::Change;
use gm_metadata::Label;
use gm_state::{Intent, Reply};
use std::alloc::{AllocError, Global};

/// A provider whose metadata are wiped out.
pub(crate) fn cleared(alloc: Global, provider: Label) -> Result<Change, AllocError>
    ensures { IfOk result (λ ch. ch ≡ record no_change { intents = intents.Clear provider ∷ [] }) }
{
    Ok(Change {
        intents: vec![in alloc; Intent::Clear { provider }]?,
        ..Change::nothing(alloc)
    })
}
