//! The text of what is pending, a line an intent.

ghost use Rattle.std.specs.Prelude.{◌≡◌, ◌++◌, IfOk, OnOk};
ghost use Rattle.std.specs.String.{string_bytes};
ghost use Rattle.gm_looks.specs.Texts.{copy_text, patch_text, intent_text, pending_text};

use gm_metadata::Label;
use gm_state::Intent;
use std::alloc::{AllocError, Global};

// Appends a copy of so many sectors, from this one on.
fn push_copy(
    text: &mut String,
    source: Label,
    target: Label,
    first: u32,
    sectors: u32,
) -> Result<(), AllocError>
    ensures { OnOk result (string_bytes text.new
        ≡ string_bytes text.old ++ copy_text source target first sectors) }
{
    write!(
        text,
        "copy {sectors} sectors of {source} to {target} from {first}"
    )
}

// Appends a patch of so many sectors, from this one on.
fn push_patch(
    text: &mut String,
    provider: Label,
    first: u32,
    sectors: u32,
) -> Result<(), AllocError>
    ensures { OnOk result (string_bytes text.new
        ≡ string_bytes text.old ++ patch_text provider first sectors) }
{
    write!(text, "patch {sectors} sectors of {provider} from {first}")
}

/// Appends what an intent is.
pub(crate) fn push_intent(text: &mut String, intent: &Intent) -> Result<(), AllocError>
    ensures { OnOk result (string_bytes text.new
        ≡ string_bytes text.old ++ intent_text intent.now) }
{
    match *intent {
        Intent::Meta { provider } => write!(text, "metadata of {provider}"),
        Intent::Clear { provider } => write!(text, "clear {provider}"),
        Intent::Copy {
            source,
            target,
            first,
            end,
        } => {
            let sectors = end.saturating_sub(first);
            push_copy(text, source, target, first, sectors)
        }
        Intent::Dirty { provider } => write!(text, "mark {provider} dirty"),
        Intent::Patch {
            provider,
            first,
            end,
        } => {
            let sectors = end.saturating_sub(first);
            push_patch(text, provider, first, sectors)
        }
    }
}

/// What the next opening would do, a line an intent: `copy 256 sectors of a.img to b.img from 512`,
/// `metadata of a.img`, `clear b.img`, `mark a.img dirty` or `patch 2 sectors of a.img from 512`.
pub fn pending_text(alloc: Global, intents: &[Intent]) -> Result<String, AllocError>
    ensures { IfOk result (λ text. string_bytes text ≡ pending_text intents.now) }
{
    let mut text = String::new(alloc);
    for intent in intents {
        push_intent(&mut text, intent)?;
        text.push('\n')?;
    }
    Ok(text)
}
