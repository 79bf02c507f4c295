//! The text of what is pending, with how the images stand. Nothing is written.

ghost use Rattle.std.specs.Prelude.{◌≡◌, ◌++◌, IfOk, IfErr, OnOk};
ghost use Rattle.std.specs.String.{string_bytes};
ghost use Rattle.gm_shelf.specs.Keeping.{Looks};
ghost use Rattle.gm_looks.specs.Texts.{AreTold, IsTold, told_line, two_told};
ghost use Rattle.gm_looks.specs.Words.{word};

use crate::standing::Standing;
use crate::standings::{standing_of_cleared, standing_of_named};
use crate::text::push_intent;
use gm_metadata::Label;
use gm_shelf::{Shelf, ShelfFault};
use gm_state::{Intent, State};
use std::alloc::{AllocError, Global};

// The words for how one image stands.
fn one_told(alloc: Global, standing: Standing) -> Result<String, AllocError>
    ensures { IfOk result (λ told. string_bytes told ≡ word standing) }
{
    String::from_str(alloc, standing.word())
}

// Those for two, each after its name.
fn two_told(
    alloc: Global,
    source: Label,
    lends: Standing,
    target: Label,
    takes: Standing,
) -> Result<String, AllocError>
    ensures { IfOk result (λ told. string_bytes told ≡ two_told source lends target takes) }
{
    let told = format!(in alloc; "{source} {lends}, {target} {takes}")?;
    Ok(told)
}

// How the images stand that an intent names, in that order.
fn told_on<H: Shelf>(
    alloc: Global,
    state: &State,
    intent: &Intent,
    shelf: &mut H,
) -> Result<String, ShelfFault>
    ensures told { H.honest shelf.old → IfOk result (λ told. IsTold state.now
        (H.size shelf.old) (H.view shelf.old).seen intent.now (string_bytes told)) }
    ensures looks { Looks H.Shelf shelf.old shelf.new result }
{
    match *intent {
        Intent::Meta { provider } | Intent::Dirty { provider } | Intent::Patch { provider, .. } => {
            let standing = standing_of_named(shelf, state, provider)?;
            Ok(one_told(alloc, standing)?)
        }
        Intent::Clear { provider } => {
            let standing = standing_of_cleared(shelf, state, provider)?;
            Ok(one_told(alloc, standing)?)
        }
        Intent::Copy { source, target, .. } => {
            let lends = standing_of_named(shelf, state, source)?;
            let takes = standing_of_named(shelf, state, target)?;
            Ok(two_told(alloc, source, lends, target, takes)?)
        }
    }
}

// Appends the line of an intent, with what is told of its images.
fn push_told(text: &mut String, intent: &Intent, told: &str) -> Result<(), AllocError>
    ensures { OnOk result (string_bytes text.new
        ≡ string_bytes text.old ++ told_line intent.now told.now) }
{
    push_intent(text, intent)?;
    writeln!(text, ": {told}")
}

/// What the next opening would do, a line an intent, each with how the images stand that it names:
/// `copy 256 sectors of a.img to b.img from 512: a.img as registered, b.img member`,
/// `metadata of a.img: as registered` or `clear b.img: zero`. It writes nothing.
pub fn pending_text_on<H: Shelf>(
    alloc: Global,
    state: &State,
    intents: &[Intent],
    shelf: &mut H,
) -> Result<String, ShelfFault>
    ensures told { H.honest shelf.old → IfOk result (λ text. AreTold state.now
        (H.size shelf.old) (H.view shelf.old).seen intents.now (string_bytes text)) }
    ensures looks { Looks H.Shelf shelf.old shelf.new result }
{
    let mut text = String::new(alloc);
    for intent in intents {
        let told = told_on(alloc, state, intent, shelf)?;
        push_told(&mut text, intent, &told)?;
    }
    Ok(text)
}
