//! What a command would take away for good, in sentences.

ghost use Rattle.std.specs.Prelude.{◌≡◌, IfOk, is_none, length};
ghost use Rattle.gm_handing_in.specs.LettingGo.{is_of_whole, sentence_count, whole_images};

use gm_commands::Command;
use gm_losses::Loss;
use gm_metadata::Label;
use std::alloc::{AllocError, Global};

// Whether one of the names would be taken for an option.
fn begins_as_option(name: Label, providers: &[Label]) -> bool {
    name.as_str().starts_with('-') || providers.iter().any(|p| p.as_str().starts_with('-'))
}

// That the source of the mirror of this name is DIRTY, and which line adopts these images of it,
// which aren't.
fn whole_sentence(alloc: Global, name: Label, whole: &[Label]) -> Result<String, AllocError> {
    let dashes = if begins_as_option(name, whole) {
        "-- "
    } else {
        ""
    };
    let mut sentence = format!(in alloc;
        "the source is DIRTY, these aren't: adopt {dashes}{name}"
    )?;
    for provider in whole {
        write!(sentence, " {provider}")?;
    }
    Ok(sentence)
}

// That an image has other data than the source of its mirror.
fn differs_sentence(
    alloc: Global,
    provider: Label,
    sectors: u64,
    first: u64,
) -> Result<String, AllocError> {
    let noun = if sectors == 1 { "sector" } else { "sectors" };
    format!(in alloc;
        "{provider} is ACTIVE and differs from the source in {sectors} {noun}, first {first}: \
both may have gone on alone, and a sync writes over it"
    )
}

// What is lost, in a sentence. Of images that are whole there is one for all.
fn sentence(alloc: Global, loss: &Loss) -> Result<Option<String>, AllocError>
    ensures { IfOk result (λ sentence. is_none sentence ≡ is_of_whole loss.now) }
{
    let text = match loss {
        Loss::Whole { .. } => return Ok(None),
        Loss::LastSector { provider } => format!(in alloc;
            "{provider} holds data in its last sector: lengthen it by truncate -s +512"
        ),
        Loss::Database { provider } => {
            format!(in alloc; "{provider} is a database of SQLite, a registry perhaps")
        }
        Loss::Data { provider, place } => format!(in alloc;
            "{provider} holds data, first in sector {place}: a sync writes over all of it"
        ),
        Loss::Intact { provider } => format!(in alloc;
            "{provider} is there, and as it is registered: remove takes it out"
        ),
        Loss::Left {
            provider,
            newer: true,
        } => format!(in alloc;
            "{provider} is of the same mirror and newer: adopt it too, or its data are lost"
        ),
        Loss::Left {
            provider,
            newer: false,
        } => format!(in alloc; "{provider} is of the same mirror: adopt it too"),
        Loss::Differs {
            provider,
            sectors,
            first,
        } => differs_sentence(alloc, *provider, *sectors, *first),
        Loss::Member { provider, mirror } => format!(in alloc;
            "{provider} says it is ACTIVE in {mirror}: no registry adopts it without its metadata"
        ),
        Loss::OnlyCopy { provider } => format!(in alloc;
            "{provider} alone would be ACTIVE, while others aren't filled: sync first"
        ),
        Loss::Mirror { components } => format!(in alloc;
            "the mirror has {components} components, and the metadata of all are cleared"
        ),
    };
    Ok(Some(text?))
}

// The images that are whole beside a DIRTY source.
fn whole_images(alloc: Global, losses: &[Loss]) -> Result<Vec<Label>, AllocError>
    ensures { IfOk result (λ images. images.items ≡ whole_images losses.now) }
{
    losses
        .iter()
        .filter_map(|loss| match *loss {
            Loss::Whole { provider } => Some(provider),
            _ => None,
        })
        .collect(alloc)
}

/// All that is lost by a command, in sentences.
pub(crate) fn sentences_of(
    alloc: Global,
    command: &Command,
    losses: &[Loss],
) -> Result<Vec<String>, AllocError>
    ensures { IfOk result (λ sentences.
        length sentences.items ≡ sentence_count command.now losses.now) }
{
    let mut sentences = Vec::new(alloc);
    for loss in losses {
        if let Some(sentence) = sentence(alloc, loss)? {
            sentences.push(sentence)?;
        }
    }
    let Command::Adopt { name, .. } = command else {
        return Ok(sentences);
    };
    let whole = whole_images(alloc, losses)?;
    if whole.is_empty() {
        return Ok(sentences);
    }
    sentences.push(whole_sentence(alloc, *name, &whole)?)?;
    Ok(sentences)
}
