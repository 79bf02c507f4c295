//! What is said of an image that something else uses.

ghost use Rattle.std.specs.Prelude.{◌≡◌, IfOk};
ghost use Rattle.std.specs.String.{string_bytes};
ghost use Rattle.gm_in_use.specs.Sentences.{in_use_sentence, writer_words};

use crate::in_use::InUse;
use crate::uses::Use;
use std::alloc::{AllocError, Global};

// What is said of a process that has an image open for writing, after the image's name.
fn writer_words(alloc: Global, process: u32, name: &str) -> Result<String, AllocError>
    ensures { IfOk result (λ text. string_bytes text ≡ writer_words process name.now) }
{
    format!(in alloc; " is open for writing by process {process} ({name}): end that first")
}

/// What uses an image and the way on, in a sentence without a line feed.
pub fn in_use_sentence(alloc: Global, found: &InUse) -> Result<String, AllocError>
    ensures { IfOk result (λ text. string_bytes text ≡ in_use_sentence found.now) }
{
    let image = found.image;
    match &found.by {
        Use::LoopDevice { device } => {
            format!(in alloc; "{image} backs {device}: detach it first")
        }
        Use::Writer { process, name } => {
            let words = writer_words(alloc, *process, name.as_str())?;
            format!(in alloc; "{image}{words}")
        }
        Use::Locked => format!(in alloc; "{image} is locked by another program"),
    }
}
