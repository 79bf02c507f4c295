//! What a fault means, and why an image can't be given up, as sentences on the complaints.

use crate::fault::Fault;
use crate::sentences::{fault_sentence, loss_sentence};
use gm_bench::{BenchFault, LossRefusal};
use gm_metadata::Label;
use gm_process::Streams;
use gm_sentences::{About, cause_sentence};
use gm_shelf::ImageFailure;
use std::alloc::{AllocError, Global};
use std::io::{self, Write};

/// Why an opening without an image is refused.
pub fn explain_loss<I, O, E: Write>(
    alloc: Global,
    streams: &mut Streams<'_, I, O, E>,
    key: &str,
    image: Label,
    why: LossRefusal,
) {
    if !streams.explaining.wanted {
        return;
    }
    if let Ok(sentence) = About::image(image).sentence(alloc, loss_sentence(why)) {
        let number = why.number();
        let _ = writeln!(streams.complaints, "{key}: refused {number}: {sentence}");
    }
}

// The sentence of a fault of the bench, and of the image that failed, if one has.
fn fault_said(
    alloc: Global,
    fault: &BenchFault,
    failure: &Option<ImageFailure>,
) -> Result<String, AllocError> {
    let sentence = fault_sentence(*fault);
    match (fault, failure) {
        (BenchFault::Absent(image), _) => About::image(*image).sentence(alloc, sentence),
        (BenchFault::Disk, Some(failure)) => {
            About::image(failure.image).sentence(alloc, cause_sentence(failure.cause))
        }
        _ => String::from_str(alloc, sentence),
    }
}

/// What a fault means that ended the program.
pub fn explain_fault<I, O, E: Write>(
    alloc: Global,
    streams: &mut Streams<'_, I, O, E>,
    fault: &Fault,
) {
    if !streams.explaining.wanted {
        return;
    }
    let _ = write_line(alloc, streams, fault);
}

// The line of what a fault means: what is known of the file that failed, or the fault's own
// sentence.
fn write_line<I, O, E: Write>(
    alloc: Global,
    streams: &mut Streams<'_, I, O, E>,
    fault: &Fault,
) -> io::Result<()> {
    let complaints = &mut *streams.complaints;
    match (fault, &streams.explaining.trouble) {
        (Fault::Bench(BenchFault::Store), Some(trouble)) => {
            let number = BenchFault::Store.number();
            write!(complaints, "F{number}: ")?;
            trouble.write(complaints)?;
            writeln!(complaints)
        }
        (Fault::Bench(fault), _) => {
            let number = fault.number();
            let sentence = fault_said(alloc, fault, &streams.explaining.failure)?;
            writeln!(complaints, "F{number}: {sentence}")
        }
        (Fault::InputOrOutput, Some(trouble)) => {
            write!(complaints, "input or output: ")?;
            trouble.write(complaints)?;
            writeln!(complaints)
        }
        (Fault::InputOrOutput, None) => writeln!(
            complaints,
            "input or output: a stream or a port can't be read or written"
        ),
    }
}
