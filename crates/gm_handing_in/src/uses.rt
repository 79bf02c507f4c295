//! Whether something else uses images that are to be written.

use crate::insistence::tell_not_done;
use gm_command_line::Form;
use gm_faults::Fault;
use gm_in_use::{first_in_use, in_use_sentence};
use gm_metadata::Label;
use gm_process::Streams;
use std::io::Write;

/// Whether nothing else uses these images. Else it prints that nothing is done under this key, and
/// says which image is in use, by what, and that `--force` has it done.
pub fn are_free<I, O: Write, E: Write>(
    rt: &HostRuntime,
    key: &str,
    form: Form,
    images: &[Label],
    streams: &mut Streams<'_, I, O, E>,
) -> Result<bool, Fault> {
    let alloc = rt.alloc();
    let found = first_in_use(rt, streams.explaining.folder.as_str(), images)?;
    let Some(found) = found else {
        return Ok(true);
    };
    tell_not_done(alloc, key, form, streams)?;
    let sentence = in_use_sentence(alloc, &found)?;
    let _ = writeln!(streams.complaints, "{key}: {sentence}");
    let _ = writeln!(streams.complaints, "{key}: --force does it anyway");
    Ok(false)
}
