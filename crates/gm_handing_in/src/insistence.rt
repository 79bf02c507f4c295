//! What is done only if whoever runs the program wants it.

ghost use Rattle.std.specs.Prelude.{◌≡◌, ◌&&◌, IfOk, IfSome, IsTrue};
ghost use Rattle.gm_handing_in.specs.Insistence.{says_yes};

use gm_answers::not_done_in;
use gm_command_line::Form;
use gm_faults::Fault;
use gm_process::Streams;
use std::alloc::Global;
use std::io::{self, BufRead, Write};

// Asks whoever runs the program whether to go on. Anything but `yes` is no, and so is an input that
// ends.
fn goes_on<I: BufRead, O, E: Write>(
    alloc: Global,
    streams: &mut Streams<'_, I, O, E>,
) -> io::Result<bool>
    ensures { IfOk result (λ goes_on. IfSome (I.remaining streams.old.input.now)
        (λ bytes. goes_on ≡ says_yes bytes)) }
{
    write!(streams.complaints, "go on? (yes or no) ")?;
    streams.complaints.flush()?;
    let mut answer = String::new(alloc);
    streams.input.read_line(&mut answer)?;
    Ok(answer.trim() == "yes")
}

/// Prints that the command isn't done.
pub(crate) fn tell_not_done<I, O: Write, E>(
    alloc: Global,
    key: &str,
    form: Form,
    streams: &mut Streams<'_, I, O, E>,
) -> Result<(), Fault> {
    let text = not_done_in(alloc, form, key)?;
    streams.output.write_all(text.as_bytes())?;
    streams.output.flush()?;
    Ok(())
}

/// Whether a command is carried out all the same, after these sentences of what it takes away:
/// whoever runs the program is asked. If nobody can be, or the answer is no, it prints that the
/// command isn't done, and that `--force` has it done.
pub fn is_wanted<I: BufRead, O: Write, E: Write>(
    alloc: Global,
    key: &str,
    form: Form,
    sentences: &[String],
    streams: &mut Streams<'_, I, O, E>,
) -> Result<bool, Fault>
    // It is wanted only if there is somebody to ask.
    ensures asked { IfOk result (λ is_wanted. IsTrue is_wanted
        → IsTrue streams.old.explaining.asks) }
    // Of an input whose bytes are known, just if there is, and its next line is `yes`.
    ensures yes { IfOk result (λ is_wanted. IfSome (I.remaining streams.old.input.now)
        (λ bytes. is_wanted ≡ (streams.old.explaining.asks && says_yes bytes))) }
{
    let asks = streams.explaining.asks;
    if !asks {
        tell_not_done(alloc, key, form, streams)?;
    }
    for sentence in sentences {
        let _ = writeln!(streams.complaints, "{key}: {sentence}");
    }
    if asks {
        if goes_on(alloc, streams)? {
            return Ok(true);
        }
        tell_not_done(alloc, key, form, streams)?;
    }
    let _ = writeln!(streams.complaints, "{key}: --force does it anyway");
    Ok(false)
}
