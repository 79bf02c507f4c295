//! What is said of a command that was done, if standard output can't take its answer.

use gm_bench::Answer;
use gm_front::Outcome;
use gm_process::Streams;
use std::io::{self, Write};

/// Says that the command under a key was done, and as which number.
pub fn say_done<E: Write>(complaints: &mut E, key: &str, number: u64) {
    let _ = writeln!(complaints, "{key} was done, as number {number}");
}

// Prints a text, so that whoever reads the output has it.
fn print<O: Write>(output: &mut O, text: &str) -> io::Result<()> {
    output.write_all(text.as_bytes())?;
    output.flush()
}

// The number of a command by its answer, if it was done.
fn number_of(answer: Answer) -> Option<u64> {
    match answer {
        Answer::Done(number, _) | Answer::Repeated(number, _) => Some(number),
        Answer::Refused(_) => None,
    }
}

// Says that a command was done, if it was.
fn say_if_done<E: Write>(complaints: &mut E, outcome: &Outcome<'_>) {
    if let Outcome::Answered(key, answer) = *outcome {
        if let Some(number) = number_of(answer) {
            say_done(complaints, key, number);
        }
    }
}

/// Prints the text of what a command came to. If that fails, it says on the complaints that the
/// command was done, if it was.
pub fn print_outcome<I, O: Write, E: Write>(
    text: &str,
    outcome: &Outcome<'_>,
    streams: &mut Streams<'_, I, O, E>,
) -> io::Result<()> {
    let printed = print(streams.output, text);
    if printed.is_err() {
        say_if_done(streams.complaints, outcome);
    }
    printed
}
