//! The process: it hands the program the real streams, once `stack.rt` has seen to it that there is
//! stack enough, and `streams.rt` that there are three streams. All that the program does is in
//! `gm_program`.
#![tactic(auto)]

mod stack;
mod streams;

use gm_program::{Explaining, Fault, Legible, Status, Streams, program};
use stack::take_stack;
use std::env;
use std::io::{BufReader, BufWriter, ErrorKind, IsTerminal, Write};
use std::process::ExitCode;
use streams::StandardStreams;

// Two lines of a batch as long as they may be, with their line feeds: a command is settled by the
// next one only if that is read as well.
const INPUT_BYTES: usize = 2 * (131_072 + 1);

// Runs the program over the real streams.
fn run(rt: &HostRuntime) -> Result<Status, Fault> {
    take_stack(rt)?;
    let alloc = rt.alloc();
    let _streams = StandardStreams::take(rt)?;
    let at_terminal = rt.stderr().is_terminal();
    let mut complaints = Legible::new(rt.stderr());
    let given: Vec<String> = match env::args(rt) {
        Ok(given) => given.skip(1).collect(alloc)?,
        Err(e) if e.kind() == ErrorKind::OutOfMemory => return Err(Fault::MEMORY),
        Err(_) => {
            writeln!(complaints, "error: a word isn't UTF-8")?;
            return Ok(Status::Words);
        }
    };
    let words: Vec<&str> = given.iter().map(|word| word.as_str()).collect(alloc)?;
    let mut explaining = Explaining::new(alloc, at_terminal);
    explaining.asks = explaining.at_terminal && rt.stdin().is_terminal();
    let mut input = BufReader::with_capacity(alloc, INPUT_BYTES, rt.stdin())?;
    let mut output = BufWriter::new(alloc, rt.stdout())?;
    let mut streams = Streams {
        input: &mut input,
        output: &mut output,
        complaints: &mut complaints,
        explaining,
    };
    Ok(program(rt, words.as_slice(), &mut streams))
}

fn main(rt: HostRuntime) -> ExitCode {
    let status = match run(&rt) {
        Ok(status) => status,
        Err(fault) => {
            let _ = writeln!(rt.stderr(), "{fault}");
            Status::Fault
        }
    };
    ExitCode::from(status.code())
}
