//! A command by itself. It is handed in as `do` does, under a key of gmbench's own if it was given
//! none, and with numbers of gmbench's own in place of those that it wasn't given.

ghost use Rattle.std.specs.Prelude.{◌≡◌, IfOk, OnOk};
ghost use Rattle.gm_bench.specs.Benches.{progress_of};
ghost use Rattle.gm_bench.specs.Phases.{TakesCommands};
ghost use Rattle.gm_process.specs.Statuses.{MayRefuse};

use crate::keys::own_key;
use crate::own_numbers::{Numbers, own_numbers};
use gm_bench::Bench;
use gm_command_line::Single;
use gm_faults::Fault;
use gm_handing_in::{One, hand_in_one};
use gm_process::{Status, Streams};
use gm_shelf::Shelf;
use sqlite::Alter;
use std::alloc::{AllocError, Global};
use std::io::{BufRead, Write};

// The text of a number, or none.
fn text_of(alloc: Global, number: Option<u32>) -> Result<Option<String>, AllocError> {
    match number {
        Some(number) => Ok(Some(format!(in alloc; "{number}")?)),
        None => Ok(None),
    }
}

// Appends an option with its value, if there is one.
fn push_option<'a>(
    words: &mut Vec<&'a str>,
    option: &'a str,
    value: &'a Option<String>,
) -> Result<(), AllocError> {
    if let Some(value) = value {
        let text = value.as_str();
        words.push(option)?;
        words.push(text)?;
    }
    Ok(())
}

// The words with these numbers after the first.
fn with_numbers<'a>(
    alloc: Global,
    words: &[&'a str],
    mid: &'a Option<String>,
    did: &'a Option<String>,
) -> Result<Vec<&'a str>, AllocError> {
    let mut all = Vec::new(alloc);
    if let Some((command, rest)) = words.split_first() {
        all.push(*command)?;
        push_option(&mut all, "--mid", mid)?;
        push_option(&mut all, "--did", did)?;
        for word in rest {
            all.push(*word)?;
        }
    }
    Ok(all)
}

// Says at a terminal under which key a command is handed in, and with which numbers.
fn say_chosen<I, O, E: Write>(key: &str, numbers: Numbers, streams: &mut Streams<'_, I, O, E>) {
    if !streams.explaining.at_terminal {
        return;
    }
    let _ = write!(streams.complaints, "{key}");
    if let Some(mid) = numbers.mid {
        let _ = write!(streams.complaints, " --mid {mid}");
    }
    if let Some(did) = numbers.did {
        let _ = write!(streams.complaints, " --did {did}");
    }
    let _ = writeln!(streams.complaints);
}

// Hands it in under this key.
fn hand_in_under<S: Alter, H: Shelf, I: BufRead, O: Write, E: Write>(
    rt: &HostRuntime,
    key: &str,
    single: Single<'_>,
    bench: &mut Bench<S, H>,
    streams: &mut Streams<'_, I, O, E>,
) -> Result<Status, Fault>
    requires { TakesCommands (progress_of bench.old) }
    ensures ends { IfOk result MayRefuse }
    ensures phase { OnOk result (TakesCommands (progress_of bench.new)) }
{
    let alloc = rt.alloc();
    let numbers = own_numbers(rt, key, single, bench, streams)?;
    say_chosen(key, numbers, streams);
    let mid = text_of(alloc, numbers.mid)?;
    let did = text_of(alloc, numbers.did)?;
    let words = with_numbers(alloc, single.words, &mid, &did)?;
    let one = One {
        key,
        words: &words,
        checks: single.checks,
        form: single.form,
    };
    hand_in_one(rt, one, bench, streams)
}

/// Hands in a command by itself, and prints what it came to.
pub fn hand_in_by_itself<S: Alter, H: Shelf, I: BufRead, O: Write, E: Write>(
    rt: &HostRuntime,
    single: Single<'_>,
    bench: &mut Bench<S, H>,
    streams: &mut Streams<'_, I, O, E>,
) -> Result<Status, Fault>
    requires { TakesCommands (progress_of bench.old) }
    ensures ends { IfOk result MayRefuse }
    ensures phase { OnOk result (TakesCommands (progress_of bench.new)) }
{
    if let Some(key) = single.key {
        return hand_in_under(rt, key, single, bench, streams);
    }
    let key = own_key(rt.alloc(), bench)?;
    hand_in_under(rt, key.as_str(), single, bench, streams)
}
