//! Keys of gmbench's own, for commands that weren't given one.

ghost use Rattle.std.specs.Prelude.{◌≡◌, IfOk, IfSome, OnOk};
ghost use Rattle.std.specs.String.{string_bytes};
ghost use Rattle.gm_state.specs.Rows.{Tables};
ghost use Rattle.gm_registry.specs.Registry.{DiskKept, HasTables};
ghost use Rattle.gm_registry.specs.Replies.{IsFree};
ghost use Rattle.gm_bench.specs.Benches.{progress_of, registry_of};
ghost use Rattle.gm_by_itself.specs.Keys.{following, numbered};

use gm_bench::{Bench, BenchFault};
use gm_commands::MAX_COMMANDS;
use gm_shelf::Shelf;
use sqlite::Alter;
use std::alloc::{AllocError, Global};

// The key of this number.
fn key_of(alloc: Global, number: u64) -> Result<String, BenchFault> {
    match format!(in alloc; "g{number:06}") {
        Ok(key) => Ok(key),
        Err(_) => Err(BenchFault::Memory),
    }
}

// The key of this number, if no command was accepted under it.
fn key_if_free<S: Alter, H: Shelf>(
    alloc: Global,
    bench: &mut Bench<S, H>,
    number: u64,
) -> Result<Option<String>, BenchFault>
    ensures free { DiskKept S.Store (registry_of bench.new) → IfOk result (λ found. IfSome found
        (λ key. (t : Tables) → HasTables S.Store (registry_of bench.old) t
        → IsFree t (string_bytes key))) }
    ensures progress { OnOk result (progress_of bench.new ≡ progress_of bench.old) }
{
    let key = key_of(alloc, number)?;
    match bench.kept(key.as_str())? {
        Some(_) => Ok(None),
        None => Ok(Some(key)),
    }
}

/// A key under which no command was accepted: `g` and the number that the next command gets, in six
/// digits or more, or a number after it. `Unreadable` if as many are taken as a registry may have
/// commands, since then it isn't one that gmbench wrote.
pub(crate) fn own_key<S: Alter, H: Shelf>(
    alloc: Global,
    bench: &mut Bench<S, H>,
) -> Result<String, BenchFault>
    ensures { OnOk result (progress_of bench.new ≡ progress_of bench.old) }
{
    let mut number = bench.accepted()?;
    for _ in 0..=MAX_COMMANDS {
        number = number.saturating_add(1);
        if let Some(key) = key_if_free(alloc, bench, number)? {
            return Ok(key);
        }
    }
    Err(BenchFault::Unreadable)
}

/// The key of the first of several commands: the one that was given, or one of gmbench's own.
pub fn first_key<S: Alter, H: Shelf>(
    alloc: Global,
    given: Option<&str>,
    bench: &mut Bench<S, H>,
) -> Result<String, BenchFault>
    ensures given { IfSome given.entry
        (λ key. IfOk result (λ first. string_bytes first ≡ key.now)) }
    ensures progress { OnOk result (progress_of bench.new ≡ progress_of bench.old) }
{
    let Some(key) = given else {
        return own_key(alloc, bench);
    };
    match String::from_str(alloc, key) {
        Ok(key) => Ok(key),
        Err(_) => Err(BenchFault::Memory),
    }
}

// The first key, a dot and a number.
fn numbered(alloc: Global, first: &str, number: usize) -> Result<String, AllocError>
    ensures { IfOk result (λ key. string_bytes key ≡ numbered first.now number) }
{
    let mut key = String::new(alloc);
    write!(key, "{first}.{number}")?;
    Ok(key)
}

/// The key of a command of several that are handed in one after the other, by its number from 1
/// on: the first key itself, and after that the first key, a dot and the number.
#[tactic(auto, unfolding(crate::specs::Keys::following))]
pub fn following_key(alloc: Global, first: &str, number: usize) -> Result<String, AllocError>
    ensures { IfOk result (λ key. string_bytes key ≡ following first.now number) }
{
    match number {
        1 => String::from_str(alloc, first),
        number => numbered(alloc, first, number),
    }
}
