//! Mirrors that are carried over to a registry which is new: each is adopted as its images say it
//! is, and has to come out as it was registered.

ghost use Rattle.std.specs.Prelude.{◌≡◌, None, IfOk};
ghost use Rattle.gm_bench.specs.Benches.{progress_of};
ghost use Rattle.gm_bench.specs.Phases.{TakesCommands};

use gm_bench::{Answer, Bench, BenchFault};
use gm_commands::{Command, Providers};
use gm_faults::Fault;
use gm_metadata::Label;
use gm_refusals::CallRefusal;
use gm_shelf::Shelf;
use gm_state::State;
use sqlite::Alter;
use std::alloc::{AllocError, Global};

/// How a mirror that is adopted isn't as it was registered.
#[derive(Clone, Copy, Debug, PartialEq, Eq)]
pub enum Difference {
    /// It has no component, so that no image shows it.
    NoImage,
    /// Its adoption is refused.
    Refused(CallRefusal),
    /// Its images show it otherwise, or their data aren't equal.
    Otherwise,
}

/// What became of mirrors that were to be carried over.
#[derive(Clone, Copy, Debug, PartialEq, Eq)]
pub enum Carried {
    /// All are registered as they were.
    All,
    /// This one isn't. Those after it weren't tried.
    Not { mirror: Label, why: Difference },
}

// The command that adopts a mirror from all its images; `None` if it has none.
fn adoption_of(alloc: Global, state: &State, name: Label) -> Result<Option<Command>, AllocError> {
    let named: Vec<Label> = state
        .components()
        .iter()
        .filter(|component| component.mirror == name)
        .map(|component| component.provider)
        .collect(alloc)?;
    match Providers::new(named) {
        Some(providers) => Ok(Some(Command::Adopt { name, providers })),
        None => Ok(None),
    }
}

// The key of the adoption of this number, as gmbench's own keys are.
fn key_of(alloc: Global, number: usize) -> Result<String, AllocError> {
    format!(in alloc; "g{number:06}")
}

// Whether a mirror and its components are the same in both states.
fn is_same(alloc: Global, old: &State, new: &State, name: Label) -> Result<bool, AllocError> {
    let same_mirror = old.mirror(name) == new.mirror(name);
    let (before, after) = (old.members(alloc, name)?, new.members(alloc, name)?);
    Ok(same_mirror && before == after)
}

// Adopts a mirror, and says how it then isn't as it was registered, if it isn't: nothing was
// written to an image then, and the bench takes no more commands.
fn carry<S: Alter, H: Shelf>(
    alloc: Global,
    bench: &mut Bench<S, H>,
    old: &State,
    name: Label,
    number: usize,
) -> Result<Option<Difference>, Fault>
    requires { TakesCommands (progress_of bench.old) }
    ensures { IfOk result (λ found. found ≡ None → TakesCommands (progress_of bench.new)) }
{
    let Some(command) = adoption_of(alloc, old, name)? else {
        return Ok(Some(Difference::NoImage));
    };
    let key = key_of(alloc, number)?;
    match bench.accept(alloc, key.as_str(), &command)? {
        Answer::Done(_, _) => {}
        Answer::Repeated(_, _) => return Ok(Some(Difference::Otherwise)),
        Answer::Refused(why) => return Ok(Some(Difference::Refused(why))),
    }
    let new = bench.view(alloc)?;
    if !is_same(alloc, old, &new, name)? {
        return Ok(Some(Difference::Otherwise));
    }
    bench.apply()?;
    bench.settle()?;
    Ok(None)
}

// Whether two states have the same records.
fn are_same(old: &State, new: &State) -> bool {
    old.mirrors() == new.mirrors() && old.components() == new.components()
}

/// Adopts each mirror of the old state at a bench whose registry is new, under keys of gmbench's
/// own, and compares what is registered then. One that comes out otherwise is the last: its images
/// weren't written, and the bench isn't to be used any more. Faults are the bench's; `Store` also if
/// the registry then has other records beside these, so that it wasn't new.
pub fn carry_over<S: Alter, H: Shelf>(
    alloc: Global,
    bench: &mut Bench<S, H>,
    old: &State,
) -> Result<Carried, Fault>
    requires { TakesCommands (progress_of bench.old) }
{
    let mut number = 0usize;
    for mirror in old.mirrors() {
        number = number.saturating_add(1);
        if let Some(why) = carry(alloc, bench, old, mirror.name, number)? {
            return Ok(Carried::Not {
                mirror: mirror.name,
                why,
            });
        }
    }
    let new = bench.view(alloc)?;
    if !are_same(old, &new) {
        return Err(Fault::Bench(BenchFault::Store));
    }
    Ok(Carried::All)
}
