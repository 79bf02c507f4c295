//! Which commands of a replacement were accepted before, under their keys.

ghost use Rattle.std.specs.Prelude.{◌≡◌, ◌++◌, ◌∷◌, [], OnOk};
ghost use Rattle.gm_bench.specs.Benches.{progress_of};

use crate::commands::exchange_of;
use crate::stopped::Stopped;
use crate::way::Going;
use gm_bench::Bench;
use gm_by_itself::{following_key, number_after};
use gm_command_line::Replacing;
use gm_commands::is_key;
use gm_refusals::CallRefusal;
use gm_shelf::Shelf;
use gm_ways::{Act, Step};
use sqlite::Alter;
use std::alloc::{AllocError, Global};

/// A command whose key is refused, and why.
#[derive(Clone, Copy, Debug, PartialEq, Eq)]
pub(crate) struct KeyRefused {
    pub(crate) act: Act,
    /// The number of its key.
    pub(crate) number: usize,
    pub(crate) why: CallRefusal,
}

/// What is left of a way.
#[derive(Drop)]
pub(crate) struct Left {
    /// The steps that aren't commands which were accepted before.
    pub(crate) steps: Vec<Step>,
    /// The first command whose key is refused; nothing after it is looked at.
    pub(crate) refused: Option<KeyRefused>,
}

// How a step stands in the registry.
#[derive(Clone, Copy, Debug, PartialEq, Eq)]
enum One {
    New,
    Accepted,
    Refused(KeyRefused),
}

// That the key of a command is refused.
fn refused(act: Act, number: usize, why: CallRefusal) -> One {
    One::Refused(KeyRefused { act, number, why })
}

// How a command stands: it was accepted before only if these words were, and the way was begun.
fn command_stands<S: Alter, H: Shelf>(
    alloc: Global,
    replacing: &Replacing<'_>,
    first: &str,
    going: Going,
    act: Act,
    number: usize,
    bench: &mut Bench<S, H>,
) -> Result<One, Stopped>
    ensures { OnOk result (progress_of bench.new ≡ progress_of bench.old) }
{
    let key = following_key(alloc, first, number)?;
    if !is_key(key.as_str()) {
        return Ok(refused(act, number, CallRefusal::NoKey));
    }
    let Some(kept) = bench.kept(key.as_str())? else {
        return Ok(One::New);
    };
    let words = kept.words.as_str();
    let did = number_after(words, "--did").unwrap_or(0);
    if going.is_begun && act.is_said_by(alloc, &exchange_of(replacing), did, words)? {
        Ok(One::Accepted)
    } else {
        Ok(refused(act, number, CallRefusal::KeyTaken))
    }
}

// How a step stands; a filling is always new.
fn stands<S: Alter, H: Shelf>(
    alloc: Global,
    replacing: &Replacing<'_>,
    first: &str,
    going: Going,
    step: Step,
    bench: &mut Bench<S, H>,
) -> Result<One, Stopped>
    ensures { OnOk result (progress_of bench.new ≡ progress_of bench.old) }
{
    match step {
        Step::Fill => Ok(One::New),
        Step::HandIn { act, number } => {
            command_stands(alloc, replacing, first, going, act, number, bench)
        }
    }
}

// Adds a step.
fn keep(steps: &mut Vec<Step>, step: Step) -> Result<(), AllocError>
    ensures { OnOk result (steps.new.items ≡ steps.old.items ++ step ∷ []) }
{
    steps.push(step)?;
    Ok(())
}

/// What is left of a way.
pub(crate) fn left_of<S: Alter, H: Shelf>(
    alloc: Global,
    replacing: &Replacing<'_>,
    first: &str,
    going: Going,
    bench: &mut Bench<S, H>,
) -> Result<Left, Stopped>
    ensures { OnOk result (progress_of bench.new ≡ progress_of bench.old) }
{
    let mut left = Left {
        steps: Vec::new(alloc),
        refused: None,
    };
    for step in going.way.steps() {
        match stands(alloc, replacing, first, going, *step, bench)? {
            One::Accepted => {}
            One::New => keep(&mut left.steps, *step)?,
            One::Refused(why) => {
                left.refused = Some(why);
                return Ok(left);
            }
        }
    }
    Ok(left)
}
