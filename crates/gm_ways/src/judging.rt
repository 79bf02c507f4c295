//! What steps come to that are decided one after the other, each on the records that those before
//! it leave.

ghost use Rattle.std.specs.Prelude.{◌≡◌, ◌++◌, ◌∷◌, [], ℕ, IfNone, IfOk, IfSome, OnOk};
ghost use Rattle.gm_refusals.specs.Seen.{Seen, seen_in};
ghost use Rattle.gm_state.specs.Records.{Records};
ghost use Rattle.gm_ways.specs.declared.step.Exchange.{Exchange};
ghost use Rattle.gm_ways.specs.declared.step.Step.TheVariants.{Fill};
ghost use Rattle.gm_ways.specs.Judged.{FollowsOr, IsRefused, Judges, PassesOr, is_filled};

use crate::fault::WayFault;
use crate::step::{Exchange, Step};
use gm_changes::{changed_by, decide};
use gm_commands::Command;
use gm_metadata::Label;
use gm_refusals::{Facts, Refusal};
use gm_state::{ComponentState, MAX_SECTORS, State, component_state};
use std::alloc::{AllocError, Global};
use std::mem;

/// A step that nothing refuses.
#[derive(Drop)]
pub struct Passed {
    /// The records that it leaves.
    pub state: State,
    /// How many commands it takes.
    pub commands: u64,
}

/// What steps come to.
#[derive(Drop)]
pub struct Judged {
    /// The records that each step finds, up to the one that is refused.
    pub found: Vec<State>,
    /// How many commands those take that aren't refused.
    pub commands: u64,
    /// Why the last of them is refused; `None` if all are done.
    pub refused: Option<Refusal>,
}

/// A step that is refused, and why.
#[derive(Clone, Copy)]
pub struct Stop<'a> {
    pub step: Step,
    pub why: Refusal,
    /// The records that it finds.
    pub state: &'a State,
}

// What a command leaves, or why it is refused.
fn follow(
    alloc: Global,
    state: &State,
    facts: &Facts,
    command: &Command,
) -> Result<Result<State, Refusal>, WayFault>
    ensures { IfOk result (FollowsOr state.now (seen_in facts.now) command.now) }
{
    match decide(alloc, state, facts, command)? {
        Err(refusal) => Ok(Err(refusal)),
        Ok(change) => match changed_by(alloc, state, &change)? {
            Some(left) => Ok(Ok(left)),
            None => Err(WayFault::Broken),
        },
    }
}

// Whether an image is an ACTIVE component.
fn is_active(state: &State, image: Label) -> bool
    ensures { result ≡ is_filled state.now image }
{
    matches!(component_state(state, image), Some(ComponentState::Active))
}

// What the next command leaves that fills the new image, or why it is refused.
fn advanced(
    alloc: Global,
    state: &State,
    facts: &Facts,
    exchange: &Exchange,
) -> Result<Result<State, Refusal>, WayFault>
    ensures { IfOk result (FollowsOr state.now (seen_in facts.now)
        (Command.Advance exchange.now.mirror exchange.now.new)) }
{
    let advance = Command::Advance {
        name: exchange.mirror,
        provider: exchange.new,
    };
    follow(alloc, state, facts, &advance)
}

// What is left when the new image is filled, or why that is refused.
fn filled(
    alloc: Global,
    state: &State,
    facts: &Facts,
    exchange: &Exchange,
) -> Result<Result<Passed, Refusal>, WayFault>
    ensures { (did : ℕ) → IfOk result
        (PassesOr (seen_in facts.now) exchange.now did Fill state.now) }
{
    let mut passed = Passed {
        state: state.clone()?,
        commands: 0,
    };
    for _ in 0..MAX_SECTORS {
        if is_active(&passed.state, exchange.new) {
            return Ok(Ok(passed));
        }
        match advanced(alloc, &passed.state, facts, exchange)? {
            Err(refusal) => return Ok(Err(refusal)),
            Ok(state) => {
                passed = Passed {
                    state,
                    commands: passed.commands + 1,
                };
            }
        }
    }
    Err(WayFault::Broken)
}

// What a step leaves, or why it is refused.
fn pass(
    alloc: Global,
    state: &State,
    facts: &Facts,
    exchange: &Exchange,
    did: u32,
    step: Step,
) -> Result<Result<Passed, Refusal>, WayFault>
    ensures { IfOk result (PassesOr (seen_in facts.now) exchange.now did step state.now) }
{
    match step {
        Step::Fill => filled(alloc, state, facts, exchange),
        Step::HandIn {
            act,
            number: _number,
        } => {
            let command = act.command(alloc, exchange, did)?;
            match follow(alloc, state, facts, &command)? {
                Ok(state) => Ok(Ok(Passed { state, commands: 1 })),
                Err(refusal) => Ok(Err(refusal)),
            }
        }
    }
}

// Adds the records that a step finds.
fn keep(found: &mut Vec<State>, state: State) -> Result<(), AllocError>
    ensures { OnOk result (found.new.items ≡ found.old.items ++ state ∷ []) }
{
    found.push(state)?;
    Ok(())
}

/// What the steps come to, by these records and by what images are said to be; the new component
/// gets this number. `Broken` if a command would leave records that break a rule.
pub fn judge(
    alloc: Global,
    mut state: State,
    facts: &Facts,
    exchange: &Exchange,
    did: u32,
    steps: &[Step],
) -> Result<Judged, WayFault>
    ensures { IfOk result (Judges (seen_in facts.now) exchange.now did steps.now state) }
{
    let mut found = Vec::new(alloc);
    let mut commands: u64 = 0;
    for step in steps {
        match pass(alloc, &state, facts, exchange, did, *step)? {
            Ok(passed) => {
                commands = commands.saturating_add(passed.commands);
                let before = mem::replace(&mut state, passed.state);
                keep(&mut found, before)?;
            }
            Err(refusal) => {
                keep(&mut found, state)?;
                return Ok(Judged {
                    found,
                    commands,
                    refused: Some(refusal),
                });
            }
        }
    }
    Ok(Judged {
        found,
        commands,
        refused: None,
    })
}

/// The one of these steps that is refused, if one is.
pub fn stop_of<'a>(judged: &'a Judged, steps: &[Step]) -> Option<Stop<'a>>
    ensures why { IfSome result (λ stop. judged.now.refused ≡ Some stop.why) }
    ensures refused { (x : Seen) (e : Exchange) (did : ℕ) (s : Records)
        → Judges x e did steps.now s judged.now
        → IfSome result (λ stop. IsRefused x e did stop.step stop.state.now stop.why) }
    ensures none { (x : Seen) (e : Exchange) (did : ℕ) (s : Records)
        → Judges x e did steps.now s judged.now
        → IfNone result (judged.now.refused ≡ None) }
{
    let why = judged.refused?;
    let last = judged.found.len().checked_sub(1)?;
    let step = *steps.get(last)?;
    let state = judged.found.get(last)?;
    Some(Stop { step, why, state })
}
