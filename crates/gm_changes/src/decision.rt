//! What a command does to the records, or why it is refused.

ghost use Rattle.std.specs.Prelude.{◌≡◌, ◌≤◌, ◌<◌, IfOk, OnErr, Some, length};
ghost use Rattle.gm_changes.specs.Decides.{Decides, Makes};
ghost use Rattle.gm_changes.specs.PartChange.{IsMade, LeavesPart};
ghost use Rattle.gm_refusals.specs.Applies.{IsGood};
ghost use Rattle.gm_refusals.specs.PartOf.{IsPartToDecide, IsGoodButCount};
ghost use Rattle.gm_refusals.specs.Seen.{seen_in};
ghost use Rattle.gm_refusals.specs.WorldFacts.{AreFacts, seen_of};
ghost use Rattle.gm_state.specs.Records.{Records, IsState};
ghost use Rattle.gm_state.specs.World.{World};

use crate::activate::activate;
use crate::adopt::adopt;
use crate::advance::advance;
use crate::change::Change;
use crate::clear::cleared;
use crate::configure::configure;
use crate::deactivate::deactivate;
use crate::destroy::destroy;
use crate::forget::forget;
use crate::insert::insert;
use crate::label::{first_component, labelled, new_mirror};
use crate::lost::lose;
use crate::members::sectors_of;
use crate::patch::patch;
use crate::rebuild::rebuild;
use crate::remove::remove;
use gm_commands::Command;
use gm_metadata::Label;
use gm_refusals::{Facts, Refusal, least_refusal};
use gm_state::State;
use std::alloc::{AllocError, Global};

/// The least refusal that applies, or what the command changes. Refusals take no memory.
///
/// The facts are those of the providers that `needed` names.
pub fn decide(
    alloc: Global,
    state: &State,
    facts: &Facts,
    command: &Command,
) -> Result<Result<Change, Refusal>, AllocError>
    ensures facts { IfOk result (λ r. Decides state.now (seen_in facts.now) command.now r) }
    // In each world that the state and the facts are of.
    ensures world { IfOk result (λ r. (u : World) → u.state ≡ state.now
        → AreFacts facts.now u command.now → Decides u.state (seen_of u) command.now r) }
    // If memory is wanting, no refusal applies.
    ensures memory { OnErr result (IsGood state.now (seen_in facts.now) command.now) }
{
    let count = state.mirrors().len() as u64;
    Ok(decide_part(alloc, state, count, facts, command)?)
}

/// What `decide` answers on a whole state, from the command's part of it and the number of its
/// mirrors.
pub fn decide_part(
    alloc: Global,
    part: &State,
    count: u64,
    facts: &Facts,
    command: &Command,
) -> Result<Result<Change, Refusal>, AllocError>
    ensures facts { IfOk result (λ r. (s : Records)
        → IsPartToDecide part.now (seen_in facts.now) command.now s
        → count ≡ length s.mirrors → Decides s (seen_in facts.now) command.now r) }
    // In each world that the part and the facts are of.
    ensures world { IfOk result (λ r. (u : World)
        → IsPartToDecide part.now (seen_in facts.now) command.now u.state
        → count ≡ length u.state.mirrors → AreFacts facts.now u command.now
        → Decides u.state (seen_of u) command.now r) }
    // The change can be made of the part alone.
    ensures part { IfOk result (λ r. IfOk r (λ ch. (s : Records)
        → IsPartToDecide part.now (seen_in facts.now) command.now s
        → count ≡ length s.mirrors → LeavesPart part.now command.now s ch)) }
    // It is what the command makes of the part, taken for a whole state.
    ensures alone { IfOk result (λ r. IfOk r (λ ch. IsState part.now
        → length part.now.mirrors ≤ count → count ≤ 64
        → Makes part.now (seen_in facts.now) command.now ch)) }
    // If memory is wanting, no refusal applies.
    ensures memory { OnErr result ((s : Records)
        → IsPartToDecide part.now (seen_in facts.now) command.now s
        → count ≡ length s.mirrors → IsGood s (seen_in facts.now) command.now) }
{
    if let Some(refusal) = least_refusal(part, count, facts, command) {
        return Ok(Err(refusal));
    }
    let change = change_of(alloc, part, facts, command)?;
    Ok(Ok(change))
}

// What a command changes that nothing refuses.
fn change_of(
    alloc: Global,
    part: &State,
    facts: &Facts,
    command: &Command,
) -> Result<Change, AllocError>
    requires { IsGoodButCount part.now (seen_in facts.now) command.now }
    ensures { IfOk result (λ ch. IsMade part.now (seen_in facts.now) command.now ch) }
{
    match *command {
        Command::Label(ref new) => {
            let sectors = sectors_of(facts, new.provider);
            let mirror = new_mirror(new, sectors);
            let first = first_component(new, sectors);
            Ok(labelled(alloc, mirror, first)?)
        }
        Command::Insert(ref new) => insert(alloc, part, facts, new),
        Command::Remove { name, provider } => remove(alloc, part, facts, name, provider),
        Command::Deactivate { name, provider } => deactivate(alloc, part, facts, name, provider),
        Command::Activate { name, provider } => activate(alloc, part, facts, name, provider),
        Command::Forget { name } => forget(alloc, part, facts, name),
        Command::Rebuild { name, provider } => rebuild(alloc, part, facts, name, provider),
        Command::Configure { name, settings } => configure(alloc, part, facts, name, &settings),
        Command::Clear { provider } => Ok(cleared(alloc, provider)?),
        Command::Destroy { name } => destroy(alloc, part, facts, name),
        Command::Lost {
            name,
            ref providers,
        } => lose(alloc, part, facts, name, providers),
        Command::Advance { name, provider } => advance(alloc, part, facts, name, provider),
        Command::Adopt {
            name,
            ref providers,
        } => adopt(alloc, part, facts, name, providers),
        Command::Patch {
            name,
            first,
            ref data,
        } => patch(alloc, part, facts, name, first, data),
    }
}
