//! What a line of a batch comes to, of which the next may settle what it did.

ghost use Rattle.std.specs.Prelude.{IfOk, IfErr};
ghost use Rattle.gm_metadata.specs.Images.{Image};
ghost use Rattle.gm_state.specs.World.{World};
ghost use Rattle.gm_registry.specs.Registry.{DiskKept};
ghost use Rattle.gm_bench.specs.Benches.{progress_of, registry_of, shelf_of};
ghost use Rattle.gm_bench.specs.Calls.{ClosesOnFault, Keep};
ghost use Rattle.gm_bench.specs.Phases.{TakesNext};
ghost use Rattle.gm_bench.specs.Standing.{Stands};
ghost use Rattle.gm_front.specs.Closing.{KeepsClosed, outcome_fault};
ghost use Rattle.gm_front.specs.Outcomes.{FailsNext, IsAnsweredNext, IsAskedBy, IsFarAfter, IsFarOn, NextComesTo};
ghost use Rattle.gm_lines.specs.Asked.{asked_of};

use crate::outcome::Outcome;
use gm_bench::{Answer, Bench, BenchFault};
use gm_commands::Command;
use gm_lines::Request;
use gm_shelf::Shelf;
use sqlite::Alter;
use std::alloc::Global;

// Hands in a command and carries it out. What waits is settled, unless a command follows that does
// that.
fn hand_in<S: Alter, H: Shelf>(
    alloc: Global,
    bench: &mut Bench<S, H>,
    key: &str,
    command: &Command,
    follows: bool,
) -> Result<Answer, BenchFault>
    requires { TakesNext (progress_of bench.old) }
    ensures answers { H.honest (shelf_of bench.old) → DiskKept S.Store (registry_of bench.new)
        → IfOk result (λ a. (away : Image) (v u : World)
        → Stands S.Store H.Shelf (progress_of bench.old)
        (registry_of bench.old) (shelf_of bench.old) away v u
        → IsAnsweredNext S.Store H.Shelf (progress_of bench.new)
        (registry_of bench.new) (shelf_of bench.new) away v u key.now command.now a) }
    ensures fails { H.honest (shelf_of bench.old) → DiskKept S.Store (registry_of bench.new)
        → IfErr result (λ fault. (away : Image) (v u : World)
        → Stands S.Store H.Shelf (progress_of bench.old)
        (registry_of bench.old) (shelf_of bench.old) away v u
        → FailsNext S.Store H.Shelf (registry_of bench.old) (registry_of bench.new)
        (shelf_of bench.old) (shelf_of bench.new) away v u key.now command.now fault) }
    ensures far { IsFarOn (progress_of bench.old) (progress_of bench.new) follows result }
    ensures keep { Keep S.Store H.Shelf (registry_of bench.old) (registry_of bench.new)
        (shelf_of bench.old) (shelf_of bench.new) }
    ensures closes { ClosesOnFault bench.old bench.new result }
{
    let answer = bench.hand_in(alloc, key, command)?;
    if follows {
        return Ok(answer);
    }
    bench.settle_waiting()?;
    Ok(answer)
}

/// Asks the bench what a line asks, in phase Ready, Applied or Failed. What was done, then or
/// before, is settled with that, unless a line follows that spells a command under a key: that
/// command is to settle it.
pub(crate) fn ask_next<'a, S: Alter, H: Shelf>(
    alloc: Global,
    bench: &mut Bench<S, H>,
    request: &Request<'a>,
    follows: bool,
) -> Outcome<'a>
    requires { TakesNext (progress_of bench.old) }
    ensures comes { H.honest (shelf_of bench.old) → DiskKept S.Store (registry_of bench.new)
        → (away : Image) (v u : World)
        → Stands S.Store H.Shelf (progress_of bench.old)
        (registry_of bench.old) (shelf_of bench.old) away v u
        → NextComesTo S.Store H.Shelf (progress_of bench.new)
        (registry_of bench.old) (registry_of bench.new)
        (shelf_of bench.old) (shelf_of bench.new) away v u (asked_of request.now) result }
    ensures asks { IsAskedBy (asked_of request.now) result }
    ensures far { IsFarAfter (progress_of bench.old) (progress_of bench.new) follows result }
    ensures closes { KeepsClosed bench.old bench.new (outcome_fault result) }
    ensures keep { Keep S.Store H.Shelf (registry_of bench.old) (registry_of bench.new)
        (shelf_of bench.old) (shelf_of bench.new) }
{
    match *request {
        Request::Nothing => Outcome::Nothing,
        Request::Wrong(key) => Outcome::Wrong(key),
        Request::Call(key, ref command) => match hand_in(alloc, bench, key, command, follows) {
            Ok(answer) => Outcome::Answered(key, answer),
            Err(fault) => Outcome::Failed(key, fault),
        },
    }
}
