//! An audit of the mirrors that are meant, and then the filling of what is SYNCHRONIZING.

ghost use Rattle.std.specs.Prelude.{IfErr, IfOk};
ghost use Rattle.gm_bench.specs.Benches.{progress_of, registry_of, shelf_of};
ghost use Rattle.gm_bench.specs.Calls.{Keep};
ghost use Rattle.gm_bench.specs.Phases.{TakesCommands};
ghost use Rattle.gm_sync.specs.Faults.{FailsToSync};
ghost use Rattle.gm_sync.specs.Filling.{PassesByAudit, Syncs};

use crate::audit::amiss;
use crate::due::Due;
use crate::fill::{Progress, fill};
use crate::scope::Scope;
use crate::synced::Synced;
use gm_bench::{Bench, BenchFault};
use gm_shelf::Shelf;
use sqlite::Alter;
use std::alloc::Global;

/// Fills whatever is meant and SYNCHRONIZING. If an audit is asked for, it passes over the mirrors
/// of which an image isn't as it is registered. The commands are handed in under the keys `sync-N`,
/// each with the number that it would get, or with a greater one if that was taken; up to 64
/// together, in one commit. After a stop at most the last of these series is missing, all of it.
pub fn sync<S: Alter, H: Shelf, P: Progress>(
    alloc: Global,
    bench: &mut Bench<S, H>,
    scope: &Scope,
    audits: bool,
    progress: &mut P,
) -> Result<Synced, BenchFault>
    requires { TakesCommands (progress_of bench.old) }
    ensures phase { TakesCommands (progress_of bench.new) }
    ensures keep { Keep S.Store H.Shelf (registry_of bench.old) (registry_of bench.new)
        (shelf_of bench.old) (shelf_of bench.new) }
    ensures syncs { IfOk result (Syncs S.Store H.Shelf bench.old bench.new scope.now) }
    // What it passes over are just the mirrors of which an image isn't as it is registered.
    ensures audited { IfOk result (λ synced. PassesByAudit S.Store H.Shelf bench.old bench.new
        scope.now audits synced.passed_over) }
    // The commands that it handed in before a fault were advances of what is due, in series, and
    // what a stop then leaves leads on.
    ensures faults { IfErr result
        (FailsToSync S.Store H.Shelf bench.old bench.new scope.now audits) }
{
    let passed_over = amiss(alloc, bench, scope, audits)?;
    let due = Due {
        scope: *scope,
        passed_over,
    };
    let ending = fill(alloc, bench, &due, progress)?;
    Ok(Synced {
        passed_over: due.passed_over,
        ending,
    })
}
