//! What holds of every sync.

ghost use Rattle.std.specs.Prelude.{Bool, IfErr, IfOk, List, Result};
ghost use Rattle.gm_metadata.specs.Images.{Image, Sizes};
ghost use Rattle.gm_registry.specs.Registry.{DiskKept};
ghost use Rattle.gm_bench.specs.Benches.{registry_of, shelf_of};
ghost use Rattle.gm_bench.specs.Schedule.{AtRest, Entry};
ghost use Rattle.gm_bench.specs.declared.bench.Bench.{Bench};
ghost use Rattle.gm_bench.specs.declared.fault.BenchFault.{BenchFault};
ghost use Rattle.gm_sync.specs.declared.scope.Scope.{Scope};
ghost use Rattle.gm_sync.specs.declared.synced.Synced.{Synced};
ghost use Rattle.gm_sync.specs.Faults.{FailsToSync};
ghost use Rattle.gm_sync.specs.Filling.{Syncs};
ghost use Rattle.gm_sync.specs.SyncRuns.{SyncLeaves};

use gm_shelf::Shelf;
use sqlite::Alter;

/// A sync is a part of a schedule, of an honest shelf and a disk that keeps what is written. A
/// bench that is at rest after accepted commands, as the law over schedules says, is so after the
/// sync as well, with those of its series that were done, each in one commit; and if the sync
/// failed, whatever a stop then leaves leads on, with all of the series that was running or without
/// it.
pub fn whole_sync_law<S: Alter, H: Shelf>()
    ensures { (all : Sizes) (old new : Bench S H) (away : Image) (acc ack : List Entry)
        (scope : Scope) (audits : Bool) (result : Result Synced BenchFault)
        → H.honest (shelf_of old) → DiskKept S.Store (registry_of new)
        → AtRest S.Store H.Shelf all (registry_of old) (shelf_of old) away acc ack
        → IfOk result (Syncs S.Store H.Shelf old new scope)
        → IfErr result (FailsToSync S.Store H.Shelf old new scope audits)
        → SyncLeaves S.Store H.Shelf all old new away acc ack scope audits result }
{}
