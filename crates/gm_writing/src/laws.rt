//! What holds of every write.

ghost use Rattle.std.specs.Prelude.{ℕ, List, Option, Result};
ghost use Rattle.gm_metadata.specs.Images.{Image, Sizes};
ghost use Rattle.gm_registry.specs.Registry.{DiskKept};
ghost use Rattle.gm_bench.specs.Benches.{registry_of, shelf_of};
ghost use Rattle.gm_bench.specs.Schedule.{AtRest, Entry};
ghost use Rattle.gm_bench.specs.declared.bench.Bench.{Bench};
ghost use Rattle.gm_process.specs.declared.status.Status.{Status};
ghost use Rattle.gm_faults.specs.declared.fault.Fault.{Fault};
ghost use Rattle.gm_handing_in.specs.Ends.{AnswersText};
ghost use Rattle.gm_writing.specs.Handed.{TextLeaves};
ghost use Rattle.gm_writing.specs.Patches.{lines_of};
ghost use Rattle.gm_writing.specs.declared.patches.Patches.{Patches};

use gm_shelf::Shelf;
use sqlite::Alter;

/// Commands of a write that are handed in at once are a part of a schedule. A bench that is at rest
/// after accepted commands, as the law over schedules says, is so after them as well, with those of
/// them that were done; and if it failed at one, whatever a stop then leaves leads on, with that
/// command or without.
pub fn write_law<S: Alter, H: Shelf>()
    ensures { (all : Sizes) (p : Patches) (begin count : ℕ) (before now : Option (List ℕ))
        (away : Image) (acc ack : List Entry) (old new : Bench S H) (result : Result Status Fault)
        → H.honest (shelf_of old) → DiskKept S.Store (registry_of new)
        → AtRest S.Store H.Shelf all (registry_of old) (shelf_of old) away acc ack
        → AnswersText S.Store H.Shelf (lines_of p begin count) before now old new result
        → TextLeaves S.Store H.Shelf all (lines_of p begin count) new away acc ack result }
{}
