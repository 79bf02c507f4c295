//! What holds of every batch, and of every request that is served.

ghost use Rattle.std.specs.Prelude.{ℕ, List, Option, Result};
ghost use Rattle.sqlite.specs.Held.{Held};
ghost use Rattle.gm_metadata.specs.Images.{Image, Sizes};
ghost use Rattle.gm_bench.specs.Schedule.{AtRest, Entry};
ghost use Rattle.gm_bench.specs.declared.fault.BenchFault.{BenchFault};
ghost use Rattle.gm_front.specs.declared.answer_lines.BatchEnd.{BatchEnd};
ghost use Rattle.gm_front.specs.declared.answer_lines.FrontFault.{FrontFault};
ghost use Rattle.gm_front.specs.Batch.{Batches};
ghost use Rattle.gm_front.specs.BatchRuns.{BatchLeaves};
ghost use Rattle.gm_front.specs.ServedRuns.{ServedLeaves, ServedUnlessPage};
ghost use Rattle.gm_front.specs.Services.{Serves, ServesUnlessPage};

use gm_shelf::Shelf;
use sqlite::Alter;

/// A batch is a part of a schedule. A bench that is at rest after accepted commands, as the law
/// over schedules says, is so after the batch as well, with those commands of its lines that were
/// done; and if it failed at a line, whatever a stop then leaves leads on, with that command or
/// without.
pub fn whole_batch_law<S: Alter, H: Shelf>()
    ensures { (all : Sizes) (r : Held S) (h : H) (away : Image) (acc ack : List Entry)
        (input before now : Option (List ℕ)) (s : Held S) (k : H) (end : Result BatchEnd FrontFault)
        → (rest : AtRest S.Store H.Shelf all r h away acc ack)
        → Batches S.Store H.Shelf input before now s k away rest.world end
        → BatchLeaves S.Store H.Shelf all input s k away acc ack end }
{}

/// A request is a part of a schedule. A bench that is at rest after accepted commands, as the law
/// over schedules says, is so after the request as well, with its command if that was done; and if
/// the bench failed at what it demands, whatever a stop then leaves leads on, with that command or
/// without.
pub fn served_request_law<S: Alter, H: Shelf>()
    ensures { (all : Sizes) (r s : Held S) (h k : H) (away : Image) (acc ack : List Entry)
        (input before now : Option (List ℕ)) (end : Result ℕ FrontFault)
        (fault : Option BenchFault)
        → (rest : AtRest S.Store H.Shelf all r h away acc ack)
        → Serves S.Store H.Shelf input before now r s h k away rest.world end fault
        → ServedLeaves S.Store H.Shelf all input r s h k away acc ack rest end }
{}

/// So is a request that is served unless a page sent it: after a page's the bench is at rest as it
/// was, and nothing more is accepted.
pub fn unless_page_law<S: Alter, H: Shelf>()
    ensures { (all : Sizes) (r s : Held S) (h k : H) (away : Image) (acc ack : List Entry)
        (input before now : Option (List ℕ)) (end : Result ℕ FrontFault)
        (fault : Option BenchFault)
        → (rest : AtRest S.Store H.Shelf all r h away acc ack)
        → ServesUnlessPage S.Store H.Shelf input before now r s h k away rest.world end fault
        → ServedUnlessPage S.Store H.Shelf all input r s h k away acc ack rest end }
{}
