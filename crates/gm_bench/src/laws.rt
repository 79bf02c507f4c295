//! What holds of every schedule.

ghost use Rattle.std.specs.Prelude.{◌≡◌, ◌∷◌, ℕ, Some, List, []};
ghost use Rattle.std.specs.List.Sorted.{IsPermutation};
ghost use Rattle.gm_commands.specs.declared.command.Command.TheVariants.{Lost};
ghost use Rattle.gm_state.specs.declared.intents.Intent.{Intent};
ghost use Rattle.gm_state.specs.declared.records.Mirror.{Mirror};
ghost use Rattle.gm_state.specs.Lookups.{mirror_of};
ghost use Rattle.gm_state.specs.Rows.{Tables, HoldRecords, intent_rows, patch_rows};
ghost use Rattle.gm_state.specs.World.{World, Sound};
ghost use Rattle.gm_rules.specs.Step.{Plan};
ghost use Rattle.gm_bench.specs.Leading.{Leads, KeepsClaims};
ghost use Rattle.gm_bench.specs.Losing.{HasNext, as_left, left_to_lay, pending_after};
ghost use Rattle.sqlite.specs.Held.{Held};
ghost use Rattle.gm_metadata.specs.Images.{Image, Sizes};
ghost use Rattle.gm_state.specs.Records.{members};
ghost use Rattle.gm_bench.specs.Schedule.{AcceptOne, AreAlone, Event, Headline, Now, Runs};

use gm_shelf::Shelf;
use sqlite::Alter;

/// With an honest shelf and a disk that keeps what is written, whatever is handed in, wherever it
/// is stopped, and whichever images are moved out of the folder or back into it before the next
/// opening: the bench stands for the world after the accepted commands, among which are all that
/// were answered as done. At rest its tables and its images are that world's. If something is
/// pending, or a stop left it, what is there leads to that world, and no component claims on the
/// way a sector that it lacks.
pub fn whole_run_law<S: Alter, H: Shelf>()
    ensures headline { (all : Sizes) (events : List (Event (Held S) H)) (now : Now (Held S) H)
        → Runs S.Store H.Shelf all events now
        → Headline S.Store H.Shelf all now.phase now.away now.accepted now.acknowledged }
    // If no series is handed in, each commit accepts one command: only the one whose call was
    // running may be missing after a stop.
    ensures alone { (all : Sizes) (events : List (Event (Held S) H)) (now : Now (Held S) H)
        → Runs S.Store H.Shelf all events now → AreAlone events → AcceptOne now.accepted }
{}

/// What is pending after the loss of a component leads on, and keeps what was claimed before the
/// first command.
pub fn losses_lead_on()
    ensures { (u w v : World) (key n p next : List ℕ) (ts us : List Intent)
        (bytes : List (List ℕ)) (m : Mirror) (y away : Image) (before t : Tables)
        → Sound w → mirror_of w.state n ≡ Some m
        → Plan w key (Lost n (p ∷ [])) us [] v → ((j : ℕ) → y p j ≡ away p j)
        → Leads before ts bytes y w → HasNext v.state p next ts → HoldRecords v t
        → (after : List Intent)
        → after ≡ pending_after p next ts (members v.state.components m.name)
        → IsPermutation (intent_rows 1 after) t.intents
        → t.patches ≡ patch_rows (left_to_lay after bytes) → KeepsClaims ts y u w
        → Leads t after (left_to_lay after bytes) y (as_left v p away)
        × KeepsClaims after y u (as_left v p away) }
{}
