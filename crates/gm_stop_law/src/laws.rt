//! What holds of every stop.

ghost use Rattle.std.specs.Prelude.{List};
ghost use Rattle.sqlite.specs.Held.{Held};
ghost use Rattle.gm_metadata.specs.Images.{Sizes};
ghost use Rattle.gm_bench.specs.Schedule.{Event, Now, Runs};
ghost use Rattle.gm_stop_law.specs.NeverStrange.{NeverStrange};

use gm_bench::whole_run_law;
use gm_shelf::Shelf;
use sqlite::Alter;

/// With an honest shelf and a disk that keeps what is written, whatever is handed in, wherever it
/// is stopped, recoveries and losses included: none of the images that the pending writes need is
/// strange, by the records that are registered and the commands that were accepted. So the look
/// before an opening leaves out no image for what a stop left of it.
pub fn nothing_left_is_strange<S: Alter, H: Shelf>()
    ensures { (all : Sizes) (events : List (Event (Held S) H)) (now : Now (Held S) H)
        → Runs S.Store H.Shelf all events now → NeverStrange H.Shelf now.phase now.away }
{
    whole_run_law::<S, H>();
}
