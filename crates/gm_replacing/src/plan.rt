//! What is left of a replacement, and what that comes to: decided before the first command of it is
//! handed in.

ghost use Rattle.std.specs.Prelude.{◌≡◌, OnOk};
ghost use Rattle.gm_bench.specs.Benches.{progress_of};

use crate::commands::exchange_of;
use crate::stopped::Stopped;
use gm_bench::Bench;
use gm_by_itself::free_did;
use gm_command_line::Replacing;
use gm_faults::Fault;
use gm_process::Streams;
use gm_refusals::Facts;
use gm_shelf::{FileShelf, Shelf};
use gm_state::State;
use gm_ways::{Exchange, Judged, Step, facts_of, judge, names_of};
use sqlite::Alter;

/// Steps that are left, and what they come to.
#[derive(Drop)]
pub(crate) struct Plan {
    pub(crate) steps: Vec<Step>,
    /// A number that a new component may have: it is judged by this one, before one is drawn.
    pub(crate) did: u32,
    pub(crate) judged: Judged,
}

// What is seen of the images that the steps are about.
fn facts_in<I, O, E>(
    rt: &HostRuntime,
    state: &State,
    exchange: &Exchange,
    streams: &mut Streams<'_, I, O, E>,
) -> Result<Facts, Fault> {
    let folder = streams.explaining.folder.as_str();
    let names = names_of(rt.alloc(), state, exchange)?;
    let mut shelf = FileShelf::look_at(rt, folder, &names)?;
    let facts = facts_of(rt.alloc(), &mut shelf, &names);
    streams.explaining.failure = shelf.last_failure();
    Ok(facts?)
}

/// What these steps come to, by the records and the images as they are. Nothing is handed in.
pub(crate) fn plan_of<S: Alter, H: Shelf, I, O, E>(
    rt: &HostRuntime,
    replacing: &Replacing<'_>,
    steps: Vec<Step>,
    bench: &mut Bench<S, H>,
    streams: &mut Streams<'_, I, O, E>,
) -> Result<Plan, Stopped>
    ensures { OnOk result (progress_of bench.new ≡ progress_of bench.old) }
{
    let alloc = rt.alloc();
    let exchange = exchange_of(replacing);
    let state = bench.view(alloc)?;
    let did = free_did(alloc, &state, replacing.mirror.as_str())?.unwrap_or(0);
    let facts = facts_in(rt, &state, &exchange, streams)?;
    let judged = judge(alloc, state, &facts, &exchange, did, &steps)?;
    Ok(Plan { steps, did, judged })
}
