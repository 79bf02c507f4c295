//! Fills the new image of a replacement.

ghost use Rattle.std.specs.Prelude.{◌≡◌, IfOk, OnOk};
ghost use Rattle.gm_state.specs.Records.{Records};
ghost use Rattle.gm_state.specs.Rows.{Tables};
ghost use Rattle.gm_state.specs.States.{component_state};
ghost use Rattle.gm_rows.specs.ReadableTables.{AreRecordsOf};
ghost use Rattle.gm_registry.specs.Registry.{DiskKept, HasTables};
ghost use Rattle.gm_bench.specs.Benches.{progress_of, registry_of};
ghost use Rattle.gm_bench.specs.Phases.{TakesCommands};
ghost use Rattle.gm_replacing.specs.Filled.{is_active};

use crate::stopped::Stopped;
use gm_bench::{Bench, BenchFault};
use gm_command_line::{Filling, Form, Replacing, Scope};
use gm_filling::fill_components;
use gm_metadata::Label;
use gm_process::{Status, Streams};
use gm_shelf::Shelf;
use gm_state::{ComponentState, State, component_state};
use sqlite::Alter;
use std::alloc::Global;
use std::io::Write;

// Whether that is the state of a component that is there and ACTIVE.
fn is_active_state(state: Option<ComponentState>) -> bool
    ensures { result ≡ is_active state }
{
    matches!(state, Some(ComponentState::Active))
}

/// Whether an image is an ACTIVE component, by these records.
pub(crate) fn is_active_in(state: &State, image: Label) -> bool
    ensures { result ≡ is_active (component_state state.now image) }
{
    is_active_state(component_state(state, image))
}

// The state of an image as a component, by the records of the registry.
fn state_of<S: Alter, H: Shelf>(
    alloc: Global,
    bench: &mut Bench<S, H>,
    image: Label,
) -> Result<Option<ComponentState>, BenchFault>
    ensures state { DiskKept S.Store (registry_of bench.new) → IfOk result (λ found. (t : Tables)
        (s : Records) → HasTables S.Store (registry_of bench.old) t → AreRecordsOf t s
        → found ≡ component_state s image) }
    ensures progress { OnOk result (progress_of bench.new ≡ progress_of bench.old) }
{
    let state = bench.view(alloc)?;
    Ok(component_state(&state, image))
}

// Says why a sync doesn't fill an image, if that isn't said elsewhere.
fn say_inactive<E: Write>(complaints: &mut E, state: Option<ComponentState>, image: Label) {
    if let Some(ComponentState::Inactive) = state {
        let _ = writeln!(
            complaints,
            "{image} is INACTIVE: activate lets it be filled"
        );
    }
}

/// Fills the new image, and prints its state. It goes on only if that is ACTIVE then.
pub(crate) fn fill_new<S: Alter, H: Shelf, I, O: Write, E: Write>(
    rt: &HostRuntime,
    replacing: &Replacing<'_>,
    bench: &mut Bench<S, H>,
    streams: &mut Streams<'_, I, O, E>,
) -> Result<(), Stopped>
    requires { TakesCommands (progress_of bench.old) }
    ensures { OnOk result (TakesCommands (progress_of bench.new)) }
{
    let filling = Filling {
        scope: Scope::Component {
            mirror: replacing.mirror,
            provider: replacing.new,
        },
        audits: replacing.checks.images,
        heeds_use: replacing.checks.uses,
        is_quiet: replacing.is_quiet,
        form: Form::Text,
    };
    let report = fill_components(rt, filling, bench, streams)?;
    streams.output.write_all(report.text.as_bytes())?;
    streams.output.flush()?;
    if report.status != Status::Done {
        return Err(Stopped::Refused);
    }
    let state = state_of(rt.alloc(), bench, replacing.new)?;
    if is_active_state(state) {
        return Ok(());
    }
    say_inactive(streams.complaints, state, replacing.new);
    Err(Stopped::Refused)
}
