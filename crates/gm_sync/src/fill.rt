//! Fills what is SYNCHRONIZING.

ghost use Rattle.std.specs.Prelude.{◌≡◌, IfErr, IfOk, OnOk, map, string_bytes};
ghost use Rattle.gm_bench.specs.Benches.{progress_of, registry_of, shelf_of};
ghost use Rattle.gm_bench.specs.Calls.{Keep};
ghost use Rattle.gm_bench.specs.Phases.{TakesCommands, TakesNext};
ghost use Rattle.gm_sync.specs.Ends.{ComponentEnds, EndsAs, FillsEach, unfilled_at};
ghost use Rattle.gm_sync.specs.Faults.{FailsFilling, FailsFillingOn};
ghost use Rattle.gm_sync.specs.Filling.{AnswersOn, Fills, FillsBy, FillsByOn, FillsOn, GoesOnTo, IsAdvanceIn, IsAdvanceOf, IsStill, IsWhole, Refuses, RefusesOn, RefusesOneOf};
ghost use Rattle.gm_sync.specs.Series.{key_of, keys_after, used_by};

use crate::due::Due;
use crate::synced::Ending;
use gm_bench::{Answer, Bench, BenchFault, MAX_SERIES, SeriesAnswer};
use gm_metadata::Label;
use gm_refusals::CallRefusal;
use gm_shelf::Shelf;
use gm_state::{Component, Reply, State};
use sqlite::Alter;
use std::alloc::{AllocError, Global};

/// Is told what is filled.
pub trait Progress {
    /// The mirrors, and how many commands were accepted until then: before the first component is
    /// filled, and after the last.
    fn looked(&mut self, state: &State, accepted: u64);
    /// A component has so many data sectors, of so many in all. It is told once a series of
    /// stretches.
    fn filled(&mut self, provider: Label, held: u32, total: u32);
}

// The key of a number.
fn key_of(alloc: Global, number: u64) -> Result<String, AllocError>
    ensures { IfOk result (λ key. string_bytes key ≡ key_of number) }
{
    format!(in alloc; "sync-{number}")
}

// The keys after a number, as many as a series has.
fn keys_after(alloc: Global, number: u64) -> Result<Vec<String>, AllocError>
    ensures { IfOk result (λ keys. map string_bytes keys.items ≡ keys_after number 64) }
{
    let mut keys = Vec::with_capacity(alloc, MAX_SERIES)?;
    let mut number = number;
    for _ in 0..MAX_SERIES {
        number = number.saturating_add(1);
        keys.push(key_of(alloc, number)?)?;
    }
    Ok(keys)
}

// A series of stretches of a component, and how it is answered under the keys after a number. It
// settles the series before, and is still to be settled.
fn advance<S: Alter, H: Shelf>(
    alloc: Global,
    bench: &mut Bench<S, H>,
    component: &Component,
    number: u64,
) -> Result<SeriesAnswer, BenchFault>
    requires { TakesNext (progress_of bench.old) }
    ensures phase { TakesNext (progress_of bench.new) }
    ensures keep { Keep S.Store H.Shelf (registry_of bench.old) (registry_of bench.new)
        (shelf_of bench.old) (shelf_of bench.new) }
    ensures fills { OnOk result
        (FillsOn S.Store H.Shelf (IsAdvanceOf component.now) bench.old bench.new) }
    ensures answers { IfOk result
        (AnswersOn S.Store H.Shelf (IsAdvanceOf component.now) number bench.old bench.new) }
    ensures faults { IfErr result
        (FailsFillingOn S.Store H.Shelf (IsAdvanceOf component.now) bench.old bench.new) }
{
    match keys_after(alloc, number) {
        Ok(keys) => {
            let (name, provider) = (component.mirror, component.provider);
            let answered = bench.hand_in_series(alloc, keys.as_slice(), name, provider)?;
            Ok(answered.unwrap())
        }
        Err(_) => Err(BenchFault::Memory),
    }
}

// How many of the keys are used: those of what is done, or the first.
fn used_by(answered: &SeriesAnswer) -> u64
    ensures { result ≡ used_by answered.now }
{
    match answered.answer {
        Answer::Done(_, _) => answered.count,
        Answer::Repeated(_, _) | Answer::Refused(_) => 1,
    }
}

// How the filling of a component ended.
#[derive(Drop)]
enum ComponentEnd {
    // No sector is left.
    Filled,
    // An advance is refused.
    Refused(CallRefusal),
    // So often a series was asked for, and the component still isn't filled.
    Endless,
}

// Fills one component, or finds why that is refused. The number is that of the last key; keys that
// were taken before are gone round. The last series is still to be settled.
fn fill_stretches<S: Alter, H: Shelf, P: Progress>(
    alloc: Global,
    bench: &mut Bench<S, H>,
    component: &Component,
    number: &mut u64,
    progress: &mut P,
) -> Result<ComponentEnd, BenchFault>
    requires { TakesNext (progress_of bench.old) }
    ensures phase { TakesNext (progress_of bench.new) }
    ensures keep { Keep S.Store H.Shelf (registry_of bench.old) (registry_of bench.new)
        (shelf_of bench.old) (shelf_of bench.new) }
    ensures fills { OnOk result
        (FillsOn S.Store H.Shelf (IsAdvanceOf component.now) bench.old bench.new) }
    ensures ends { IfOk result (ComponentEnds
        (RefusesOn S.Store H.Shelf (IsAdvanceOf component.now) bench.old bench.new)
        (FillsByOn S.Store H.Shelf (IsAdvanceOf component.now) bench.old bench.new)) }
    ensures faults { IfErr result
        (FailsFillingOn S.Store H.Shelf (IsAdvanceOf component.now) bench.old bench.new) }
    ensures numbers { OnOk result (GoesOnTo S.Store H.Shelf (IsAdvanceOf component.now)
        bench.old bench.new number.old number.new) }
{
    for _ in 0..u64::MAX {
        let answered = advance(alloc, bench, component, *number)?;
        *number = number.saturating_add(used_by(&answered));
        match answered.answer {
            Answer::Done(_, Reply::Copied { held, total }) => {
                progress.filled(component.provider, held, total);
                if held == total {
                    return Ok(ComponentEnd::Filled);
                }
            }
            Answer::Done(_, Reply::Plain) | Answer::Repeated(_, _) => {}
            Answer::Refused(CallRefusal::KeyTaken) => {}
            Answer::Refused(why) => return Ok(ComponentEnd::Refused(why)),
        }
    }
    Ok(ComponentEnd::Endless)
}

// The same, and settles the last series.
fn fill_one<S: Alter, H: Shelf, P: Progress>(
    alloc: Global,
    bench: &mut Bench<S, H>,
    component: &Component,
    number: &mut u64,
    progress: &mut P,
) -> Result<ComponentEnd, BenchFault>
    requires { TakesCommands (progress_of bench.old) }
    ensures phase { TakesCommands (progress_of bench.new) }
    ensures keep { Keep S.Store H.Shelf (registry_of bench.old) (registry_of bench.new)
        (shelf_of bench.old) (shelf_of bench.new) }
    ensures fills { OnOk result
        (Fills S.Store H.Shelf (IsAdvanceOf component.now) bench.old bench.new) }
    ensures ends { IfOk result (ComponentEnds (Refuses S.Store H.Shelf (IsAdvanceOf component.now)
        (IsAdvanceOf component.now) bench.old bench.new)
        (FillsBy S.Store H.Shelf (IsAdvanceOf component.now) bench.old bench.new)) }
    ensures faults { IfErr result
        (FailsFilling S.Store H.Shelf (IsAdvanceOf component.now) bench.old bench.new) }
{
    let filled = fill_stretches(alloc, bench, component, number, progress);
    let settled = bench.settle_waiting();
    let end = filled?;
    settled?;
    Ok(end)
}

// What isn't filled, and why: a component, of which an advance is refused, or none is told.
#[derive(Drop)]
struct Unfilled {
    provider: Option<Label>,
    why: CallRefusal,
}

// What isn't filled if the filling of the component on a provider ended so.
fn unfilled_at(provider: Label, end: ComponentEnd) -> Option<Unfilled>
    ensures { result ≡ unfilled_at provider end }
{
    match end {
        ComponentEnd::Filled => None,
        ComponentEnd::Refused(why) => Some(Unfilled {
            provider: Some(provider),
            why,
        }),
        ComponentEnd::Endless => Some(Unfilled {
            provider: None,
            why: CallRefusal::NoRoom,
        }),
    }
}

// Fills each component that is due and SYNCHRONIZING by a state, in the state's order, or finds
// one that isn't filled. So many commands were accepted before.
fn fill_each<S: Alter, H: Shelf, P: Progress>(
    alloc: Global,
    bench: &mut Bench<S, H>,
    due: &Due,
    state: &State,
    accepted: u64,
    progress: &mut P,
) -> Result<Option<Unfilled>, BenchFault>
    requires { TakesCommands (progress_of bench.old) }
    ensures phase { TakesCommands (progress_of bench.new) }
    ensures fills { OnOk result
        (Fills S.Store H.Shelf (IsAdvanceIn due.now) bench.old bench.new) }
    ensures keep { Keep S.Store H.Shelf (registry_of bench.old) (registry_of bench.new)
        (shelf_of bench.old) (shelf_of bench.new) }
    ensures ends { IfOk result (FillsEach
        (RefusesOneOf S.Store H.Shelf due.now bench.old bench.new)
        (FillsBy S.Store H.Shelf (IsAdvanceIn due.now) bench.old bench.new) due.now state.now) }
    ensures faults { IfErr result
        (FailsFilling S.Store H.Shelf (IsAdvanceIn due.now) bench.old bench.new) }
{
    let mut number = accepted;
    for component in state.components() {
        if !due.is_next(state, component) {
            continue;
        }
        let end = fill_one(alloc, bench, component, &mut number, progress)?;
        if let Some(unfilled) = unfilled_at(component.provider, end) {
            return Ok(Some(unfilled));
        }
    }
    Ok(None)
}

/// Fills whatever is due and SYNCHRONIZING, one component after the other. The mirrors are looked
/// at whole before the first and after the last, and not in between.
pub(crate) fn fill<S: Alter, H: Shelf, P: Progress>(
    alloc: Global,
    bench: &mut Bench<S, H>,
    due: &Due,
    progress: &mut P,
) -> Result<Ending, BenchFault>
    requires { TakesCommands (progress_of bench.old) }
    ensures phase { TakesCommands (progress_of bench.new) }
    ensures keep { Keep S.Store H.Shelf (registry_of bench.old) (registry_of bench.new)
        (shelf_of bench.old) (shelf_of bench.new) }
    ensures fills { OnOk result
        (Fills S.Store H.Shelf (IsAdvanceIn due.now) bench.old bench.new) }
    ensures ends { IfOk result (EndsAs (IsWhole S.Store H.Shelf bench.old bench.new due.now)
        (RefusesOneOf S.Store H.Shelf due.now bench.old bench.new)
        (FillsBy S.Store H.Shelf (IsAdvanceIn due.now) bench.old bench.new)) }
    ensures still { OnOk result (IsStill S.Store H.Shelf bench.old bench.new due.now) }
    ensures faults { IfErr result
        (FailsFilling S.Store H.Shelf (IsAdvanceIn due.now) bench.old bench.new) }
{
    for _ in 0..u64::MAX {
        let accepted = bench.accepted()?;
        let state = bench.view(alloc)?;
        progress.looked(&state, accepted);
        if due.next_of(&state).is_none() {
            return Ok(Ending::Whole(state));
        }
        if let Some(unfilled) = fill_each(alloc, bench, due, &state, accepted, progress)? {
            return Ok(Ending::Refused {
                provider: unfilled.provider,
                why: unfilled.why,
            });
        }
    }
    Ok(Ending::Refused {
        provider: None,
        why: CallRefusal::NoRoom,
    })
}
