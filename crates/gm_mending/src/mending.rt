//! The command `mend`.

ghost use Rattle.std.specs.Prelude.{IfOk, OnOk};
ghost use Rattle.gm_bench.specs.Benches.{progress_of};
ghost use Rattle.gm_bench.specs.Phases.{TakesCommands};
ghost use Rattle.gm_process.specs.Statuses.{MayRefuse};

use crate::compared::{Compared, compare};
use crate::doubts::{doubts_of, is_agreed};
use crate::others::{has_another_size, others_than};
use crate::owed::{Owed, owed_of};
use crate::repair::{Target, fills_by_itself, repair_of, repair_words, set_before, target_of};
use crate::sayings::{Difference, say_as_registered, say_differs, say_no_component, withhold};
use gm_bench::Bench;
use gm_by_itself::{first_key, hand_in_by_itself};
use gm_command_line::{Checks, Mending, Single, Unnumbered};
use gm_commands::is_key;
use gm_faults::Fault;
use gm_handing_in::are_free;
use gm_in_use::images_of;
use gm_lines::shown;
use gm_looks::{Standing, Unlike};
use gm_metadata::Label;
use gm_process::{Meter, Status, Streams};
use gm_shelf::{FileShelf, Shelf};
use gm_state::State;
use gm_unlike::standing_among;
use sqlite::Alter;
use std::io::{BufRead, Write};

// Why an image isn't mended that isn't there in its size.
const ANOTHER_SIZE: &str = "mend writes the last sector of an image that is there in its size";

// How it is mended though other images are in the way.
const UNCHECKED: &str = "--unchecked does it anyway";

// What is looked at before the command is handed in, when all of it was looked at before.
const LOOKED_AT: Checks = Checks {
    images: false,
    losses: false,
    uses: false,
};

// What is to be mended, and under which key.
#[derive(Clone, Copy)]
struct Case<'a> {
    mending: &'a Mending<'a>,
    key: &'a str,
    state: &'a State,
    target: Target,
}

// Hands in the command that sets this.
fn hand_in<S: Alter, H: Shelf, I: BufRead, O: Write, E: Write>(
    rt: &HostRuntime,
    case: &Case<'_>,
    fills: bool,
    bench: &mut Bench<S, H>,
    streams: &mut Streams<'_, I, O, E>,
) -> Result<Status, Fault>
    requires { TakesCommands (progress_of bench.old) }
    ensures ends { IfOk result MayRefuse }
    ensures phase { OnOk result (TakesCommands (progress_of bench.new)) }
{
    let name = case.target.mirror.name;
    let words = repair_words(rt.alloc(), &name, fills)?;
    let single = Single {
        key: Some(case.key),
        words: &words,
        unnumbered: Unnumbered {
            mirror: false,
            component: false,
        },
        checks: LOOKED_AT,
        form: case.mending.form,
    };
    hand_in_by_itself(rt, single, bench, streams)
}

// What is found of the image, beside that of its mirror's source.
fn compared_in<I, O, E: Write>(
    rt: &HostRuntime,
    case: &Case<'_>,
    streams: &mut Streams<'_, I, O, E>,
) -> Result<Compared, Fault> {
    let Target { mirror, component } = case.target;
    let image = component.provider;
    let owed = owed_of(case.state, &mirror, &component);
    let source = match owed {
        Owed::With { source, .. } => source,
        _ => image,
    };
    let folder = streams.explaining.folder.as_str();
    let mut shelf = FileShelf::look_at(rt, folder, &[source, image])?;
    let style = streams.explaining.style(case.mending.is_quiet);
    let mut meter = Meter::new(rt, streams.complaints, style);
    let compared = compare(&mut shelf, owed, image, &mut meter);
    meter.end();
    streams.explaining.failure = shelf.last_failure();
    Ok(compared?)
}

// Mends the image, which stands so, if its data are the source's. What isn't sure is asked.
fn mend_compared<S: Alter, H: Shelf, I: BufRead, O: Write, E: Write>(
    rt: &HostRuntime,
    case: &Case<'_>,
    standing: Standing,
    bench: &mut Bench<S, H>,
    streams: &mut Streams<'_, I, O, E>,
) -> Result<Status, Fault>
    requires { TakesCommands (progress_of bench.old) }
    ensures ends { IfOk result MayRefuse }
    ensures phase { OnOk result (TakesCommands (progress_of bench.new)) }
{
    let alloc = rt.alloc();
    let component = case.target.component;
    let form = case.mending.form;
    let compared = compared_in(rt, case, streams)?;
    if let Compared::Differs {
        source,
        sectors,
        first,
    } = compared
    {
        let difference = Difference {
            source,
            sectors,
            first,
        };
        return say_differs(alloc, case.key, &component, difference, form, streams);
    }
    let doubts = doubts_of(alloc, compared, standing)?;
    if case.mending.checks.losses
        && !is_agreed(alloc, shown(case.key), form, &component, &doubts, streams)?
    {
        return Ok(Status::Refused);
    }
    hand_in(
        rt,
        case,
        fills_by_itself(&case.target.mirror),
        bench,
        streams,
    )
}

// Mends the image, which stands so, if no other image of the mirror is in the way, and nothing else
// uses one.
fn mend_standing<S: Alter, H: Shelf, I: BufRead, O: Write, E: Write>(
    rt: &HostRuntime,
    case: &Case<'_>,
    standing: Standing,
    unlike: &[Unlike],
    bench: &mut Bench<S, H>,
    streams: &mut Streams<'_, I, O, E>,
) -> Result<Status, Fault>
    requires { TakesCommands (progress_of bench.old) }
    ensures ends { IfOk result MayRefuse }
    ensures phase { OnOk result (TakesCommands (progress_of bench.new)) }
{
    let alloc = rt.alloc();
    let Case {
        mending,
        key,
        state,
        target,
    } = *case;
    let provider = mending.image;
    if has_another_size(standing) {
        let list = [Unlike { provider, standing }];
        return withhold(rt, key, &list, ANOTHER_SIZE, mending.form, streams);
    }
    let others = others_than(alloc, unlike, provider)?;
    if mending.checks.images && !others.is_empty() {
        return withhold(rt, key, &others, UNCHECKED, mending.form, streams);
    }
    if mending.checks.uses {
        let images = images_of(alloc, state, &repair_of(&target.mirror))?;
        if !are_free(rt, shown(key), mending.form, &images, streams)? {
            return Ok(Status::Refused);
        }
    }
    mend_compared(rt, case, standing, bench, streams)
}

// Mends the image, if it isn't as it is registered. A key that is none, or that a command has, is
// answered without a look.
fn mend_case<S: Alter, H: Shelf, I: BufRead, O: Write, E: Write>(
    rt: &HostRuntime,
    case: &Case<'_>,
    bench: &mut Bench<S, H>,
    streams: &mut Streams<'_, I, O, E>,
) -> Result<Status, Fault>
    requires { TakesCommands (progress_of bench.old) }
    ensures ends { IfOk result MayRefuse }
    ensures phase { OnOk result (TakesCommands (progress_of bench.new)) }
{
    let alloc = rt.alloc();
    let mirror = case.target.mirror;
    if !is_key(case.key) {
        return hand_in(rt, case, fills_by_itself(&mirror), bench, streams);
    }
    if let Some(kept) = bench.kept(case.key)? {
        let fills = set_before(alloc, &mirror, kept.words.as_str())?;
        return hand_in(rt, case, fills, bench, streams);
    }
    let unlike = bench.unlike(alloc, &repair_of(&mirror))?;
    match standing_among(&unlike, case.mending.image) {
        Some(standing) => mend_standing(rt, case, standing, &unlike, bench, streams),
        None => say_as_registered(alloc, case.mending.image, case.mending.form, streams),
    }
}

/// Writes the registered last sector of a component's image again, if the image hasn't it, by a
/// command that changes nothing, and prints what that is answered. Nothing is handed in if the
/// image has other data than its mirror's source, or another size; if another image of the mirror
/// isn't as it is registered, or one is in use; or if nothing shows that the image is the
/// component's, and that isn't wanted all the same.
pub fn mend<S: Alter, H: Shelf, I: BufRead, O: Write, E: Write>(
    rt: &HostRuntime,
    mending: &Mending<'_>,
    bench: &mut Bench<S, H>,
    streams: &mut Streams<'_, I, O, E>,
) -> Result<Status, Fault>
    requires { TakesCommands (progress_of bench.old) }
    ensures ends { IfOk result MayRefuse }
    ensures phase { OnOk result (TakesCommands (progress_of bench.new)) }
{
    let alloc = rt.alloc();
    let state = bench.view(alloc)?;
    let key = first_key(alloc, mending.key, bench)?;
    let key = key.as_str();
    match target_of(&state, mending.image) {
        Some(target) => {
            let case = Case {
                mending,
                key,
                state: &state,
                target,
            };
            mend_case(rt, &case, bench, streams)
        }
        None => say_no_component(alloc, key, mending.image, mending.form, streams),
    }
}
