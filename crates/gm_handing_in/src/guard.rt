//! A guard against losses: a command that would lose something isn't handed in unless it is forced.

ghost use Rattle.std.specs.Prelude.{◌≡◌, [], IfOk, IsTrue, OnOk};
ghost use Rattle.gm_bench.specs.Benches.{progress_of};
ghost use Rattle.gm_bench.specs.Phases.{TakesCommands};
ghost use Rattle.gm_lines.specs.Asked.{asked_of};
ghost use Rattle.gm_handing_in.specs.Guarded.{IsWeighed};

use crate::lost_by::losses_unwatched;
use gm_bench::{Bench, Unwatched};
use gm_commands::{Command, is_key};
use gm_faults::Fault;
use gm_front::{Guarded, ask_guarded, in_the_way};
use gm_in_use::{first_in_use, images_of, in_use_sentence};
use gm_lines::Request;
use gm_shelf::Shelf;
use gm_state::State;
use sqlite::Alter;
use std::alloc::{AllocError, Global};

/// Where the images are that a guard looks at.
#[derive(Clone, Copy)]
pub(crate) struct Ground<'a> {
    pub(crate) rt: &'a HostRuntime,
    pub(crate) folder: &'a str,
}

/// What a command comes to that is handed in only if nothing speaks against it.
#[derive(Drop)]
pub(crate) enum Weighed<'a> {
    /// It wasn't handed in under this key, because of what these sentences say.
    Losing(&'a str, Vec<String>),
    /// Nothing spoke against it: what it came to.
    Passed(Guarded<'a>),
}

impl Ground<'_> {
    // What speaks against a command, in sentences, by these mirrors and by the images as they are
    // now: what would be lost by it, and the first image that something else uses.
    fn objections(&self, state: &State, command: &Command) -> Result<Vec<String>, Fault> {
        let alloc = self.rt.alloc();
        let mut sentences = losses_unwatched(self.rt, self.folder, state, command)?;
        let images = images_of(alloc, state, command)?;
        let Some(used) = first_in_use(self.rt, self.folder, &images)? else {
            return Ok(sentences);
        };
        let sentence = in_use_sentence(alloc, &used)?;
        match sentences.push(sentence) {
            Ok(()) => Ok(sentences),
            Err(error) => Err(AllocError::from(error).into()),
        }
    }
}

// What speaks against handing in a command under a key. Nothing does if the command is answered
// without being carried out, or if images stand in its way, which are told themselves.
fn against_unforced<S: Alter, H: Shelf>(
    ground: Ground<'_>,
    bench: &mut Bench<S, H>,
    key: &str,
    command: &Command,
) -> Result<Vec<String>, Fault>
    ensures same { OnOk result (progress_of bench.new ≡ progress_of bench.old) }
    ensures phase { TakesCommands (progress_of bench.old) → TakesCommands (progress_of bench.new) }
{
    let alloc = ground.rt.alloc();
    if !is_key(key) || bench.kept(key)?.is_some() {
        return Ok(Vec::new(alloc));
    }
    if !in_the_way(alloc, bench, key, command)?.is_empty() {
        return Ok(Vec::new(alloc));
    }
    let state = bench.view(alloc)?;
    ground.objections(&state, command)
}

/// What speaks against handing in a command under a key, in sentences; nothing does if it is
/// forced. The bench is only looked at.
pub(crate) fn against<S: Alter, H: Shelf>(
    ground: Ground<'_>,
    bench: &mut Bench<S, H>,
    key: &str,
    command: &Command,
    forced: bool,
) -> Result<Vec<String>, Fault>
    ensures forced { IsTrue forced → IfOk result (λ against. against.items ≡ []) }
    ensures same { OnOk result (progress_of bench.new ≡ progress_of bench.old) }
    ensures phase { TakesCommands (progress_of bench.old) → TakesCommands (progress_of bench.new) }
{
    if forced {
        return Ok(Vec::new(ground.rt.alloc()));
    }
    against_unforced(ground, bench, key, command)
}

// Asks the bench what a line asks, if nothing speaks against the command that it asks under a key,
// and no image stands in its way.
fn ask_unless<'a, S: Alter, H: Shelf>(
    alloc: Global,
    bench: &mut Bench<S, H>,
    key: &'a str,
    request: &Request<'a>,
    against: Vec<String>,
) -> Weighed<'a>
    requires { TakesCommands (progress_of bench.old) }
    ensures weighed { IsWeighed S.Store H.Shelf bench.old bench.new (asked_of request.now)
        against.items result }
    ensures phase { TakesCommands (progress_of bench.new) }
{
    if against.is_empty() {
        return Weighed::Passed(ask_guarded(alloc, bench, request, &mut Unwatched));
    }
    Weighed::Losing(key, against)
}

/// Asks the bench what a line asks; but a command isn't handed in if images stand in its way, or,
/// unless it is forced, if something would be lost by it.
pub(crate) fn ask_weighed<'a, S: Alter, H: Shelf>(
    ground: Ground<'_>,
    bench: &mut Bench<S, H>,
    request: &Request<'a>,
    forced: bool,
) -> Result<Weighed<'a>, Fault>
    requires { TakesCommands (progress_of bench.old) }
    ensures { TakesCommands (progress_of bench.new) }
{
    let alloc = ground.rt.alloc();
    let Request::Call(key, ref command) = *request else {
        let guarded = ask_guarded(alloc, bench, request, &mut Unwatched);
        return Ok(Weighed::Passed(guarded));
    };
    match against(ground, bench, key, command, forced) {
        Ok(against) => Ok(ask_unless(alloc, bench, key, request, against)),
        Err(Fault::Bench(fault)) => Ok(Weighed::Passed(Guarded::Unlooked(key, fault))),
        Err(fault) => Err(fault),
    }
}
