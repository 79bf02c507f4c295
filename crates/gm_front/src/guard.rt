//! A guard before a command: it is handed in only if the images that it is about are as they are
//! registered.

ghost use Rattle.std.specs.Prelude.{◌≡◌, [], IfOk, IsErrOf};
ghost use Rattle.std.specs.String.{string_bytes};
ghost use Rattle.gm_metadata.specs.Images.{Image};
ghost use Rattle.gm_state.specs.Records.{Records};
ghost use Rattle.gm_state.specs.Rows.{Tables};
ghost use Rattle.gm_state.specs.World.{World};
ghost use Rattle.gm_rows.specs.ReadableTables.{AreRecordsOf};
ghost use Rattle.gm_registry.specs.Registry.{DiskKept, HasTables};
ghost use Rattle.gm_registry.specs.Replies.{AreWrittenUnder};
ghost use Rattle.gm_bench.specs.Benches.{progress_of, registry_of, shelf_of};
ghost use Rattle.gm_bench.specs.Calls.{ClosesOnFault, Keep, TellsStore};
ghost use Rattle.gm_bench.specs.Phases.{TakesCommands};
ghost use Rattle.gm_bench.specs.Recovering.{IsAt};
ghost use Rattle.gm_front.specs.Findings.{TellsStoreAt};
ghost use Rattle.gm_front.specs.Closing.{KeepsClosed};
ghost use Rattle.gm_front.specs.Guards.{ComesToGuarded, IsGuarded, OnlyLooks, StoodInTheWay, guarded_fault, progress_guarded, withheld_message, withheld_text};
ghost use Rattle.gm_lines.specs.Asked.{asked_of};

use crate::outcome::{Outcome, ask};
use gm_bench::{Bench, BenchFault, Watch};
use gm_commands::Command;
use gm_lines::{Request, shown};
use gm_looks::Unlike;
use gm_shelf::Shelf;
use gm_unlike::{unlike_lines, unlike_words};
use sqlite::Alter;
use std::alloc::{AllocError, Global};

/// What a request comes to whose command is handed in only if nothing stands in its way.
#[derive(Drop)]
pub enum Guarded<'a> {
    /// Nothing stood in its way, or it is no command: what it came to.
    Through(Outcome<'a>),
    /// It wasn't handed in under this key, because of these components.
    Withheld(&'a str, Vec<Unlike>),
    /// It wasn't handed in under this key, because the bench failed at the look.
    Unlooked(&'a str, BenchFault),
}

/// What stands in the way of a command under a key: the components that it is about whose images
/// aren't as they are registered, in byte order. Nothing does if a command was accepted under the
/// key already, because then nothing is done anew. `Closed` after an earlier fault; any other fault
/// closes the bench.
pub fn in_the_way<S: Alter, H: Shelf>(
    alloc: Global,
    bench: &mut Bench<S, H>,
    key: &str,
    command: &Command,
) -> Result<Vec<Unlike>, BenchFault>
    ensures stood { H.honest (shelf_of bench.old) → DiskKept S.Store (registry_of bench.new)
        → IfOk result (λ list.
        StoodInTheWay S.Store H.Shelf bench.old key.now command.now list.items) }
    ensures readable { H.honest (shelf_of bench.old) → DiskKept S.Store (registry_of bench.new)
        → IsErrOf result BenchFault.Unreadable → (t : Tables) (s : Records)
        → HasTables S.Store (registry_of bench.old) t → AreRecordsOf t s
        → AreWrittenUnder key.now t → ⊥ }
    ensures store { H.honest (shelf_of bench.old)
        → TellsStore S.Store (registry_of bench.old) (registry_of bench.new) result }
    ensures looks { OnlyLooks S.Store H.Shelf bench.old bench.new result }
    ensures closes { ClosesOnFault bench.old bench.new result }
{
    if bench.kept(key)?.is_some() {
        return Ok(Vec::new(alloc));
    }
    let list = bench.unlike(alloc, command)?;
    Ok(list)
}

/// Asks the bench what a line asks, in phase Ready or Failed; but a command isn't handed in if
/// images that it is about aren't as they are registered. The watch is told how far data are
/// compared, which `adopt` does.
pub fn ask_guarded<'a, S: Alter, H: Shelf, W: Watch>(
    alloc: Global,
    bench: &mut Bench<S, H>,
    request: &Request<'a>,
    watch: &mut W,
) -> Guarded<'a>
    requires { TakesCommands (progress_of bench.old) }
    ensures comes { H.honest (shelf_of bench.old) → DiskKept S.Store (registry_of bench.new)
        → (away : Image) (u : World)
        → IsAt S.Store H.Shelf (registry_of bench.old) (shelf_of bench.old) away [] [] u u
        → ComesToGuarded S.Store H.Shelf bench.old bench.new away u (asked_of request.now)
        result }
    ensures guarded { H.honest (shelf_of bench.old) → DiskKept S.Store (registry_of bench.new)
        → IsGuarded S.Store H.Shelf bench.old bench.new (asked_of request.now) result }
    ensures progress { progress_of bench.new
        ≡ progress_guarded (progress_of bench.old) result }
    ensures closes { KeepsClosed bench.old bench.new (guarded_fault result) }
    ensures store { TellsStoreAt S.Store H.Shelf bench.old bench.new (guarded_fault result) }
    ensures keep { Keep S.Store H.Shelf (registry_of bench.old) (registry_of bench.new)
        (shelf_of bench.old) (shelf_of bench.new) }
{
    let Request::Call(key, ref command) = *request else {
        return Guarded::Through(ask(alloc, bench, request, watch));
    };
    match in_the_way(alloc, bench, key, command) {
        Ok(list) if list.is_empty() => Guarded::Through(ask(alloc, bench, request, watch)),
        Ok(list) => Guarded::Withheld(key, list),
        Err(fault) => Guarded::Unlooked(key, fault),
    }
}

/// The same as `withheld_text` in one line, without the key.
pub(crate) fn withheld_message(alloc: Global, list: &[Unlike]) -> Result<String, AllocError>
    ensures { IfOk result (λ text. string_bytes text ≡ withheld_message list.now) }
{
    let words = unlike_words(alloc, list)?;
    format!(in alloc; "not done{words}")
}

/// That a command under this key isn't done, and a line for each component that stands in its way:
/// the provider, and how its image stands.
pub fn withheld_text(alloc: Global, key: &str, list: &[Unlike]) -> Result<String, AllocError>
    ensures { IfOk result (λ text. string_bytes text ≡ withheld_text key.now list.now) }
{
    let lines = unlike_lines(alloc, list)?;
    let key = shown(key);
    let mut text = String::new(alloc);
    writeln!(text, "{key} not done")?;
    text.push_str(lines.as_str())?;
    Ok(text)
}
