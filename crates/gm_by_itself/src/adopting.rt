//! The command `adopt --all`: each mirror that the images of the folder show whole is adopted, and
//! the others are named.

ghost use Rattle.std.specs.Prelude.{IfOk, OnOk};
ghost use Rattle.gm_bench.specs.Benches.{progress_of};
ghost use Rattle.gm_bench.specs.Phases.{TakesCommands};
ghost use Rattle.gm_process.specs.Statuses.{MayRefuse};

use crate::by_itself::hand_in_by_itself;
use gm_bench::Bench;
use gm_command_line::{Checks, Form, Single, Unnumbered};
use gm_commands::{Command, Providers};
use gm_faults::Fault;
use gm_handing_in::losses_told;
use gm_looks::taste_shelf;
use gm_metadata::Label;
use gm_process::{Status, Streams};
use gm_shelf::{FileShelf, Shelf};
use gm_state::State;
use gm_taste::{Group, Member, MemberState, Tasted, source_of};
use sqlite::Alter;
use std::alloc::{AllocError, Global};
use std::io::{self, BufRead, Write};

// Why a mirror isn't adopted.
#[derive(Clone, Copy)]
enum Left {
    // another one has its name
    SameName,
    // none of its images is ACTIVE
    NoneActive,
    // it has so many of so many images
    Incomplete { images: usize, all: u8 },
}

// What the images of a folder tell.
fn tasted_in<I, O, E>(
    rt: &HostRuntime,
    streams: &mut Streams<'_, I, O, E>,
) -> Result<Tasted, Fault> {
    let folder = streams.explaining.folder.as_str();
    let names = FileShelf::open(rt, folder)?.names()?;
    let mut shelf = FileShelf::look_at(rt, folder, &names)?;
    let tasted = taste_shelf(rt.alloc(), &mut shelf);
    streams.explaining.failure = shelf.last_failure();
    Ok(tasted?)
}

// Whether a mirror of this name and number is registered.
fn is_registered(state: &State, group: &Group) -> bool {
    match state.mirror(group.name) {
        Some(mirror) => mirror.mid == group.mid,
        None => false,
    }
}

fn is_adoptable(member: &Member) -> bool {
    !matches!(member.state, MemberState::Broken)
}

// How many images a mirror has, as its source says.
fn all_of(group: &Group) -> Option<u8> {
    let source = source_of(group)?;
    let member = group
        .members
        .iter()
        .find(|member| member.provider == source)?;
    Some(member.metadata.all)
}

// Why a mirror of these is left, if it is.
fn left_because(groups: &[Group], group: &Group) -> Option<Left> {
    let same = groups
        .iter()
        .filter(|other| other.name == group.name)
        .count();
    if same > 1 {
        return Some(Left::SameName);
    }
    let Some(all) = all_of(group) else {
        return Some(Left::NoneActive);
    };
    let images = group
        .members
        .iter()
        .filter(|member| is_adoptable(member))
        .count();
    if images < usize::from(all) {
        return Some(Left::Incomplete { images, all });
    }
    None
}

// Says that a mirror is left, and why.
fn say_left<O: Write>(output: &mut O, name: Label, why: Left) -> io::Result<()> {
    match why {
        Left::SameName => writeln!(output, "{name} left: two mirrors have this name"),
        Left::NoneActive => writeln!(output, "{name} left: none of its images is ACTIVE"),
        Left::Incomplete { images, all } => {
            writeln!(
                output,
                "{name} left: {images} of its {all} images are there"
            )
        }
    }
}

// The command that adopts a mirror from all images of it that aren't BROKEN; `None` if each is.
fn adoption_of(alloc: Global, group: &Group) -> Result<Option<Command>, AllocError> {
    let named: Vec<Label> = group
        .members
        .iter()
        .filter(|member| is_adoptable(member))
        .map(|member| member.provider)
        .collect(alloc)?;
    let name = group.name;
    match Providers::new(named) {
        Some(providers) => Ok(Some(Command::Adopt { name, providers })),
        None => Ok(None),
    }
}

// Whether a mirror is left because its adoption would take something away, unless that is forced.
// It then says what.
fn is_left_for_losses<I, O: Write, E: Write>(
    rt: &HostRuntime,
    state: &State,
    group: &Group,
    checks: Checks,
    streams: &mut Streams<'_, I, O, E>,
) -> Result<bool, Fault> {
    if !checks.losses {
        return Ok(false);
    }
    let Some(command) = adoption_of(rt.alloc(), group)? else {
        return Ok(false);
    };
    let sentences = losses_told(rt, state, &command, streams)?;
    for sentence in &sentences {
        writeln!(streams.output, "{} left: {sentence}", group.name)?;
    }
    Ok(!sentences.is_empty())
}

// The words of the command that adopts a mirror.
fn words_of(alloc: Global, group: &Group) -> Result<Vec<&str>, AllocError> {
    let mut words = Vec::new(alloc);
    words.push("adopt")?;
    words.push("--")?;
    words.push(group.name.as_str())?;
    for member in &group.members {
        if is_adoptable(member) {
            words.push(member.provider.as_str())?;
        }
    }
    Ok(words)
}

// Adopts a mirror. What that would take away was looked at before.
fn adopt<S: Alter, H: Shelf, I: BufRead, O: Write, E: Write>(
    rt: &HostRuntime,
    group: &Group,
    checks: Checks,
    bench: &mut Bench<S, H>,
    streams: &mut Streams<'_, I, O, E>,
) -> Result<Status, Fault>
    requires { TakesCommands (progress_of bench.old) }
    ensures ends { IfOk result MayRefuse }
    ensures phase { OnOk result (TakesCommands (progress_of bench.new)) }
{
    let words = words_of(rt.alloc(), group)?;
    let single = Single {
        key: None,
        words: &words,
        unnumbered: Unnumbered {
            mirror: false,
            component: false,
        },
        checks: Checks {
            losses: false,
            ..checks
        },
        form: Form::Text,
    };
    hand_in_by_itself(rt, single, bench, streams)
}

// Adopts a mirror, or says why it is left. One that is registered isn't named.
fn adopt_or_leave<S: Alter, H: Shelf, I: BufRead, O: Write, E: Write>(
    rt: &HostRuntime,
    groups: &[Group],
    group: &Group,
    checks: Checks,
    bench: &mut Bench<S, H>,
    streams: &mut Streams<'_, I, O, E>,
) -> Result<Status, Fault>
    requires { TakesCommands (progress_of bench.old) }
    ensures ends { IfOk result MayRefuse }
    ensures phase { OnOk result (TakesCommands (progress_of bench.new)) }
{
    let state = bench.view(rt.alloc())?;
    if is_registered(&state, group) {
        return Ok(Status::Done);
    }
    if let Some(why) = left_because(groups, group) {
        say_left(streams.output, group.name, why)?;
        return Ok(Status::Refused);
    }
    if is_left_for_losses(rt, &state, group, checks, streams)? {
        return Ok(Status::Refused);
    }
    adopt(rt, group, checks, bench, streams)
}

/// Adopts each mirror that the images of the folder show whole, under keys of gmbench's own, and
/// names the others. One is left if its adoption would take something away, unless that is forced.
/// It is refused if one is left or refused.
pub fn adopt_all<S: Alter, H: Shelf, I: BufRead, O: Write, E: Write>(
    rt: &HostRuntime,
    checks: Checks,
    bench: &mut Bench<S, H>,
    streams: &mut Streams<'_, I, O, E>,
) -> Result<Status, Fault>
    requires { TakesCommands (progress_of bench.old) }
    ensures ends { IfOk result MayRefuse }
    ensures phase { OnOk result (TakesCommands (progress_of bench.new)) }
{
    let tasted = tasted_in(rt, streams)?;
    let groups = tasted.groups.as_slice();
    let mut refused = false;
    for group in groups {
        let status = adopt_or_leave(rt, groups, group, checks, bench, streams)?;
        refused |= status == Status::Refused;
    }
    if refused {
        Ok(Status::Refused)
    } else {
        Ok(Status::Done)
    }
}
