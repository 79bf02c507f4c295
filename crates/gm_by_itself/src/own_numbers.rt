//! The numbers of mirrors and components that gmbench chooses. They are drawn, as gmirror(8) does,
//! so that mirrors which are made apart differ in them.

ghost use Rattle.std.specs.Prelude.{◌≡◌, [], IfOk, IfSome, None, OnOk, false, map};
ghost use Rattle.gm_bench.specs.Benches.{progress_of};
ghost use Rattle.gm_by_itself.specs.Numbers.{AreFree, IsFreeNumber, dids_of, mids_of, registered_dids, said_dids};

use crate::free_numbers::{drawn_beside, free_from};
use gm_bench::Bench;
use gm_command_line::{Single, Unnumbered};
use gm_faults::Fault;
use gm_metadata::{Label, Metadata, decode};
use gm_process::{Streams, Trouble};
use gm_shelf::{FileShelf, Shelf, read_last};
use gm_state::{Component, Mirror, State};
use sqlite::Alter;
use std::alloc::{AllocError, Global};

/// The numbers that a command gets, if it gets any.
#[derive(Clone, Copy)]
pub(crate) struct Numbers {
    /// The mirror's.
    pub(crate) mid: Option<u32>,
    /// The component's.
    pub(crate) did: Option<u32>,
}

/// The number after an option in the words of a command, as they are kept.
pub fn number_after(words: &str, option: &str) -> Option<u32> {
    let mut words = words.split(' ');
    for _ in 0..u64::MAX {
        if words.next()? == option {
            return words.next()?.parse().ok();
        }
    }
    None
}

// That number, if the command is to get one.
fn number_if(is_lacking: bool, words: &str, option: &str) -> Option<u32>
    ensures { is_lacking ≡ false → result ≡ None }
{
    if is_lacking {
        number_after(words, option)
    } else {
        None
    }
}

// The mirror that a command names: the first word after `--`.
fn mirror_of<'a>(words: &[&'a str]) -> Option<&'a str> {
    let at = words.iter().position(|word| *word == "--")?;
    words.get(at + 1).copied()
}

// What an image says, if its last sector can be read, and is metadata.
fn said_on<H: Shelf>(shelf: &mut H, name: Label) -> Option<Metadata> {
    let sector = read_last(shelf, name).ok()??;
    decode(&sector).ok()
}

// What images say.
fn said_on_all<H: Shelf>(
    alloc: Global,
    shelf: &mut H,
    names: &[Label],
) -> Result<Vec<Metadata>, AllocError> {
    let mut said = Vec::new(alloc);
    for name in names {
        if let Some(metadata) = said_on(shelf, *name) {
            said.push(metadata)?;
        }
    }
    Ok(said)
}

// What the images of a folder say.
fn said_in(rt: &HostRuntime, folder: &str) -> Result<Vec<Metadata>, Fault> {
    let names = FileShelf::open(rt, folder)?.names()?;
    let mut shelf = FileShelf::look_at(rt, folder, &names)?;
    Ok(said_on_all(rt.alloc(), &mut shelf, &names)?)
}

// The numbers of these mirrors.
fn registered_mids(alloc: Global, mirrors: &[Mirror]) -> Result<Vec<u32>, AllocError>
    ensures { IfOk result (λ mids. mids.items ≡ map (λ m. m.mid) mirrors.now) }
{
    mirrors.iter().map(|m| m.mid).collect(alloc)
}

// Those that images say.
fn said_mids(alloc: Global, said: &[Metadata]) -> Result<Vec<u32>, AllocError>
    ensures { IfOk result (λ mids. mids.items ≡ map (λ d. d.mid) said.now) }
{
    said.iter().map(|d| d.mid).collect(alloc)
}

// The numbers of the mirrors that are registered, and of those that images say.
fn mids_of(alloc: Global, state: &State, said: &[Metadata]) -> Result<Vec<u32>, AllocError>
    ensures { IfOk result (λ mids. mids.items ≡ mids_of state.now said.now) }
{
    let mut mids = registered_mids(alloc, state.mirrors())?;
    let on_images = said_mids(alloc, said)?;
    mids.extend_from_slice(&on_images)?;
    Ok(mids)
}

// The numbers of those of these components that the mirror has.
fn registered_dids(
    alloc: Global,
    components: &[Component],
    name: &str,
) -> Result<Vec<u32>, AllocError>
    ensures { IfOk result (λ dids. dids.items ≡ registered_dids components.now name.now) }
{
    components
        .iter()
        .filter(|k| k.mirror.as_str() == name)
        .map(|k| k.did)
        .collect(alloc)
}

// Those that images say of a mirror of this name.
fn said_dids(alloc: Global, said: &[Metadata], name: &str) -> Result<Vec<u32>, AllocError>
    ensures { IfOk result (λ dids. dids.items ≡ said_dids said.now name.now) }
{
    said.iter()
        .filter(|d| d.name.as_str() == name)
        .map(|d| d.did)
        .collect(alloc)
}

// The numbers of the components of a mirror, and of those that images say of a mirror of its name.
fn dids_of(
    alloc: Global,
    state: &State,
    said: &[Metadata],
    name: &str,
) -> Result<Vec<u32>, AllocError>
    ensures { IfOk result (λ dids. dids.items ≡ dids_of state.now said.now name.now) }
{
    let mut dids = registered_dids(alloc, state.components(), name)?;
    let on_images = said_dids(alloc, said, name)?;
    dids.extend_from_slice(&on_images)?;
    Ok(dids)
}

/// A number that no component of a mirror has: the least from 1 on. A command is judged by it
/// before one is drawn.
pub fn free_did(alloc: Global, state: &State, name: &str) -> Result<Option<u32>, AllocError>
    ensures { IfOk result (λ found. IfSome found
        (IsFreeNumber (dids_of state.now [] name.now))) }
{
    Ok(free_from(&dids_of(alloc, state, &[], name)?, 1))
}

// Draws a number that isn't among these.
fn draw<I, O, E>(
    rt: &HostRuntime,
    used: &[u32],
    streams: &mut Streams<'_, I, O, E>,
) -> Result<Option<u32>, Fault>
    ensures { IfOk result (λ found. IfSome found (IsFreeNumber used.now)) }
{
    match drawn_beside(rt, used) {
        Ok(found) => Ok(found),
        Err(error) => {
            let sentence = "the system gives no random numbers: --mid N and --did N give them";
            streams.explaining.trouble = Some(Trouble::new(sentence, String::new(rt.alloc())));
            Err(Fault::from(error))
        }
    }
}

// Draws the number of a mirror, beside what images say.
fn draw_mid<I, O, E>(
    rt: &HostRuntime,
    state: &State,
    said: &[Metadata],
    streams: &mut Streams<'_, I, O, E>,
) -> Result<Option<u32>, Fault>
    ensures { IfOk result (λ found. IfSome found (IsFreeNumber (mids_of state.now said.now))) }
{
    let used = mids_of(rt.alloc(), state, said)?;
    draw(rt, &used, streams)
}

// Draws that of a component of the mirror of this name.
fn draw_did<I, O, E>(
    rt: &HostRuntime,
    state: &State,
    said: &[Metadata],
    name: &str,
    streams: &mut Streams<'_, I, O, E>,
) -> Result<Option<u32>, Fault>
    ensures { IfOk result (λ found. IfSome found
        (IsFreeNumber (dids_of state.now said.now name.now))) }
{
    let used = dids_of(rt.alloc(), state, said, name)?;
    draw(rt, &used, streams)
}

// Draws the numbers that a command on the mirror of this name wasn't given.
fn draw_numbers<I, O, E>(
    rt: &HostRuntime,
    unnumbered: Unnumbered,
    name: &str,
    state: &State,
    said: &[Metadata],
    streams: &mut Streams<'_, I, O, E>,
) -> Result<Numbers, Fault>
    ensures free { IfOk result (λ drawn.
        AreFree state.now said.now name.now drawn.mid drawn.did) }
    ensures mid { unnumbered.mirror ≡ false → IfOk result (λ drawn. drawn.mid ≡ None) }
    ensures did { unnumbered.component ≡ false → IfOk result (λ drawn. drawn.did ≡ None) }
{
    let mid = if unnumbered.mirror {
        draw_mid(rt, state, said, streams)?
    } else {
        None
    };
    let did = if unnumbered.component {
        draw_did(rt, state, said, name, streams)?
    } else {
        None
    };
    Ok(Numbers { mid, did })
}

/// The numbers that weren't given: those of the command that was accepted under the key, or else
/// such as are drawn, and free. Fails if the system gives no random numbers, and says so.
pub(crate) fn own_numbers<S: Alter, H: Shelf, I, O, E>(
    rt: &HostRuntime,
    key: &str,
    single: Single<'_>,
    bench: &mut Bench<S, H>,
    streams: &mut Streams<'_, I, O, E>,
) -> Result<Numbers, Fault>
    ensures mid { single.entry.unnumbered.mirror ≡ false → IfOk result (λ own. own.mid ≡ None) }
    ensures did { single.entry.unnumbered.component ≡ false → IfOk result (λ own. own.did ≡ None) }
    ensures progress { OnOk result (progress_of bench.new ≡ progress_of bench.old) }
{
    let Unnumbered { mirror, component } = single.unnumbered;
    if !mirror && !component {
        return Ok(Numbers {
            mid: None,
            did: None,
        });
    }
    if let Some(kept) = bench.kept(key)? {
        let words = kept.words.as_str();
        return Ok(Numbers {
            mid: number_if(mirror, words, "--mid"),
            did: number_if(component, words, "--did"),
        });
    }
    let state = bench.view(rt.alloc())?;
    let name = mirror_of(single.words).unwrap_or("");
    let said = said_in(rt, streams.explaining.folder.as_str())?;
    draw_numbers(rt, single.unnumbered, name, &state, &said, streams)
}
