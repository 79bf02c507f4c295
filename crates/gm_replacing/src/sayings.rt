//! What a replacement says that isn't begun, or that does something first.

ghost use Rattle.std.specs.Prelude.{OnOk};

use crate::commands::{exchange_of, words_of};
use crate::stopped::Stopped;
use gm_answers::Explainer;
use gm_bench::Answer;
use gm_by_itself::following_key;
use gm_command_line::Replacing;
use gm_front::Outcome;
use gm_lines::shown;
use gm_looks::Standing;
use gm_process::Streams;
use gm_refusals::CallRefusal;
use gm_reports::{no_component, no_mirror, refused};
use gm_state::{Component, MAX_COMPONENTS, State};
use gm_ways::Act;
use std::alloc::{AllocError, Global};
use std::io::{self, Write};

/// A command of a way that would be refused.
#[derive(Clone, Copy)]
pub(crate) struct Refused<'a> {
    pub(crate) act: Act,
    /// The number of its key.
    pub(crate) number: usize,
    /// A number that a new component may have.
    pub(crate) did: u32,
    pub(crate) why: CallRefusal,
    /// The records that it finds, if they are known.
    pub(crate) state: Option<&'a State>,
}

/// Says that nothing is done, and why.
pub(crate) fn say_not_done<I, O: Write, E: Write>(
    first: &str,
    why: &str,
    streams: &mut Streams<'_, I, O, E>,
) -> io::Result<()> {
    let key = shown(first);
    writeln!(streams.output, "{key} not done")?;
    streams.output.flush()?;
    let _ = writeln!(streams.complaints, "{key}: {why}");
    Ok(())
}

// The number of a new component as a word, if the command has one.
fn did_word(alloc: Global, refused: Refused<'_>) -> Result<Option<String>, AllocError> {
    match refused.act {
        Act::Insert => {
            let did = refused.did;
            Ok(Some(format!(in alloc; "{did}")?))
        }
        _ => Ok(None),
    }
}

/// Says that nothing is done, because this command would be refused, and why it would.
pub(crate) fn say_refused<I, O: Write, E: Write>(
    rt: &HostRuntime,
    replacing: &Replacing<'_>,
    first: &str,
    refused: Refused<'_>,
    streams: &mut Streams<'_, I, O, E>,
) -> Result<(), Stopped> {
    let alloc = rt.alloc();
    let name = refused.act.name();
    let why = format!(in alloc; "{name} would be refused, so nothing is done")?;
    say_not_done(first, why.as_str(), streams)?;
    let key = following_key(alloc, first, refused.number)?;
    let did = did_word(alloc, refused)?;
    let mirror = replacing.mirror;
    let image = refused.act.image(&exchange_of(replacing));
    let words = words_of(alloc, refused.act, &did, &mirror, &image)?;
    let outcome = Outcome::Answered(key.as_str(), Answer::Refused(refused.why));
    let explainer = Explainer::new(rt, streams.complaints, &streams.explaining);
    let mut explainer = explainer.knowing(refused.state);
    explainer.explain(&words, &outcome);
    Ok(())
}

/// Says that nothing is done, because the new image would wait for a rebuild when the old one is
/// given up.
pub(crate) fn say_unfilled<I, O: Write, E: Write>(
    alloc: Global,
    replacing: &Replacing<'_>,
    first: &str,
    streams: &mut Streams<'_, I, O, E>,
) -> Result<(), Stopped> {
    let (mirror, new) = (replacing.mirror, replacing.new);
    let why = format!(in alloc;
        "{new} would be STALE: configure --autosync on {mirror} lets it be filled"
    )?;
    say_not_done(first, why.as_str(), streams)?;
    Ok(())
}

/// Says that nothing is done, because the registry takes fewer commands than that needs.
pub(crate) fn say_no_room<I, O: Write, E: Write>(
    alloc: Global,
    first: &str,
    needed: u64,
    room: u64,
    streams: &mut Streams<'_, I, O, E>,
) -> Result<(), Stopped> {
    let why = format!(in alloc;
        "this takes {needed} commands, and the registry takes {room} more"
    )?;
    say_not_done(first, why.as_str(), streams)?;
    Ok(())
}

/// Says that there is nothing to replace: no such mirror, or neither image is in it.
pub(crate) fn say_nothing_there<I, O: Write, E: Write>(
    alloc: Global,
    replacing: &Replacing<'_>,
    state: &State,
    streams: &mut Streams<'_, I, O, E>,
) -> Result<(), Stopped> {
    let why = match no_mirror(state, replacing.mirror) {
        Some(why) => Some(why),
        None => no_component(state, replacing.mirror, replacing.old),
    };
    if let Some(why) = why {
        let report = refused(alloc, streams, why)?;
        streams.output.write_all(report.text.as_bytes())?;
        streams.output.flush()?;
    }
    if streams.explaining.wanted {
        let _ = writeln!(
            streams.complaints,
            "one that was stopped goes on with --key and its first key"
        );
    }
    Ok(())
}

/// Says what is done before what replaces it is there.
pub(crate) fn say_removed_first<E: Write>(complaints: &mut E, replacing: &Replacing<'_>) {
    let mirror = replacing.mirror;
    let old = replacing.old;
    let _ = writeln!(
        complaints,
        "{mirror} has {MAX_COMPONENTS} components, the most: {old} is removed first"
    );
}

// In which state an image is that is given up though it is there: it has so many sectors.
fn ruin_of(
    alloc: Global,
    component: &Component,
    standing: Standing,
    sectors: u64,
) -> Result<String, AllocError> {
    let old = component.provider;
    let bytes = sectors.saturating_mul(512);
    let registered = u64::from(component.sectors).saturating_mul(512);
    match standing {
        Standing::AnotherSize => {
            format!(in alloc; "{old} is {bytes} bytes long, and not {registered}")
        }
        Standing::Damaged => format!(in alloc; "{old} has damaged metadata in its last sector"),
        _ => format!(in alloc; "{old} has no metadata in its last sector"),
    }
}

/// Adds that the image of a component is given up as lost though it is there, and why; and, unless
/// it has another size, how its last sector is written again instead.
pub(crate) fn push_ruined(
    alloc: Global,
    component: &Component,
    standing: Standing,
    sectors: u64,
    sentences: &mut Vec<String>,
) -> Result<(), AllocError> {
    let ruin = ruin_of(alloc, component, standing, sectors)?;
    sentences.push(format!(in alloc; "{ruin}: it is given up as lost")?)?;
    if standing != Standing::AnotherSize {
        let old = component.provider;
        sentences.push(format!(in alloc;
            "mend {old} writes that sector again, if the data are right"
        )?)?;
    }
    Ok(())
}
