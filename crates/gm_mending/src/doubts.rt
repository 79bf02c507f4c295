//! What is asked before an image is mended, because no comparison shows that it is the right one.

ghost use Rattle.std.specs.Prelude.{◌≡◌, ◌≢◌, ◌++◌, [], IfOk, IsTrue, OnOk, length};
ghost use Rattle.gm_mending.specs.Doubts.{doubt_of_data, doubt_of_sector, doubts_of, listed};

use crate::compared::Compared;
use gm_command_line::Form;
use gm_faults::Fault;
use gm_handing_in::is_wanted;
use gm_looks::Standing;
use gm_metadata::Label;
use gm_process::Streams;
use gm_state::Component;
use std::alloc::{AllocError, Global};
use std::io::{BufRead, Write};

/// Why it isn't sure that an image is the component's.
#[derive(Clone, Copy, Debug, PartialEq, Eq)]
pub enum Doubt {
    /// No other one is ACTIVE, so its data can't be compared.
    Alone,
    /// Its mirror's source hasn't the size for that.
    Short { source: Label },
    /// Its last sector says another mirror.
    AnotherMirror,
    /// Its last sector says another component of the mirror.
    AnotherComponent,
    /// Its last sector is newer than the registry.
    Newer,
}

// What isn't sure of its data.
fn doubt_of_data(compared: Compared) -> Option<Doubt>
    ensures { result ≡ doubt_of_data compared }
{
    match compared {
        Compared::Alone => Some(Doubt::Alone),
        Compared::Short { source } => Some(Doubt::Short { source }),
        _ => None,
    }
}

// What isn't sure by its last sector.
fn doubt_of_sector(standing: Standing) -> Option<Doubt>
    ensures { result ≡ doubt_of_sector standing }
{
    match standing {
        Standing::AnotherMirror => Some(Doubt::AnotherMirror),
        Standing::AnotherComponent => Some(Doubt::AnotherComponent),
        Standing::Newer => Some(Doubt::Newer),
        _ => None,
    }
}

// Adds a doubt, if there is one.
fn push(doubts: &mut Vec<Doubt>, doubt: Option<Doubt>) -> Result<(), AllocError>
    ensures { OnOk result (doubts.new.items ≡ doubts.old.items ++ listed doubt) }
{
    if let Some(doubt) = doubt {
        doubts.push(doubt)?;
    }
    Ok(())
}

/// What isn't sure of an image of which this was found and which stands so.
pub(crate) fn doubts_of(
    alloc: Global,
    compared: Compared,
    standing: Standing,
) -> Result<Vec<Doubt>, AllocError>
    ensures { IfOk result (λ doubts. doubts.items ≡ doubts_of compared standing) }
{
    let mut doubts = Vec::new(alloc);
    push(&mut doubts, doubt_of_data(compared))?;
    push(&mut doubts, doubt_of_sector(standing))?;
    Ok(doubts)
}

impl Doubt {
    // The sentence that says it of the image of this component.
    fn sentence(self, alloc: Global, component: &Component) -> Result<String, AllocError> {
        let (mirror, image) = (component.mirror, component.provider);
        match self {
            Doubt::Alone => format!(in alloc;
                "no other component of {mirror} is ACTIVE: nothing shows that {image} has its data"
            ),
            Doubt::Short { source } => format!(in alloc;
                "{source} hasn't its size: nothing shows that {image} has the data of {mirror}"
            ),
            Doubt::AnotherMirror => format!(in alloc;
                "{image} says that it is of another mirror: that is written over"
            ),
            Doubt::AnotherComponent => format!(in alloc;
                "{image} says that it is another component of {mirror}: that is written over"
            ),
            Doubt::Newer => format!(in alloc;
                "{image} is newer than the registry, which may be an old one: that is written over"
            ),
        }
    }
}

// A sentence for each doubt.
fn sentences_of(
    alloc: Global,
    component: &Component,
    doubts: &[Doubt],
) -> Result<Vec<String>, AllocError>
    ensures { IfOk result (λ sentences. length sentences.items ≡ length doubts.now) }
{
    let mut sentences = Vec::new(alloc);
    for doubt in doubts {
        sentences.push(doubt.sentence(alloc, component)?)?;
    }
    Ok(sentences)
}

/// Whether nothing is doubted, or whoever runs the program wants the image to be mended all the
/// same; else it prints that nothing is done under this key.
pub(crate) fn is_agreed<I: BufRead, O: Write, E: Write>(
    alloc: Global,
    key: &str,
    form: Form,
    component: &Component,
    doubts: &[Doubt],
    streams: &mut Streams<'_, I, O, E>,
) -> Result<bool, Fault>
    // An image that is doubted is mended only if there is somebody to ask.
    ensures asked { IfOk result (λ is. IsTrue is → doubts.now ≢ []
        → IsTrue streams.old.explaining.asks) }
{
    if doubts.is_empty() {
        return Ok(true);
    }
    let sentences = sentences_of(alloc, component, doubts)?;
    is_wanted(alloc, key, form, &sentences, streams)
}
