//! How components are told whose images aren't as they are registered, and images that claim to be
//! components.

ghost use Rattle.std.specs.Prelude.{◌≡◌, ◌++◌, IfOk, OnOk, flat_map};
ghost use Rattle.std.specs.String.{string_bytes};
ghost use Rattle.gm_unlike.specs.Texts.{claim_line, told_standing, unlike_line, unlike_word};

use crate::claims::Claim;
use gm_looks::{Standing, Unlike};
use std::alloc::{AllocError, Global};

/// How the image of a component stands, in words for whoever wants to mend it.
pub fn told_standing(standing: Standing) -> &'static str
    ensures { result.now ≡ told_standing standing }
{
    match standing {
        Standing::AsRegistered => "as registered",
        Standing::Absent => "absent",
        Standing::AnotherSize => "another size",
        Standing::Zero => "zeros",
        Standing::NoMetadata => "no metadata",
        Standing::Damaged => "damaged",
        Standing::AnotherMirror => "another mirror",
        Standing::AnotherComponent => "another component",
        Standing::Older => "older",
        Standing::Newer => "newer",
        Standing::Member => "changed",
    }
}

// Adds the line of a component.
fn push_unlike(text: &mut String, unlike: &Unlike) -> Result<(), AllocError>
    ensures { OnOk result (string_bytes text.new
        ≡ string_bytes text.old ++ unlike_line unlike.now) }
{
    let provider = unlike.provider;
    let standing = told_standing(unlike.standing);
    writeln!(text, "{provider} {standing}")
}

// Adds a component as a part of a line.
fn push_word(text: &mut String, unlike: &Unlike) -> Result<(), AllocError>
    ensures { OnOk result (string_bytes text.new
        ≡ string_bytes text.old ++ unlike_word unlike.now) }
{
    let provider = unlike.provider;
    let standing = told_standing(unlike.standing);
    write!(text, "; {provider} {standing}")
}

/// A line for each component: its provider, and how its image stands.
pub fn unlike_lines(alloc: Global, list: &[Unlike]) -> Result<String, AllocError>
    ensures { IfOk result (λ text. string_bytes text ≡ flat_map unlike_line list.now) }
{
    let mut text = String::new(alloc);
    for unlike in list {
        push_unlike(&mut text, unlike)?;
    }
    Ok(text)
}

/// The same in one line, each after a semicolon.
pub fn unlike_words(alloc: Global, list: &[Unlike]) -> Result<String, AllocError>
    ensures { IfOk result (λ text. string_bytes text ≡ flat_map unlike_word list.now) }
{
    let mut text = String::new(alloc);
    for unlike in list {
        push_word(&mut text, unlike)?;
    }
    Ok(text)
}

// Adds the line of an image that claims to be a component, or was one until it was given up.
fn push_claim(text: &mut String, claim: &Claim) -> Result<(), AllocError>
    ensures { OnOk result (string_bytes text.new
        ≡ string_bytes text.old ++ claim_line claim.now) }
{
    let (provider, mirror) = (claim.provider, claim.mirror);
    if claim.is_given_up {
        writeln!(text, "{provider} was given up as lost by {mirror}")
    } else {
        writeln!(text, "{provider} claims to be a component of {mirror}")
    }
}

/// A line for each image that carries a mirror's metadata, and is no component of it.
pub fn claim_lines(alloc: Global, list: &[Claim]) -> Result<String, AllocError>
    ensures { IfOk result (λ text. string_bytes text ≡ flat_map claim_line list.now) }
{
    let mut text = String::new(alloc);
    for claim in list {
        push_claim(&mut text, claim)?;
    }
    Ok(text)
}
