//! How it is told which components' data aren't their mirror's.

ghost use Rattle.std.specs.Prelude.{◌≡◌, ◌++◌, IfOk, OnOk};
ghost use Rattle.std.specs.String.{string_bytes};
ghost use Rattle.gm_unlike.specs.Flaws.{differing_words, extent_words, how_words, in_sectors, more_names, names_words, peers, source_words, unequal_line, unequal_lines, verb_words, who_words};

use crate::unequal::Unequal;
use gm_looks::Flaw;
use gm_metadata::Label;
use std::alloc::{AllocError, Global};

// The components that hold the data of one, and that itself.
fn peers(alloc: Global, list: &[Unequal], first: Label) -> Result<Vec<Label>, AllocError>
    ensures { IfOk result (λ names. names.items ≡ peers list.now first) }
{
    list.iter()
        .filter(|e| e.like == first)
        .map(|e| e.provider)
        .collect(alloc)
}

// Appends the names after the first of a list in a sentence.
fn push_more(text: &mut String, names: &[Label]) -> Result<(), AllocError>
    ensures { OnOk result (string_bytes text.new ≡ string_bytes text.old ++ more_names names.now) }
{
    match names {
        [] => Ok(()),
        [last] => write!(text, " and {last}"),
        [name, rest @ ..] => {
            write!(text, ", {name}")?;
            push_more(text, rest)
        }
    }
}

// Appends names as a list in a sentence.
fn push_names(text: &mut String, names: &[Label]) -> Result<(), AllocError>
    ensures { OnOk result (string_bytes text.new ≡ string_bytes text.old ++ names_words names.now) }
{
    match names {
        [] => Ok(()),
        [first, rest @ ..] => {
            text.push_str(first.as_str())?;
            push_more(text, rest)
        }
    }
}

// What these components do: one differs, several are equal as well.
fn verb(names: &[Label]) -> &'static str
    ensures { result.now ≡ verb_words names.now }
{
    match names {
        [_] => " differs",
        _ => " are equal and differ",
    }
}

// Appends from which source data differ.
fn push_source(text: &mut String, source: Label) -> Result<(), AllocError>
    ensures { OnOk result (string_bytes text.new ≡ string_bytes text.old ++ source_words source) }
{
    write!(text, " from the source {source}")
}

// Appends in how many sectors data differ.
#[tactic(auto, unfolding(crate::specs::Flaws::in_sectors))]
fn push_sectors(text: &mut String, sectors: u64) -> Result<(), AllocError>
    ensures { OnOk result (string_bytes text.new ≡ string_bytes text.old ++ in_sectors sectors) }
{
    match sectors {
        1 => text.push_str(" in 1 sector"),
        sectors => write!(text, " in {sectors} sectors"),
    }
}

// Appends that these components' data differ, and are equal if they are several.
fn push_who(text: &mut String, names: &[Label]) -> Result<(), AllocError>
    ensures { OnOk result (string_bytes text.new ≡ string_bytes text.old ++ who_words names.now) }
{
    push_names(text, names)?;
    text.push_str(verb(names))
}

// Appends in how many sectors data differ, and which is the first.
fn push_extent(text: &mut String, sectors: u64, first: u64) -> Result<(), AllocError>
    ensures { OnOk result (string_bytes text.new
        ≡ string_bytes text.old ++ extent_words sectors first) }
{
    push_sectors(text, sectors)?;
    writeln!(text, ", first {first}")
}

// Appends from which source data differ, in how many sectors, and which is the first.
fn push_how(text: &mut String, source: Label, sectors: u64, first: u64) -> Result<(), AllocError>
    ensures { OnOk result (string_bytes text.new
        ≡ string_bytes text.old ++ how_words source sectors first) }
{
    push_source(text, source)?;
    push_extent(text, sectors, first)
}

// Appends the line of components whose data are equal and differ from their source's.
fn push_differing(
    text: &mut String,
    names: &[Label],
    source: Label,
    sectors: u64,
    first: u64,
) -> Result<(), AllocError>
    ensures { OnOk result (string_bytes text.new
        ≡ string_bytes text.old ++ differing_words names.now source sectors first) }
{
    push_who(text, names)?;
    push_how(text, source, sectors, first)
}

// Appends the line of a component. If it holds the data of one before, that one's line names it.
fn push_line(
    text: &mut String,
    alloc: Global,
    list: &[Unequal],
    told: &Unequal,
) -> Result<(), AllocError>
    ensures { OnOk result (string_bytes text.new
        ≡ string_bytes text.old ++ unequal_line list.now told.now) }
{
    match told.flaw {
        Flaw::Uncompared => writeln!(text, "{} isn't compared", told.provider),
        Flaw::Differs { sectors, first } => {
            if told.like != told.provider {
                return Ok(());
            }
            let names = peers(alloc, list, told.provider)?;
            push_differing(text, &names, told.source, sectors, first)
        }
    }
}

/// A line for each component, but one for those that hold equal data.
pub fn unequal_lines(alloc: Global, list: &[Unequal]) -> Result<String, AllocError>
    ensures { IfOk result (λ text. string_bytes text ≡ unequal_lines list.now) }
{
    let mut text = String::new(alloc);
    for told in list {
        push_line(&mut text, alloc, list, told)?;
    }
    Ok(text)
}
