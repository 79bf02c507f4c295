//! The words of a command, and which mirror they name.

ghost use Rattle.std.specs.Prelude.{◌≡◌};
ghost use Rattle.gm_history.specs.Named.{first_of, first_of_last, is_about, mirror_named, named_after, names_image_last, names_mirror_last};

use gm_metadata::Label;
use std::alloc::{AllocError, Global};

/// What is between the spaces of a text.
pub(crate) fn words_in<'a>(alloc: Global, text: &'a str) -> Result<Vec<&'a str>, AllocError> {
    text.split(' ').collect(alloc)
}

// Whether a mirror's name and an image's are the last two words of a command with this first one.
fn names_image_last(word: &str) -> bool
    ensures { result ≡ names_image_last word.now }
{
    word == "label" || word == "insert"
}

// Whether a mirror's name is the last word of a command with this first one.
fn names_mirror_last(word: &str) -> bool
    ensures { result ≡ names_mirror_last word.now }
{
    word == "configure" || word == "patch"
}

// The first of the last words, so many.
fn first_of_last<'a>(count: usize, words: &[&'a str]) -> Option<&'a str>
    ensures { result ≡ first_of_last count words.now }
{
    words.get(words.len().saturating_sub(count)).copied()
}

fn first_of<'a>(words: &[&'a str]) -> Option<&'a str>
    ensures { result ≡ first_of words.now }
{
    words.first().copied()
}

// The mirror's name among what follows a command's first word.
fn named_after<'a>(word: &str, rest: &[&'a str]) -> Option<&'a str>
    ensures { result ≡ named_after word.now rest.now }
{
    if word == "clear" {
        None
    } else if names_image_last(word) {
        first_of_last(2, rest)
    } else if names_mirror_last(word) {
        first_of_last(1, rest)
    } else {
        first_of(rest)
    }
}

// The mirror that the words name; `None` if they are of a command that names none.
fn mirror_named<'a>(words: &[&'a str]) -> Option<&'a str>
    ensures { result ≡ mirror_named words.now }
{
    match words {
        [] => None,
        [word, rest @ ..] => named_after(word, rest),
    }
}

/// Whether the words name this mirror, if it is to be one.
pub(crate) fn is_about(mirror: Option<Label>, words: &[&str]) -> bool
    ensures { result ≡ is_about mirror words.now }
{
    let Some(mirror) = mirror else {
        return true;
    };
    match mirror_named(words) {
        Some(name) => name == mirror.as_str(),
        None => false,
    }
}
