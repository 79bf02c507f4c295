//! Where the first of words belongs that clap doesn't take.

use crate::by_itself::is_command;
use crate::table::{is_subcommand, takes_option};
use gm_commands::is_key;
use std::fmt;

/// Where the first word belongs. It prints as a line, without its line feed.
#[derive(Clone, Copy)]
pub enum Tip<'a> {
    /// It is a key, and a command that changes mirrors is next: `do` was forgotten.
    Forgotten {
        key: &'a str,
        command: &'a str,
    },
    /// It is an option of a command that comes after it.
    Early {
        option: &'static str,
        command: &'a str,
    },
}

impl fmt::Display for Tip<'_> {
    fn fmt<W: fmt::Write>(&self, f: &mut fmt::Formatter<W>) -> fmt::Result {
        match self {
            Tip::Forgotten { key, command } => write!(f, "tip: gmbench do {key} {command} .."),
            Tip::Early { option, command } => write!(
                f,
                "tip: {option} comes after the command: gmbench {command} {option} .."
            ),
        }
    }
}

// Which commands have an option.
#[derive(Clone, Copy)]
enum Having {
    /// Those whose table lists it.
    Listed,
    /// Those that change mirrors.
    Changing,
}

// An option that several commands have.
#[derive(Clone, Copy)]
struct Shared {
    name: &'static str,
    has_value: bool,
    having: Having,
}

const OPTIONS: [Shared; 8] = [
    Shared {
        name: "--registry",
        has_value: true,
        having: Having::Listed,
    },
    Shared {
        name: "--shelf",
        has_value: true,
        having: Having::Listed,
    },
    Shared {
        name: "--explain",
        has_value: false,
        having: Having::Listed,
    },
    Shared {
        name: "--wait",
        has_value: true,
        having: Having::Listed,
    },
    Shared {
        name: "--existing",
        has_value: false,
        having: Having::Changing,
    },
    Shared {
        name: "--unchecked",
        has_value: false,
        having: Having::Changing,
    },
    Shared {
        name: "--force",
        has_value: false,
        having: Having::Changing,
    },
    Shared {
        name: "--key",
        has_value: true,
        having: Having::Changing,
    },
];

impl Shared {
    // Whether a word is this option, or the option with a value.
    fn is_word(self, word: &str) -> bool {
        match word.strip_prefix(self.name) {
            Some(rest) => rest.is_empty() || rest.starts_with('='),
            None => false,
        }
    }

    // Whether a word is a command that has this option.
    fn is_of(self, word: &str) -> bool {
        match self.having {
            Having::Listed => takes_option(word, self.name) || is_command(word),
            Having::Changing => is_command(word),
        }
    }

    // The first of these words that is a command which has this option.
    fn command_in<'a>(self, words: &[&'a str]) -> Option<&'a str> {
        for word in words {
            if self.is_of(word) {
                return Some(*word);
            }
        }
        None
    }
}

// The tip of an option before its command. A word that is the option's value is passed over.
fn tip_of_option<'a>(first: &str, rest: &[&'a str]) -> Option<Tip<'a>> {
    let option = OPTIONS
        .iter()
        .copied()
        .find(|option| option.is_word(first))?;
    let has_value_next = option.has_value && first.len() == option.name.len();
    let passed_over = usize::from(has_value_next).min(rest.len());
    let words = &rest[passed_over..];
    let command = option.command_in(words)?;
    Some(Tip::Early {
        option: option.name,
        command,
    })
}

// The tip of a key before its command.
fn tip_of_key<'a>(first: &'a str, rest: &[&'a str]) -> Option<Tip<'a>> {
    let command = rest.first().copied()?;
    if is_subcommand(first) || first.starts_with('-') || !is_key(first) || !is_command(command) {
        return None;
    }
    Some(Tip::Forgotten {
        key: first,
        command,
    })
}

/// Where the first of these words belongs, if they have it in a wrong place: an option before the
/// command, or a key without `do`.
pub fn tip_for<'a>(words: &[&'a str]) -> Option<Tip<'a>> {
    let (first, rest) = words.split_first()?;
    match tip_of_option(first, rest) {
        Some(tip) => Some(tip),
        None => tip_of_key(first, rest),
    }
}
