//! What is wrong with words that spell no command, in one line for whoever wrote them. It is found
//! by a second reading, of words that were refused already.

use crate::command_words::{balance, number, parsed, priority, switch};
use crate::sector_digits::sectors_in;
use clap::ArgMatches;
use clap::error::ErrorKind;
use gm_commands::Slice;
use gm_metadata::Label;
use std::alloc::{AllocError, Global};

// What a word stands for, and what it has to be then.
#[derive(Clone, Copy)]
struct Expected {
    id: &'static str,
    shown: &'static str,
    kind: Kind,
}

// A kind of values.
#[derive(Clone, Copy)]
enum Kind {
    Name,
    Number,
    Priority,
    Slice,
    Balance,
    Switch,
    Data,
}

// Every name and option of the table, each before what may be found wrong with another one.
const EXPECTED: [Expected; 12] = [
    Expected {
        id: "mid",
        shown: "--mid",
        kind: Kind::Number,
    },
    Expected {
        id: "did",
        shown: "--did",
        kind: Kind::Number,
    },
    Expected {
        id: "slice",
        shown: "--slice",
        kind: Kind::Slice,
    },
    Expected {
        id: "priority",
        shown: "--priority",
        kind: Kind::Priority,
    },
    Expected {
        id: "balance",
        shown: "--balance",
        kind: Kind::Balance,
    },
    Expected {
        id: "autosync",
        shown: "--autosync",
        kind: Kind::Switch,
    },
    Expected {
        id: "failsync",
        shown: "--failsync",
        kind: Kind::Switch,
    },
    Expected {
        id: "hardcode",
        shown: "--hardcode",
        kind: Kind::Switch,
    },
    Expected {
        id: "first",
        shown: "--first",
        kind: Kind::Number,
    },
    Expected {
        id: "data",
        shown: "--data",
        kind: Kind::Data,
    },
    Expected {
        id: "name",
        shown: "a mirror",
        kind: Kind::Name,
    },
    Expected {
        id: "prov",
        shown: "an image",
        kind: Kind::Name,
    },
];

// How many bytes of a value are shown at most.
const SHOWN: usize = 40;

impl Kind {
    fn has(self, alloc: Global, text: &str) -> Result<bool, AllocError> {
        Ok(match self {
            Kind::Name => Label::new(text).is_some(),
            Kind::Number => number(text).is_some(),
            Kind::Priority => priority(text).is_some(),
            Kind::Slice => number(text).and_then(Slice::new).is_some(),
            Kind::Balance => balance(text).is_some(),
            Kind::Switch => switch(text).is_some(),
            Kind::Data => sectors_in(alloc, text)?.is_some(),
        })
    }

    fn said(self) -> &'static str {
        match self {
            Kind::Name => "1 to 15 of A-Z, a-z, 0-9, '.', '_' and '-'",
            Kind::Number => "a number up to 4294967295",
            Kind::Priority => "a number up to 255",
            Kind::Slice => "a number from 1 to 4294967295",
            Kind::Balance => "load, prefer, round-robin or split",
            Kind::Switch => "on or off",
            Kind::Data => "1,024 digits of 0-9 and a-f a sector, 1 to 64 sectors",
        }
    }
}

// The first of these values that isn't of its kind.
fn first_wrong<'a>(
    alloc: Global,
    kind: Kind,
    values: &[&'a str],
) -> Result<Option<&'a str>, AllocError> {
    for value in values {
        if !kind.has(alloc, value)? {
            return Ok(Some(*value));
        }
    }
    Ok(None)
}

// A value, or its beginning if it is long.
fn shortened(alloc: Global, value: &str) -> Result<String, AllocError> {
    if value.len() <= SHOWN {
        return String::from_str(alloc, value);
    }
    let mut text = String::new(alloc);
    for letter in value.chars().take(SHOWN) {
        text.push(letter)?;
    }
    text.push_str("...")?;
    Ok(text)
}

// Whether this option is given.
fn is_given(matches: &ArgMatches<'_>, id: &str) -> bool {
    matches.get_strs(id).is_some()
}

// What is wrong with words in which neither clap nor a value's kind finds anything wrong.
fn rest_complaint(matches: &ArgMatches<'_>) -> &'static str {
    if is_given(matches, "priority") && !is_given(matches, "prov") {
        return "--priority is given without --prov, the image that it is for";
    }
    if is_given(matches, "prov") && !is_given(matches, "priority") {
        return "--prov is given without --priority, which is to be that of this image";
    }
    "these are the words of no command"
}

// What is wrong with the values of words in which clap finds nothing wrong.
fn values_complaint(alloc: Global, matches: &ArgMatches<'_>) -> Result<String, AllocError> {
    for expected in &EXPECTED {
        let Some(values) = matches.get_strs(expected.id) else {
            continue;
        };
        if let Some(value) = first_wrong(alloc, expected.kind, &values)? {
            let shown = expected.shown;
            let said = expected.kind.said();
            let value = shortened(alloc, value)?;
            return format!(in alloc; "'{value}' for {shown}: it is {said}");
        }
    }
    String::from_str(alloc, rest_complaint(matches))
}

// clap's message in one line: what comes before its first empty line, without the word `error`.
fn in_one_line(alloc: Global, message: &str) -> Result<String, AllocError> {
    let message = message.strip_prefix("error: ").unwrap_or(message);
    let mut text = String::new(alloc);
    for line in message.split('\n') {
        let line = line.trim();
        if line.is_empty() {
            break;
        }
        if !text.is_empty() {
            text.push(' ')?;
        }
        text.push_str(line)?;
    }
    Ok(text)
}

/// What is wrong with words that spell no command: clap's own complaint, or which value isn't of
/// its kind. An `AllocError` is for want of memory alone.
pub fn words_complaint(alloc: Global, words: &[&str]) -> Result<String, AllocError> {
    if words.is_empty() {
        return String::from_str(alloc, "no command follows the key");
    }
    match parsed(alloc, words) {
        Ok(matches) => match matches.subcommand() {
            Some((_, own)) => values_complaint(alloc, own),
            None => String::from_str(alloc, "no command follows the key"),
        },
        Err(error) if error.kind() == ErrorKind::OutOfMemory => Err(AllocError),
        Err(error) => {
            let message = format!(in alloc; "{error}")?;
            in_one_line(alloc, message.as_str())
        }
    }
}
