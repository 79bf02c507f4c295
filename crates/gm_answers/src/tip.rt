//! Where words belong that are in a wrong place after `do`, and which part of one isn't wanted.

use gm_command_line::is_command;
use gm_front::Outcome;
use gm_metadata::Label;
use std::io::Write;

// The options of `do`, which come before the key.
const OPTIONS: [&str; 8] = [
    "--registry",
    "--shelf",
    "--existing",
    "--explain",
    "--wait",
    "--json",
    "--unchecked",
    "--force",
];

// Whether a word is this option, or the option with a value.
fn is_option(word: &str, option: &str) -> bool {
    match word.strip_prefix(option) {
        Some(rest) => rest.is_empty() || rest.starts_with('='),
        None => false,
    }
}

// The first of these words that is an option of `do`.
fn misplaced(words: &[&str]) -> Option<&'static str> {
    for word in words {
        if let Some(option) = OPTIONS.iter().find(|option| is_option(word, option)) {
            return Some(*option);
        }
    }
    None
}

// The name after the folder, of the first of these words that has a folder before a name.
fn name_after_folder<'a>(words: &[&'a str]) -> Option<&'a str> {
    for word in words {
        match word.rsplit_once('/') {
            Some((_, name)) if Label::new(name).is_some() => return Some(name),
            _ => {}
        }
    }
    None
}

// What is in a wrong place of words under this key that are no command.
fn say_place<E: Write>(complaints: &mut E, words: &[&str], key: &str) {
    if let Some(option) = misplaced(words) {
        let _ = writeln!(
            complaints,
            "tip: {option} comes before the key: gmbench do {option} .. {key} .."
        );
    } else if is_command(key) {
        let _ = writeln!(
            complaints,
            "tip: a key comes after do: gmbench do KEY {key} .., or without both gmbench {key} .."
        );
    } else if let Some(name) = name_after_folder(words) {
        let _ = writeln!(
            complaints,
            "tip: an image is named without its folder: {name}"
        );
    }
}

/// Tells whoever wrote no command, but an option of `do` after the key, or no key, where it
/// belongs, and that a name goes without its folder.
pub fn say_tip<E: Write>(complaints: &mut E, words: &[&str], outcome: &Outcome<'_>) {
    if let Outcome::Wrong(key) = *outcome {
        say_place(complaints, words, key);
    }
}
