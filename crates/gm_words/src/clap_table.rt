//! The table of the commands' words, for clap. `COMMANDS` has the commands, each with its kind, and
//! beside each kind stand the words that its commands take, in the order in which clap has them.

ghost use Rattle.std.specs.Prelude.{◌≡◌, List, IfOk, IfSome, false, find};
ghost use Rattle.std.specs.Str.{bytes_eq};
ghost use Rattle.clap.specs.Walk.{Text};
ghost use Rattle.clap.specs.Words.{app_of, new_app, rule_of, with_rule, with_subcommand};
ghost use Rattle.clap.specs.declared.builder.command.Command.TheViews.{out-Command};
ghost use Rattle.gm_words.specs.Table.{commands, name, names, optional, possible, table, wanted};
ghost use Rattle.gm_words.specs.Kinds.{alone, command_of_kind, with_row, with_rows, with_words};
ghost use Rattle.gm_words.specs.Alike.{ReadsAlike};

use clap::{Arg, ArgAction, Command};
use std::alloc::{AllocError, Global};

// What a command takes beside its own word.
#[derive(Clone, Copy)]
enum Word {
    // a name, by its place
    Name(&'static str),
    // one name or more, by their places: the last words
    Names(&'static str),
    // an option that must be given
    Wanted(&'static str),
    // an option that has this value if it isn't given
    Optional(&'static str, &'static str),
    // an option that may be left out, and has no value then
    Possible(&'static str),
}

// What commands are alike in: four have words of their own, the others the names of a mirror, of a
// provider, of a component, or of a mirror and one or more providers.
#[derive(Clone, Copy)]
enum Kind {
    Label,
    Insert,
    Configure,
    Patch,
    Mirror,
    Provider,
    Component,
    Several,
}

const LABEL: [Word; 9] = [
    Word::Wanted("mid"),
    Word::Wanted("did"),
    Word::Optional("balance", "load"),
    Word::Optional("slice", "4096"),
    Word::Optional("autosync", "on"),
    Word::Optional("failsync", "on"),
    Word::Optional("hardcode", "off"),
    Word::Name("name"),
    Word::Name("prov"),
];

const INSERT: [Word; 5] = [
    Word::Wanted("did"),
    Word::Optional("priority", "0"),
    Word::Optional("hardcode", "off"),
    Word::Name("name"),
    Word::Name("prov"),
];

const CONFIGURE: [Word; 8] = [
    Word::Possible("balance"),
    Word::Possible("slice"),
    Word::Possible("autosync"),
    Word::Possible("failsync"),
    Word::Possible("hardcode"),
    Word::Possible("prov"),
    Word::Possible("priority"),
    Word::Name("name"),
];

const PATCH: [Word; 3] = [
    Word::Wanted("first"),
    Word::Wanted("data"),
    Word::Name("name"),
];

const MIRROR: [Word; 1] = [Word::Name("name")];

const PROVIDER: [Word; 1] = [Word::Name("prov")];

const COMPONENT: [Word; 2] = [Word::Name("name"), Word::Name("prov")];

const SEVERAL: [Word; 2] = [Word::Name("name"), Word::Names("prov")];

const COMMANDS: [(&str, Kind); 14] = [
    ("label", Kind::Label),
    ("insert", Kind::Insert),
    ("remove", Kind::Component),
    ("deactivate", Kind::Component),
    ("activate", Kind::Component),
    ("forget", Kind::Mirror),
    ("rebuild", Kind::Component),
    ("configure", Kind::Configure),
    ("clear", Kind::Provider),
    ("destroy", Kind::Mirror),
    ("lost", Kind::Several),
    ("advance", Kind::Component),
    ("adopt", Kind::Several),
    ("patch", Kind::Patch),
];

// A name, by its place.
#[tactic(auto, unfolding(crate::specs::Table::name))]
fn name<'a>(alloc: Global, id: &'a str) -> Arg<'a>
    ensures rule { rule_of result ≡ name id.entry.now }
    ensures local { result.global ≡ false }
{
    Arg::new(alloc, id).required(true).action(ArgAction::Set)
}

// One name or more, by their places: the last words.
#[tactic(auto, unfolding(crate::specs::Table::names))]
fn names<'a>(alloc: Global, id: &'a str) -> Arg<'a>
    ensures rule { rule_of result ≡ names id.entry.now }
    ensures local { result.global ≡ false }
{
    Arg::new(alloc, id).required(true).action(ArgAction::Append)
}

// An option that must be given.
#[tactic(auto, unfolding(crate::specs::Table::wanted))]
fn wanted<'a>(alloc: Global, id: &'a str) -> Arg<'a>
    ensures rule { rule_of result ≡ wanted id.entry.now }
    ensures local { result.global ≡ false }
{
    Arg::new(alloc, id)
        .long(id)
        .required(true)
        .action(ArgAction::Set)
}

// An option that has this value if it isn't given.
#[tactic(auto, unfolding(crate::specs::Table::optional))]
fn optional<'a>(alloc: Global, id: &'a str, other: &'a str) -> Arg<'a>
    ensures rule { rule_of result ≡ optional id.entry.now other.entry.now }
    ensures local { result.global ≡ false }
{
    Arg::new(alloc, id)
        .long(id)
        .action(ArgAction::Set)
        .default_value(other)
}

// An option that may be left out, and has no value then.
#[tactic(auto, unfolding(crate::specs::Table::possible))]
fn possible<'a>(alloc: Global, id: &'a str) -> Arg<'a>
    ensures rule { rule_of result ≡ possible id.entry.now }
    ensures local { result.global ≡ false }
{
    Arg::new(alloc, id).long(id).action(ArgAction::Set)
}

impl Word {
    ghost use Rattle.gm_words.specs.Kinds.{rule_of_word};

    fn arg<'a>(self, alloc: Global) -> Arg<'a>
        ensures rule { rule_of result ≡ rule_of_word self }
        ensures local { result.global ≡ false }
    {
        match self {
            Word::Name(id) => name(alloc, id),
            Word::Names(id) => names(alloc, id),
            Word::Wanted(id) => wanted(alloc, id),
            Word::Optional(id, other) => optional(alloc, id, other),
            Word::Possible(id) => possible(alloc, id),
        }
    }
}

// The command with one more argument.
fn with<'a>(command: Command<'a>, arg: Arg<'a>) -> Result<Command<'a>, AllocError>
    requires { arg.global ≡ false }
    ensures app { IfOk result (λ c.
        app_of c ≡ with_rule (app_of command.entry) (rule_of arg.entry)) }
    ensures local { IfOk result (λ c.
        (out-Command c).has_globals ≡ (out-Command command.entry).has_globals) }
{
    command.arg(arg)
}

// The command of this word that takes these.
fn command_with<'a>(
    alloc: Global,
    word: &'static str,
    words: &[Word],
) -> Result<Command<'a>, AllocError>
    ensures app { IfOk result (λ c. app_of c ≡ with_words (new_app word.now) words.now) }
    ensures local { IfOk result (λ c. (out-Command c).has_globals ≡ false) }
{
    let mut command = Command::new(alloc, word);
    for more in words {
        command = with(command, more.arg(alloc))?;
    }
    Ok(command)
}

// The command of this word that takes what its kind does.
fn command_of_kind<'a>(
    alloc: Global,
    word: &'static str,
    kind: Kind,
) -> Result<Command<'a>, AllocError>
    ensures app { IfOk result (λ c. app_of c ≡ command_of_kind word.now kind) }
    ensures local { IfOk result (λ c. (out-Command c).has_globals ≡ false) }
{
    match kind {
        Kind::Label => command_with(alloc, word, &LABEL),
        Kind::Insert => command_with(alloc, word, &INSERT),
        Kind::Configure => command_with(alloc, word, &CONFIGURE),
        Kind::Patch => command_with(alloc, word, &PATCH),
        Kind::Mirror => command_with(alloc, word, &MIRROR),
        Kind::Provider => command_with(alloc, word, &PROVIDER),
        Kind::Component => command_with(alloc, word, &COMPONENT),
        Kind::Several => command_with(alloc, word, &SEVERAL),
    }
}

fn commands<'a>(alloc: Global) -> Command<'a>
    ensures app { app_of result ≡ commands }
    ensures local { (out-Command result).has_globals ≡ false }
{
    Command::new(alloc, "gmbench")
        .no_binary_name(true)
        .disable_help_flag(true)
        .disable_help_subcommand(true)
        .subcommand_required(true)
}

// The command with one more subcommand.
fn with_command<'a>(command: Command<'a>, more: Command<'a>) -> Result<Command<'a>, AllocError>
    requires { (out-Command more).has_globals ≡ false }
    ensures { IfOk result (λ c.
        app_of c ≡ with_subcommand (app_of command.entry) (app_of more.entry).top) }
{
    command.subcommand(more)
}

// The command with this one as a subcommand too.
fn with_row<'a>(
    alloc: Global,
    command: Command<'a>,
    row: (&'static str, Kind),
) -> Result<Command<'a>, AllocError>
    ensures { IfOk result (λ c. app_of c ≡ with_row (app_of command.entry) row.entry) }
{
    let more = command_of_kind(alloc, row.0, row.1)?;
    with_command(command, more)
}

// The command with these as its subcommands too.
fn with_rows<'a>(
    alloc: Global,
    command: Command<'a>,
    rows: &[(&'static str, Kind)],
) -> Result<Command<'a>, AllocError>
    ensures { IfOk result (λ c. app_of c ≡ with_rows (app_of command.entry) rows.now) }
{
    let mut command = command;
    for row in rows {
        command = with_row(alloc, command, *row)?;
    }
    Ok(command)
}

/// The whole table.
pub(crate) fn table<'a>(alloc: Global) -> Result<Command<'a>, AllocError>
    ensures { IfOk result (λ c. app_of c ≡ table) }
{
    with_rows(alloc, commands(alloc), &COMMANDS)
}

// The row of the command of this word.
fn row_of(rows: &[(&'static str, Kind)], word: &str) -> Option<(&'static str, Kind)>
    ensures { result ≡ find (λ row. bytes_eq row.0.now word.now) rows.now }
{
    rows.iter().copied().find(|row| row.0 == word)
}

// The command of this word and kind by itself: its words are those after its own, and none of them
// asks for help.
fn alone<'a>(alloc: Global, word: &'static str, kind: Kind) -> Result<Command<'a>, AllocError>
    ensures { IfOk result (λ c. app_of c ≡ alone word.now kind) }
{
    let command = command_of_kind(alloc, word, kind)?;
    Ok(command.no_binary_name(true).disable_help_flag(true))
}

/// The command of this word by itself, if there is one: it reads the words after its own as the
/// whole table does, and is made in a fraction of the time.
pub(crate) fn command_for<'a>(alloc: Global, word: &str) -> Result<Option<Command<'a>>, AllocError>
    ensures { IfOk result (λ r. IfSome r (λ c.
        (own : List Text) → ReadsAlike (app_of c) word.now own)) }
{
    match row_of(&COMMANDS, word) {
        Some(row) => Ok(Some(alone(alloc, row.0, row.1)?)),
        None => Ok(None),
    }
}
