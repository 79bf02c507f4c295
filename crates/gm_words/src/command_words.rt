//! The words of a command, as a shell would split them.

ghost use Rattle.std.specs.Prelude.{◌≡◌, ◌≢◌, ◌^◌, [], ◌∷◌, List, Some, None, IfErr, IfOk, MatchOption, MatchResult, OnOk, option_and_then, option_map};
ghost use Rattle.clap.specs.Words.{app_of, fault_of, found_of, kind_of, rows_of, subcommand_of, subcommand_rows_of};
ghost use Rattle.clap.specs.Walk.{Text, all_of, first_of, texts};
ghost use Rattle.gm_words.specs.Alike.{ReadsAlike};
ghost use Rattle.gm_words.specs.Spelling.{balance_at, balance_in, command_of, component_at, configure_of, flags_at, if_given, insert_of, label_at, label_of, named_of, number_at, number_below, patch_of, preference_in, priority_at, providers_at, providers_in, sectors_at, settings_at, several_at, slice_at, slice_in, spelled, switch_at, switch_in};
ghost use Rattle.gm_words.specs.Table.{table};

use crate::clap_table::{command_for, table};
use crate::sector_digits::sectors_in;
use clap::error::ErrorKind;
use clap::{ArgMatches, Error};
use gm_commands::{
    BalanceWord, Command, NewComponent, NewMirror, Preference, Providers, Sectors, Settings, Slice,
};
use gm_metadata::{Label, MirrorFlags};
use std::alloc::{AllocError, Global};

/// The words aren't those of a command; every cause is refusal 1.
#[derive(Clone, Copy, Debug, PartialEq, Eq)]
pub struct WordsFault;

#[tactic(auto, unfolding(crate::specs::Spelling::switch_in))]
pub(crate) fn switch(text: &str) -> Option<bool>
    ensures { result ≡ switch_in text.now }
{
    match text {
        "on" => Some(true),
        "off" => Some(false),
        _ => None,
    }
}

#[tactic(auto, unfolding(crate::specs::Spelling::balance_in))]
pub(crate) fn balance(text: &str) -> Option<BalanceWord>
    ensures { result ≡ balance_in text.now }
{
    match text {
        "load" => Some(BalanceWord::Load),
        "prefer" => Some(BalanceWord::Prefer),
        "round-robin" => Some(BalanceWord::RoundRobin),
        "split" => Some(BalanceWord::Split),
        _ => None,
    }
}

pub(crate) fn number(text: &str) -> Option<u32>
    ensures { result ≡ number_below (2 ^ 32) text.now }
{
    text.parse::<u32>().ok()
}

pub(crate) fn priority(text: &str) -> Option<u8>
    ensures { result ≡ number_below (2 ^ 8) text.now }
{
    text.parse::<u8>().ok()
}

// These texts as providers, if each is a label and there is one.
#[tactic(auto, unfolding(crate::specs::Spelling::providers_in))]
fn providers(alloc: Global, found: &[&str]) -> Result<Option<Providers>, AllocError>
    ensures { IfOk result (λ r. r ≡ providers_in (texts found.now)) }
{
    let mut named = Vec::new(alloc);
    for text in found {
        let Some(provider) = Label::new(text) else {
            return Ok(None);
        };
        named.push(provider)?;
    }
    Ok(Providers::new(named))
}

// What clap found for an option or a name.
fn text_at<'a>(matches: &ArgMatches<'a>, id: &str) -> Option<&'a str>
    ensures { MatchOption result (first_of id.now (rows_of (found_of matches.now)) ≡ None)
        (λ text. first_of id.now (rows_of (found_of matches.now)) ≡ Some text.now) }
{
    matches.get_str(id)
}

#[tactic(auto, unfolding(crate::specs::Spelling::number_at))]
fn number_at(matches: &ArgMatches<'_>, id: &str) -> Option<u32>
    ensures { result ≡ number_at id.now (rows_of (found_of matches.now)) }
{
    number(text_at(matches, id)?)
}

#[tactic(auto, unfolding(crate::specs::Spelling::priority_at))]
fn priority_at(matches: &ArgMatches<'_>, id: &str) -> Option<u8>
    ensures { result ≡ priority_at id.now (rows_of (found_of matches.now)) }
{
    priority(text_at(matches, id)?)
}

#[tactic(auto, unfolding(crate::specs::Spelling::slice_at, crate::specs::Spelling::slice_in))]
fn slice_at(matches: &ArgMatches<'_>, id: &str) -> Option<Slice>
    ensures { result ≡ slice_at id.now (rows_of (found_of matches.now)) }
{
    Slice::new(number(text_at(matches, id)?)?)
}

#[tactic(auto, unfolding(crate::specs::Spelling::switch_at))]
fn switch_at(matches: &ArgMatches<'_>, id: &str) -> Option<bool>
    ensures { result ≡ switch_at id.now (rows_of (found_of matches.now)) }
{
    switch(text_at(matches, id)?)
}

#[tactic(auto, unfolding(crate::specs::Spelling::balance_at))]
fn balance_at(matches: &ArgMatches<'_>, id: &str) -> Option<BalanceWord>
    ensures { result ≡ balance_at id.now (rows_of (found_of matches.now)) }
{
    balance(text_at(matches, id)?)
}

fn label_at(matches: &ArgMatches<'_>, id: &str) -> Option<Label>
    ensures { result ≡ label_at id.now (rows_of (found_of matches.now)) }
{
    Label::new(text_at(matches, id)?)
}

#[tactic(auto, unfolding(crate::specs::Spelling::flags_at))]
fn flags_of(matches: &ArgMatches<'_>) -> Option<MirrorFlags>
    ensures { result ≡ flags_at (rows_of (found_of matches.now)) }
{
    let autosync = switch_at(matches, "autosync")?;
    let failsync = switch_at(matches, "failsync")?;
    Some(MirrorFlags {
        no_autosync: !autosync,
        no_failsync: !failsync,
    })
}

// What clap found for names that are providers.
#[tactic(auto, unfolding(crate::specs::Spelling::providers_at))]
fn providers_at(
    alloc: Global,
    matches: &ArgMatches<'_>,
    id: &str,
) -> Result<Option<Providers>, AllocError>
    ensures { IfOk result (λ r. r ≡ providers_at id.now (rows_of (found_of matches.now))) }
{
    match matches.get_strs(id) {
        Some(found) => providers(alloc, found),
        None => Ok(None),
    }
}

// What clap found for an option whose value is sectors.
#[tactic(auto, unfolding(crate::specs::Spelling::sectors_at))]
fn sectors_at(
    alloc: Global,
    matches: &ArgMatches<'_>,
    id: &str,
) -> Result<Option<Sectors>, AllocError>
    ensures { IfOk result (λ r. r ≡ sectors_at id.now (rows_of (found_of matches.now))) }
{
    match text_at(matches, id) {
        Some(text) => sectors_in(alloc, text),
        None => Ok(None),
    }
}

// The value of an option that may be left out: `Some(None)` if it was, `None` if it is none of its
// kind.
#[tactic(auto, unfolding(crate::specs::Spelling::slice_in))]
fn given_slice(matches: &ArgMatches<'_>, id: &str) -> Option<Option<Slice>>
    ensures { result ≡ if_given slice_in (first_of id.now (rows_of (found_of matches.now))) }
{
    match text_at(matches, id) {
        Some(text) => Some(Some(Slice::new(number(text)?)?)),
        None => Some(None),
    }
}

fn given_switch(matches: &ArgMatches<'_>, id: &str) -> Option<Option<bool>>
    ensures { result ≡ if_given switch_in (first_of id.now (rows_of (found_of matches.now))) }
{
    match text_at(matches, id) {
        Some(text) => Some(Some(switch(text)?)),
        None => Some(None),
    }
}

fn given_balance(matches: &ArgMatches<'_>, id: &str) -> Option<Option<BalanceWord>>
    ensures { result ≡ if_given balance_in (first_of id.now (rows_of (found_of matches.now))) }
{
    match text_at(matches, id) {
        Some(text) => Some(Some(balance(text)?)),
        None => Some(None),
    }
}

// A provider and its priority, or neither: one without the other is no command.
#[tactic(auto, unfolding(crate::specs::Spelling::preference_in, crate::specs::Spelling::label_in))]
fn given_preference(provider: Option<&str>, value: Option<&str>) -> Option<Option<Preference>>
    ensures { result ≡ preference_in (option_map (λ t. t.now) provider.entry)
        (option_map (λ t. t.now) value.entry) }
{
    match (provider, value) {
        (Some(provider), Some(value)) => {
            let provider = Label::new(provider)?;
            let priority = priority(value)?;
            Some(Some(Preference { provider, priority }))
        }
        (None, None) => Some(None),
        _ => None,
    }
}

#[tactic(auto, unfolding(crate::specs::Spelling::settings_at))]
fn settings_at(matches: &ArgMatches<'_>) -> Option<Settings>
    ensures { result ≡ settings_at (rows_of (found_of matches.now)) }
{
    let balance = given_balance(matches, "balance")?;
    let slice = given_slice(matches, "slice")?;
    let autosync = given_switch(matches, "autosync")?;
    let failsync = given_switch(matches, "failsync")?;
    let hardcode = given_switch(matches, "hardcode")?;
    let preference = given_preference(text_at(matches, "prov"), text_at(matches, "priority"))?;
    Some(Settings {
        balance,
        slice,
        autosync,
        failsync,
        hardcode,
        preference,
    })
}

// The names that tell a component.
#[derive(Clone, Copy)]
struct ComponentNames {
    name: Label,
    provider: Label,
}

#[tactic(auto, unfolding(crate::specs::Spelling::component_at))]
fn component_at(matches: &ArgMatches<'_>) -> Option<ComponentNames>
    ensures { result ≡ component_at (rows_of (found_of matches.now)) }
{
    let name = label_at(matches, "name")?;
    let provider = label_at(matches, "prov")?;
    Some(ComponentNames { name, provider })
}

#[tactic(auto, unfolding(crate::specs::Spelling::label_of))]
fn label_of(matches: &ArgMatches<'_>) -> Option<Command>
    ensures { result ≡ label_of (rows_of (found_of matches.now)) }
{
    let ComponentNames { name, provider } = component_at(matches)?;
    let mid = number_at(matches, "mid")?;
    let did = number_at(matches, "did")?;
    let balance = balance_at(matches, "balance")?;
    let slice = slice_at(matches, "slice")?;
    let flags = flags_of(matches)?;
    let hardcoded = switch_at(matches, "hardcode")?;
    Some(Command::Label(NewMirror {
        name,
        provider,
        mid,
        did,
        balance,
        slice,
        flags,
        hardcoded,
    }))
}

#[tactic(auto, unfolding(crate::specs::Spelling::insert_of))]
fn insert_of(matches: &ArgMatches<'_>) -> Option<Command>
    ensures { result ≡ insert_of (rows_of (found_of matches.now)) }
{
    let ComponentNames { name, provider } = component_at(matches)?;
    let did = number_at(matches, "did")?;
    let priority = priority_at(matches, "priority")?;
    let hardcoded = switch_at(matches, "hardcode")?;
    Some(Command::Insert(NewComponent {
        name,
        provider,
        did,
        priority,
        hardcoded,
    }))
}

#[tactic(auto, unfolding(crate::specs::Spelling::configure_of))]
fn configure_of(matches: &ArgMatches<'_>) -> Option<Command>
    ensures { result ≡ configure_of (rows_of (found_of matches.now)) }
{
    let name = label_at(matches, "name")?;
    let settings = settings_at(matches)?;
    Some(Command::Configure { name, settings })
}

#[tactic(auto, unfolding(crate::specs::Spelling::patch_of))]
fn patch_of(alloc: Global, matches: &ArgMatches<'_>) -> Result<Option<Command>, AllocError>
    ensures { IfOk result (λ r. r ≡ patch_of (rows_of (found_of matches.now))) }
{
    let Some(name) = label_at(matches, "name") else {
        return Ok(None);
    };
    let Some(first) = number_at(matches, "first") else {
        return Ok(None);
    };
    match sectors_at(alloc, matches, "data")? {
        Some(data) => Ok(Some(Command::Patch { name, first, data })),
        None => Ok(None),
    }
}

// The names of a mirror and of one or more providers.
#[derive(Drop)]
struct SeveralNames {
    name: Label,
    providers: Providers,
}

#[tactic(auto, unfolding(crate::specs::Spelling::several_at))]
fn several_at(alloc: Global, matches: &ArgMatches<'_>) -> Result<Option<SeveralNames>, AllocError>
    ensures { IfOk result (λ r. r ≡ several_at (rows_of (found_of matches.now))) }
{
    let Some(name) = label_at(matches, "name") else {
        return Ok(None);
    };
    match providers_at(alloc, matches, "prov")? {
        Some(providers) => Ok(Some(SeveralNames { name, providers })),
        None => Ok(None),
    }
}

// The command of this word that has one name or a component's, of which clap found these.
fn named_of(word: &str, matches: &ArgMatches<'_>) -> Option<Command>
    ensures { result ≡ named_of word.now (rows_of (found_of matches.now)) }
{
    match word {
        "remove" => {
            let ComponentNames { name, provider } = component_at(matches)?;
            Some(Command::Remove { name, provider })
        }
        "deactivate" => {
            let ComponentNames { name, provider } = component_at(matches)?;
            Some(Command::Deactivate { name, provider })
        }
        "activate" => {
            let ComponentNames { name, provider } = component_at(matches)?;
            Some(Command::Activate { name, provider })
        }
        "forget" => {
            let name = label_at(matches, "name")?;
            Some(Command::Forget { name })
        }
        "rebuild" => {
            let ComponentNames { name, provider } = component_at(matches)?;
            Some(Command::Rebuild { name, provider })
        }
        "clear" => {
            let provider = label_at(matches, "prov")?;
            Some(Command::Clear { provider })
        }
        "destroy" => {
            let name = label_at(matches, "name")?;
            Some(Command::Destroy { name })
        }
        "advance" => {
            let ComponentNames { name, provider } = component_at(matches)?;
            Some(Command::Advance { name, provider })
        }
        _ => None,
    }
}

// The command of this word, of which clap found these.
#[tactic(auto, unfolding(crate::specs::Spelling::command_of))]
fn command_of(
    alloc: Global,
    word: &str,
    matches: &ArgMatches<'_>,
) -> Result<Option<Command>, AllocError>
    ensures { IfOk result (λ r. r ≡ command_of word.now (rows_of (found_of matches.now))) }
{
    match word {
        "label" => Ok(label_of(matches)),
        "insert" => Ok(insert_of(matches)),
        "configure" => Ok(configure_of(matches)),
        "lost" => match several_at(alloc, matches)? {
            Some(SeveralNames { name, providers }) => Ok(Some(Command::Lost { name, providers })),
            None => Ok(None),
        },
        "adopt" => match several_at(alloc, matches)? {
            Some(SeveralNames { name, providers }) => Ok(Some(Command::Adopt { name, providers })),
            None => Ok(None),
        },
        "patch" => Ok(patch_of(alloc, matches)?),
        _ => Ok(named_of(word, matches)),
    }
}

// What clap makes of the words by the whole table.
pub(crate) fn parsed<'a>(alloc: Global, words: &'a [&'a str]) -> Result<ArgMatches<'a>, Error>
    ensures taken { IfOk result (λ m. fault_of table (texts words.entry.now) ≡ []) }
    ensures rows { IfOk result (λ m.
        subcommand_rows_of m ≡ subcommand_of table (texts words.entry.now)) }
    ensures refused { IfErr result (λ e. kind_of e ≢ ErrorKind.OutOfMemory
        → fault_of table (texts words.entry.now) ≢ []) }
{
    table(alloc)?.try_get_matches_from(words)
}

// Words that clap refuses are no command's, unless it is for want of memory.
fn words_fault(error: &Error) -> Result<WordsFault, AllocError>
    ensures { OnOk result (kind_of error.now ≢ ErrorKind.OutOfMemory) }
{
    match error.kind() {
        ErrorKind::OutOfMemory => Err(AllocError),
        _ => Ok(WordsFault),
    }
}

// The command that clap found, if each value is one of its kind.
fn command_found(alloc: Global, matches: &ArgMatches<'_>) -> Result<Option<Command>, AllocError>
    ensures { IfOk result (λ r. r
        ≡ option_and_then (λ p. command_of p.0 p.1) (subcommand_rows_of matches.now)) }
{
    match matches.subcommand() {
        Some((name, own)) => command_of(alloc, name, own),
        None => Ok(None),
    }
}

// The command that words spell, read by the whole table.
fn read_by_table(alloc: Global, words: &[&str]) -> Result<Result<Command, WordsFault>, AllocError>
    ensures { IfOk result (λ r. MatchResult r (λ c. spelled (texts words.now) ≡ Some c)
        (λ _. spelled (texts words.now) ≡ None)) }
{
    match parsed(alloc, words) {
        Ok(matches) => Ok(command_found(alloc, &matches)?.ok_or(WordsFault)),
        Err(e) => Ok(Err(words_fault(&e)?)),
    }
}

// The command that this word spells with those after it, read by the command of the word alone.
fn read_own<'a>(
    alloc: Global,
    command: clap::Command<'a>,
    word: &str,
    own: &'a [&'a str],
) -> Result<Result<Command, WordsFault>, AllocError>
    requires { (words : List Text) → ReadsAlike (app_of command) word.now words }
    ensures { IfOk result (λ r. MatchResult r
        (λ c. spelled (word.now ∷ texts own.entry.now) ≡ Some c)
        (λ _. spelled (word.now ∷ texts own.entry.now) ≡ None)) }
{
    match command.try_get_matches_from(own) {
        Ok(matches) => Ok(command_of(alloc, word, &matches)?.ok_or(WordsFault)),
        Err(e) => Ok(Err(words_fault(&e)?)),
    }
}

/// The command that words spell: the command's own, its options, each with its value, and the
/// names, in any order that clap takes. Numbers are decimal. An `AllocError` is for want of memory
/// alone.
pub fn read_words(alloc: Global, words: &[&str]) -> Result<Result<Command, WordsFault>, AllocError>
    ensures { IfOk result (λ r. MatchResult r (λ c. spelled (texts words.now) ≡ Some c)
        (λ _. spelled (texts words.now) ≡ None)) }
{
    let Some((word, own)) = words.split_first() else {
        return read_by_table(alloc, words);
    };
    match command_for(alloc, word)? {
        Some(command) => read_own(alloc, command, word, own),
        None => read_by_table(alloc, words),
    }
}
