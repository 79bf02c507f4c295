//! The canonical words of a command: by these commands are compared.

ghost use Rattle.std.specs.Prelude.{◌≡◌, ◌<◌, Some, IfOk, IsTrue, length, codes, [], ◌∷◌, ◌++◌};
ghost use Rattle.std.specs.List.{join_with_byte, list_all};
ghost use Rattle.std.specs.String.{string_bytes};
ghost use Rattle.gm_metadata.specs.Labels.{is_label};
ghost use Rattle.gm_commands.specs.declared.command.Command.TheVariants as commands;
ghost use Rattle.gm_commands.specs.Commands.{CommandFits, PreferenceFits, SliceFits, balance_words, given_switch, number_words, on_where, patch_words, preference_words, setting_words, slice_words, spaced, switch_words, words_of};
ghost use Rattle.gm_commands.specs.Sectors.{is_bytes, is_sector};

use crate::command::{BalanceWord, Command, NewComponent, NewMirror, Preference, Settings, Slice};
use gm_metadata::Label;
use std::alloc::{AllocError, Global};

fn on_where(set: bool) -> &'static str
    ensures { result.now ≡ on_where set }
{
    if set { "on" } else { "off" }
}

fn number_words(
    alloc: Global,
    mid: u32,
    did: u32,
    balance: &str,
    slice: u32,
) -> Result<String, AllocError>
    ensures { IfOk result (λ text. string_bytes text
        ≡ join_with_byte 32 (number_words mid did balance.now slice)) }
{
    format!(in alloc; "--mid {mid} --did {did} --balance {balance} --slice {slice}")
}

fn switch_words(
    alloc: Global,
    autosync: &str,
    failsync: &str,
    hardcode: &str,
) -> Result<String, AllocError>
    ensures { IfOk result (λ text. string_bytes text
        ≡ join_with_byte 32 (switch_words autosync.now failsync.now hardcode.now)) }
{
    format!(in alloc; "--autosync {autosync} --failsync {failsync} --hardcode {hardcode}")
}

fn label_line(
    alloc: Global,
    numbers: &str,
    switches: &str,
    name: Label,
    provider: Label,
) -> Result<String, AllocError>
    ensures { IfOk result (λ text. string_bytes text
        ≡ join_with_byte 32 (codes "label" ∷ numbers.now ∷ switches.now ∷ name ∷ provider ∷ [])) }
{
    format!(in alloc; "label {numbers} {switches} {name} {provider}")
}

fn label_words(alloc: Global, new: &NewMirror) -> Result<String, AllocError>
    ensures { IfOk result (λ text. string_bytes text ≡ words_of (commands.Label new.now)) }
{
    let balance = new.balance.balance().name();
    let autosync = on_where(!new.flags.no_autosync);
    let failsync = on_where(!new.flags.no_failsync);
    let hardcode = on_where(new.hardcoded);
    let numbers = number_words(alloc, new.mid, new.did, balance, new.slice.bytes())?;
    let switches = switch_words(alloc, autosync, failsync, hardcode)?;
    label_line(alloc, &numbers, &switches, new.name, new.provider)
}

fn insert_words(alloc: Global, new: &NewComponent) -> Result<String, AllocError>
    ensures { IfOk result (λ text. string_bytes text ≡ words_of (commands.Insert new.now)) }
{
    let NewComponent {
        name,
        provider,
        did,
        priority,
        hardcoded,
    } = *new;
    let hardcode = on_where(hardcoded);
    format!(in alloc;
        "insert --did {did} --priority {priority} --hardcode {hardcode} {name} {provider}"
    )
}

// An option and its value, each after a space.
fn pair(alloc: Global, option: &str, value: &str) -> Result<String, AllocError>
    ensures { IfOk result (λ text. string_bytes text ≡ spaced (option.now ∷ value.now ∷ [])) }
{
    format!(in alloc; " {option} {value}")
}

fn given_balance(alloc: Global, balance: Option<BalanceWord>) -> Result<String, AllocError>
    ensures { IfOk result (λ text. string_bytes text ≡ spaced (balance_words balance)) }
{
    match balance {
        Some(balance) => Ok(pair(alloc, "--balance", balance.balance().name())?),
        None => Ok(String::new(alloc)),
    }
}

fn given_slice(alloc: Global, slice: Option<Slice>) -> Result<String, AllocError>
    ensures { IfOk result (λ text. string_bytes text ≡ spaced (slice_words slice)) }
{
    match slice {
        Some(slice) => {
            let bytes = slice.bytes();
            format!(in alloc; " --slice {bytes}")
        }
        None => Ok(String::new(alloc)),
    }
}

fn given_switch(alloc: Global, option: &str, switch: Option<bool>) -> Result<String, AllocError>
    ensures { IfOk result (λ text. string_bytes text ≡ spaced (given_switch option.now switch)) }
{
    match switch {
        Some(set) => Ok(pair(alloc, option, on_where(set))?),
        None => Ok(String::new(alloc)),
    }
}

fn given_preference(alloc: Global, preference: Option<Preference>) -> Result<String, AllocError>
    ensures { IfOk result (λ text. string_bytes text ≡ spaced (preference_words preference)) }
{
    match preference {
        Some(preference) => Ok(preferred(alloc, preference.provider, preference.priority)?),
        None => Ok(String::new(alloc)),
    }
}

fn preferred(alloc: Global, provider: Label, priority: u8) -> Result<String, AllocError>
    ensures { IfOk result (λ text. string_bytes text
        ≡ spaced (preference_words (Some (record { provider = provider; priority = priority })))) }
{
    format!(in alloc; " --prov {provider} --priority {priority}")
}

fn configure_words(alloc: Global, name: Label, settings: Settings) -> Result<String, AllocError>
    ensures { IfOk result (λ text. string_bytes text
        ≡ join_with_byte 32 (codes "configure" ∷ setting_words settings ++ name ∷ [])) }
{
    let balance = given_balance(alloc, settings.balance)?;
    let slice = given_slice(alloc, settings.slice)?;
    let autosync = given_switch(alloc, "--autosync", settings.autosync)?;
    let failsync = given_switch(alloc, "--failsync", settings.failsync)?;
    let hardcode = given_switch(alloc, "--hardcode", settings.hardcode)?;
    let preference = given_preference(alloc, settings.preference)?;
    format!(in alloc; "configure{balance}{slice}{autosync}{failsync}{hardcode}{preference} {name}")
}

// The words of a command that names a mirror and one or more providers.
fn row_words(
    alloc: Global,
    word: &str,
    name: Label,
    providers: &[Label],
) -> Result<String, AllocError>
    requires { 0 < length providers.now }
    ensures { IfOk result (λ text. string_bytes text
        ≡ join_with_byte 32 (word.now ∷ name ∷ providers.now)) }
{
    let providers = providers.join(alloc, " ")?;
    format!(in alloc; "{word} {name} {providers}")
}

fn patch_words(
    alloc: Global,
    name: Label,
    first: u32,
    sectors: &[[u8; 512]],
) -> Result<String, AllocError>
    ensures { IfOk result (λ text. string_bytes text
        ≡ join_with_byte 32 (patch_words name first sectors.now)) }
{
    let digits = hex::encode(alloc, sectors.as_flattened())?;
    format!(in alloc; "patch --first {first} --data {digits} {name}")
}

// What the types of their parts say of a slice and a preference; these do nothing.
fn slice_fits(slice: Option<Slice>)
    ensures { SliceFits slice }
{
    if let Some(slice) = slice {
        let _ = slice.bytes();
    }
}

fn preference_fits(preference: Option<Preference>)
    ensures { PreferenceFits preference }
{
    if let Some(
        Preference {
            provider,
            priority: _priority,
        },
    ) = preference
    {
        let _ = provider.as_bytes();
    }
}

// Each of them is a label; it does nothing.
fn labels_fit(providers: &[Label])
    ensures { IsTrue (list_all is_label providers.now) }
{
    for provider in providers {
        let _ = provider.as_bytes();
    }
}

// Bytes are bytes, and 512 of them a sector; these do nothing.
fn bytes_fit(bytes: &[u8])
    ensures { IsTrue (is_bytes bytes.now) }
{
    for byte in bytes {
        let _byte = *byte;
    }
}

fn sector_fits(sector: &[u8; 512])
    ensures { IsTrue (is_sector sector.now) }
{
    bytes_fit(sector);
}

fn sectors_fit(sectors: &[[u8; 512]])
    ensures { IsTrue (list_all is_sector sectors.now) }
{
    for sector in sectors {
        sector_fits(sector);
    }
}

// What they say of a label and an insert; these do nothing.
fn label_fits(new: &NewMirror)
    ensures { CommandFits (commands.Label new.now) }
{
    let NewMirror {
        name,
        provider,
        mid: _mid,
        did: _did,
        slice,
        ..
    } = *new;
    let _ = name.as_bytes();
    let _ = provider.as_bytes();
    let _ = slice.bytes();
}

fn insert_fits(new: &NewComponent)
    ensures { CommandFits (commands.Insert new.now) }
{
    let NewComponent {
        name,
        provider,
        did: _did,
        priority: _priority,
        ..
    } = *new;
    let _ = name.as_bytes();
    let _ = provider.as_bytes();
}

// What the types of its parts say of a command; it does nothing.
fn command_fits(command: &Command)
    ensures { CommandFits command.now }
{
    match *command {
        Command::Label(ref new) => label_fits(new),
        Command::Insert(ref new) => insert_fits(new),
        Command::Remove { name, provider }
        | Command::Deactivate { name, provider }
        | Command::Activate { name, provider }
        | Command::Rebuild { name, provider }
        | Command::Advance { name, provider } => {
            let _ = name.as_bytes();
            let _ = provider.as_bytes();
        }
        Command::Configure { name, settings } => {
            let _ = name.as_bytes();
            slice_fits(settings.slice);
            preference_fits(settings.preference);
        }
        Command::Clear { provider } => {
            let _ = provider.as_bytes();
        }
        Command::Lost {
            name,
            ref providers,
        }
        | Command::Adopt {
            name,
            ref providers,
        } => {
            let _ = name.as_bytes();
            labels_fit(providers.as_slice());
        }
        Command::Forget { name } | Command::Destroy { name } => {
            let _ = name.as_bytes();
        }
        Command::Patch {
            name,
            first: _first,
            ref data,
        } => {
            let _ = name.as_bytes();
            sectors_fit(data.as_slice());
        }
    }
}

/// The canonical words of a command: its name, the options in their order, each with its value and
/// each default written out, and then the names; joined by one space, numbers in plain decimals
/// (this project's own).
pub fn words_of(alloc: Global, command: &Command) -> Result<String, AllocError>
    ensures words { IfOk result (λ text. string_bytes text ≡ words_of command.now) }
    ensures fits { CommandFits command.now }
{
    command_fits(command);
    match *command {
        Command::Label(ref new) => label_words(alloc, new),
        Command::Insert(ref new) => insert_words(alloc, new),
        Command::Remove { name, provider } => format!(in alloc; "remove {name} {provider}"),
        Command::Deactivate { name, provider } => format!(in alloc; "deactivate {name} {provider}"),
        Command::Activate { name, provider } => format!(in alloc; "activate {name} {provider}"),
        Command::Forget { name } => format!(in alloc; "forget {name}"),
        Command::Rebuild { name, provider } => format!(in alloc; "rebuild {name} {provider}"),
        Command::Configure { name, settings } => configure_words(alloc, name, settings),
        Command::Clear { provider } => format!(in alloc; "clear {provider}"),
        Command::Destroy { name } => format!(in alloc; "destroy {name}"),
        Command::Lost {
            name,
            ref providers,
        } => row_words(alloc, "lost", name, providers.as_slice()),
        Command::Advance { name, provider } => format!(in alloc; "advance {name} {provider}"),
        Command::Adopt {
            name,
            ref providers,
        } => row_words(alloc, "adopt", name, providers.as_slice()),
        Command::Patch {
            name,
            first,
            ref data,
        } => patch_words(alloc, name, first, data.as_slice()),
    }
}
