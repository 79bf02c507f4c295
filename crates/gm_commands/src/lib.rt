//! The commands that a bench is handed, the keys that they are handed in under, and the words by
//! which they are compared.
//!
//! Begin with `command.rt`, what a command can say; `providers.rt` has the lists of providers that
//! it names, and `sectors.rt` the bytes that it lays over data. `call_key.rt` says what a key is,
//! `canonical_words.rt` and `specs/Commands.antt` which words a command has, and `laws.rt` that two
//! commands have equal words only if they are one.
#![tactic(auto)]

mod call_key;
mod canonical_words;
mod command;
mod laws;
mod providers;
mod sectors;

pub use call_key::{MAX_COMMANDS, is_key};
pub use canonical_words::words_of;
pub use command::{BalanceWord, Command, NewComponent, NewMirror, Preference, Settings, Slice};
pub use laws::one_command;
pub use providers::Providers;
pub use sectors::Sectors;
