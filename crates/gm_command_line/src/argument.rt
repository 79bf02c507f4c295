//! What a subcommand takes, as data: options and names, from which its table for clap is made.

use crate::settings::Settings;
use clap::builder::ValueParser;
use clap::{Arg, ArgAction, Command};
use std::alloc::{AllocError, Global};

/// When an argument must be given.
#[derive(Clone, Copy)]
pub(crate) enum Need {
    Never,
    Always,
    /// Unless the environment has a registry.
    UnlessRegistryIsSet,
    /// Unless the environment has a folder.
    UnlessFolderIsSet,
    /// Unless `--all` is given.
    UnlessAll,
    /// Never by itself, but beside the option of this name.
    Beside(&'static str),
}

/// What is given as an argument.
#[derive(Clone, Copy)]
pub(crate) enum Given {
    /// The option alone.
    Flag,
    /// `--all`, which stands for names. It goes with no key, and can't be told as JSON.
    All,
    Text,
    /// A number from the first to the second.
    Number(u64, u64),
    /// One text or more.
    Texts,
    /// All words that follow, whatever they begin with.
    Rest,
}

/// An option, or a name that is given by its place.
#[derive(Clone, Copy)]
pub(crate) struct Argument {
    /// The option, as `--mid`; or what clap calls a name, which has no dashes.
    pub(crate) word: &'static str,
    /// How its value is called.
    pub(crate) value: &'static str,
    pub(crate) help: &'static str,
    pub(crate) need: Need,
    pub(crate) given: Given,
}

/// An option without a value.
pub(crate) const FLAG: Argument = Argument {
    word: "",
    value: "",
    help: "",
    need: Need::Never,
    given: Given::Flag,
};

/// An option with a value, which may be left out.
pub(crate) const OPTION: Argument = Argument {
    given: Given::Text,
    ..FLAG
};

/// A name that must be given.
pub(crate) const NAME: Argument = Argument {
    need: Need::Always,
    given: Given::Text,
    ..FLAG
};

impl Argument {
    /// What clap calls it.
    pub(crate) fn id(self) -> &'static str {
        self.word.strip_prefix("--").unwrap_or(self.word)
    }

    /// Whether it goes by its place.
    pub(crate) fn is_name(self) -> bool {
        !self.word.starts_with("--")
    }

    /// Whether it is an option with a value.
    pub(crate) fn is_option(self) -> bool {
        !self.is_name() && !matches!(self.given, Given::Flag | Given::All)
    }

    // What clap is told of it but for when it must be given.
    fn taken(self, alloc: Global) -> Arg<'static> {
        let arg = Arg::new(alloc, self.id()).help(self.help);
        let arg = match self.is_name() {
            true => arg,
            false => arg.long(self.id()),
        };
        match self.given {
            Given::Flag | Given::All => arg.action(ArgAction::SetTrue),
            Given::Text => arg.value_name(self.value).action(ArgAction::Set),
            Given::Number(least, most) => arg
                .value_name(self.value)
                .action(ArgAction::Set)
                .value_parser(ValueParser::unsigned(least, most)),
            Given::Texts => arg.value_name(self.value).action(ArgAction::Append),
            Given::Rest => arg
                .value_name(self.value)
                .action(ArgAction::Append)
                .num_args(1..)
                .trailing_var_arg(true)
                .allow_hyphen_values(true),
        }
    }

    fn arg(self, alloc: Global, settings: Settings<'_>) -> Result<Arg<'static>, AllocError> {
        let arg = self.taken(alloc);
        match (self.given, self.need) {
            (Given::All, _) => arg.conflicts_with_all(&["name", "json", "key"]),
            (_, Need::Never) => Ok(arg),
            (_, Need::Always) => Ok(arg.required(true)),
            (_, Need::UnlessRegistryIsSet) => Ok(arg.required(settings.registry.is_unset())),
            (_, Need::UnlessFolderIsSet) => Ok(arg.required(settings.shelf.is_unset())),
            (_, Need::UnlessAll) => arg.required_unless_present("all"),
            (_, Need::Beside(other)) => arg.requires_arg(other),
        }
    }
}

/// The command with these arguments after those that it has.
pub(crate) fn with_arguments<'a>(
    alloc: Global,
    command: Command<'a>,
    arguments: &'static [Argument],
    settings: Settings<'a>,
) -> Result<Command<'a>, AllocError> {
    let mut command = command;
    for argument in arguments {
        command = command.arg(argument.arg(alloc, settings)?)?;
    }
    Ok(command)
}
