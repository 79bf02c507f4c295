//! The table of the program's own words, for `clap`.

use crate::argument::{Argument, FLAG, Given, NAME, Need, OPTION, with_arguments};
use crate::by_itself::{ByItself, commands};
use crate::help::{
    ACCEPTED, CHECKING, COMPARING, FILLING, HELP, LINES, LOSSES, MENDING, RENEWING, REPLACING,
    REQUESTS, WORDS, WRITES, WRITING,
};
use crate::settings::Settings;
use clap::Command;
use std::alloc::{AllocError, Global};

const JSON: Argument = Argument {
    word: "--json",
    help: "Prints JSON",
    ..FLAG
};

const EXPLAIN: Argument = Argument {
    word: "--explain",
    help: "Says on standard error what a refusal or a fault means",
    ..FLAG
};

const EXISTING: Argument = Argument {
    word: "--existing",
    help: "Makes no registry: one that isn't there is a fault",
    ..FLAG
};

const READ_ONLY: Argument = Argument {
    word: "--read-only",
    help: "Carries out nothing that is pending, and writes nothing at all",
    ..FLAG
};

const UNCHECKED: Argument = Argument {
    word: "--unchecked",
    help: "Doesn't look first whether the images are as they are registered",
    ..FLAG
};

// Of a recovery, which compares other things.
const UNCHECKED_LEFT: Argument = Argument {
    help: "Doesn't look first at what lies under the names of pending images",
    ..UNCHECKED
};

// Of what is done to an image that isn't so.
const UNCHECKED_OTHERS: Argument = Argument {
    help: "Doesn't look first whether the other images are as they are registered",
    ..UNCHECKED
};

const FORCE: Argument = Argument {
    word: "--force",
    help: "Carries it out even if data are lost then, or something else uses an image",
    ..FLAG
};

// Of what takes no data away.
const FORCE_USED: Argument = Argument {
    help: "Writes to images even if something else uses them",
    ..FORCE
};

const DATA: Argument = Argument {
    word: "--data",
    help: "Compares the data of the components that are ACTIVE too",
    ..FLAG
};

const QUIET: Argument = Argument {
    word: "--quiet",
    help: "Doesn't say how far it is",
    ..FLAG
};

const AUDIT: Argument = Argument {
    word: "--audit",
    help: "Carries out no command if an image of its mirror isn't as it is registered",
    ..FLAG
};

const GUARDED: Argument = Argument {
    word: "--guarded",
    help: "Carries out no command that `do` would ask about or hold back",
    ..FLAG
};

const STOP: Argument = Argument {
    word: "--stop",
    help: "Ends at the first line that is refused",
    ..FLAG
};

const LOGGED: Argument = Argument {
    word: "--log",
    help: "Logs a line for each connection, on standard error",
    ..FLAG
};

const ANY_ORIGIN: Argument = Argument {
    word: "--any-origin",
    help: "Answers web pages too, which are turned away without it",
    ..FLAG
};

const REGISTRY: Argument = Argument {
    word: "--registry",
    value: "FILE",
    help: "The registry, which is made if there is none",
    need: Need::UnlessRegistryIsSet,
    ..OPTION
};

// The registry, for a subcommand that makes none.
const REGISTRY_THERE: Argument = Argument {
    help: "The registry",
    ..REGISTRY
};

const SHELF: Argument = Argument {
    word: "--shelf",
    value: "DIR",
    help: "The folder with the images",
    need: Need::UnlessFolderIsSet,
    ..OPTION
};

const SHELF_IF_ANY: Argument = Argument {
    word: "--shelf",
    value: "DIR",
    help: "The folder with the images, to say how they stand to what is pending",
    ..OPTION
};

const WAIT: Argument = Argument {
    word: "--wait",
    value: "SECONDS",
    help: "How long a folder or a registry in use is tried again",
    given: Given::Number(0, 86_400),
    ..OPTION
};

const WITHOUT: Argument = Argument {
    word: "--without",
    value: "PROV",
    help: "An image that is gone for good, which is given up",
    need: Need::Beside("key"),
    ..OPTION
};

const KEY_OF_LOSS: Argument = Argument {
    word: "--key",
    value: "KEY",
    help: "The key under which it is given up, once",
    need: Need::Beside("without"),
    ..OPTION
};

const OWN_KEY: Argument = Argument {
    word: "--key",
    value: "KEY",
    help: "The key under which it is carried out, once, in place of one of gmbench's own",
    ..OPTION
};

const FIRST_KEY: Argument = Argument {
    word: "--key",
    value: "KEY",
    help: "The key of its first command, in place of one of gmbench's own",
    ..OPTION
};

const PORT: Argument = Argument {
    word: "--port",
    value: "P",
    help: "The port on 127.0.0.1; 0 stands for one that is free",
    need: Need::Always,
    given: Given::Number(0, 65_535),
    ..OPTION
};

const COUNT: Argument = Argument {
    word: "--count",
    value: "N",
    help: "How many connections are served",
    given: Given::Number(1, 4_294_967_295),
    ..OPTION
};

const LAST: Argument = Argument {
    word: "--last",
    value: "N",
    help: "Only so many of them, the last",
    given: Given::Number(1, 100_000),
    ..OPTION
};

const FIRST: Argument = Argument {
    word: "--first",
    value: "N",
    help: "The first sector, counted from 0",
    need: Need::Always,
    given: Given::Number(0, 4_294_967_295),
    ..OPTION
};

const FILE: Argument = Argument {
    word: "--file",
    value: "FILE",
    help: "The file with the data, or - for standard input",
    need: Need::Always,
    ..OPTION
};

const IMAGE: Argument = Argument {
    word: "provider",
    value: "PROV",
    help: "The name of an image",
    ..NAME
};

const IMAGE_IF_ANY: Argument = Argument {
    need: Need::Never,
    ..IMAGE
};

const MIRROR: Argument = Argument {
    word: "name",
    value: "NAME",
    help: "The name of a mirror",
    ..NAME
};

const MIRROR_IF_ANY: Argument = Argument {
    need: Need::Never,
    ..MIRROR
};

const OLD: Argument = Argument {
    word: "old",
    value: "OLD",
    help: "The image that is taken out",
    ..NAME
};

const NEW: Argument = Argument {
    word: "new",
    value: "NEW",
    help: "The image that takes its place",
    ..NAME
};

const KEY: Argument = Argument {
    word: "key",
    value: "KEY",
    help: "The key under which it is carried out, once",
    ..NAME
};

const COMMAND: Argument = Argument {
    word: "words",
    value: "COMMAND",
    help: "The command, and its words",
    given: Given::Rest,
    ..NAME
};

/// A subcommand, what the help says of it, and what it takes, in the help's order.
#[derive(Clone, Copy)]
pub(crate) struct Subcommand {
    pub(crate) name: &'static str,
    about: &'static str,
    // what its help says below its options, if anything
    more: &'static str,
    takes: &'static [Argument],
}

pub(crate) const DUMP: Subcommand = Subcommand {
    name: "dump",
    about: "Prints what the last sector of an image says",
    more: "",
    takes: &[SHELF, JSON, EXPLAIN, IMAGE],
};

const PENDING: Subcommand = Subcommand {
    name: "pending",
    about: "Prints what a run that stopped left pending, and carries out nothing",
    more: WRITES,
    takes: &[REGISTRY_THERE, SHELF_IF_ANY, JSON, EXPLAIN, WAIT],
};

pub(crate) const LOG: Subcommand = Subcommand {
    name: "log",
    about: "Prints which commands were accepted, and writes nothing",
    more: ACCEPTED,
    takes: &[REGISTRY_THERE, EXPLAIN, WAIT, LAST, JSON, MIRROR_IF_ANY],
};

pub(crate) const RECOVER: Subcommand = Subcommand {
    name: "recover",
    about: "Carries out what a run that stopped left pending",
    more: LOSSES,
    takes: &[
        REGISTRY,
        SHELF,
        EXISTING,
        EXPLAIN,
        WAIT,
        JSON,
        UNCHECKED_LEFT,
        FORCE_USED,
        WITHOUT,
        KEY_OF_LOSS,
    ],
};

pub(crate) const SYNC: Subcommand = Subcommand {
    name: "sync",
    about: "Fills the components that are SYNCHRONIZING",
    more: FILLING,
    takes: &[
        REGISTRY_THERE,
        SHELF,
        EXPLAIN,
        WAIT,
        JSON,
        UNCHECKED,
        FORCE_USED,
        QUIET,
        MIRROR_IF_ANY,
        IMAGE_IF_ANY,
    ],
};

pub(crate) const SCRUB: Subcommand = Subcommand {
    name: "scrub",
    about: "Compares the data of the components that are ACTIVE",
    more: COMPARING,
    takes: &[
        REGISTRY_THERE,
        SHELF,
        EXPLAIN,
        WAIT,
        JSON,
        QUIET,
        MIRROR_IF_ANY,
    ],
};

pub(crate) const REPLACE: Subcommand = Subcommand {
    name: "replace",
    about: "Puts an image in the place of another",
    more: REPLACING,
    takes: &[
        REGISTRY_THERE,
        SHELF,
        EXPLAIN,
        WAIT,
        UNCHECKED,
        FORCE,
        QUIET,
        FIRST_KEY,
        MIRROR,
        OLD,
        NEW,
    ],
};

pub(crate) const MEND: Subcommand = Subcommand {
    name: "mend",
    about: "Writes the last sector of an image again as it is registered",
    more: MENDING,
    takes: &[
        REGISTRY_THERE,
        SHELF,
        EXPLAIN,
        WAIT,
        JSON,
        UNCHECKED_OTHERS,
        FORCE,
        QUIET,
        OWN_KEY,
        IMAGE,
    ],
};

pub(crate) const WRITE: Subcommand = Subcommand {
    name: "write",
    about: "Writes the data of a file into a mirror",
    more: WRITING,
    takes: &[
        REGISTRY_THERE,
        SHELF,
        EXPLAIN,
        WAIT,
        UNCHECKED,
        FORCE,
        QUIET,
        FIRST_KEY,
        MIRROR,
        FIRST,
        FILE,
    ],
};

const SUBCOMMANDS: [Subcommand; 18] = [
    DUMP,
    Subcommand {
        name: "taste",
        about: "Prints which mirrors the images of a folder tell of by themselves",
        more: "",
        takes: &[SHELF, JSON, EXPLAIN],
    },
    PENDING,
    RECOVER,
    Subcommand {
        name: "status",
        about: "Shows in a few lines how the mirrors stand",
        more: "",
        takes: &[REGISTRY, SHELF, EXISTING, EXPLAIN, WAIT, JSON, READ_ONLY],
    },
    Subcommand {
        name: "list",
        about: "Shows all that is known of the mirrors and their components",
        more: "",
        takes: &[REGISTRY, SHELF, EXISTING, EXPLAIN, WAIT, JSON, READ_ONLY],
    },
    Subcommand {
        name: "audit",
        about: "Lists the components whose images aren't as they are registered",
        more: "",
        takes: &[REGISTRY, SHELF, EXISTING, EXPLAIN, WAIT, JSON, READ_ONLY],
    },
    SCRUB,
    Subcommand {
        name: "check",
        about: "Says whether all is well, and writes nothing",
        more: CHECKING,
        takes: &[REGISTRY_THERE, SHELF, EXPLAIN, WAIT, DATA, JSON, QUIET],
    },
    LOG,
    Subcommand {
        name: "do",
        about: "Carries out one command under a key",
        more: WORDS,
        takes: &[
            REGISTRY, SHELF, EXISTING, EXPLAIN, WAIT, JSON, UNCHECKED, FORCE, KEY, COMMAND,
        ],
    },
    Subcommand {
        name: "batch",
        about: "Carries out the commands of standard input, a line each",
        more: LINES,
        takes: &[
            REGISTRY, SHELF, EXISTING, EXPLAIN, WAIT, AUDIT, GUARDED, STOP,
        ],
    },
    REPLACE,
    MEND,
    WRITE,
    SYNC,
    Subcommand {
        name: "renew",
        about: "Puts a new registry in the place of one that is nearly full",
        more: RENEWING,
        takes: &[REGISTRY_THERE, SHELF, EXPLAIN, WAIT, JSON, FORCE_USED],
    },
    Subcommand {
        name: "serve",
        about: "Answers requests over HTTP, on 127.0.0.1 alone",
        more: REQUESTS,
        takes: &[
            REGISTRY, SHELF, EXISTING, EXPLAIN, WAIT, PORT, COUNT, LOGGED, AUDIT, GUARDED,
            ANY_ORIGIN,
        ],
    },
];

// What each command that changes mirrors takes beside its own words.
static BESIDE_WORDS: [Argument; 9] = [
    REGISTRY, SHELF, EXISTING, EXPLAIN, WAIT, JSON, UNCHECKED, FORCE, OWN_KEY,
];

// The subcommand of this name.
fn subcommand_named(name: &str) -> Option<Subcommand> {
    SUBCOMMANDS
        .iter()
        .copied()
        .find(|subcommand| subcommand.name == name)
}

/// Whether a subcommand has this name, beside the commands that change mirrors.
pub(crate) fn is_subcommand(word: &str) -> bool {
    subcommand_named(word).is_some()
}

/// Whether a subcommand has this name that takes the option.
pub(crate) fn takes_option(word: &str, option: &str) -> bool {
    match subcommand_named(word) {
        Some(subcommand) => subcommand.takes.iter().any(|it| it.word == option),
        None => false,
    }
}

impl Subcommand {
    // The command of its name, without options.
    fn bare<'a>(self, alloc: Global) -> Command<'a> {
        let command = Command::new(alloc, self.name).about(self.about);
        if self.more.is_empty() {
            command
        } else {
            command.after_help(self.more)
        }
    }

    pub(crate) fn command<'a>(
        self,
        alloc: Global,
        settings: Settings<'a>,
    ) -> Result<Command<'a>, AllocError> {
        with_arguments(alloc, self.bare(alloc), self.takes, settings)
    }
}

// A command that changes mirrors, by itself.
fn command_by_itself<'a>(
    alloc: Global,
    command: ByItself,
    settings: Settings<'a>,
) -> Result<Command<'a>, AllocError> {
    let command = command.command(alloc, settings)?;
    with_arguments(alloc, command, &BESIDE_WORDS, settings)
}

fn subcommands<'a>(alloc: Global, settings: Settings<'a>) -> Result<Vec<Command<'a>>, AllocError> {
    let mut all = Vec::new(alloc);
    for subcommand in &SUBCOMMANDS {
        all.push(subcommand.command(alloc, settings)?)?;
    }
    for command in commands() {
        all.push(command_by_itself(alloc, *command, settings)?)?;
    }
    Ok(all)
}

pub(crate) fn program<'a>(alloc: Global) -> Result<Command<'a>, AllocError> {
    let named = Command::new(alloc, "gmbench").bin_name("gmbench")?;
    Ok(
        named
            .about("A workshop for disk images that are mirrors of gmirror(8)")
            .version("0.1.0")
            .no_binary_name(true)
            .subcommand_required(true)
            .override_help(HELP),
    )
}

pub(crate) fn program_command<'a>(
    alloc: Global,
    settings: Settings<'a>,
) -> Result<Command<'a>, AllocError> {
    let subcommands = subcommands(alloc, settings)?;
    program(alloc)?.subcommands(subcommands)
}
