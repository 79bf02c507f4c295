//! The commands that change mirrors, each by itself: `gmbench label gm0 a.img` is `gmbench do KEY
//! label --mid N --did N gm0 a.img` under a key and with numbers of gmbench's own.

use crate::argument::{Argument, FLAG, Given, NAME, Need, OPTION, with_arguments};
use crate::settings::Settings;
use clap::{ArgMatches, Command};
use std::alloc::{AllocError, Global};

const MID: Argument = Argument {
    word: "--mid",
    value: "N",
    help: "The mirror's number; if it is left out, one is drawn at random",
    ..OPTION
};

const DID: Argument = Argument {
    word: "--did",
    value: "N",
    help: "The component's number; if it is left out, one is drawn at random",
    ..OPTION
};

const BALANCE: Argument = Argument {
    word: "--balance",
    value: "B",
    help: "How reads are shared out: load, prefer, round-robin or split",
    ..OPTION
};

const SLICE: Argument = Argument {
    word: "--slice",
    value: "N",
    help: "The bytes by which split shares out",
    ..OPTION
};

const AUTOSYNC: Argument = Argument {
    word: "--autosync",
    value: "S",
    help: "on or off: whether components are filled that fell behind",
    ..OPTION
};

const FAILSYNC: Argument = Argument {
    word: "--failsync",
    value: "S",
    help: "on or off: off sets the flag NOFAILSYNC",
    ..OPTION
};

const HARDCODE: Argument = Argument {
    word: "--hardcode",
    value: "S",
    help: "on or off: whether an image's name is in its metadata",
    ..OPTION
};

const PRIORITY: Argument = Argument {
    word: "--priority",
    value: "P",
    help: "The component's priority as a source, 0 to 255",
    ..OPTION
};

const PRIORITY_OF: Argument = Argument {
    word: "--prov",
    value: "PROV",
    help: "The image of the component that gets the priority",
    ..OPTION
};

const FIRST: Argument = Argument {
    word: "--first",
    value: "N",
    help: "The first sector, counted from 0",
    need: Need::Always,
    ..OPTION
};

const DATA: Argument = Argument {
    word: "--data",
    value: "HEX",
    help: "1 to 64 sectors, each as 1,024 digits of 0-9 and a-f",
    need: Need::Always,
    ..OPTION
};

const MIRROR: Argument = Argument {
    word: "name",
    value: "NAME",
    help: "The name of a mirror",
    ..NAME
};

const IMAGE: Argument = Argument {
    word: "image",
    value: "PROV",
    help: "The name of an image",
    ..NAME
};

const IMAGES: Argument = Argument {
    help: "The names of one or more images",
    given: Given::Texts,
    ..IMAGE
};

const ALL: Argument = Argument {
    word: "--all",
    help: "Adopts each mirror that the images of the folder show whole",
    given: Given::All,
    ..FLAG
};

const MIRROR_UNLESS_ALL: Argument = Argument {
    need: Need::UnlessAll,
    ..MIRROR
};

const IMAGES_UNLESS_ALL: Argument = Argument {
    need: Need::UnlessAll,
    ..IMAGES
};

/// A command that changes mirrors, and what the help says of it.
#[derive(Clone, Copy)]
pub(crate) struct ByItself {
    pub(crate) name: &'static str,
    about: &'static str,
    more: &'static str,
    words: &'static [Argument],
}

static COMMANDS: [ByItself; 14] = [
    ByItself {
        name: "label",
        about: "Makes a mirror of an image",
        more: "All sectors of PROV but the last are the mirror's data. It writes the last sector.

Example:
  gmbench label gm0 a.img",
        words: &[
            MID, DID, BALANCE, SLICE, AUTOSYNC, FAILSYNC, HARDCODE, MIRROR, IMAGE,
        ],
    },
    ByItself {
        name: "insert",
        about: "Adds an image to a mirror, to be filled",
        more: "PROV gets the mirror's data by `gmbench sync`. It writes the last sectors of all
components.

Example:
  gmbench insert gm0 b.img",
        words: &[DID, PRIORITY, HARDCODE, MIRROR, IMAGE],
    },
    ByItself {
        name: "remove",
        about: "Takes a component out of a mirror",
        more: "It wipes the last sector of PROV, and writes those of the others. The data of PROV
stay.

Example:
  gmbench remove gm0 b.img",
        words: &[MIRROR, IMAGE],
    },
    ByItself {
        name: "deactivate",
        about: "Takes a component out of use",
        more: "PROV is INACTIVE and falls behind. It writes the last sectors of all components.

Example:
  gmbench deactivate gm0 b.img",
        words: &[MIRROR, IMAGE],
    },
    ByItself {
        name: "activate",
        about: "Takes an INACTIVE component back into use, to be filled",
        more: "PROV gets the mirror's data by `gmbench sync`. It writes the last sector of PROV.

Example:
  gmbench activate gm0 b.img",
        words: &[MIRROR, IMAGE],
    },
    ByItself {
        name: "forget",
        about: "Stops counting components that were lost",
        more: "The mirror counts those that are left. It writes the last sector of each of them.

Example:
  gmbench forget gm0",
        words: &[MIRROR],
    },
    ByItself {
        name: "rebuild",
        about: "Has a component filled anew",
        more: "PROV isn't ACTIVE until `gmbench sync` filled it. It writes the last sector of PROV.

Example:
  gmbench rebuild gm0 b.img",
        words: &[MIRROR, IMAGE],
    },
    ByItself {
        name: "configure",
        about: "Changes settings of a mirror, or the priority of a component",
        more: "What isn't given stays as it is. It writes the last sectors of all components.

Example:
  gmbench configure --balance prefer --prov b.img --priority 9 gm0",
        words: &[
            BALANCE,
            SLICE,
            AUTOSYNC,
            FAILSYNC,
            HARDCODE,
            PRIORITY_OF,
            PRIORITY,
            MIRROR,
        ],
    },
    ByItself {
        name: "clear",
        about: "Wipes the metadata of an image that no registered mirror has",
        more: "PROV is no component afterwards. It writes zeros over its last sector.

Example:
  gmbench clear old.img",
        words: &[IMAGE],
    },
    ByItself {
        name: "destroy",
        about: "Drops a mirror",
        more: "Its images are no components afterwards. It wipes the last sector of each of them.

Example:
  gmbench destroy gm0",
        words: &[MIRROR],
    },
    ByItself {
        name: "lost",
        about: "Drops components whose images won't come back",
        more: "It looks at none of these images. It writes the last sectors of the others.

Example:
  gmbench lost gm0 b.img",
        words: &[MIRROR, IMAGES],
    },
    ByItself {
        name: "advance",
        about: "Fills the next 256 sectors of a component",
        more: "`gmbench sync` does all of them. It writes these sectors of PROV, and its last.

Example:
  gmbench advance gm0 b.img",
        words: &[MIRROR, IMAGE],
    },
    ByItself {
        name: "adopt",
        about: "Registers a mirror that is found on images",
        more: "`gmbench taste` shows which are there. It writes the last sectors of the images.

With --all it adopts each mirror whose images are all there, but for BROKEN ones. It names the
others, and the status is 1 then.

Example:
  gmbench adopt gm0 a.img b.img",
        words: &[ALL, MIRROR_UNLESS_ALL, IMAGES_UNLESS_ALL],
    },
    ByItself {
        name: "patch",
        about: "Changes sectors of a mirror's data",
        more: "It writes these sectors of each ACTIVE component, and its last. The others fall
behind.

Example:
  gmbench patch --first 17 --data HEX gm0",
        words: &[FIRST, DATA, MIRROR],
    },
];

/// Whether a command that changes mirrors has this name.
pub fn is_command(word: &str) -> bool {
    COMMANDS.iter().any(|command| command.name == word)
}

/// All commands that change mirrors.
pub(crate) fn commands() -> &'static [ByItself] {
    &COMMANDS
}

/// The command of this name.
pub(crate) fn command_named(name: &str) -> Option<ByItself> {
    COMMANDS
        .iter()
        .copied()
        .find(|command| command.name == name)
}

impl ByItself {
    /// Its table of words for clap, without the program's options.
    pub(crate) fn command<'a>(
        self,
        alloc: Global,
        settings: Settings<'a>,
    ) -> Result<Command<'a>, AllocError> {
        let command = Command::new(alloc, self.name)
            .about(self.about)
            .after_help(self.more);
        with_arguments(alloc, command, self.words, settings)
    }

    // Appends the options that were given, each with its value.
    fn push_options<'a>(
        self,
        given: &ArgMatches<'a>,
        words: &mut Vec<&'a str>,
    ) -> Result<(), AllocError> {
        for word in self.words {
            if !word.is_option() {
                continue;
            }
            if let Some(value) = given.get_str(word.id()) {
                words.push(word.word)?;
                words.push(value)?;
            }
        }
        Ok(())
    }

    // Appends the names that were given.
    fn push_names<'a>(
        self,
        given: &ArgMatches<'a>,
        words: &mut Vec<&'a str>,
    ) -> Result<(), AllocError> {
        for word in self.words {
            if !word.is_name() {
                continue;
            }
            if let Some(values) = given.get_strs(word.id()) {
                words.extend_from_slice(values)?;
            }
        }
        Ok(())
    }

    /// The words of a batch's line that were given: options before names, which may begin with a
    /// dash.
    pub(crate) fn words<'a>(
        self,
        alloc: Global,
        given: &ArgMatches<'a>,
    ) -> Result<Vec<&'a str>, AllocError> {
        let mut words = Vec::new(alloc);
        words.push(self.name)?;
        self.push_options(given, &mut words)?;
        words.push("--")?;
        self.push_names(given, &mut words)?;
        Ok(words)
    }

    /// Which numbers it takes that weren't given.
    pub(crate) fn unnumbered(self, given: &ArgMatches<'_>) -> Unnumbered {
        Unnumbered {
            mirror: self.lacks(given, "mid"),
            component: self.lacks(given, "did"),
        }
    }

    // Whether it takes this option, and wasn't given it.
    fn lacks(self, given: &ArgMatches<'_>, id: &str) -> bool {
        let takes = self.words.iter().any(|word| word.id() == id);
        takes && given.get_str(id).is_none()
    }
}

/// Which numbers a command wasn't given.
#[derive(Clone, Copy)]
pub struct Unnumbered {
    /// That of a mirror.
    pub mirror: bool,
    /// That of a component.
    pub component: bool,
}
