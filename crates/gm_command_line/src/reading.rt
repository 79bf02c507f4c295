//! What the program's own words ask for.

use crate::by_itself::{ByItself, Unnumbered, command_named};
use crate::job::{
    Asked, Checking, Checks, Comparing, Filling, Form, Job, Look, Manner, Mending, Recalling,
    Renewing, Replacing, Scope, Service, Single, Work, Writing,
};
use crate::settings::{REGISTRY, SHELF, Setting, Settings};
use crate::table::{
    DUMP, LOG, MEND, RECOVER, REPLACE, SCRUB, SYNC, Subcommand, WRITE, program, program_command,
};
use clap::error::ErrorKind;
use clap::{ArgMatches, Error};
use gm_metadata::Label;
use std::alloc::{AllocError, Global};

// What a label is made of.
const LABEL: &str = "a name has 1 to 15 of A-Z, a-z, 0-9, '.', '_' and '-'";

// What a path isn't.
const WITHOUT_FOLDER: &str = "an image is named without its folder, which --shelf names";

// An argument of a subcommand whose value is a label, as clap names it.
#[derive(Clone, Copy)]
struct LabelArgument {
    of: Subcommand,
    name: &'static str,
}

const DUMPED: LabelArgument = LabelArgument {
    of: DUMP,
    name: "<PROV>",
};

const WITHOUT: LabelArgument = LabelArgument {
    of: RECOVER,
    name: "--without <PROV>",
};

const FILLED: LabelArgument = LabelArgument {
    of: SYNC,
    name: "[NAME]",
};

const FILLED_COMPONENT: LabelArgument = LabelArgument {
    of: SYNC,
    name: "[PROV]",
};

const COMPARED: LabelArgument = LabelArgument {
    of: SCRUB,
    name: "[NAME]",
};

const RECALLED: LabelArgument = LabelArgument {
    of: LOG,
    name: "[NAME]",
};

const REPLACED_IN: LabelArgument = LabelArgument {
    of: REPLACE,
    name: "<NAME>",
};

const REPLACED: LabelArgument = LabelArgument {
    of: REPLACE,
    name: "<OLD>",
};

const REPLACEMENT: LabelArgument = LabelArgument {
    of: REPLACE,
    name: "<NEW>",
};

const MENDED: LabelArgument = LabelArgument {
    of: MEND,
    name: "<PROV>",
};

const WRITTEN: LabelArgument = LabelArgument {
    of: WRITE,
    name: "<NAME>",
};

impl LabelArgument {
    // clap's complaint of a value that is no label.
    fn no_label(
        self,
        alloc: Global,
        settings: Settings<'_>,
        value: &str,
    ) -> Result<Error, AllocError> {
        let argument = self.name;
        let why = if value.contains('/') {
            WITHOUT_FOLDER
        } else {
            LABEL
        };
        let message = format!(in alloc; "invalid value '{value}' for '{argument}': {why}")?;
        self.complaint(alloc, settings, message.as_str())
    }

    // The complaint of the subcommand with this message.
    fn complaint(
        self,
        alloc: Global,
        settings: Settings<'_>,
        message: &str,
    ) -> Result<Error, AllocError> {
        let name = format!(in alloc; "gmbench {}", self.of.name)?;
        let mut command = self.of.command(alloc, settings)?.bin_name(name.as_str())?;
        command.error(ErrorKind::ValueValidation, message)
    }

    // The label that a value is, or clap's complaint.
    fn label(self, alloc: Global, settings: Settings<'_>, value: &str) -> Result<Label, Error> {
        match Label::new(value) {
            Some(label) => Ok(label),
            None => Err(self.no_label(alloc, settings, value)?),
        }
    }
}

// clap's complaint of a variable of the environment that stands for an option.
fn not_utf8(alloc: Global, variable: &str) -> Result<Error, AllocError> {
    let message = format!(in alloc; "the value of {variable} isn't UTF-8")?;
    program(alloc)?.error(ErrorKind::ValueValidation, message.as_str())
}

fn form_of(given: &ArgMatches<'_>) -> Form {
    if given.get_flag("json") {
        Form::Json
    } else {
        Form::Text
    }
}

// What an option says, or what stands for it. clap has seen to it that there is one of them.
fn chosen<'a>(
    alloc: Global,
    given: Option<&'a str>,
    setting: Setting<'a>,
    variable: &str,
) -> Result<&'a str, Error> {
    match (given, setting) {
        (Some(text), _) | (None, Setting::Text(text)) => Ok(text),
        (None, Setting::NotUtf8) => Err(not_utf8(alloc, variable)?),
        (None, Setting::Unset) => Ok(""),
    }
}

fn folder_of<'a>(
    alloc: Global,
    given: &ArgMatches<'a>,
    settings: Settings<'a>,
) -> Result<&'a str, Error> {
    chosen(alloc, given.get_str("shelf"), settings.shelf, SHELF)
}

fn registry_of<'a>(
    alloc: Global,
    given: &ArgMatches<'a>,
    settings: Settings<'a>,
) -> Result<&'a str, Error> {
    let registry = given.get_str("registry");
    chosen(alloc, registry, settings.registry, REGISTRY)
}

fn dump_of<'a>(
    alloc: Global,
    given: &ArgMatches<'a>,
    settings: Settings<'a>,
) -> Result<Job<'a>, Error> {
    let folder = folder_of(alloc, given, settings)?;
    let provider = given.get_str("provider").unwrap_or("");
    let provider = DUMPED.label(alloc, settings, provider)?;
    Ok(Job::Dump {
        folder,
        provider,
        form: form_of(given),
    })
}

// What `pending` is to print. The folder may be left out.
fn pending_of<'a>(
    alloc: Global,
    given: &ArgMatches<'a>,
    settings: Settings<'a>,
) -> Result<Job<'a>, Error> {
    let folder = match (given.get_str("shelf"), settings.shelf) {
        (None, Setting::Unset) => None,
        _ => Some(folder_of(alloc, given, settings)?),
    };
    Ok(Job::Pending {
        registry: registry_of(alloc, given, settings)?,
        folder,
        form: form_of(given),
    })
}

// What a subcommand looks at if it is to write nothing; `None` if it may write, or must.
fn look_of(name: &str, given: &ArgMatches<'_>) -> Option<Look> {
    let look = match name {
        "status" => Look::Status(form_of(given)),
        "list" => Look::List(form_of(given)),
        "audit" => Look::Audit(form_of(given)),
        _ => return None,
    };
    if !given.get_flag("read-only") {
        return None;
    }
    Some(look)
}

// How `serve` is to be done. clap has seen to it that the numbers are there and in range.
fn service_of(given: &ArgMatches<'_>) -> Service {
    Service {
        port: given.get_one("port").unwrap_or(0),
        count: given.get_one("count").unwrap_or(u32::MAX),
        logs: given.get_flag("log"),
        audits: given.get_flag("audit"),
        any_origin: given.get_flag("any-origin"),
        guards: given.get_flag("guarded"),
    }
}

// What `recover` is to do. clap has seen to it that both options are there or none.
fn recovery_of<'a>(
    alloc: Global,
    given: &ArgMatches<'a>,
    settings: Settings<'a>,
) -> Result<Work<'a>, Error> {
    match (given.get_str("without"), given.get_str("key")) {
        (Some(provider), Some(key)) => {
            let provider = WITHOUT.label(alloc, settings, provider)?;
            Ok(Work::RecoverWithout {
                provider,
                key,
                checks: checks_of(given),
                form: form_of(given),
            })
        }
        _ => Ok(Work::Recover {
            checks: checks_of(given),
            form: form_of(given),
        }),
    }
}

// Which components `sync` is to fill. clap has seen to it that there is no provider without a
// mirror.
fn scope_of<'a>(
    alloc: Global,
    given: &ArgMatches<'a>,
    settings: Settings<'a>,
) -> Result<Scope, Error> {
    let Some(name) = given.get_str("name") else {
        return Ok(Scope::All);
    };
    let mirror = FILLED.label(alloc, settings, name)?;
    match given.get_str("provider") {
        Some(provider) => {
            let provider = FILLED_COMPONENT.label(alloc, settings, provider)?;
            Ok(Scope::Component { mirror, provider })
        }
        None => Ok(Scope::Mirror(mirror)),
    }
}

fn filling_of<'a>(
    alloc: Global,
    given: &ArgMatches<'a>,
    settings: Settings<'a>,
) -> Result<Filling, Error> {
    Ok(Filling {
        scope: scope_of(alloc, given, settings)?,
        audits: !given.get_flag("unchecked"),
        heeds_use: !given.get_flag("force"),
        is_quiet: given.get_flag("quiet"),
        form: form_of(given),
    })
}

fn comparing_of<'a>(
    alloc: Global,
    given: &ArgMatches<'a>,
    settings: Settings<'a>,
) -> Result<Comparing, Error> {
    let mirror = match given.get_str("name") {
        Some(name) => Some(COMPARED.label(alloc, settings, name)?),
        None => None,
    };
    Ok(Comparing {
        mirror,
        form: form_of(given),
        is_quiet: given.get_flag("quiet"),
    })
}

fn renewing_of(given: &ArgMatches<'_>) -> Renewing {
    Renewing {
        heeds_use: !given.get_flag("force"),
        form: form_of(given),
    }
}

fn recalling_of<'a>(
    alloc: Global,
    given: &ArgMatches<'a>,
    settings: Settings<'a>,
) -> Result<Recalling, Error> {
    let mirror = match given.get_str("name") {
        Some(name) => Some(RECALLED.label(alloc, settings, name)?),
        None => None,
    };
    Ok(Recalling {
        mirror,
        last: given.get_one("last"),
        form: form_of(given),
    })
}

fn checking_of(given: &ArgMatches<'_>) -> Checking {
    Checking {
        compares: given.get_flag("data"),
        form: form_of(given),
        is_quiet: given.get_flag("quiet"),
    }
}

// The label that an argument is which must be given.
fn label_given<'a>(
    alloc: Global,
    given: &ArgMatches<'a>,
    settings: Settings<'a>,
    argument: LabelArgument,
    id: &str,
) -> Result<Label, Error> {
    argument.label(alloc, settings, given.get_str(id).unwrap_or(""))
}

fn replacing_of<'a>(
    alloc: Global,
    given: &ArgMatches<'a>,
    settings: Settings<'a>,
) -> Result<Replacing<'a>, Error> {
    Ok(Replacing {
        mirror: label_given(alloc, given, settings, REPLACED_IN, "name")?,
        old: label_given(alloc, given, settings, REPLACED, "old")?,
        new: label_given(alloc, given, settings, REPLACEMENT, "new")?,
        key: given.get_str("key"),
        checks: checks_of(given),
        is_quiet: given.get_flag("quiet"),
    })
}

fn mending_of<'a>(
    alloc: Global,
    given: &ArgMatches<'a>,
    settings: Settings<'a>,
) -> Result<Mending<'a>, Error> {
    Ok(Mending {
        image: label_given(alloc, given, settings, MENDED, "provider")?,
        key: given.get_str("key"),
        checks: checks_of(given),
        form: form_of(given),
        is_quiet: given.get_flag("quiet"),
    })
}

fn writing_of<'a>(
    alloc: Global,
    given: &ArgMatches<'a>,
    settings: Settings<'a>,
) -> Result<Writing<'a>, Error> {
    Ok(Writing {
        mirror: label_given(alloc, given, settings, WRITTEN, "name")?,
        first: given.get_one("first").unwrap_or(0),
        file: given.get_str("file").unwrap_or(""),
        key: given.get_str("key"),
        checks: checks_of(given),
        is_quiet: given.get_flag("quiet"),
    })
}

// The key and the command of `do`, whose words are the last of the program's.
fn command_of<'a>(given: &ArgMatches<'a>, words: &'a [&'a str]) -> Work<'a> {
    let count = match given.get_strs("words") {
        Some(found) => found.len(),
        None => 0,
    };
    Work::Do {
        key: given.get_str("key").unwrap_or(""),
        words: &words[words.len().saturating_sub(count)..],
        checks: checks_of(given),
        form: form_of(given),
    }
}

// What is looked at before images are written.
fn checks_of(given: &ArgMatches<'_>) -> Checks {
    Checks {
        images: !given.get_flag("unchecked"),
        losses: !given.get_flag("force"),
        uses: !given.get_flag("force"),
    }
}

// The work at a bench that a subcommand is for; `None` if it is for no bench.
fn work_of<'a>(
    alloc: Global,
    name: &str,
    given: &ArgMatches<'a>,
    words: &'a [&'a str],
    settings: Settings<'a>,
) -> Result<Option<Work<'a>>, Error> {
    Ok(match name {
        "recover" => Some(recovery_of(alloc, given, settings)?),
        "status" => Some(Work::Status(form_of(given))),
        "list" => Some(Work::List(form_of(given))),
        "audit" => Some(Work::Audit(form_of(given))),
        "scrub" => Some(Work::Scrub(comparing_of(alloc, given, settings)?)),
        "do" => Some(command_of(given, words)),
        "adopt" => Some(Work::AdoptAll(checks_of(given))),
        "replace" => Some(Work::Replace(replacing_of(alloc, given, settings)?)),
        "mend" => Some(Work::Mend(mending_of(alloc, given, settings)?)),
        "write" => Some(Work::Write(writing_of(alloc, given, settings)?)),
        "batch" => Some(Work::Batch {
            audits: given.get_flag("audit"),
            stops: given.get_flag("stop"),
            guards: given.get_flag("guarded"),
        }),
        "sync" => Some(Work::Sync(filling_of(alloc, given, settings)?)),
        "renew" => Some(Work::Renew(renewing_of(given))),
        "serve" => Some(Work::Serve(service_of(given))),
        _ => None,
    })
}

// The job of a subcommand that is for no bench.
fn without_bench<'a>(
    alloc: Global,
    name: &str,
    given: &ArgMatches<'a>,
    settings: Settings<'a>,
) -> Result<Job<'a>, Error> {
    match name {
        "pending" => pending_of(alloc, given, settings),
        "log" => Ok(Job::Recall {
            recalling: recalling_of(alloc, given, settings)?,
            registry: registry_of(alloc, given, settings)?,
        }),
        "check" => Ok(Job::Check {
            checking: checking_of(given),
            registry: registry_of(alloc, given, settings)?,
            folder: folder_of(alloc, given, settings)?,
        }),
        "taste" => Ok(Job::Taste {
            folder: folder_of(alloc, given, settings)?,
            form: form_of(given),
        }),
        _ => dump_of(alloc, given, settings),
    }
}

// The job that these matches of the program's words ask for.
fn job_by<'a>(
    alloc: Global,
    matches: &ArgMatches<'a>,
    words: &'a [&'a str],
    settings: Settings<'a>,
) -> Result<Job<'a>, Error> {
    let Some((name, given)) = matches.subcommand() else {
        return Ok(Job::Introduce);
    };
    if let Some(look) = look_of(name, given) {
        return Ok(Job::LookAt {
            look,
            registry: registry_of(alloc, given, settings)?,
            folder: folder_of(alloc, given, settings)?,
        });
    }
    match work_of(alloc, name, given, words, settings)? {
        Some(work) => Ok(Job::AtBench {
            work,
            registry: registry_of(alloc, given, settings)?,
            folder: folder_of(alloc, given, settings)?,
        }),
        None => without_bench(alloc, name, given, settings),
    }
}

// How these matches of the program's words, or else the settings, would have it done.
fn manner_by(matches: &ArgMatches<'_>, settings: Settings<'_>) -> Manner {
    match matches.subcommand() {
        Some((_, given)) => manner_given(given, settings),
        None => manner_of_settings(settings),
    }
}

// How what was given to a subcommand, or else the settings, would have it done.
fn manner_given(given: &ArgMatches<'_>, settings: Settings<'_>) -> Manner {
    let mut manner = manner_of_settings(settings);
    manner.existing |= given.get_flag("existing");
    manner.explains |= given.get_flag("explain");
    manner.wait = given.get_one("wait").unwrap_or(0);
    manner
}

fn manner_of_settings(settings: Settings<'_>) -> Manner {
    Manner {
        existing: settings.existing.is_on(),
        explains: settings.explain.is_on(),
        wait: 0,
    }
}

/// A command by itself, and how it is to be done.
#[derive(Drop)]
pub struct Handed<'a> {
    words: Vec<&'a str>,
    key: Option<&'a str>,
    unnumbered: Unnumbered,
    checks: Checks,
    form: Form,
    registry: &'a str,
    folder: &'a str,
    manner: Manner,
}

impl Handed<'_> {
    /// The job that it asks for.
    pub fn asked(&self) -> Asked<'_> {
        Asked {
            job: Job::AtBench {
                work: Work::Command(Single {
                    key: self.key,
                    words: &self.words,
                    unnumbered: self.unnumbered,
                    checks: self.checks,
                    form: self.form,
                }),
                registry: self.registry,
                folder: self.folder,
            },
            manner: self.manner,
        }
    }
}

// What these matches ask for, of the words of a command by itself.
fn handed_by<'a>(
    alloc: Global,
    command: ByItself,
    given: &ArgMatches<'a>,
    settings: Settings<'a>,
) -> Result<Handed<'a>, Error> {
    Ok(Handed {
        words: command.words(alloc, given)?,
        key: given.get_str("key"),
        unnumbered: command.unnumbered(given),
        checks: checks_of(given),
        form: form_of(given),
        registry: registry_of(alloc, given, settings)?,
        folder: folder_of(alloc, given, settings)?,
        manner: manner_given(given, settings),
    })
}

// The command by itself that these matches are of, if they are of one, and what was given to it.
fn handed_of<'a>(
    alloc: Global,
    matches: &ArgMatches<'a>,
    settings: Settings<'a>,
) -> Result<Option<Handed<'a>>, Error> {
    let Some((name, given)) = matches.subcommand() else {
        return Ok(None);
    };
    match command_named(name) {
        Some(command) if !given.get_flag("all") => {
            Ok(Some(handed_by(alloc, command, given, settings)?))
        }
        _ => Ok(None),
    }
}

/// What words ask for.
#[derive(Drop)]
pub enum Reading<'a> {
    Asked(Asked<'a>),
    /// A command by itself, whose words are put in order.
    Handed(Handed<'a>),
}

/// What the words ask for, without the program's own name; of options that are left out, the
/// settings say what stands for them. An `Err` is clap's: the text to print, or of the kind
/// `OutOfMemory`.
pub fn asked_of<'a>(
    alloc: Global,
    words: &'a [&'a str],
    settings: Settings<'a>,
) -> Result<Reading<'a>, Error> {
    if words.is_empty() {
        return Ok(Reading::Asked(Asked {
            job: Job::Introduce,
            manner: manner_of_settings(settings),
        }));
    }
    let matches = program_command(alloc, settings)?.try_get_matches_from(words)?;
    if let Some(handed) = handed_of(alloc, &matches, settings)? {
        return Ok(Reading::Handed(handed));
    }
    Ok(Reading::Asked(Asked {
        job: job_by(alloc, &matches, words, settings)?,
        manner: manner_by(&matches, settings),
    }))
}
