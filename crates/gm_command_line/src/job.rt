//! What the program may be asked to do.

ghost use Rattle.std.specs.Prelude.{◌≡◌};
ghost use Rattle.gm_command_line.specs.Works.{makes_registry, registers};

use crate::by_itself::Unnumbered;
use gm_metadata::Label;

// Whether the first of these words is that of a command which registers a mirror.
fn registers(words: &[&str]) -> bool
    ensures { result ≡ registers words.now }
{
    match words.first() {
        Some(word) => *word == "label" || *word == "adopt",
        None => false,
    }
}

/// Where requests over HTTP are taken, and how many.
#[derive(Clone, Copy)]
pub struct Service {
    /// The port on 127.0.0.1, or 0 for one that is free.
    pub port: u16,
    /// How many connections are served, 1 at least.
    pub count: u32,
    /// Whether a line is logged for each.
    pub logs: bool,
    /// Whether the images of each command are audited first. It is withheld if the audit lists one.
    pub audits: bool,
    /// Whether requests that web pages sent are served too.
    pub any_origin: bool,
    /// Whether each command is held to what is looked at before one that is handed in by itself.
    pub guards: bool,
}

/// In which form something is printed.
#[derive(Clone, Copy, Debug, PartialEq, Eq)]
pub enum Form {
    Text,
    Json,
}

/// The components that are to be filled.
#[derive(Clone, Copy)]
pub enum Scope {
    /// Those of all mirrors.
    All,
    /// Those of a mirror.
    Mirror(Label),
    /// One component of a mirror.
    Component { mirror: Label, provider: Label },
}

/// How components are to be filled.
#[derive(Clone, Copy)]
pub struct Filling {
    pub scope: Scope,
    /// Whether images are audited first. A mirror is passed over if the audit lists one of its own.
    pub audits: bool,
    /// Whether nothing is filled while something else uses one of the mirrors' images.
    pub heeds_use: bool,
    /// Whether nothing is told of how far it is.
    pub is_quiet: bool,
    pub form: Form,
}

/// How the data of components are to be compared.
#[derive(Clone, Copy)]
pub struct Comparing {
    /// The mirror, or all.
    pub mirror: Option<Label>,
    pub form: Form,
    /// Whether nothing is told of how far it is.
    pub is_quiet: bool,
}

/// How a registry and its images are to be checked.
#[derive(Clone, Copy)]
pub struct Checking {
    /// Whether the data of components are compared too.
    pub compares: bool,
    pub form: Form,
    /// Whether nothing is told of how far it is.
    pub is_quiet: bool,
}

/// Which of the accepted commands are to be shown.
#[derive(Clone, Copy)]
pub struct Recalling {
    /// Those about this mirror, or all.
    pub mirror: Option<Label>,
    /// So many of them, the last, or all.
    pub last: Option<u32>,
    pub form: Form,
}

/// What is looked at before images are written.
#[derive(Clone, Copy)]
pub struct Checks {
    /// Whether they are to be as they are registered, or of a recovery, what lies under the names
    /// of pending images to be what was left there.
    pub images: bool,
    /// Whether nothing may be taken away that is lost then.
    pub losses: bool,
    /// Whether nothing else may use them meanwhile.
    pub uses: bool,
}

/// A command by itself.
#[derive(Clone, Copy)]
pub struct Single<'a> {
    /// The key that it was given; if none was, it gets one of gmbench's own.
    pub key: Option<&'a str>,
    /// Its words, options first, and the names after `--`.
    pub words: &'a [&'a str],
    /// The numbers that gmbench chooses for it.
    pub unnumbered: Unnumbered,
    pub checks: Checks,
    /// In which form its answer is printed.
    pub form: Form,
}

/// Which image is to take another one's place.
#[derive(Clone, Copy)]
pub struct Replacing<'a> {
    pub mirror: Label,
    /// The image that is taken out.
    pub old: Label,
    /// The image that is put in its place.
    pub new: Label,
    /// The key of its first command; if none was given, it gets one of gmbench's own.
    pub key: Option<&'a str>,
    pub checks: Checks,
    /// Whether nothing is told of how far it is.
    pub is_quiet: bool,
}

/// Which image's last sector is to be written again as it is registered.
#[derive(Clone, Copy)]
pub struct Mending<'a> {
    pub image: Label,
    /// The key of its command; if none was given, it gets one of gmbench's own.
    pub key: Option<&'a str>,
    pub checks: Checks,
    /// In which form its answer is printed.
    pub form: Form,
    /// Whether nothing is told of how far it is.
    pub is_quiet: bool,
}

/// Which data are to be written into a mirror.
#[derive(Clone, Copy)]
pub struct Writing<'a> {
    pub mirror: Label,
    /// The first sector that they are written to.
    pub first: u32,
    /// The file that has them; `-` stands for the input.
    pub file: &'a str,
    /// The key of its first command; if none was given, it gets one of gmbench's own.
    pub key: Option<&'a str>,
    pub checks: Checks,
    /// Whether nothing is told of how far it is.
    pub is_quiet: bool,
}

/// How a registry is to be renewed.
#[derive(Clone, Copy)]
pub struct Renewing {
    /// Whether nothing is renewed while something else uses one of the mirrors' images.
    pub heeds_use: bool,
    pub form: Form,
}

/// What is to be done at a bench whose opening carried out what was pending.
#[derive(Clone, Copy)]
pub enum Work<'a> {
    /// Nothing more: say how much was pending.
    Recover {
        checks: Checks,
        form: Form,
    },
    /// The same of a bench that is opened without a provider, which is given up under a key, any
    /// text: say as well what that is answered.
    RecoverWithout {
        provider: Label,
        key: &'a str,
        checks: Checks,
        form: Form,
    },
    /// Say how the mirrors stand.
    Status(Form),
    /// Say all that is known of the mirrors.
    List(Form),
    /// List the components that the images no longer show as they are registered.
    Audit(Form),
    /// Compare the data of components.
    Scrub(Comparing),
    /// Hand in one command, under a key, if these checks let it pass.
    Do {
        key: &'a str,
        words: &'a [&'a str],
        checks: Checks,
        form: Form,
    },
    /// Hand in a command by itself.
    Command(Single<'a>),
    /// Adopt each mirror that the images show whole.
    AdoptAll(Checks),
    /// Put an image in the place of another.
    Replace(Replacing<'a>),
    /// Write the registered last sector of an image again.
    Mend(Mending<'a>),
    /// Write data into a mirror.
    Write(Writing<'a>),
    /// Hand in the commands of an input, and answer each. If it audits, the images that a command
    /// is about are looked at before it, and it ends at the first command that one stands in the
    /// way of; if it stops, it ends at the first that is refused; if it guards, each command is
    /// held to what is looked at before one that is handed in by itself.
    Batch {
        audits: bool,
        stops: bool,
        guards: bool,
    },
    /// Fill components.
    Sync(Filling),
    /// Put a new registry in the place of this one.
    Renew(Renewing),
    /// Serve requests over HTTP.
    Serve(Service),
}

impl Work<'_> {
    /// Whether a registry that isn't there is made for it: it shows mirrors, serves whoever asks,
    /// or is a command that registers a mirror. Nothing else has anything to do at a registry that
    /// knows nothing.
    pub fn makes_registry(&self) -> bool
        ensures { result ≡ makes_registry self.now }
    {
        match *self {
            Work::Sync(_)
            | Work::Scrub(_)
            | Work::Replace(_)
            | Work::Mend(_)
            | Work::Write(_)
            | Work::Renew(_) => false,
            Work::Do { words, .. } => registers(words),
            Work::Command(single) => registers(single.words),
            _ => true,
        }
    }
}

/// What is looked at as it stands: nothing pending is carried out, and nothing is written.
#[derive(Clone, Copy)]
pub enum Look {
    /// How the mirrors stand, by the registry.
    Status(Form),
    /// All that the registry has of the mirrors.
    List(Form),
    /// The components that the images don't show as they are registered.
    Audit(Form),
}

/// How something is done, whatever it is.
#[derive(Clone, Copy)]
pub struct Manner {
    /// Whether no registry is made, whatever it is for.
    pub existing: bool,
    /// Whether sentences say what refusals and faults mean, wherever the complaints go.
    pub explains: bool,
    /// For how many seconds a folder or a registry that is in use is tried again.
    pub wait: u32,
}

/// What the program is asked to do, and how.
#[derive(Clone, Copy)]
pub struct Asked<'a> {
    pub job: Job<'a>,
    pub manner: Manner,
}

/// What the program is asked to do.
#[derive(Clone, Copy)]
pub enum Job<'a> {
    /// Say what the program is.
    Introduce,
    /// Print what the last sector of a provider of a folder says.
    Dump {
        folder: &'a str,
        provider: Label,
        form: Form,
    },
    /// Print what the images of a folder tell by themselves.
    Taste {
        folder: &'a str,
        form: Form,
    },
    /// Print what the next opening of a registry would carry out; with a folder, also how its
    /// images stand to that.
    Pending {
        registry: &'a str,
        folder: Option<&'a str>,
        form: Form,
    },
    /// Print which commands a registry has accepted.
    Recall {
        recalling: Recalling,
        registry: &'a str,
    },
    /// Look at a registry and a folder, and open no bench.
    LookAt {
        look: Look,
        registry: &'a str,
        folder: &'a str,
    },
    /// Check a registry and the images of a folder, and open no bench.
    Check {
        checking: Checking,
        registry: &'a str,
        folder: &'a str,
    },
    /// Do work at the bench of a registry and a folder.
    AtBench {
        work: Work<'a>,
        registry: &'a str,
        folder: &'a str,
    },
}
