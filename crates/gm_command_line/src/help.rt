//! What the help of the program and of its subcommands says below their options.

/// The help of the program.
pub(crate) const HELP: &str = "A workshop for disk images that are mirrors of gmirror(8)

Usage: gmbench <COMMAND>

Make and change mirrors:
  label       Makes a mirror of an image
  insert      Adds an image to a mirror, to be filled
  remove      Takes a component out of a mirror
  deactivate  Takes a component out of use
  activate    Takes an INACTIVE component back into use, to be filled
  forget      Stops counting components that were lost
  rebuild     Has a component filled anew
  configure   Changes settings of a mirror, or the priority of a component
  clear       Wipes the metadata of an image that no registered mirror has
  destroy     Drops a mirror
  lost        Drops components whose images won't come back
  advance     Fills the next 256 sectors of a component
  adopt       Registers a mirror that is found on images
  patch       Changes sectors of a mirror's data
  do          Carries out one command under a key
  batch       Carries out the commands of standard input, a line each
  replace     Puts an image in the place of another
  mend        Writes the last sector of an image again as it is registered
  write       Writes the data of a file into a mirror

Fill and check:
  sync        Fills the components that are SYNCHRONIZING
  scrub       Compares the data of the components that are ACTIVE
  audit       Lists the components whose images aren't as they are registered
  check       Says whether all is well, and writes nothing
  renew       Puts a new registry in the place of one that is nearly full

Look:
  status      Shows in a few lines how the mirrors stand
  list        Shows all that is known of the mirrors and their components
  log         Prints which commands were accepted, and writes nothing
  dump        Prints what the last sector of an image says
  taste       Prints which mirrors the images of a folder tell of by themselves

After a stop:
  pending     Prints what a run that stopped left pending, and carries out nothing
  recover     Carries out what a run that stopped left pending

Serve:
  serve       Answers requests over HTTP, on 127.0.0.1 alone

Options:
  -h, --help     Print help
  -V, --version  Print version

gmbench help COMMAND, or gmbench COMMAND --help, says more of each.

All but dump and taste take --registry FILE --shelf DIR: the registry, and the folder with the
images. log takes the registry alone. If there is no registry, recover, status, list, audit, batch,
serve, label, adopt, and do with one of these two make one, and say so; with --existing they don't.
Each first carries out what a run that stopped left pending; recover can go on without an image that
is gone for good. dump and taste look at images alone, and write nothing. Nor do pending, check and
log, nor status, list and audit with --read-only: they show the registry as it is. If --registry or
--shelf is left out, GMBENCH_REGISTRY or GMBENCH_SHELF of the environment is taken.
GMBENCH_EXISTING=1 and GMBENCH_EXPLAIN=1 are --existing and --explain.

A command is carried out once under its key. label, insert and the others take one of gmbench's own,
and tell it in their answer. A script names one by --key: whoever runs it again after a stop gets
the first answer.

With --explain, or if standard error is a terminal, a sentence there says what a refusal or a fault
means.

Exit statuses:
  0  done
  1  refused, or damage was found; the printed line says which
  2  a word isn't known or is missing; nothing was opened
  3  a fault; one line on standard error says which

Example:
  mkdir images && truncate -s 1M images/a.img images/b.img
  export GMBENCH_REGISTRY=registry GMBENCH_SHELF=images
  gmbench label gm0 a.img
  gmbench insert gm0 b.img
  gmbench sync
  gmbench status";

/// What the help of `pending` says below its options.
pub(crate) const WRITES: &str =
    "It prints a line for each write that the next command with this registry carries out first:
  copy N sectors of PROV to PROV from K
  metadata of PROV
  clear PROV
  mark PROV dirty
  patch N sectors of PROV from K
and with --shelf, after a colon, how the last sector of each of these images compares with that:
  as registered  the write is done there already
  zero           the same, of an image that is to be cleared
  member         it carries other metadata of the mirror
  no metadata    it carries none
  another        it carries the metadata of another mirror
  absent         the image isn't there in its size
With --json it is one line, {\"pending\":[..]}: for each write an object whose `write` is copy,
metadata, clear, `mark dirty` or patch, with `sectors`, `of`, `to` and `from` as above; with --shelf
`images` says how each stands.
Nothing is written, and nothing is made.

Example:
  gmbench pending --registry registry --shelf images";

/// What the help of `recover` says below its options.
pub(crate) const LOSSES: &str =
    "With --without and --key it goes on without an image that is gone for good: PROV is given up
by a `lost` of it under KEY, in place of what was pending there. What only that image had is gone
then, so look for it first. One of these lines is printed:
  KEY ok SEQ        PROV is given up, and that is kept under this number
  KEY repeated SEQ  it was given up before
  KEY refused N     nothing was written
and after the first two, as without these options:
  recovered N       so many writes were pending
With --json it is one line: {\"recovered\":N}, with `answer`, `key` and `seq` if PROV is given up.

Example:
  gmbench recover --registry registry --shelf images --without b.img --key k5";

/// What the help of `batch` says below its options.
pub(crate) const LINES: &str =
    "Each line has a key, under which the command is carried out once, and a command:
  KEY label --mid N --did N [--balance B] [--slice N] [--autosync S] [--failsync S] [--hardcode S]
      NAME PROV
  KEY insert --did N [--priority P] [--hardcode S] NAME PROV
  KEY remove NAME PROV
  KEY deactivate NAME PROV
  KEY activate NAME PROV
  KEY forget NAME
  KEY rebuild NAME PROV
  KEY configure [--balance B] [--slice N] [--autosync S] [--failsync S] [--hardcode S]
      [--prov PROV --priority P] NAME
  KEY clear PROV
  KEY destroy NAME
  KEY lost NAME PROV..
  KEY advance NAME PROV
  KEY adopt NAME PROV..
  KEY patch --first N --data HEX NAME
B is load, prefer, round-robin or split, and S is on or off. If label and insert aren't given
them: --balance load, --slice 4096, --autosync on, --failsync on, --hardcode off, --priority 0.
HEX is 1 to 64 sectors, each as 1,024 digits of 0-9 and a-f.

Each line is answered before the next is read:
  KEY ok SEQ        done, and kept under this number; after it an advance says
                    `copied K of N`, so many sectors by now of all
  KEY repeated SEQ  it was done before
  KEY refused N     nothing was written
  KEY fault N       a fault, which ends the batch
With --audit the images of the mirror that a line names are compared with the registry first. If
one isn't as it is registered, the batch ends there with status 1:
  KEY not done      nothing was written
  PROV HOW          for each such image";

/// What the help of `do` says below its options.
pub(crate) const WORDS: &str =
    "The options of gmbench itself come before KEY. After it comes a command, as in a line of a
batch (`gmbench batch --help`), and it is answered as there. A sentence on standard error says why
it is refused. With --json the answer is one line of JSON: `answer` is ok, repeated, refused, fault
or `not done`, beside `key`, and `seq` or `number`.

Before it is carried out, the images of the mirror that it names are compared with the registry. If
one isn't as it is registered, nothing is done. This is printed, and the status is 1:
  KEY not done
  PROV HOW          for each such image: absent, another size, no metadata, damaged, another mirror,
                    another component, older, newer or changed
With --unchecked it is done anyway. Nor is it done if data are lost then that nobody said are to be
lost: a sentence says which. At a terminal it asks, and goes on after `yes`; with --force it doesn't
ask. Nor is it done if an image is in use: another program has it open for writing or locked, or a
loop device has it. --force does it anyway.

Example:
  gmbench do --registry registry --shelf images k1 label --mid 7 --did 1 gm0 a.img";

/// What the help of `sync` says below its options.
pub(crate) const FILLING: &str =
    "Without NAME it fills the components of all mirrors, without PROV all of the mirror's. It hands
in `advance` under keys of its own, `sync-N`, so that it may be stopped at any time and be begun
again. First it audits those mirrors. One with an image that isn't as it is registered is passed
over: the image is named, nothing is written to the mirror, and the status is 1. If one of their
images is in use, nothing is filled, it prints `not done`, and the status is 1, unless --force is
given. At the end a line for each component says its state:
  NAME PROV STATE
With --json that is one line, with these as `components` and the named images as `amiss`.";

/// What the help of `scrub` says below its options.
pub(crate) const COMPARING: &str =
    "Without NAME it goes through all mirrors. It compares the data of each ACTIVE component with
those of the mirror's source, the ACTIVE component with the greatest priority and then the least
name. It prints a line for each that differs, one for those that differ and are equal to each other,
and one for each that can't be compared:
  PROV differs from the source PROV in N sectors, first K
  PROV and PROV are equal and differ from the source PROV in N sectors, first K
  PROV isn't compared
It writes nothing, and doesn't say which is right: it may be the source that is wrong.";

/// What the help of `check` says below its options.
pub(crate) const CHECKING: &str =
    "It prints how the mirrors stand, as `status` does, and below that a line for each thing that is
amiss, with the registry's use and a verdict at the end:
  PROV HOW                how an image stands that isn't as it is registered
  PROV claims to be a component of NAME
                          it carries the mirror's metadata, and isn't registered: a copy, perhaps
  PROV was given up as lost by NAME
                          the same with an older genid: it does no harm
  PROV differs from the source PROV in N sectors, first K
  PROV isn't compared     with --data, all lines as `scrub` prints them
  N writes are pending    a run that stopped left them; the next command carries them out
  commands N of 100000: renew the registry soon, by gmbench renew
                          from 80,000 commands on; from 95,000 on `now`, and not all is well
  commands N of 100000, mirrors N of 64, registry N bytes
  all is well             or `not all is well`: something is amiss, a mirror isn't COMPLETE, or
                          there is none
The status is 0 if all is well, and else 1. A fault, as of a registry that is an empty file, is
always explained.

Example, for a night's job:
  gmbench check --registry registry --shelf images --data --quiet";

/// What the help of `renew` says below its options.
pub(crate) const RENEWING: &str =
    "A registry takes 100,000 commands. The new one has the same mirrors, by one `adopt` for each.
The old one stays beside it as FILE.1, or FILE.2 if that is taken, and so on:
  N mirrors are in the new registry
  FILE.1 keeps the old one, with N commands; their keys are forgotten
A command that is handed in again under a key of before is carried out again.

It wants every image as it is registered, and ACTIVE components with equal data. Otherwise it prints
`not done` and a line `PROV HOW` for each image that isn't, and the old registry stays. The images
keep every byte. It reads the data of all components. If an image is in use, nothing is done without
--force.

It may be stopped at any time: FILE is the old registry or the new one, and whole. The same words
begin anew, or finish what is left.

Example:
  gmbench renew --registry registry --shelf images";

/// What the help of `log` says below its options.
pub(crate) const ACCEPTED: &str =
    "It prints a line for each command that the registry has accepted, the oldest first:
  NUMBER KEY COMMAND WORD..: ok
  NUMBER KEY COMMAND WORD..: copied K of N
The number is the one that its answer told. The words are all that it says, with each default. Of a
patch's data the first 8 digits are printed, and how many sectors they are. With NAME it prints only
the commands that name this mirror, also if it isn't registered any more.
With --json it is one line, {\"commands\":[..]}: for each command an object with `number`, `key`,
`words` and `answer`, and of an advance `copied` and `of`. There a patch has all of its data.
Nothing is written. What is pending stays pending.

Example:
  gmbench log --registry registry --last 20 gm0";

/// What the help of `serve` says below its options.
pub(crate) const REQUESTS: &str =
    "It prints the line `listening on 127.0.0.1:PORT`, and answers one request a connection, one
connection after the other:
  GET  /status                     how the mirrors stand
  GET  /mirrors/NAME               all that is known of a mirror
  GET  /providers/PROV/metadata    what the last sector of an image says
  POST /commands                   carries out {\"key\":\"KEY\",\"words\":[\"COMMAND\",..]},
                                   the words of a batch's line, cut at its spaces

Who can reach the port can change the images: it asks nobody who they are. Web pages are turned
away with 403: what has a field Origin, or Sec-Fetch-Site other than none, or a Host whose name
has a dot. With --any-origin they are answered.

Example:
  gmbench serve --registry registry --shelf images --port 8080 --count 1 &
  curl http://127.0.0.1:8080/status";

/// What the help of `replace` says below its options.
pub(crate) const REPLACING: &str =
    "It inserts NEW, fills it, and removes OLD when NEW is ACTIVE. If OLD's image isn't in the
folder, it gives OLD up by `lost` and `forget` first. So it does if that image has another size or
no metadata, and another component is ACTIVE, but then it asks first, or wants --force: `mend`
writes metadata again. If the mirror has 16 components, which is the most, it removes OLD first, and
says so. Each command has a key: the first that of --key, or one of
gmbench's own, and the next ones the same with .2 and .3 after it. Each is answered as `do` answers
it, and after the filling a line says NEW's state.

It may be stopped at any time. The same words go on where it was; if neither OLD nor NEW is in the
mirror then, with --key and the first key. If NEW is ACTIVE in the mirror before it begins, OLD
would be removed and nothing added. So without that key it asks first, or wants --force. If NEW or
an image of the mirror is in use, nothing is done without --force.

Example:
  gmbench replace gm0 b.img c.img";

/// What the help of `mend` says below its options.
pub(crate) const MENDING: &str =
    "It mends an image whose last sector was damaged or overwritten. It hands in a `configure` that
changes nothing, and so writes the registered last sectors of all of the mirror's images. It is
answered as `do` answers it. Before that it compares the image with the mirror's source: all data of
an ACTIVE one, those below its offset of one that is being filled, nothing of an INACTIVE one. It
isn't done, and the status is 1, if
  - the data differ: `rebuild` has the image filled anew;
  - the image isn't there, or has another size: `replace` puts another one in its place;
  - another image of the mirror isn't as it is registered, unless --unchecked is given;
  - an image is in use, unless --force is given.
If no other component is ACTIVE, or the last sector says another image or is newer than the
registry, it asks first, or wants --force.

If the image is as it is registered, it says so, and the status is 0. With --json `answer` is then
`as registered`.

Example:
  gmbench mend b.img";

/// What the help of `write` says below its options.
pub(crate) const WRITING: &str =
    "It writes the data of FILE into sectors N and those after it, by a `patch` for each 64 sectors.
Their keys are the one of --key, or one of gmbench's own, and the same with .2, .3 and so on after
it. Each is answered as `do` answers it, and the first that is refused ends it.

FILE's length must be a multiple of 512, and the mirror must have all those sectors. The registry
keeps the data for ever, twice as long as FILE: above 16 MiB that wants --force. Without it,
deactivate all but one image, change that one by other means, activate the others, and sync. If an
image of the mirror is in use, nothing is written without --force.

It may be stopped at any time. The same words with --key and the first key go on where it was, and
are refused if FILE has other data then.

Example:
  gmbench write gm0 --first 2048 --file loader.bin";
