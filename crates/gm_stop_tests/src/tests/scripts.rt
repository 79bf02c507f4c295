//! The scripts of commands that are stopped, as texts. What is found after each command is worked
//! out by hand.
//!
//! A station follows an equals sign, and has three parts with bars between them: the command
//! that leads there, which the first station lacks; for how many writes it asks; and what is found
//! there. Those are the mirrors, as a status shows them, and of each image what its last sector
//! says and the byte that each sector of its data has throughout.

use super::got;
use gm_shelf::MemShelf;
use gm_state::Reply;
use gm_test_bench::{IN_SYNC, metadata};
use gm_test_media::{add, in_version};
use std::process::Abort;

/// What the images carry at the start of a script.
#[derive(Clone, Copy)]
pub(super) enum Start {
    /// No metadata.
    Bare,
    /// Those of a mirror that no registry knows, in older versions.
    OfAMirror,
}

/// A script: what it starts from, and its stations.
#[derive(Clone, Copy)]
pub(super) struct Script {
    start: Start,
    stations: &'static str,
}

/// A command, for how many writes it asks, and what is found after it.
#[derive(Clone, Copy)]
pub(super) struct Station {
    pub(super) words: &'static str,
    pub(super) writes: u64,
    pub(super) found: &'static str,
}

/// A mirror of two that is filled, of which one component goes out of use and comes back.
pub(super) const FILLED: Script = Script {
    start: Start::Bare,
    stations: "= | 0 |
no mirrors
a.img: nothing, data 10 11 12
b.img: nothing, data 20 21 22
c.img: nothing, data 30 31 32
= label --mid 7 --did 1 gm0 a.img | 1 |
gm0             COMPLETE 1/1
  a.img           ACTIVE
a.img: version 4, did 1 of 1, genid 0, syncid 1, balance 2, flags 0, data 10 11 12
b.img: nothing, data 20 21 22
c.img: nothing, data 30 31 32
= insert --did 2 gm0 b.img | 2 |
gm0             DEGRADED 1/2
  a.img           ACTIVE
  b.img           SYNCHRONIZING 0 of 3
a.img: version 4, did 1 of 2, genid 0, syncid 1, balance 2, flags 0, data 10 11 12
b.img: version 4, did 2 of 2, genid 0, syncid 1, balance 2, flags 2, data 20 21 22
c.img: nothing, data 30 31 32
= advance gm0 b.img | 2 |
gm0             COMPLETE 2/2
  a.img           ACTIVE
  b.img           ACTIVE
a.img: version 4, did 1 of 2, genid 0, syncid 1, balance 2, flags 0, data 10 11 12
b.img: version 4, did 2 of 2, genid 0, syncid 1, balance 2, flags 0, data 10 11 12
c.img: nothing, data 30 31 32
= deactivate gm0 b.img | 2 |
gm0             DEGRADED 1/2
  a.img           ACTIVE
  b.img           INACTIVE
a.img: version 4, did 1 of 2, genid 0, syncid 2, balance 2, flags 0, data 10 11 12
b.img: version 4, did 2 of 2, genid 0, syncid 1, balance 2, flags 8, data 10 11 12
c.img: nothing, data 30 31 32
= activate gm0 b.img | 1 |
gm0             DEGRADED 1/2
  a.img           ACTIVE
  b.img           SYNCHRONIZING 0 of 3
a.img: version 4, did 1 of 2, genid 0, syncid 2, balance 2, flags 0, data 10 11 12
b.img: version 4, did 2 of 2, genid 0, syncid 2, balance 2, flags 2, data 10 11 12
c.img: nothing, data 30 31 32
",
};

/// A mirror of two that loses a component.
pub(super) const LOST: Script = Script {
    start: Start::Bare,
    stations: "= | 0 |
no mirrors
a.img: nothing, data 10 11 12
b.img: nothing, data 20 21 22
c.img: nothing, data 30 31 32
= label --mid 7 --did 1 gm0 a.img | 1 |
gm0             COMPLETE 1/1
  a.img           ACTIVE
a.img: version 4, did 1 of 1, genid 0, syncid 1, balance 2, flags 0, data 10 11 12
b.img: nothing, data 20 21 22
c.img: nothing, data 30 31 32
= insert --did 2 gm0 b.img | 2 |
gm0             DEGRADED 1/2
  a.img           ACTIVE
  b.img           SYNCHRONIZING 0 of 3
a.img: version 4, did 1 of 2, genid 0, syncid 1, balance 2, flags 0, data 10 11 12
b.img: version 4, did 2 of 2, genid 0, syncid 1, balance 2, flags 2, data 20 21 22
c.img: nothing, data 30 31 32
= advance gm0 b.img | 2 |
gm0             COMPLETE 2/2
  a.img           ACTIVE
  b.img           ACTIVE
a.img: version 4, did 1 of 2, genid 0, syncid 1, balance 2, flags 0, data 10 11 12
b.img: version 4, did 2 of 2, genid 0, syncid 1, balance 2, flags 0, data 10 11 12
c.img: nothing, data 30 31 32
= lost gm0 b.img | 1 |
gm0             DEGRADED 1/2
  a.img           ACTIVE
a.img: version 4, did 1 of 2, genid 1, syncid 1, balance 2, flags 0, data 10 11 12
b.img: version 4, did 2 of 2, genid 0, syncid 1, balance 2, flags 0, data 10 11 12
c.img: nothing, data 30 31 32
= forget gm0 | 1 |
gm0             COMPLETE 1/1
  a.img           ACTIVE
a.img: version 4, did 1 of 1, genid 1, syncid 1, balance 2, flags 0, data 10 11 12
b.img: version 4, did 2 of 2, genid 0, syncid 1, balance 2, flags 0, data 10 11 12
c.img: nothing, data 30 31 32
",
};

/// A mirror that is found on images in older versions, filled, and taken apart.
pub(super) const ADOPTED: Script = Script {
    start: Start::OfAMirror,
    stations: "= | 0 |
no mirrors
a.img: version 2, did 1 of 2, genid 0, syncid 1, balance 2, flags 0, data 10 11 12
b.img: version 3, did 2 of 2, genid 0, syncid 1, balance 2, flags 0, data 20 21 22
c.img: version 2, did 3 of 2, genid 0, syncid 1, balance 2, flags 0, data 30 31 32
= adopt gm0 a.img b.img | 2 |
gm0             DEGRADED 1/2
  a.img           ACTIVE
  b.img           SYNCHRONIZING 0 of 3
a.img: version 4, did 1 of 2, genid 0, syncid 1, balance 2, flags 0, data 10 11 12
b.img: version 4, did 2 of 2, genid 0, syncid 1, balance 2, flags 2, data 20 21 22
c.img: version 2, did 3 of 2, genid 0, syncid 1, balance 2, flags 0, data 30 31 32
= configure --balance split gm0 | 2 |
gm0             DEGRADED 1/2
  a.img           ACTIVE
  b.img           SYNCHRONIZING 0 of 3
a.img: version 4, did 1 of 2, genid 0, syncid 1, balance 3, flags 0, data 10 11 12
b.img: version 4, did 2 of 2, genid 0, syncid 1, balance 3, flags 2, data 20 21 22
c.img: version 2, did 3 of 2, genid 0, syncid 1, balance 2, flags 0, data 30 31 32
= rebuild gm0 b.img | 1 |
gm0             DEGRADED 1/2
  a.img           ACTIVE
  b.img           SYNCHRONIZING 0 of 3
a.img: version 4, did 1 of 2, genid 0, syncid 1, balance 3, flags 0, data 10 11 12
b.img: version 4, did 2 of 2, genid 0, syncid 1, balance 3, flags 6, data 20 21 22
c.img: version 2, did 3 of 2, genid 0, syncid 1, balance 2, flags 0, data 30 31 32
= advance gm0 b.img | 2 |
gm0             COMPLETE 2/2
  a.img           ACTIVE
  b.img           ACTIVE
a.img: version 4, did 1 of 2, genid 0, syncid 1, balance 3, flags 0, data 10 11 12
b.img: version 4, did 2 of 2, genid 0, syncid 1, balance 3, flags 0, data 10 11 12
c.img: version 2, did 3 of 2, genid 0, syncid 1, balance 2, flags 0, data 30 31 32
= remove gm0 b.img | 2 |
gm0             COMPLETE 1/1
  a.img           ACTIVE
a.img: version 4, did 1 of 1, genid 0, syncid 1, balance 3, flags 0, data 10 11 12
b.img: nothing, data 10 11 12
c.img: version 2, did 3 of 2, genid 0, syncid 1, balance 2, flags 0, data 30 31 32
= clear c.img | 1 |
gm0             COMPLETE 1/1
  a.img           ACTIVE
a.img: version 4, did 1 of 1, genid 0, syncid 1, balance 3, flags 0, data 10 11 12
b.img: nothing, data 10 11 12
c.img: nothing, data 30 31 32
= destroy gm0 | 1 |
no mirrors
a.img: nothing, data 10 11 12
b.img: nothing, data 10 11 12
c.img: nothing, data 30 31 32
",
};

/// A mirror of two that is patched, and patched again while a component is out of use.
pub(super) const PATCHED: Script = Script {
    start: Start::Bare,
    stations: "= | 0 |
no mirrors
a.img: nothing, data 10 11 12
b.img: nothing, data 20 21 22
c.img: nothing, data 30 31 32
= label --mid 7 --did 1 gm0 a.img | 1 |
gm0             COMPLETE 1/1
  a.img           ACTIVE
a.img: version 4, did 1 of 1, genid 0, syncid 1, balance 2, flags 0, data 10 11 12
b.img: nothing, data 20 21 22
c.img: nothing, data 30 31 32
= insert --did 2 gm0 b.img | 2 |
gm0             DEGRADED 1/2
  a.img           ACTIVE
  b.img           SYNCHRONIZING 0 of 3
a.img: version 4, did 1 of 2, genid 0, syncid 1, balance 2, flags 0, data 10 11 12
b.img: version 4, did 2 of 2, genid 0, syncid 1, balance 2, flags 2, data 20 21 22
c.img: nothing, data 30 31 32
= advance gm0 b.img | 2 |
gm0             COMPLETE 2/2
  a.img           ACTIVE
  b.img           ACTIVE
a.img: version 4, did 1 of 2, genid 0, syncid 1, balance 2, flags 0, data 10 11 12
b.img: version 4, did 2 of 2, genid 0, syncid 1, balance 2, flags 0, data 10 11 12
c.img: nothing, data 30 31 32
= patch 0 40 gm0 | 6 |
gm0             COMPLETE 2/2
  a.img           ACTIVE
  b.img           ACTIVE
a.img: version 4, did 1 of 2, genid 0, syncid 2, balance 2, flags 0, data 40 11 12
b.img: version 4, did 2 of 2, genid 0, syncid 2, balance 2, flags 0, data 40 11 12
c.img: nothing, data 30 31 32
= deactivate gm0 b.img | 2 |
gm0             DEGRADED 1/2
  a.img           ACTIVE
  b.img           INACTIVE
a.img: version 4, did 1 of 2, genid 0, syncid 3, balance 2, flags 0, data 40 11 12
b.img: version 4, did 2 of 2, genid 0, syncid 2, balance 2, flags 8, data 40 11 12
c.img: nothing, data 30 31 32
= patch 1 41,42 gm0 | 3 |
gm0             DEGRADED 1/2
  a.img           ACTIVE
  b.img           INACTIVE
a.img: version 4, did 1 of 2, genid 0, syncid 4, balance 2, flags 0, data 40 41 42
b.img: version 4, did 2 of 2, genid 0, syncid 2, balance 2, flags 8, data 40 11 12
c.img: nothing, data 30 31 32
",
};

// The keys of the commands, and of two that aren't in any script.
const KEYS: [&str; 9] = ["k1", "k2", "k3", "k4", "k5", "k6", "k7", "k8", "k9"];

/// The key of the command at this place, from 0 on.
pub(super) fn key_at(rt: &impl Abort, place: u64) -> &'static str {
    KEYS.get(place as usize).copied().expect(rt, "no key")
}

// The number that one digit says.
fn digit(text: &str) -> Option<u64> {
    let byte = *text.as_bytes().first()?;
    Some(u64::from(byte.checked_sub(b'0')?))
}

impl Script {
    // The station after so many commands, if there is one.
    fn find(self, commands: u64) -> Option<Station> {
        // Nothing stands before the first equals sign.
        let text = self.stations.split('=').skip(1).nth(commands as usize)?;
        let mut parts = text.split('|');
        Some(Station {
            words: parts.next()?.trim(),
            writes: digit(parts.next()?.trim())?,
            found: parts.next()?.trim(),
        })
    }

    /// The station after so many commands.
    pub(super) fn station(self, rt: &impl Abort, commands: u64) -> Station {
        self.find(commands).expect(rt, "no station")
    }

    /// How many commands it has.
    pub(super) fn length(self) -> u64 {
        (self.stations.split('=').count() as u64).saturating_sub(2)
    }

    /// Its images at the start. Each sector of data has a number of its own in each byte.
    pub(super) fn shelf(self, rt: &(impl Abort + AllocGlobal)) -> MemShelf {
        let mut shelf = MemShelf::new(rt.alloc());
        for (name, did, version) in [("a.img", 1u8, 2), ("b.img", 2, 3), ("c.img", 3, 2)] {
            let first = did * 10;
            let last = match self.start {
                Start::Bare => [0; 512],
                Start::OfAMirror => {
                    in_version(version, &got(rt, metadata(u32::from(did), 2, IN_SYNC)))
                }
            };
            let sectors = [[first; 512], [first + 1; 512], [first + 2; 512], last];
            let sectors = Vec::from_array(rt.alloc(), sectors).expect(rt, "no memory");
            got(rt, add(&mut shelf, name, sectors));
        }
        shelf
    }
}

/// What a command with these words is answered beside its number.
pub(super) fn reply_to(words: &str) -> Reply {
    if words.starts_with("advance") {
        Reply::Copied { held: 3, total: 3 }
    } else {
        Reply::Plain
    }
}
