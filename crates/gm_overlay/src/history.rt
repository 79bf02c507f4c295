//! The calls of a file, which only clauses read.

ghost use Rattle.std.specs.Prelude.{◌≡◌, List, [], ◌∷◌};
ghost use Rattle.std.specs.Borrow.{ftrue};
ghost use Rattle.sqlite_disk.specs.Events.{Event, settled};
ghost use Rattle.gm_overlay.specs.Noted.{event_of};

use std::marker::Model;

/// A call and how it ended, without the bytes that it read or wrote.
#[derive(Clone, Copy)]
pub(crate) enum Call {
    Measured {
        len: u64,
        is_ok: bool,
    },
    Read {
        at: u64,
        asked: u64,
        is_ok: bool,
    },
    ReadUnder {
        key: u64,
        want: u64,
        at: u64,
        asked: u64,
        is_ok: bool,
    },
    /// A count of 1 says of a call that failed that it found no room.
    Written {
        at: u64,
        count: u64,
        is_ok: bool,
    },
    Cut {
        len: u64,
        count: u64,
        is_ok: bool,
    },
    Flushed {
        count: u64,
        is_ok: bool,
    },
}

/// It takes no memory: what it has is set by the proofs of its two functions alone.
#[derive(Drop)]
pub(crate) struct History {
    pub(crate) ghost events: { List Event },
}

impl Model for History {
    ghost also_owns = { λ _. ftrue };
}

impl History {
    /// The file is settled, and gets its key.
    pub(crate) fn begun(_key: u64) -> History
        ensures { result.events ≡ settled _key ∷ [] }
    {
        History {}
    }

    /// One call more, with these bytes.
    pub(crate) fn with(&self, _call: &Call, _bytes: &[u8]) -> History
        ensures { result.events ≡ event_of _call.now _bytes.now ∷ self.now.events }
    {
        History {}
    }
}
