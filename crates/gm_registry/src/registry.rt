//! The calls of a registry.

ghost use Rattle.std.specs.Prelude.{◌≡◌, ◌≢◌, false, IfErr, MatchResult};
ghost use Rattle.gm_state.specs.Rows.{Tables};
ghost use Rattle.gm_registry.specs.Opens.{OpensTo};
ghost use Rattle.gm_registry.specs.Accepting.{Accepts};
ghost use Rattle.gm_registry.specs.Changes.{with_accepted, with_pending, settled};
ghost use Rattle.gm_registry.specs.Registry.{DiskKept, IsOpen, HasTables, WasClean, StoreFailed, Writes};
ghost use Rattle.gm_rows.specs.Faults.{OnStore};
ghost use Rattle.gm_registry.specs.Tells.{CountsCommands, FindsReply};

use crate::accept::{Entry, accept_on};
use crate::intents::{Pending, settle_on};
use crate::open_store::prepare;
use crate::replies::{accepted_on, reply_on};
use gm_changes::Change;
use gm_rows::StoreFault;
use gm_state::{Intent, Reply};
use sqlite::{Alter, Connection};
use std::marker::Model;

/// The tables of a bench in a store. In contracts it is what its connection holds.
#[derive(Drop)]
pub struct Registry<S: Alter> {
    pub(crate) conn: Connection<S>,
}

impl<S: Alter> Model for Registry<S> {
    ghost use Rattle.sqlite.specs.Held.{Held, held_code};

    ghost Value = { Held S };

    ghost coded = { held_code S.code };

    ghost view = { λ r. r.conn };
}

/// Why a store wasn't opened, and the store.
#[derive(Drop)]
pub struct OpenFault<S: Alter> {
    pub fault: StoreFault,
    pub store: Connection<S>,
}

impl<S: Alter> Registry<S> {
    /// Takes the registry of a store, or makes one if the store has no table. One of the first
    /// schema is carried over, in one transaction, before anything else: it gets the table of bytes
    /// and the number 2. `Unreadable` if the texts of its tables aren't those of a registry, or
    /// if `about` isn't the one record (1, the number of their schema).
    pub fn open(mut store: Connection<S>) -> Result<Registry<S>, OpenFault<S>>
        requires { store.in_transaction ≡ false }
        ensures opens { IsOpen S.Store store → OpensTo S.Store store result }
        ensures clean { MatchResult result (λ c. WasClean S.Store store c)
            (λ e. WasClean S.Store store e.store) }
    {
        match prepare(&mut store) {
            Ok(()) => Ok(Registry { conn: store }),
            Err(fault) => Err(OpenFault { fault, store }),
        }
    }

    /// Gives the store back.
    pub fn close(self) -> Connection<S>
        ensures { result ≡ self }
    {
        self.conn
    }

    /// The number, the words and the reply of the command under a key. `Memory`, `Store` as of any
    /// call; `Unreadable` if the row isn't one that this crate writes.
    pub fn reply_of(&mut self, key: &str) -> Result<Option<(u64, String, Reply)>, StoreFault>
        ensures { FindsReply S.Store self.old self.new result key.now }
    {
        reply_on(&mut self.conn, key)
    }

    /// How many commands were accepted.
    pub fn accepted(&mut self) -> Result<u64, StoreFault>
        ensures { CountsCommands S.Store self.old self.new result }
    {
        Ok(u64::from(accepted_on(&mut self.conn)?))
    }

    /// Writes a change, its intents, its bytes, its key and its further ones in one transaction.
    /// The command counts once under each key, by the next numbers in turn: answered is the one
    /// under `key`, from 1. `Store` before anything is written if more than 100,000 commands would
    /// be accepted, or the numbers of a reply, in sectors, are out of range: a copy holds some of
    /// its sectors, at most all, and no more than the 1,048,576 of an image.
    pub fn accept(&mut self, change: &Change, key: &str, words: &str) -> Result<u64, StoreFault>
        ensures accepts { Accepts S.Store self.old self.new result change.now (λ t. t)
            key.now words.now }
        ensures writes { Writes S.Store self.old self.new result
            (with_accepted change.now key.now words.now) }
    {
        let entry = Entry {
            change,
            intents: change.intents(),
            bytes: change.bytes(),
            key,
            words,
        };
        accept_on(&mut self.conn, &entry, Pending::Stays)
    }

    /// The same with these intents and bytes in place of the change's own and of all that are
    /// pending: they are what is pending then, the intents numbered from 1. `Store` before anything
    /// is written, as of `accept`: what was pending stays.
    pub fn accept_instead(
        &mut self,
        change: &Change,
        intents: &[Intent],
        bytes: &[[u8; 512]],
        key: &str,
        words: &str,
    ) -> Result<u64, StoreFault>
        ensures accepts { Accepts S.Store self.old self.new result
            (with_pending change.now intents.now bytes.now) settled key.now words.now }
        ensures writes { Writes S.Store self.old self.new result (λ t. with_accepted
            (with_pending change.now intents.now bytes.now) key.now words.now (settled t)) }
    {
        let entry = Entry {
            change,
            intents,
            bytes,
            key,
            words,
        };
        accept_on(&mut self.conn, &entry, Pending::Goes)
    }

    /// Deletes the pending intents and the bytes that they lay, in one transaction.
    pub fn settle(&mut self) -> Result<(), StoreFault>
        ensures fault { IfErr result (λ e. e ≢ StoreFault.Unreadable) }
        // On a disk that didn't fail, without a limit on steps, it is never `Store`.
        ensures store { DiskKept S.Store self.new
            → OnStore result ((t : Tables) → HasTables S.Store self.old t
            → StoreFailed S.Store self.old self.new) }
        ensures writes { Writes S.Store self.old self.new result settled }
    {
        settle_on(&mut self.conn)?;
        Ok(())
    }
}
