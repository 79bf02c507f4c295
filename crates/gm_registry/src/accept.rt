//! A command's change, with its intents, its bytes and its keys, in one transaction; also in place
//! of what is pending.

ghost use Rattle.std.specs.Prelude.{◌≡◌, ◌+◌, ◌<◌, ◌≤◌, ◌^◌, ◌↔◌, length, IfSome, IsTrue};
ghost use Rattle.gm_state.specs.Rows.{mirror_row};
ghost use Rattle.gm_registry.specs.Fitting.{HasNoComponents, HasRoom, TakesMirror};
ghost use Rattle.gm_registry.specs.FittingChanges.{rows_in, FitsEntry, FitsRecords, FitsTables};
ghost use Rattle.gm_state.specs.World.{ReplyFits};
ghost use Rattle.gm_registry.specs.Replies.{count_of};
ghost use Rattle.gm_registry.specs.Changes.{with_entry, changed_in, left_of, with_accepted, with_records, without_some_mirror, with_some_mirror};
ghost use Rattle.gm_registry.specs.Registry.{WritesGiven, ChangesInside, Writes};
ghost use Rattle.gm_registry.specs.Accepting.{Accepts, RepliesFit};

use crate::commands::{put_command, put_further};
use crate::components::{drop_components, put_components};
use crate::intents::{Pending, drop_pending, put_intents};
use crate::mirrors::{drop_mirror, put_mirror};
use crate::patches::put_bytes;
use crate::replies::accepted_on;
use gm_changes::{Change, Further};
use gm_commands::MAX_COMMANDS;
use gm_metadata::Label;
use gm_rows::StoreFault;
use gm_state::{Intent, MAX_SECTORS, Mirror, Reply};
use sqlite::{Alter, Connection, Error, ErrorCode, Transaction};

/// Deletes a mirror if there is a name.
fn drop_some_mirror<S: Alter>(tx: &mut Transaction<'_, S>, name: Option<Label>) -> Result<(), Error>
    ensures { ChangesInside S.Store tx.old tx.new result (without_some_mirror name)
        (λ _ t. IfSome name (λ n. HasNoComponents n t)) 0 }
{
    if let Some(name) = name {
        drop_mirror(tx, name)?;
    }
    Ok(())
}

/// Puts a mirror if there is one.
fn put_some_mirror<S: Alter>(
    tx: &mut Transaction<'_, S>,
    mirror: Option<Mirror>,
) -> Result<(), Error>
    ensures { ChangesInside S.Store tx.old tx.new result (with_some_mirror mirror)
        (λ db t. IfSome mirror (λ m. TakesMirror (mirror_row m) db t)) 1 }
{
    if let Some(mirror) = mirror {
        put_mirror(tx, mirror)?;
    }
    Ok(())
}

/// Writes the records of a change. A component refers to its mirror: it goes before it, and comes
/// after it.
fn put_records<S: Alter>(tx: &mut Transaction<'_, S>, change: &Change) -> Result<(), Error>
    ensures { ChangesInside S.Store tx.old tx.new result (with_records change.now)
        (λ db t. FitsRecords change.now t × HasRoom (length change.now.components + 1) db)
        (length change.now.components + 1) }
{
    drop_components(tx, change.gone_components())?;
    drop_some_mirror(tx, change.gone_mirror())?;
    put_some_mirror(tx, change.mirror())?;
    put_components(tx, change.components())
}

/// A command as it is written: its change, with these intents and bytes in place of the change's
/// own, its first key and its words.
#[derive(Clone, Copy)]
pub(crate) struct Entry<'a> {
    pub(crate) change: &'a Change,
    pub(crate) intents: &'a [Intent],
    pub(crate) bytes: &'a [[u8; 512]],
    pub(crate) key: &'a str,
    pub(crate) words: &'a str,
}

/// Writes a command under its number, and under the next ones by its further keys.
fn put_entry<S: Alter>(
    tx: &mut Transaction<'_, S>,
    entry: &Entry<'_>,
    number: u32,
) -> Result<(), Error>
    ensures { ChangesInside S.Store tx.old tx.new result (with_entry entry.now number)
        (FitsEntry entry.now number) (rows_in entry.now) }
{
    put_records(tx, entry.change)?;
    put_intents(tx, entry.intents)?;
    put_bytes(tx, entry.bytes)?;
    put_command(tx, entry.key, number, entry.words, entry.change.reply())?;
    put_further(tx, entry.change.further(), number, entry.words)
}

/// The same after what becomes of what is pending.
fn put_over<S: Alter>(
    tx: &mut Transaction<'_, S>,
    entry: &Entry<'_>,
    pending: Pending,
    number: u32,
) -> Result<(), Error>
    ensures { ChangesInside S.Store tx.old tx.new result
        (λ t. with_entry entry.now number (left_of pending t))
        (λ db t. FitsEntry entry.now number db (left_of pending t)) (rows_in entry.now) }
{
    drop_pending(tx, pending)?;
    put_entry(tx, entry, number)
}

/// Writes all of that in one transaction.
fn write_entry<S: Alter>(
    conn: &mut Connection<S>,
    entry: &Entry<'_>,
    pending: Pending,
    number: u32,
) -> Result<(), Error>
    ensures { WritesGiven S.Store conn.old conn.new result (λ t. number ≡ count_of t + 1)
        (λ t. with_entry entry.now number (left_of pending t))
        (λ db t. FitsTables (changed_in entry.now) entry.now.key.now entry.now.words.now
        (left_of pending t) × (number + length entry.now.change.now.further + 1 ≤ 2 ^ 32)
        × HasRoom (rows_in entry.now) db) }
{
    if !conn.is_autocommit() {
        return Err(Error::SqliteFailure(ErrorCode::TransactionState));
    }
    let mut tx = conn.transaction();
    put_over(&mut tx, entry, pending, number)?;
    tx.commit()
}

/// Whether a copy holds some of its sectors, at most all, and no more than an image has.
fn is_in_range(reply: Reply) -> bool
    ensures { IsTrue result ↔ ReplyFits reply }
{
    match reply {
        Reply::Plain => true,
        Reply::Copied { held, total } => 0 < held && held <= total && total <= MAX_SECTORS,
    }
}

/// The same of each reply of a change.
fn are_in_range(change: &Change) -> bool
    ensures { IsTrue result ↔ RepliesFit change.now }
{
    if !is_in_range(change.reply()) {
        return false;
    }
    'looks: for f in change.further() {
        if !is_in_range(f.reply) {
            return false;
        }
    }
    true
}

/// Whether a command may be accepted under one key and these further ones, after so many commands.
fn has_place(count: u32, further: &[Further]) -> bool
    ensures { IsTrue result ↔ (count + length further.now < 100000) }
{
    count < MAX_COMMANDS && further.len() < (MAX_COMMANDS - count) as usize
}

/// Accepts a command under the next number, and under the ones after it by its further keys.
/// `Store` if more commands would be accepted than may be, or if the numbers of a reply are out of
/// range: nothing is written then.
pub(crate) fn accept_on<S: Alter>(
    conn: &mut Connection<S>,
    entry: &Entry<'_>,
    pending: Pending,
) -> Result<u64, StoreFault>
    ensures accepts { Accepts S.Store conn.old conn.new result (changed_in entry.now)
        (left_of pending) entry.now.key.now entry.now.words.now }
    ensures writes { Writes S.Store conn.old conn.new result (λ t. with_accepted
        (changed_in entry.now) entry.now.key.now entry.now.words.now (left_of pending t)) }
{
    let count = accepted_on(conn)?;
    if !has_place(count, entry.change.further()) || !are_in_range(entry.change) {
        return Err(StoreFault::Store);
    }
    let number = count + 1;
    write_entry(conn, entry, pending, number)?;
    Ok(u64::from(number))
}
