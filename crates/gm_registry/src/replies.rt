//! What is read of the accepted commands: the reply under a key, and the greatest number.

ghost use Rattle.std.specs.Prelude.{◌≡◌, ◌≢◌, ◌≤◌, ◌<◌, ◌^◌, ℕ, pos, filter, map, string_bytes, IfOk, IfErr, OnOk, OnErr, IsPermutation};
ghost use Rattle.sqlite.specs.Order.{column};
ghost use Rattle.sqlite.specs.declared.types.Value.TheVariants.{Int, Text};
ghost use Rattle.gm_state.specs.Rows.{Tables, CommandRow};
ghost use Rattle.gm_registry.specs.Replies.{Fits, reply_in, is_under, reply_values, IsLastOf};
ghost use Rattle.gm_registry.specs.Registry.{DiskKept, HasFailed, HasRead, HasTables, seen, StoreFailed, Reads};
ghost use Rattle.gm_rows.specs.Faults.{OnUnreadable, OnOther};
ghost use Rattle.gm_registry.specs.Tells.{CountsCommands, FindsReply};

use gm_rows::{StoreFault, text_at, u32_at};
use gm_state::{MAX_SECTORS, Reply};
use sqlite::{Alter, Connection, Error, Row, params};

/// The row of a command as a query of its key shows it.
#[derive(Debug, Drop)]
struct Kept {
    number: u32,
    words: String,
    copied: u32,
    of_total: u32,
}

fn read_number(row: &Row, at: usize) -> Result<u32, StoreFault>
    ensures number { IfOk result (λ number. column row.now at ≡ Int (pos number)) }
    ensures fault { IfErr result (λ e. e ≢ StoreFault.Store) }
    ensures unreadable { IfErr result (λ e. (number : ℕ) → number < 2 ^ 32
        → column row.now at ≡ Int (pos number) → ⊥) }
{
    match u32_at(row, at) {
        Some(number) => Ok(number),
        None => Err(StoreFault::Unreadable),
    }
}

/// A number of a reply: so many sectors, at most as many as an image has.
fn read_sectors(row: &Row, at: usize) -> Result<u32, StoreFault>
    ensures number { IfOk result (λ number. column row.now at ≡ Int (pos number)) }
    ensures range { IfOk result (λ number. number ≤ 1048576) }
    ensures fault { IfErr result (λ e. e ≢ StoreFault.Store) }
    ensures unreadable { IfErr result (λ e. (number : ℕ) → number ≤ 1048576
        → column row.now at ≡ Int (pos number) → ⊥) }
{
    match u32_at(row, at) {
        Some(number) if number <= MAX_SECTORS => Ok(number),
        _ => Err(StoreFault::Unreadable),
    }
}

fn read_kept(row: &Row) -> Result<Kept, StoreFault>
    ensures kept { IfOk result (λ kept. (column row.now 0 ≡ Int (pos kept.number))
        × (column row.now 1 ≡ Text (string_bytes kept.words))
        × (column row.now 2 ≡ Int (pos kept.copied))
        × (column row.now 3 ≡ Int (pos kept.of_total))) }
    ensures range { IfOk result (λ kept. (kept.copied ≤ 1048576) × (kept.of_total ≤ 1048576)) }
    ensures fault { IfErr result (λ e. e ≢ StoreFault.Store) }
    ensures unreadable { OnUnreadable result ((c : CommandRow) → Fits c → row.now ≡ reply_values c
        → ⊥) }
{
    Ok(Kept {
        number: read_number(row, 0)?,
        words: text_at(row, 1)?,
        copied: read_sectors(row, 2)?,
        of_total: read_sectors(row, 3)?,
    })
}

/// The reply that two numbers of a row say.
fn reply_from(copied: u32, of_total: u32) -> Reply
    ensures { result ≡ reply_in copied of_total }
{
    if copied == 0 && of_total == 0 {
        Reply::Plain
    } else {
        Reply::Copied {
            held: copied,
            total: of_total,
        }
    }
}

fn find_command<S: Alter>(conn: &mut Connection<S>, key: &str) -> Result<Vec<Row>, Error>
    ensures rows { DiskKept S.Store conn.new → IfOk result (λ rows. (t : Tables)
        → HasTables S.Store conn.old t
        → IsPermutation (map reply_values (filter (is_under key.now) t.commands)) rows.items
        × HasTables S.Store conn.new t) }
    ensures store { DiskKept S.Store conn.new
        → OnOther result ((t : Tables) → HasTables S.Store conn.old t
        → StoreFailed S.Store conn.old conn.new) }
    ensures reads { Reads S.Store conn.old conn.new }
    ensures read { OnOk result (HasRead S.Store conn.old conn.new) }
    ensures failed { OnErr result (HasFailed S.Store conn.old conn.new) }
{
    conn.query_all(
        "SELECT seq, words, copied, of_total FROM commands WHERE call_key = ?1",
        params![key],
    )
}

/// The number, the words and the reply of the command under a key.
pub(crate) fn reply_on<S: Alter>(
    conn: &mut Connection<S>,
    key: &str,
) -> Result<Option<(u64, String, Reply)>, StoreFault>
    ensures { FindsReply S.Store conn.old conn.new result key.now }
{
    let rows = find_command(conn, key)?;
    match rows.first() {
        None => Ok(None),
        Some(row) => {
            let kept = read_kept(row)?;
            let reply = reply_from(kept.copied, kept.of_total);
            Ok(Some((u64::from(kept.number), kept.words, reply)))
        }
    }
}

fn last_command<S: Alter>(conn: &mut Connection<S>) -> Result<Vec<Row>, Error>
    ensures rows { DiskKept S.Store conn.new → IfOk result (λ rows. (t : Tables)
        → HasTables S.Store conn.old t
        → IsLastOf t rows.items × HasTables S.Store conn.new t) }
    ensures store { DiskKept S.Store conn.new
        → OnOther result ((t : Tables) → HasTables S.Store conn.old t
        → StoreFailed S.Store conn.old conn.new) }
    ensures same { DiskKept S.Store conn.new → OnOk result ((t : Tables)
        → HasTables S.Store conn.old t → seen S.Store conn.new ≡ seen S.Store conn.old) }
    ensures reads { Reads S.Store conn.old conn.new }
    ensures read { OnOk result (HasRead S.Store conn.old conn.new) }
    ensures failed { OnErr result (HasFailed S.Store conn.old conn.new) }
{
    conn.query_all("SELECT seq FROM commands ORDER BY seq DESC LIMIT 1", &[])
}

/// How many commands were accepted: the greatest number, since they count from 1 without gaps.
pub(crate) fn accepted_on<S: Alter>(conn: &mut Connection<S>) -> Result<u32, StoreFault>
    ensures counts { CountsCommands S.Store conn.old conn.new result }
    ensures same { DiskKept S.Store conn.new → OnOk result ((t : Tables)
        → HasTables S.Store conn.old t → seen S.Store conn.new ≡ seen S.Store conn.old) }
{
    let rows = last_command(conn)?;
    match rows.first() {
        None => Ok(0),
        Some(row) => Ok(read_number(row, 0)?),
    }
}
