//! A command that was accepted, as the registry keeps it.

ghost use Rattle.std.specs.Prelude.{◌≡◌, IfOk, IsTrue, pos};
ghost use Rattle.std.specs.String.{string_bytes};
ghost use Rattle.sqlite.specs.Order.{column};
ghost use Rattle.sqlite.specs.declared.types.Value.TheVariants.{Int, Text};
ghost use Rattle.gm_commands.specs.Commands.{is_key};
ghost use Rattle.gm_state.specs.Rows.{copied_of, total_of};
ghost use Rattle.gm_history.specs.Accepted.{IsAccepted};

use gm_commands::is_key;
use gm_metadata::is_label_byte;
use gm_rows::{StoreFault, text_at, u32_at};
use gm_state::{MAX_SECTORS, Reply};
use sqlite::{Alter, Connection, Error, Row, params};

/// A command that was accepted.
#[derive(Debug, Drop)]
pub(crate) struct Accepted {
    pub(crate) key: String,
    /// From 1 on, without a gap.
    pub(crate) number: u32,
    /// Its canonical words, joined by spaces.
    pub(crate) words: String,
    pub(crate) reply: Reply,
}

// The rows of commands with this number.
fn rows_with<S: Alter>(conn: &mut Connection<S>, number: u32) -> Result<Vec<Row>, Error> {
    conn.query_all(
        "SELECT call_key, words, copied, of_total FROM commands WHERE seq = ?1",
        params![number],
    )
}

// The key in the first column; `Unreadable` if it is none.
fn key_in(row: &Row) -> Result<String, StoreFault>
    ensures text { IfOk result (λ key. column row.now 0 ≡ Text (string_bytes key)) }
    ensures key { IfOk result (λ key. IsTrue (is_key (string_bytes key))) }
{
    let key = text_at(row, 0)?;
    if !is_key(key.as_str()) {
        return Err(StoreFault::Unreadable);
    }
    Ok(key)
}

fn is_word_byte(byte: u8) -> bool {
    byte == b' ' || is_label_byte(byte)
}

// Whether these may be the words of a command: of labels, numbers and digits, with spaces between.
fn are_words(bytes: &[u8]) -> bool {
    bytes.iter().all(|byte| is_word_byte(*byte))
}

// The words in the second column; `Unreadable` if they have other characters than any command's.
fn words_in(row: &Row) -> Result<String, StoreFault>
    ensures { IfOk result (λ words. column row.now 1 ≡ Text (string_bytes words)) }
{
    let words = text_at(row, 1)?;
    if !are_words(words.as_bytes()) {
        return Err(StoreFault::Unreadable);
    }
    Ok(words)
}

// A number of an answer: so many sectors, at most as many as an image has.
fn sectors_in(row: &Row, at: usize) -> Result<u32, StoreFault>
    ensures { IfOk result (λ n. column row.now at ≡ Int (pos n)) }
{
    match u32_at(row, at) {
        Some(number) if number <= MAX_SECTORS => Ok(number),
        _ => Err(StoreFault::Unreadable),
    }
}

// The answer that two numbers say.
fn reply_of(copied: u32, of_total: u32) -> Reply
    ensures copied { copied_of result ≡ copied }
    ensures total { total_of result ≡ of_total }
{
    if copied == 0 && of_total == 0 {
        Reply::Plain
    } else {
        Reply::Copied {
            held: copied,
            total: of_total,
        }
    }
}

// The command with this number that a row shows.
fn accepted_in(row: &Row, number: u32) -> Result<Accepted, StoreFault>
    ensures { IfOk result (IsAccepted row.now number) }
{
    let key = key_in(row)?;
    let words = words_in(row)?;
    let copied = sectors_in(row, 2)?;
    let of_total = sectors_in(row, 3)?;
    Ok(Accepted {
        key,
        number,
        words,
        reply: reply_of(copied, of_total),
    })
}

/// The accepted command with this number. `Unreadable` if there is none, or if its row isn't one
/// that the registry writes; `Store` and `Memory` as of any call. The store is only read.
pub(crate) fn accepted_at<S: Alter>(
    conn: &mut Connection<S>,
    number: u32,
) -> Result<Accepted, StoreFault> {
    let rows = rows_with(conn, number)?;
    if rows.len() != 1 {
        return Err(StoreFault::Unreadable);
    }
    let Some(row) = rows.first() else {
        return Err(StoreFault::Unreadable);
    };
    accepted_in(row, number)
}
