//! The table of accepted commands: written inside a transaction, read by the key or from the end of
//! its numbers.

ghost use Rattle.std.specs.Prelude.{◌+◌, length};
ghost use Rattle.gm_registry.specs.Changes.{with_command, with_further, command_row, row_under};
ghost use Rattle.gm_registry.specs.Fitting.{TakesCommand};
ghost use Rattle.gm_registry.specs.FittingChanges.{TakesFurther};
ghost use Rattle.gm_registry.specs.Registry.{ChangesInside};

use gm_changes::Further;
use gm_state::Reply;
use sqlite::{Alter, Error, ErrorCode, Transaction, params};

/// Adds the row of a command under its key.
fn put_row<S: Alter>(
    tx: &mut Transaction<'_, S>,
    key: &str,
    number: u32,
    words: &str,
    copied: u32,
    of_total: u32,
) -> Result<usize, Error>
    ensures { ChangesInside S.Store tx.old tx.new result
        (with_command (row_under key.now number words.now copied of_total))
        (TakesCommand key.now words.now number) 1 }
{
    tx.execute(
        "INSERT INTO commands (call_key, seq, words, copied, of_total) VALUES (?1, ?2, ?3, ?4, ?5)",
        params![key, number, words, copied, of_total],
    )
}

/// Adds a command under its key, with its number, its words and its reply.
pub(crate) fn put_command<S: Alter>(
    tx: &mut Transaction<'_, S>,
    key: &str,
    number: u32,
    words: &str,
    reply: Reply,
) -> Result<usize, Error>
    ensures { ChangesInside S.Store tx.old tx.new result
        (with_command (command_row key.now number words.now reply))
        (TakesCommand key.now words.now number) 1 }
{
    match reply {
        Reply::Plain => put_row(tx, key, number, words, 0, 0),
        Reply::Copied { held, total } => put_row(tx, key, number, words, held, total),
    }
}

/// Adds a command under each further key, with the same words and the reply of that key, by the
/// numbers after this one.
pub(crate) fn put_further<S: Alter>(
    tx: &mut Transaction<'_, S>,
    further: &[Further],
    number: u32,
    words: &str,
) -> Result<(), Error>
    ensures { ChangesInside S.Store tx.old tx.new result
        (with_further further.now (number + 1) words.now)
        (TakesFurther further.now (number + 1) words.now) (length further.now) }
{
    let mut last = number;
    'puts: for f in further {
        last = match last.checked_add(1) {
            Some(next) => next,
            None => return Err(Error::SqliteFailure(ErrorCode::TooBig)),
        };
        put_command(tx, f.key.as_str(), last, words, f.reply)?;
    }
    Ok(())
}
