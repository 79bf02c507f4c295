//! Which command was stopped: the last that was accepted, before losses that came after it.

use gm_commands::Command;
use gm_rows::{StoreFault, text_at, u32_at};
use gm_state::{Intent, State};
use gm_stopped::{Stopped, stopped_by};
use gm_words::read_words;
use sqlite::{Alter, Connection, params};
use std::alloc::{AllocError, Global};

// The number of the last command, 0 if there is none.
fn last_number<S: Alter>(conn: &mut Connection<S>) -> Result<u32, StoreFault> {
    let rows = conn.query_all("SELECT seq FROM commands ORDER BY seq DESC LIMIT 1", &[])?;
    let Some(row) = rows.first() else {
        return Ok(0);
    };
    u32_at(row, 0).ok_or(StoreFault::Unreadable)
}

// The words of the command of this number; `None` if there is none.
fn words_at<S: Alter>(conn: &mut Connection<S>, number: u32) -> Result<Option<String>, StoreFault> {
    let rows = conn.query_all("SELECT words FROM commands WHERE seq = ?1", params![number])?;
    match rows.first() {
        Some(row) => Ok(Some(text_at(row, 0)?)),
        None => Ok(None),
    }
}

// The command that kept words spell.
fn command_of(alloc: Global, words: &str) -> Result<Option<Command>, AllocError> {
    let pieces: Vec<&str> = words.split(' ').collect(alloc)?;
    Ok(read_words(alloc, &pieces)?.ok())
}

// The command of this number; `None` if there is none, or its words spell none.
fn command_at<S: Alter>(
    alloc: Global,
    conn: &mut Connection<S>,
    number: u32,
) -> Result<Option<Command>, StoreFault> {
    match words_at(conn, number)? {
        Some(words) => Ok(command_of(alloc, words.as_str())?),
        None => Ok(None),
    }
}

// The last commands, the newest first, as many as may have to be known where so many intents are
// pending: back to the first that is no loss. One whose words spell none, and those before it, are
// left out.
fn last_commands<S: Alter>(
    alloc: Global,
    conn: &mut Connection<S>,
    intents: usize,
) -> Result<Vec<Command>, StoreFault> {
    let last = last_number(conn)?;
    let mut commands = Vec::new(alloc);
    for back in 0..last {
        let Some(command) = command_at(alloc, conn, last - back)? else {
            break;
        };
        let was_lost = matches!(command, Command::Lost { .. });
        commands.push(command).map_err(|_| StoreFault::Memory)?;
        // Each loss that is passed left at least one intent of its own.
        if !was_lost || intents < commands.len() {
            break;
        }
    }
    Ok(commands)
}

/// The command of which these intents are pending, which is stopped, by the commands that a store
/// has: the last one, but for losses that left intents before their own. The state is the one that
/// is registered since. `Memory`, `Store` or `Unreadable` as of any call; the store is only read.
pub fn stopped_in<S: Alter>(
    alloc: Global,
    conn: &mut Connection<S>,
    state: &State,
    intents: &[Intent],
) -> Result<Stopped, StoreFault> {
    let commands = last_commands(alloc, conn, intents.len())?;
    Ok(stopped_by(alloc, state, intents, commands)?)
}
