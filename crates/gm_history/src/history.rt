//! Which accepted commands are told, and how: page by page, each written before the next is read.

use crate::fault::HistoryFault;
use crate::page::{is_asked, page_end, page_of};
use gm_command_line::{Form, Recalling};
use gm_json::{history_closing, history_opening};
use gm_rows::StoreFault;
use sqlite::{Alter, Connection};
use std::alloc::Global;
use std::io::Write;

fn write_text<O: Write>(output: &mut O, text: &str) -> Result<(), HistoryFault> {
    match output.write_all(text.as_bytes()) {
        Ok(()) => Ok(()),
        Err(_) => Err(HistoryFault::Output),
    }
}

// The number of the first of the last commands that are asked for, so many or all, below `end`.
fn first_of_last<S: Alter>(
    alloc: Global,
    conn: &mut Connection<S>,
    asked: &Recalling,
    last: u32,
    end: u32,
) -> Result<u32, StoreFault> {
    let mut first = end;
    let mut found = 0u32;
    for _ in 1..end {
        if found >= last {
            break;
        }
        first = first.saturating_sub(1);
        if is_asked(alloc, conn, asked, first)? {
            found = found.saturating_add(1);
        }
    }
    Ok(first)
}

// The number of the first command that is told, or of one before it, below `end`.
fn first_asked<S: Alter>(
    alloc: Global,
    conn: &mut Connection<S>,
    asked: &Recalling,
    end: u32,
) -> Result<u32, StoreFault> {
    match asked.last {
        None => Ok(1),
        Some(last) => first_of_last(alloc, conn, asked, last, end),
    }
}

// Writes what is told of the commands with the numbers from `first` on, below `end`, page by page,
// and answers whether that is anything.
fn write_pages<S: Alter, O: Write>(
    alloc: Global,
    conn: &mut Connection<S>,
    asked: &Recalling,
    first: u32,
    end: u32,
    output: &mut O,
) -> Result<bool, HistoryFault> {
    let mut told = false;
    let mut from = first;
    for _ in first..end {
        if from >= end {
            break;
        }
        let next = page_end(from, end);
        let page = page_of(alloc, conn, asked, from, next, told)?;
        write_text(output, page.text.as_str())?;
        told = page.told;
        from = next;
    }
    Ok(told)
}

// Writes what comes before the first command.
fn write_opening<O: Write>(output: &mut O, form: Form) -> Result<(), HistoryFault> {
    match form {
        Form::Text => write_text(output, ""),
        Form::Json => write_text(output, history_opening()),
    }
}

// Writes what comes after the last.
fn write_closing<O: Write>(output: &mut O, form: Form) -> Result<(), HistoryFault> {
    match form {
        Form::Text => write_text(output, ""),
        Form::Json => {
            write_text(output, history_closing())?;
            write_text(output, "\n")
        }
    }
}

/// Writes what is asked for of the commands of a store, which accepted so many, and answers whether
/// any is told. No more than a page is held at a time. `Unreadable` if the store has other
/// commands than so many, numbered from 1, or a row that no registry writes; `Store` and `Memory`
/// as of any call. The store is only read.
pub fn tell_history<S: Alter, O: Write>(
    alloc: Global,
    conn: &mut Connection<S>,
    accepted: u32,
    asked: &Recalling,
    output: &mut O,
) -> Result<bool, HistoryFault> {
    let Some(end) = accepted.checked_add(1) else {
        return Err(HistoryFault::Store(StoreFault::Unreadable));
    };
    let first = first_asked(alloc, conn, asked, end)?;
    write_opening(output, asked.form)?;
    let told = write_pages(alloc, conn, asked, first, end, output)?;
    write_closing(output, asked.form)?;
    Ok(told)
}
