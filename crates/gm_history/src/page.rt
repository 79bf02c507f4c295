//! A page of accepted commands: so many in turn, at most 64. They are read one by one, and told as
//! one text before it is written.

use crate::accepted::accepted_at;
use crate::named::{is_about, words_in};
use crate::told::push_told;
use gm_command_line::Recalling;
use gm_rows::StoreFault;
use sqlite::{Alter, Connection};
use std::alloc::Global;

/// The most commands of a page.
const PAGE: u32 = 64;

/// What is told of the commands of a page.
#[derive(Drop)]
pub(crate) struct Page {
    pub(crate) text: String,
    /// Whether anything was told by now, of this page or one before it.
    pub(crate) told: bool,
}

/// The number after the last command of the page that begins with this one, if there are no
/// commands from `end` on.
pub(crate) fn page_end(first: u32, end: u32) -> u32 {
    match first.checked_add(PAGE) {
        Some(next) => next.min(end),
        None => end,
    }
}

/// Whether the command with this number is asked for.
pub(crate) fn is_asked<S: Alter>(
    alloc: Global,
    conn: &mut Connection<S>,
    asked: &Recalling,
    number: u32,
) -> Result<bool, StoreFault> {
    let command = accepted_at(conn, number)?;
    let words = words_in(alloc, command.words.as_str())?;
    Ok(is_about(asked.mirror, &words))
}

// Tells the command with this number, if it is asked for, after what the page has.
fn push_numbered<S: Alter>(
    alloc: Global,
    conn: &mut Connection<S>,
    asked: &Recalling,
    number: u32,
    page: &mut Page,
) -> Result<(), StoreFault> {
    let command = accepted_at(conn, number)?;
    let words = words_in(alloc, command.words.as_str())?;
    if is_about(asked.mirror, &words) {
        push_told(
            alloc,
            &mut page.text,
            &command,
            &words,
            asked.form,
            page.told,
        )?;
        page.told = true;
    }
    Ok(())
}

/// A page: what is told of the commands with the numbers from `first` on, below `end`, in turn and
/// without a gap. `told` says whether anything was told before.
pub(crate) fn page_of<S: Alter>(
    alloc: Global,
    conn: &mut Connection<S>,
    asked: &Recalling,
    first: u32,
    end: u32,
    told: bool,
) -> Result<Page, StoreFault> {
    let mut page = Page {
        text: String::new(alloc),
        told,
    };
    for number in first..end {
        push_numbered(alloc, conn, asked, number, &mut page)?;
    }
    Ok(page)
}
