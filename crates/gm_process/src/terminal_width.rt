//! How many columns a terminal has, as far as the program can know it.

use std::env;

// The variable of the environment that says it, if a shell exports it.
const VARIABLE: &str = "COLUMNS";

// The numbers that are believed.
const LEAST: usize = 20;

const MOST: usize = 500;

// How many columns are used if the variable doesn't say it: one less than the narrowest terminals
// have that are common. The terminal itself can't be asked, because that is the system's call
// ioctl with TIOCGWINSZ, which Rattle's libraries don't have.
const UNKNOWN: usize = 39;

// The columns that a text says, if they are believed.
fn columns_of(text: &str) -> Option<usize> {
    let columns = text.parse().ok()?;
    if columns < LEAST || MOST < columns {
        return None;
    }
    Some(columns)
}

/// How many columns a line may have: 20 at least.
pub(crate) fn terminal_columns(rt: &HostRuntime) -> usize {
    match env::var(rt, VARIABLE) {
        Ok(text) => columns_of(text.as_str()).unwrap_or(UNKNOWN),
        Err(_) => UNKNOWN,
    }
}
