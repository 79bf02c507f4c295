//! How the commands of a registry are counted, without reading each: how many there are, and the
//! least and the greatest of their numbers.

ghost use Rattle.std.specs.Prelude.{◌≡◌, ◌↔◌, ℕ, IsTrue, IfSome, IfNone};
ghost use Rattle.sqlite.specs.Order.{column};
ghost use Rattle.gm_rows.specs.Queries.{number_text};
ghost use Rattle.gm_rows.specs.Says.{IsBetween, IsNumber, IsWithin, AreCounted};

use crate::read_column::u64_at;
use gm_commands::MAX_COMMANDS;
use sqlite::Row;

/// What is asked of the commands.
#[derive(Clone, Copy, Debug, PartialEq, Eq)]
pub enum CommandNumber {
    Count,
    Least,
    Greatest,
}

impl CommandNumber {
    /// The query that shows it as one row. Of the least and the greatest it shows none if there
    /// is no command, and the index of `seq` serves them.
    pub fn query(self) -> &'static str
        ensures { result.now ≡ number_text self }
    {
        match self {
            CommandNumber::Count => "SELECT count(*) FROM commands",
            CommandNumber::Least => "SELECT seq FROM commands ORDER BY seq LIMIT 1",
            CommandNumber::Greatest => "SELECT seq FROM commands ORDER BY seq DESC LIMIT 1",
        }
    }
}

/// The rows that these queries show.
#[derive(Debug, Drop)]
pub struct CommandNumbers {
    pub count: Vec<Row>,
    pub least: Vec<Row>,
    pub greatest: Vec<Row>,
}

/// The number that the rows begin with.
fn first_number(rows: &[Row]) -> Option<u64>
    ensures some { IfSome result (λ n. IsNumber n rows.now) }
    ensures none { IfNone result ((n : ℕ) → IsNumber n rows.now → ⊥) }
{
    match rows.first() {
        Some(row) => u64_at(row, 0),
        None => None,
    }
}

fn is_between(row: &Row, at: usize, low: u64, high: u64) -> bool
    ensures { IsTrue result ↔ IsBetween low high (column row.now at) }
{
    match u64_at(row, at) {
        Some(number) => low <= number && number <= high,
        None => false,
    }
}

/// Whether the rows begin with a number from 1 to this one, or are none.
fn is_within(rows: &[Row], high: u64) -> bool
    ensures { IsTrue result ↔ IsWithin high rows.now }
{
    match rows.first() {
        Some(row) => is_between(row, 0, 1, high),
        None => true,
    }
}

/// Whether there aren't too many commands, and none is numbered below 1 or above how many there
/// are.
pub(crate) fn are_counted(numbers: &CommandNumbers) -> bool
    ensures { IsTrue result ↔ AreCounted numbers.now }
{
    match first_number(&numbers.count) {
        Some(count) => {
            count <= u64::from(MAX_COMMANDS)
                && is_within(&numbers.least, count)
                && is_within(&numbers.greatest, count)
        }
        None => false,
    }
}
