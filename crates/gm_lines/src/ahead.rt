//! The command of a line that follows the one that is taken.

ghost use Rattle.std.specs.Prelude.{◌≡◌, ◌≤◌, IfSome, length};
ghost use Rattle.gm_lines.specs.Asked.{IsAhead, IsAheadIn};

use crate::lines::{MAX_LINE, length_before_feed};
use crate::request::{Request, request_in};
use gm_commands::Command;
use std::alloc::Global;

/// A command that was read ahead, under a key, and the line that asks it, without its line feed.
#[derive(Debug, Drop)]
pub struct Ahead {
    pub line: Vec<u8>,
    pub command: Command,
}

// The command of a line. None if it asks none, or if memory is refused.
fn ahead_of(alloc: Global, line: &[u8]) -> Option<Ahead>
    requires { length line.now ≤ 131072 }
    ensures { IfSome result (λ it. IsAhead it × (it.line.items ≡ line.now)) }
{
    let Ok(Request::Call(_, command)) = request_in(alloc, line) else {
        return None;
    };
    match line.to_vec(alloc) {
        Ok(line) => Some(Ahead { line, command }),
        Err(_) => None,
    }
}

/// The command of the line with which the bytes begin. None if no whole line of at most 131,072
/// bytes is there, if it asks no command under a key, or if memory is refused.
pub(crate) fn read_ahead(alloc: Global, bytes: &[u8]) -> Option<Ahead>
    ensures { IfSome result (IsAheadIn bytes.now) }
{
    let length = length_before_feed(bytes);
    if length == bytes.len() || length > MAX_LINE {
        return None;
    }
    ahead_of(alloc, &bytes[..length])
}
