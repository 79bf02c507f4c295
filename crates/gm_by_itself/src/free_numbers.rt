//! Numbers that are free: the one that is drawn, or the first that is free after it.

ghost use Rattle.std.specs.Prelude.{◌≡◌, ◌<◌, IfNone, IfOk, IfSome};
ghost use Rattle.gm_by_itself.specs.Numbers.{AllTaken, IsFreeNumber, is_among};

use std::io;
use std::random::RandomSource;

fn is_among(used: &[u32], number: u32) -> bool
    ensures { result ≡ is_among used.now number }
{
    used.iter().any(|n| *n == number)
}

/// The first number from this one on that isn't among these.
pub(crate) fn free_from(used: &[u32], from: u32) -> Option<u32>
    requires { 0 < from }
    ensures free { IfSome result (IsFreeNumber used.now) }
    ensures none { IfNone result (AllTaken used.now from) }
{
    for number in from..=u32::MAX {
        if !is_among(used, number) {
            return Some(number);
        }
    }
    None
}

// The number that is given for one that was drawn: the first from it on that isn't among these, or
// else the first from 1 on.
fn free_after(used: &[u32], drawn: u32) -> Option<u32>
    ensures free { IfSome result (IsFreeNumber used.now) }
    ensures none { IfNone result (AllTaken used.now 1) }
{
    match free_from(used, drawn.max(1)) {
        Some(number) => Some(number),
        None => free_from(used, 1),
    }
}

/// A number that isn't among these, by one that the source gives: that one, if it is from 1 on and
/// free, or else the next that is. `None` if all are taken. It fails if the source does.
pub(crate) fn drawn_beside<R: RandomSource>(source: &R, used: &[u32]) -> io::Result<Option<u32>>
    ensures free { IfOk result (λ found. IfSome found (IsFreeNumber used.now)) }
    ensures none { IfOk result (λ found. IfNone found (AllTaken used.now 1)) }
{
    let mut bytes = [0; 4];
    source.fill_bytes(&mut bytes)?;
    Ok(free_after(used, u32::from_ne_bytes(bytes)))
}
