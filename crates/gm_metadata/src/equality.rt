//! Equality of two sectors, by lanes of 64 bytes.

ghost use Rattle.std.specs.Prelude.{◌≡◌, ◌↔◌, ◌+◌, ◌≤◌, length, IsTrue, take, drop};

use std::simd::prelude::*;

// Whether the 64 bytes of the two from this place on are equal.
fn same_at(a: &[u8], b: &[u8], at: usize) -> bool
    requires a_long { at + 64 ≤ length a.now }
    requires b_long { at + 64 ≤ length b.now }
    ensures { IsTrue result ↔ (take 64 (drop at a.now) ≡ take 64 (drop at b.now)) }
{
    let x = u8x64::from_slice(&a[at..]);
    let y = u8x64::from_slice(&b[at..]);
    x == y
}

/// Whether two sectors are equal, byte for byte.
pub fn same(a: &[u8; 512], b: &[u8; 512]) -> bool
    ensures { IsTrue result ↔ (a.now ≡ b.now) }
{
    let mut at = 0usize;
    while at < 512 {
        if !same_at(a, b, at) {
            return false;
        }
        at += 64;
    }
    true
}
