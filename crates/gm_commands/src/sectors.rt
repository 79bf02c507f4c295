//! The sectors that a command lays over a mirror's data.

ghost use Rattle.std.specs.Prelude.{◌≡◌, ◌≤◌, ◌<◌, ◌&&◌, nat_lt, nat_le, length, Some, None, if◌then◌else◌};
ghost use Rattle.std.specs.Str.{bytes_eq};
ghost use Rattle.std.specs.Cmp.Lexicographic.{pointwise, lists_per, lists_equiv};
ghost use Rattle.std.specs.Cmp.Rules.{comparing};
ghost use Rattle.std.proofs.Common.{rules};

use std::marker::Model;

/// The most sectors that a patch has.
const MAX_PATCHED: usize = 64;

/// 1 to 64 sectors of 512 bytes, in their order. In contracts it is the list of them.
#[derive(Debug, Drop)]
pub struct Sectors {
    sectors: Vec<[u8; 512]>,
}

impl Model for Sectors {
    ghost use Rattle.std.specs.Prelude.{ℕ, List, ◌<◌, ◌≤◌, length};

    ghost Value = { List (List ℕ) };

    ghost view = { λ a. a.sectors.items };

    ghost invariant = { λ a. (0 < length a.sectors.items) × (length a.sectors.items ≤ 64) };
}

impl PartialEq for Sectors {
    ghost eq = { λ a b. pointwise bytes_eq a b };

    ghost laws = { lists_per (Prim.search (comparing, rules)) };

    fn eq(&self, other: &Sectors) -> bool {
        self.as_slice() == other.as_slice()
    }
}

impl Eq for Sectors {
    ghost laws = { lists_equiv (Prim.search (comparing, rules)) };
}

impl Sectors {
    /// These sectors; `None` if there are none, or more than 64.
    pub fn new(sectors: Vec<[u8; 512]>) -> Option<Sectors>
        ensures { result ≡ (if nat_lt 0 (length sectors.items) && nat_le (length sectors.items) 64
            then Some sectors.items else None) }
    {
        if sectors.is_empty() || sectors.len() > MAX_PATCHED {
            return None;
        }
        Some(Sectors { sectors })
    }

    /// The sectors.
    pub fn as_slice(&self) -> &[[u8; 512]]
        ensures value { result.now ≡ self.now }
        ensures some { 0 < length self.now }
        ensures few { length self.now ≤ 64 }
    {
        self.sectors.as_slice()
    }
}
