//! The providers that a command names in a row.

ghost use Rattle.std.specs.Prelude.{◌≡◌, ◌<◌, ◌==◌, length, Some, None, if◌then◌else◌};
ghost use Rattle.std.specs.Str.{bytes_eq};
ghost use Rattle.std.specs.Cmp.Lexicographic.{pointwise, lists_per, lists_equiv};
ghost use Rattle.std.specs.Cmp.Rules.{comparing};
ghost use Rattle.std.proofs.Common.{rules};

use gm_metadata::Label;
use std::marker::Model;

/// One provider or more, in the order of the words. In contracts it is the list of them.
#[derive(Debug, Drop)]
pub struct Providers {
    named: Vec<Label>,
}

impl Model for Providers {
    ghost use Rattle.std.specs.Prelude.{ℕ, List, ◌<◌, length};

    ghost Value = { List (List ℕ) };

    ghost view = { λ a. a.named.items };

    ghost invariant = { λ a. 0 < length a.named.items };
}

impl PartialEq for Providers {
    ghost eq = { λ a b. pointwise bytes_eq a b };

    ghost laws = { lists_per (Prim.search (comparing, rules)) };

    fn eq(&self, other: &Providers) -> bool {
        self.as_slice() == other.as_slice()
    }
}

impl Eq for Providers {
    ghost laws = { lists_equiv (Prim.search (comparing, rules)) };
}

impl Providers {
    /// These providers; `None` if there are none.
    pub fn new(named: Vec<Label>) -> Option<Providers>
        ensures { result ≡ (if length named.items == 0 then None else Some named.items) }
    {
        if named.is_empty() {
            return None;
        }
        Some(Providers { named })
    }

    /// The providers.
    pub fn as_slice(&self) -> &[Label]
        ensures value { result.now ≡ self.now }
        ensures some { 0 < length self.now }
    {
        self.named.as_slice()
    }
}
