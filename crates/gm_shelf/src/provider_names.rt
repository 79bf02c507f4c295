//! The names of a map's entries.

ghost use Rattle.std.specs.Prelude.{◌≡◌, ℕ, List, IfOk, is_some};
ghost use Rattle.std.specs.Ordering.{nat_cmp, eq_by_cmp};
ghost use Rattle.std.specs.Cmp.Lexicographic.{slice_cmp};
ghost use Rattle.std.specs.BTreeMap.{keys, get, IsOrdered};
ghost use Rattle.std.specs.Set.{is_member};

use gm_metadata::Label;
use std::alloc::{AllocError, Global};
use std::collections::BTreeMap;

// The names, in byte order.
pub(crate) fn names_in<T>(
    alloc: Global,
    entries: &BTreeMap<Label, T>,
) -> Result<Vec<Label>, AllocError>
    ensures names { IfOk result (λ v. v.items ≡ keys entries.now) }
    ensures ascending { IsOrdered (slice_cmp nat_cmp) entries.now }
    ensures found { (q : List ℕ) → is_some (get (slice_cmp nat_cmp) entries.now q)
        ≡ is_member (eq_by_cmp (slice_cmp nat_cmp)) (keys entries.now) q }
{
    entries.keys().copied().collect(alloc)
}
