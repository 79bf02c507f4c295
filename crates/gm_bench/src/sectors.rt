//! Sectors that are handed on.

ghost use Rattle.std.specs.Prelude.{◌≡◌, IfOk};

use std::alloc::{AllocError, Global};

/// The same sectors in a list of their own. (What `to_vec` says of arrays is by their clones.)
pub(crate) fn copied(alloc: Global, sectors: &[[u8; 512]]) -> Result<Vec<[u8; 512]>, AllocError>
    ensures { IfOk result (λ v. v.items ≡ sectors.now) }
{
    sectors.iter().copied().collect(alloc)
}
