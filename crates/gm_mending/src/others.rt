//! What beside the image that is to be mended isn't as it is registered, and what can't be mended.

ghost use Rattle.std.specs.Prelude.{◌≡◌, IfOk, filter, not};
ghost use Rattle.gm_metadata.specs.Images.{same_label};
ghost use Rattle.gm_mending.specs.Others.{has_another_size};

use gm_looks::{Standing, Unlike};
use gm_metadata::Label;
use std::alloc::{AllocError, Global};

/// Those that aren't this image.
pub(crate) fn others_than(
    alloc: Global,
    unlike: &[Unlike],
    image: Label,
) -> Result<Vec<Unlike>, AllocError>
    ensures { IfOk result (λ others. others.items
        ≡ filter (λ e. not (same_label e.provider image)) unlike.now) }
{
    unlike
        .iter()
        .copied()
        .filter(|it| it.provider != image)
        .collect(alloc)
}

/// Whether an image that stands so isn't there, or has another size than is registered.
pub(crate) fn has_another_size(standing: Standing) -> bool
    ensures { result ≡ has_another_size standing }
{
    matches!(standing, Standing::Absent | Standing::AnotherSize)
}
