//! One image among those that aren't as they are registered.

ghost use Rattle.std.specs.Prelude.{◌≡◌, find};
ghost use Rattle.gm_metadata.specs.Images.{same_label};
ghost use Rattle.gm_unlike.specs.Among.{standing_among};

use gm_looks::{Standing, Unlike};
use gm_metadata::Label;

// An image, if it is among these.
fn found_among(unlike: &[Unlike], image: Label) -> Option<Unlike>
    ensures { result ≡ find (λ e. same_label e.provider image) unlike.now }
{
    unlike.iter().copied().find(|it| it.provider == image)
}

/// How an image stands, if it is among these that aren't as they are registered.
pub fn standing_among(unlike: &[Unlike], image: Label) -> Option<Standing>
    ensures { result ≡ standing_among unlike.now image }
{
    match found_among(unlike, image) {
        Some(found) => Some(found.standing),
        None => None,
    }
}
