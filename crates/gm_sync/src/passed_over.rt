//! The mirrors that a sync passes over.

ghost use Rattle.std.specs.Prelude.{◌≡◌};
ghost use Rattle.gm_sync.specs.Scopes.{PassesNone, is_passed_over};

use gm_metadata::Label;
use std::alloc::Global;

/// The mirrors that are passed over, and the images because of which.
#[derive(Debug, Drop)]
pub struct PassedOver {
    /// The mirrors that are meant, and of which an image isn't as it is registered, in byte order.
    pub mirrors: Vec<Label>,
    /// The components of them whose images those are, by their providers in byte order.
    pub images: Vec<Label>,
}

impl PassedOver {
    /// None is.
    pub(crate) fn none(alloc: Global) -> PassedOver
        ensures { PassesNone result }
    {
        PassedOver {
            mirrors: Vec::new(alloc),
            images: Vec::new(alloc),
        }
    }

    /// Whether the mirror of this name is.
    pub fn has(&self, mirror: Label) -> bool
        ensures { result ≡ is_passed_over self.now mirror }
    {
        self.mirrors.iter().any(|name| *name == mirror)
    }
}
