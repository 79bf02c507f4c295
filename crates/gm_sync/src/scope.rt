//! Which components are meant.

ghost use Rattle.std.specs.Prelude.{◌≡◌};
ghost use Rattle.gm_sync.specs.Scopes.{is_beside, is_in};

use gm_metadata::Label;
use gm_state::Component;

/// The components that are meant.
#[derive(Clone, Copy, Debug, PartialEq, Eq)]
pub enum Scope {
    /// Those of all mirrors.
    All,
    /// Those of a mirror.
    Mirror(Label),
    /// One component of a mirror.
    Member { mirror: Label, provider: Label },
}

impl Scope {
    /// Whether a component is meant.
    pub fn has(self, component: &Component) -> bool
        ensures { result ≡ is_in self component.now }
    {
        match self {
            Scope::All => true,
            Scope::Mirror(mirror) => component.mirror == mirror,
            Scope::Member { mirror, provider } => {
                component.mirror == mirror && component.provider == provider
            }
        }
    }

    /// Whether a component is of a mirror of which one is meant.
    pub(crate) fn is_beside(self, component: &Component) -> bool
        ensures { result ≡ is_beside self component.now }
    {
        match self {
            Scope::All => true,
            Scope::Mirror(mirror) | Scope::Member { mirror, .. } => component.mirror == mirror,
        }
    }
}
