//! What a sync comes to.

use crate::passed_over::PassedOver;
use gm_metadata::Label;
use gm_refusals::CallRefusal;
use gm_state::State;

/// What a sync came to.
#[derive(Drop)]
pub struct Synced {
    /// The mirrors that it passed over, to which nothing was written.
    pub passed_over: PassedOver,
    /// How it ended, of what is meant of the others.
    pub ending: Ending,
}

/// How a sync ends, of the components that are meant, but for those of mirrors that it passes over.
#[derive(Drop)]
pub enum Ending {
    /// None is left to be filled: all mirrors, as they are then.
    Whole(State),
    /// An advance is refused, of this component. None is named after 2^64 - 1 commands. What was
    /// filled before stays so.
    Refused {
        provider: Option<Label>,
        why: CallRefusal,
    },
}
