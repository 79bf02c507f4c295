//! What the bench keeps of mirrors and components, and what can be said of the records.
//!
//! Begin with `records.rt`, the data, and `specs/Records.antt`, the rules of a state. Then
//! `state.rt`, which holds records by these rules; `component_metadata.rt`, what their metadata
//! say, `states.rt`, their named states, and `copy_source.rt`, which component a copy is taken
//! from. `intents.rt` has what a command has written and answers, and `readable_intents.rt` which
//! intents may be pending. `specs/World.antt` is the abstract bench, and `laws.rt` what holds of it
//! all.
#![tactic(auto)]

mod component_metadata;
mod copy_source;
mod intents;
mod laws;
mod readable_intents;
mod records;
mod rules;
mod sizes;
mod state;
mod states;

pub use component_metadata::{dirty_metadata_of, metadata, metadata_fits, metadata_of};
pub use copy_source::source;
pub use gm_commands::{
    BalanceWord, Command, NewComponent, NewMirror, Preference, Providers, Sectors, Settings, Slice,
    is_key, words_of,
};
pub use intents::{Intent, Reply};
pub use laws::{one_reply, one_row, sound_claims, sound_data};
pub use readable_intents::are_readable;
pub use records::{Component, Disk, Mirror};
pub use rules::{MAX_COMPONENTS, MAX_MIRRORS, MAX_SECTORS};
pub use sizes::{bytes_of, sectors_of};
pub use state::{State, one_state, put};
pub use states::{
    ComponentState, MirrorState, active_count, component_state, mirror_state, state_among, state_by,
};
