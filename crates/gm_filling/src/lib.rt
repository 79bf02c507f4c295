//! The command `sync`, which fills the components that are SYNCHRONIZING.
//!
//! `filling.rt` does it, by `gm_sync`, and `needs.rt` says before what that needs: as many
//! commands as the registry still takes, and a rebuild of what is STALE. `uses.rt` looks whether
//! something else uses the images. `standing.rt` says how the components stand then.
#![tactic(auto)]

mod filling;
mod needs;
mod standing;
mod uses;

pub use filling::fill_components;
