//! Commands by themselves: `gmbench label gm0 a.img`, without a key and numbers.
//!
//! `by_itself.rt` hands one in as `do` does. `keys.rt` finds a key for it that no command has,
//! `own_numbers.rt` draws the numbers that it wasn't given, and `free_numbers.rt` says which are
//! free. `adopting.rt` adopts all mirrors of a folder.
#![tactic(auto)]

mod adopting;
mod by_itself;
mod free_numbers;
mod keys;
mod own_numbers;

pub use adopting::adopt_all;
pub use by_itself::hand_in_by_itself;
pub use keys::{first_key, following_key};
pub use own_numbers::{free_did, number_after};
