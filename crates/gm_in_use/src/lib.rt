//! Whether something else uses an image: a loop device, or another program.
//!
//! `about.rt` says which images a command is about. `in_use.rt` looks at images, and `sentence.rt`
//! says what it found (`specs/Sentences.antt`). `loop_devices.rt` looks at what backs loop devices,
//! `writers.rt` at what processes have open for writing, and `locks.rt` tries a lock. `uses.rt`
//! keeps what was found (`specs/Uses.antt`), and `system_texts.rt` reads what the system says of
//! open files, of programs and of loop devices (`specs/SystemTexts.antt`). What the system doesn't
//! answer is passed over (`answered.rt`).
#![tactic(auto)]

mod about;
mod answered;
mod in_use;
mod locks;
mod loop_devices;
mod sentence;
mod system_texts;
mod uses;
mod writers;

pub use about::images_of;
pub use in_use::{InUse, first_in_use};
pub use sentence::in_use_sentence;
pub use uses::Use;
