//! That the look before an opening never objects to what a stop left, of any run.
//!
//! `laws.rt` has the theorem, and `specs/NeverStrange.antt` says it. It follows from the law over
//! runs of `gm_bench`, which says how pending intents and last sectors came about (`ComesOf`), and
//! from the rule of `gm_stopped`. Read `proofs/NoneStrange.antt` first: an image by an image, by
//! how a pending intent needs it. `LeftImage.antt` goes through what it was before the command,
//! `Advances.antt` says what several advances in turn come to, `Later.antt` and `Chain.antt` what
//! the losses after that kept, and `WalkBack.antt` that the look finds the command.
#![tactic(auto)]

mod laws;

pub use laws::nothing_left_is_strange;
