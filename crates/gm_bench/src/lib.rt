//! A bench: a registry, and the images on a shelf that it keeps record of. A command that is handed
//! in under a key is decided by the rules, accepted by one commit, carried out on the images and
//! settled; whatever stops that, the next opening carries out what was accepted.
//!
//! Read `specs/Leading.antt` first, what tables and an image lead to, then `specs/Recovering.antt`
//! and `specs/Accepting.antt`, what a call may leave, `specs/Owed.antt`, what each call owes,
//! `specs/Calls.antt` and `specs/Opened.antt`, what all calls of a kind leave and tell beside that
//! (`specs/Benches.antt` names what is in a bench), and `specs/Schedule.antt`, what a whole run is;
//! then `bench` and `calls`, whose calls are those of `media` in turn. `hand_in` hands in one
//! command after another, each of which settles the one before it (`specs/Standing.antt`), or
//! several advances in one commit: a series. `specs/HandedIn.antt` says what a call owes that hands
//! in a command. Such a call judges the command first, and only reads for that (`judgement`,
//! `found_key`, `plan`: `specs/Judgements.antt`, `specs/FoundKeys.antt`, `specs/Asking.antt`). It
//! plans the further stretches of a series (`further`: `specs/Keys.antt`, `specs/Series.antt`),
//! commits what can be accepted (`accept`: `specs/Stepping.antt`), and carries that out
//! (`specs/CarryingOut.antt`).
//! `laws` says what holds of every run. `views` has the calls that only look; what they tell of a
//! state and a shelf is gm_looks's.
//!
//! `open_without` opens a bench of which an image is gone for good: `specs/Losing.antt` says what
//! is pending after that, `specs/Without.antt` why it is refused, and `specs/GivingUp.antt` what
//! it leaves and answers. `without` judges it, with `loss`, and `lose` writes it;
//! `specs/Judging.antt` says what these do.
#![tactic(auto)]

mod accept;
mod adopt_scope;
mod answer;
mod bench;
mod calls;
mod facts;
mod fault;
mod found_key;
mod further;
mod hand_in;
mod judgement;
mod laws;
mod lose;
mod loss;
mod media;
mod open_without;
mod phase;
mod plan;
mod presence;
mod sectors;
mod sizes;
mod take_up;
mod take_up_without;
mod views;
mod without;

pub use answer::{Answer, Kept, SeriesAnswer};
pub use bench::{Bench, OpenFault};
pub use fault::BenchFault;
pub use gm_apply::{Unwatched, Watch};
pub use hand_in::MAX_SERIES;
pub use laws::{losses_lead_on, whole_run_law};
pub use loss::LossRefusal;
pub use open_without::Without;
pub use phase::Phase;
