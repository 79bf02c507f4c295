//! How the calls of a shelf that fails go, one after the other.

ghost use Rattle.std.specs.Prelude.{◌≡◌, ◌≢◌, ◌<◌, ◌+◌, ℕ, IsOk, IsErrOf};
ghost use Rattle.gm_shelf.specs.Faults.{fault_after, count_after};

use crate::fault::{ShelfFault, device_failed};

/// How one call goes.
#[derive(Clone, Copy)]
pub(crate) enum Turn {
    /// It passes: what the wrapped shelf answers is the answer.
    Passes,
    /// It fails before it acts.
    FailsBeforeActing,
    /// It acts, and then fails.
    ActsAndFails,
}

/// How the calls to come go.
#[derive(Clone, Copy)]
pub(crate) struct Plan {
    // so many still pass
    passing: u64,
    // how the one after these goes
    next: Turn,
    // how each one after that goes
    later: Turn,
}

impl Plan {
    ghost use Rattle.gm_shelf.specs.Turns.{turn_at, AreTurns};

    /// Calls before the nth pass, counted from 1; the nth goes as `turn` says, and each later one
    /// as `later` does. An nth of 0 is as one of 1.
    pub(crate) fn at(nth: u64, turn: Turn, later: Turn) -> Plan
        ensures { AreTurns nth turn later (turn_at result) }
    {
        Plan {
            passing: nth.saturating_sub(1),
            next: turn,
            later,
        }
    }

    /// The turn of a call that comes now.
    pub(crate) fn take_turn(&mut self) -> Turn
        ensures first { result ≡ turn_at self.old 1 }
        ensures others { (n : ℕ) → 0 < n → turn_at self.new n ≡ turn_at self.old (n + 1) }
    {
        if self.passing > 0 {
            self.passing -= 1;
            return Turn::Passes;
        }
        let turn = self.next;
        self.next = self.later;
        turn
    }
}

impl Turn {
    /// Answers a call that nothing else fails. If it fails by its turn, that is counted.
    pub(crate) fn answer(self, failures: &mut u64) -> Result<(), ShelfFault>
        ensures passes { self ≡ Turn.Passes → IsOk result }
        ensures uncounted { self ≡ Turn.Passes → failures.new ≡ failures.old }
        ensures fails { self ≢ Turn.Passes → IsErrOf result (fault_after failures.old) }
        ensures counted { self ≢ Turn.Passes → failures.new ≡ count_after failures.old }
    {
        match self {
            Turn::Passes => Ok(()),
            Turn::FailsBeforeActing | Turn::ActsAndFails => Err(device_failed(failures)),
        }
    }
}
