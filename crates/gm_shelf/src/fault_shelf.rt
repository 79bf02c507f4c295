//! A shelf whose calls fail, to see what a stop leaves.

ghost use Rattle.std.specs.Prelude.{◌≡◌, ◌<◌, IsSome, IsSomeAnd, if◌then◌else◌};
ghost use Rattle.gm_shelf.specs.Stopping.{with_failures, lawful_with};

use crate::fault::{ShelfFault, check_place, check_provider};
use crate::shelf::Shelf;
use crate::turns::{Plan, Turn};
use gm_metadata::Label;
use std::alloc::AllocError;

/// Wraps a shelf, and fails its reads, writes and syncs from the nth on, or the nth alone.
///
/// A call for a place that isn't there takes its turn too, and answers `Absent` or `Range` whatever
/// that is. A run takes a turn for each of its sectors, and ends at the one that fails; one that is
/// empty or goes past the end takes none.
#[derive(Drop)]
pub struct FaultShelf<H> {
    inner: H,
    plan: Plan,
    failures: u64,
}

impl<H: Shelf> FaultShelf<H> {
    ghost use Rattle.gm_shelf.specs.Faults.{last_count};
    ghost use Rattle.gm_shelf.specs.FaultShelves.{inner_of, turn_of, failures_of};
    ghost use Rattle.gm_shelf.specs.Turns.{AreTurns};

    /// Every read, write and sync from the nth on, counted from 1, fails before it acts.
    /// An nth of 0 is as one of 1.
    pub fn stop_from(inner: H, nth: u64) -> FaultShelf<H>
        ensures inner { inner_of result ≡ inner }
        ensures turns { AreTurns nth
            Turn.FailsBeforeActing Turn.FailsBeforeActing (turn_of result) }
        ensures failures { failures_of result ≡ 0 }
    {
        FaultShelf {
            inner,
            plan: Plan::at(nth, Turn::FailsBeforeActing, Turn::FailsBeforeActing),
            failures: 0,
        }
    }

    /// Every read, write and sync from the nth on, counted from 1, fails before it acts for want of
    /// memory: the count of failures stands at its last value, so that none is told as the
    /// device's. An nth of 0 is as one of 1.
    pub fn starve_from(inner: H, nth: u64) -> FaultShelf<H>
        ensures inner { inner_of result ≡ inner }
        ensures turns { AreTurns nth
            Turn.FailsBeforeActing Turn.FailsBeforeActing (turn_of result) }
        ensures failures { failures_of result ≡ last_count }
    {
        FaultShelf {
            failures: u64::MAX,
            ..FaultShelf::stop_from(inner, nth)
        }
    }

    /// The nth read, write or sync, counted from 1, acts, and then fails; every later one fails
    /// before it acts. An nth of 0 is as one of 1. If the wrapped shelf itself fails the nth,
    /// that is its answer, and isn't counted again.
    pub fn stop_after(inner: H, nth: u64) -> FaultShelf<H>
        ensures inner { inner_of result ≡ inner }
        ensures turns { AreTurns nth Turn.ActsAndFails Turn.FailsBeforeActing (turn_of result) }
        ensures failures { failures_of result ≡ 0 }
    {
        FaultShelf {
            inner,
            plan: Plan::at(nth, Turn::ActsAndFails, Turn::FailsBeforeActing),
            failures: 0,
        }
    }

    /// The nth read, write or sync alone fails, counted from 1: after it acted or before, as
    /// `acted` says. All others pass. An nth of 0 is as one of 1. If the wrapped shelf itself
    /// fails an nth that acts, that is its answer, and isn't counted again.
    pub fn fail_once(inner: H, nth: u64, acted: bool) -> FaultShelf<H>
        ensures inner { inner_of result ≡ inner }
        ensures turns { let turn = (if acted then Turn.ActsAndFails else Turn.FailsBeforeActing) in
            AreTurns nth turn Turn.Passes (turn_of result) }
        ensures failures { failures_of result ≡ 0 }
    {
        let turn = if acted {
            Turn::ActsAndFails
        } else {
            Turn::FailsBeforeActing
        };
        FaultShelf {
            inner,
            plan: Plan::at(nth, turn, Turn::Passes),
            failures: 0,
        }
    }

    /// The shelf that was wrapped.
    pub fn into_inner(self) -> H
        ensures { result ≡ inner_of self }
    {
        let FaultShelf {
            inner,
            plan: _,
            failures: _,
        } = self;
        inner
    }
}

impl<H: Shelf> Shelf for FaultShelf<H> {
    ghost use Rattle.gm_shelf.specs.FaultShelves.{TakesTurn};

    ghost honest = { λ s. H.honest s.inner };

    ghost view = { λ s. with_failures (H.view s.inner) s.failures };

    ghost size = { λ s. H.size s.inner };

    ghost read_gives = { λ s p i answer out t.
        TakesTurn (λ given. H.read_gives s.inner p i given out t.inner)
        (IsSomeAnd (H.size s.inner p) (λ n. i < n)) answer s t };

    ghost write_gives = { λ s p i sector answer t.
        TakesTurn (λ given. H.write_gives s.inner p i sector given t.inner)
        (IsSomeAnd (H.size s.inner p) (λ n. i < n)) answer s t };

    ghost sync_gives = { λ s p answer t.
        TakesTurn (λ given. H.sync_gives s.inner p given t.inner)
        (IsSome (H.size s.inner p)) answer s t };

    ghost lawful = { λ s h. lawful_with _ _ (H.lawful s.inner h) };

    fn names(&self) -> Result<Vec<Label>, AllocError> {
        self.inner.names()
    }

    fn sectors(&self, provider: Label) -> Option<u64> {
        self.inner.sectors(provider)
    }

    fn read(&mut self, provider: Label, place: u64, out: &mut [u8; 512]) -> Result<(), ShelfFault> {
        let turn = self.plan.take_turn();
        match turn {
            Turn::FailsBeforeActing => check_place(self.inner.sectors(provider), place)?,
            Turn::Passes | Turn::ActsAndFails => self.inner.read(provider, place, out)?,
        }
        turn.answer(&mut self.failures)
    }

    fn write(&mut self, provider: Label, place: u64, sector: &[u8; 512]) -> Result<(), ShelfFault> {
        let turn = self.plan.take_turn();
        match turn {
            Turn::FailsBeforeActing => check_place(self.inner.sectors(provider), place)?,
            Turn::Passes | Turn::ActsAndFails => self.inner.write(provider, place, sector)?,
        }
        turn.answer(&mut self.failures)
    }

    fn sync(&mut self, provider: Label) -> Result<(), ShelfFault> {
        let turn = self.plan.take_turn();
        match turn {
            Turn::FailsBeforeActing => check_provider(self.inner.sectors(provider))?,
            Turn::Passes | Turn::ActsAndFails => self.inner.sync(provider)?,
        }
        turn.answer(&mut self.failures)
    }
}
