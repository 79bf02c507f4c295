//! What a crash leaves of the sectors of a shelf in memory.

ghost use Rattle.std.specs.Prelude.{◌≡◌, ◌<◌, ◌≤◌, ◌+◌, ◌^◌, ◌∷◌, List, ℕ, Some, OnOk, IfOk, IsSomeAnd, length, reverse, min, vec_len, if◌then◌else◌};
ghost use Rattle.gm_shelf.specs.History.{sector_at, size_after, synced_after, written_after};
ghost use Rattle.gm_shelf.specs.declared.history.Event.{Event};
ghost use Rattle.gm_shelf.specs.Picks.{pick_at, picked_value, is_unsynced, unsynced_below, picked_after};

use crate::history::Event;
use gm_metadata::Label;
use std::alloc::AllocError;

// One sector on the way through what was done to the shelf.
struct Walk {
    // the value that the pick names so far
    picked: [u8; 512],
    newest: [u8; 512],
    // how often it was written since its provider was synced
    written: u64,
}

impl Walk {
    ghost use Rattle.gm_shelf.specs.Walks.{IsWalked};

    // One thing more was done.
    fn step(&mut self, event: &Event, provider: Label, place: u64, pick: u32)
        requires { self.old.written < 2 ^ 63 }
        ensures walked { (older : List Event) → IsWalked older provider place pick self.old →
            IsWalked (event.now ∷ older) provider place pick self.new }
        ensures slow { self.new.written ≤ self.old.written + 1 }
    {
        match event {
            Event::Added(added, sectors) if provider == *added => {
                if place < sectors.len() as u64 {
                    self.newest = sectors[place as usize];
                }
                self.picked = self.newest;
                self.written = 0;
            }
            Event::Wrote(to, at, sector) if provider == *to && place == *at => {
                self.newest = *sector;
                self.written += 1;
                if self.written <= u64::from(pick) {
                    self.picked = self.newest;
                }
            }
            Event::Synced(synced) if provider == *synced => {
                self.picked = self.newest;
                self.written = 0;
            }
            _ => {}
        }
    }
}

// What the sector holds with this pick, and whether it is unsynced.
fn picked_sector(log: &[Event], provider: Label, place: u64, pick: u32) -> ([u8; 512], bool)
    requires { length log.now < 2 ^ 63 }
    ensures value { let history = reverse log.now in
        IsSomeAnd (size_after history provider) (λ n. place < n) →
        result.0 ≡ picked_value (synced_after history provider place)
        (written_after history provider place) pick }
    ensures unsynced { result.1 ≡ is_unsynced (reverse log.now) provider place }
{
    let mut walk = Walk {
        picked: [0; 512],
        newest: [0; 512],
        written: 0,
    };
    for event in log {
        walk.step(event, provider, place, pick);
    }
    let Walk {
        picked,
        newest: _,
        written,
    } = walk;
    (picked, written > 0)
}

// A missing pick counts as 0.
fn choice_at(pick: &[u32], n: usize) -> u32
    ensures { result ≡ pick_at pick.now n }
{
    pick.get(n).copied().unwrap_or(0)
}

// How many picks are taken after one sector more: one for each unsynced sector, while there are
// some.
fn taken_after(taken: usize, is_unsynced: bool, picks: usize) -> usize
    ensures { (n : ℕ) → taken ≡ min n picks →
        result ≡ min (n + (if is_unsynced then 1 else 0)) picks }
{
    if is_unsynced && taken < picks {
        taken + 1
    } else {
        taken
    }
}

// The sectors of a provider, with the picks after those that were taken. One is taken for each
// unsynced sector.
pub(crate) fn picked_sectors(
    log: &Vec<Event>,
    provider: Label,
    count: u64,
    pick: &[u32],
    taken: &mut usize,
) -> Result<Vec<[u8; 512]>, AllocError>
    requires { size_after (reverse log.now.items) provider ≡ Some count }
    ensures len { IfOk result (λ v. vec_len v ≡ count) }
    ensures sectors { (before : ℕ) → taken.old ≡ min before (length pick.now) →
        IfOk result (λ v. (j : ℕ) → j < count →
        sector_at v.items j ≡ picked_after (reverse log.now.items) pick.now before provider j) }
    ensures taken { (before : ℕ) → taken.old ≡ min before (length pick.now) →
        OnOk result (taken.new ≡
        min (before + unsynced_below (reverse log.now.items) provider count) (length pick.now)) }
{
    let mut sectors = Vec::new(*log.allocator());
    for place in 0..count {
        let choice = choice_at(pick, *taken);
        let (sector, is_unsynced) = picked_sector(log, provider, place, choice);
        sectors.push(sector)?;
        *taken = taken_after(*taken, is_unsynced, pick.len());
    }
    Ok(sectors)
}
