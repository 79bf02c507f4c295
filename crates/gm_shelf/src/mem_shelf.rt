//! A shelf in memory, of which every image that a crash may leave can be made.

ghost use Rattle.std.specs.Prelude.{◌≡◌, ◌<◌, ◌^◌, ◌∷◌, ℕ, List, [], None, IfOk, OnOk, OnErr, All, length, reverse};
ghost use Rattle.gm_metadata.specs.declared.label.Label.{Label};
ghost use Rattle.gm_metadata.specs.Images.{Image, Same};
ghost use Rattle.gm_shelf.specs.Disk.{View};
ghost use Rattle.gm_shelf.specs.History.{size_after, seen_after, written_after, may_leave_after, view_after};
ghost use Rattle.gm_shelf.specs.Picks.{IsPicked};
ghost use Rattle.gm_shelf.specs.Cache.{IsCache};
ghost use Rattle.gm_shelf.specs.Lawful.{lawful_after};

use crate::contents::{Disks, copied, put_in, sector_in, sectors_in};
use crate::crash_image::picked_sectors;
use crate::fault::{ShelfFault, check_place, check_provider};
use crate::history::Event;
use crate::provider_names::names_in;
use crate::shelf::Shelf;
use gm_metadata::Label;
use std::alloc::{AllocError, Global};
use std::collections::BTreeMap;

/// Providers in memory. It keeps what was done to it, so want of memory may refuse a write or a
/// sync, before anything changed.
#[derive(Drop)]
pub struct MemShelf {
    log: Vec<Event>,
    disks: Disks,
    ghost cached: { IsCache (reverse log.items) disks },
}

impl MemShelf {
    ghost use Rattle.gm_shelf.specs.Memory.{history};
    ghost use Rattle.gm_shelf.specs.declared.history.Event.TheVariants.{Added};

    /// A shelf without providers.
    pub fn new(alloc: Global) -> MemShelf
        ensures { history result ≡ [] }
    {
        MemShelf {
            log: Vec::new(alloc),
            disks: BTreeMap::new(alloc),
        }
    }

    /// Adds a provider with these sectors, which count as synced. The label must be new: `sectors`
    /// answers `None` to it.
    pub fn add(&mut self, label: Label, sectors: Vec<[u8; 512]>) -> Result<(), AllocError>
        requires { size_after (history self.old) label ≡ None }
        ensures ok { OnOk result (history self.new ≡ Added label sectors ∷ history self.old) }
        ensures err { OnErr result (history self.new ≡ history self.old) }
    {
        let held = copied(*self.log.allocator(), &sectors)?;
        self.log.reserve(1)?;
        self.disks.insert(label, held)?;
        self.log.push(Event::Added(label, sectors)).unwrap();
        Ok(())
    }

    /// What a crash now leaves, by these picks. The i-th unsynced sector, by provider in byte order
    /// and by place, takes its synced value if `pick[i]` is 0, else the `pick[i]`-th that was
    /// written to it since, or the last if there are fewer. A missing pick counts as 0.
    pub fn crash_image(&self, pick: &[u32]) -> Result<MemShelf, AllocError>
        ensures sizes { IfOk result (λ m.
            (q : Label) → size_after (history m) q ≡ size_after (history self.now) q) }
        ensures picked { IfOk result (λ m.
            IsPicked (history self.now) pick.now (seen_after (history m))) }
        // Nothing of it is unsynced, and it is an image that a crash may leave.
        ensures settled { IfOk result (λ m.
            (x : Image) → may_leave_after (history m) x → Same x (seen_after (history m))) }
        ensures left { IfOk result (λ m.
            may_leave_after (history self.now) (seen_after (history m))) }
    {
        let names = self.names()?;
        let mut image = MemShelf::new(*self.log.allocator());
        let mut taken = 0;
        for name in &names {
            let count = sectors_in(&self.disks, *name).unwrap_or(0);
            let sectors = picked_sectors(&self.log, *name, count, pick, &mut taken)?;
            image.add(*name, sectors)?;
        }
        Ok(image)
    }

    /// A law: some picks name each image that a crash may leave, if no sector was written 2^32
    /// times since its sync.
    pub fn every_image_has_picks(&self)
        ensures { (x : Image) → may_leave_after (history self.now) x →
            ((p : Label) (j : ℕ) → length (written_after (history self.now) p j) < 2 ^ 32) →
            (pick : List ℕ) × All (λ m. m < 2 ^ 32) pick × IsPicked (history self.now) pick x }
    {
        let _ = self.disks.keys();
    }
}

impl Shelf for MemShelf {
    ghost use Rattle.gm_shelf.specs.History.{OnlyReads, OnlyDoes};
    ghost use Rattle.gm_shelf.specs.declared.history.Event.TheVariants.{Wrote, Synced};

    ghost honest = { λ m. Unit };

    ghost view = { λ m. view_after (reverse m.log.items) };

    ghost size = { λ m. size_after (reverse m.log.items) };

    ghost read_gives = { λ m p i answer out n.
        OnlyReads answer (reverse m.log.items) (reverse n.log.items) };

    ghost write_gives = { λ m p i sector answer n.
        OnlyDoes (Wrote p i sector) answer (reverse m.log.items) (reverse n.log.items) };

    ghost sync_gives = { λ m p answer n.
        OnlyDoes (Synced p) answer (reverse m.log.items) (reverse n.log.items) };

    ghost lawful = { λ m h. lawful_after (reverse m.log.items) };

    fn names(&self) -> Result<Vec<Label>, AllocError> {
        names_in(*self.log.allocator(), &self.disks)
    }

    fn sectors(&self, provider: Label) -> Option<u64> {
        sectors_in(&self.disks, provider)
    }

    fn read(&mut self, provider: Label, place: u64, out: &mut [u8; 512]) -> Result<(), ShelfFault> {
        *out = sector_in(&self.disks, provider, place)?;
        Ok(())
    }

    fn write(&mut self, provider: Label, place: u64, sector: &[u8; 512]) -> Result<(), ShelfFault> {
        check_place(sectors_in(&self.disks, provider), place)?;
        self.log.push(Event::Wrote(provider, place, *sector))?;
        put_in(&mut self.disks, provider, place, sector);
        Ok(())
    }

    fn sync(&mut self, provider: Label) -> Result<(), ShelfFault> {
        check_provider(sectors_in(&self.disks, provider))?;
        self.log.push(Event::Synced(provider))?;
        Ok(())
    }
}
