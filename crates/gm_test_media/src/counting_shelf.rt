//! A shelf that counts what is done to it.

ghost use Rattle.std.specs.Prelude.{◌≡◌};

use gm_metadata::Label;
use gm_shelf::{Shelf, ShelfFault};
use std::alloc::AllocError;

/// How many calls were made and succeeded, a run as one, and how many sectors the writes had. An
/// empty run is none.
#[derive(Clone, Copy, Debug, PartialEq, Eq)]
pub struct CallCounts {
    pub reads: u64,
    pub writes: u64,
    pub written: u64,
    pub syncs: u64,
}

/// Wraps a shelf, and counts.
#[derive(Drop)]
pub struct CountingShelf<H> {
    pub inner: H,
    pub calls: CallCounts,
}

impl<H: Shelf> CountingShelf<H> {
    pub fn new(inner: H) -> CountingShelf<H> {
        let calls = CallCounts {
            reads: 0,
            writes: 0,
            written: 0,
            syncs: 0,
        };
        CountingShelf { inner, calls }
    }

    fn count_read(&mut self)
        ensures { self.new.inner ≡ self.old.inner }
    {
        self.calls.reads = self.calls.reads.saturating_add(1);
    }

    fn count_write(&mut self, sectors: u64)
        ensures { self.new.inner ≡ self.old.inner }
    {
        self.calls.writes = self.calls.writes.saturating_add(1);
        self.calls.written = self.calls.written.saturating_add(sectors);
    }
}

impl<H: Shelf> Shelf for CountingShelf<H> {
    ghost honest = { λ s. H.honest s.inner };

    ghost view = { λ s. H.view s.inner };

    ghost size = { λ s. H.size s.inner };

    ghost read_gives = { λ s p i answer out t. Unit {0} };

    ghost write_gives = { λ s p i sector answer t. Unit {0} };

    ghost sync_gives = { λ s p answer t. Unit {0} };

    ghost lawful = { λ s h. H.lawful s.inner h };

    fn names(&self) -> Result<Vec<Label>, AllocError> {
        self.inner.names()
    }

    fn sectors(&self, provider: Label) -> Option<u64> {
        self.inner.sectors(provider)
    }

    fn read(&mut self, provider: Label, place: u64, out: &mut [u8; 512]) -> Result<(), ShelfFault> {
        self.inner.read(provider, place, out)?;
        self.count_read();
        Ok(())
    }

    fn write(&mut self, provider: Label, place: u64, sector: &[u8; 512]) -> Result<(), ShelfFault> {
        self.inner.write(provider, place, sector)?;
        self.count_write(1);
        Ok(())
    }

    fn read_run(
        &mut self,
        provider: Label,
        first: u64,
        out: &mut [[u8; 512]],
    ) -> Result<(), ShelfFault> {
        self.inner.read_run(provider, first, out)?;
        if !out.is_empty() {
            self.count_read();
        }
        Ok(())
    }

    fn write_run(
        &mut self,
        provider: Label,
        first: u64,
        sectors: &[[u8; 512]],
    ) -> Result<(), ShelfFault> {
        self.inner.write_run(provider, first, sectors)?;
        if !sectors.is_empty() {
            self.count_write(sectors.len() as u64);
        }
        Ok(())
    }

    fn sync(&mut self, provider: Label) -> Result<(), ShelfFault> {
        self.inner.sync(provider)?;
        self.calls.syncs = self.calls.syncs.saturating_add(1);
        Ok(())
    }
}
