//! The trait that every shelf keeps to.

ghost use Rattle.std.specs.Prelude.{◌≡◌, ◌≤◌, ◌<◌, ◌+◌, ◌↔◌, ◌⊎◌, ℕ, List, None, length, IfOk, OnOk, IsErrOf, IsSomeAnd};
ghost use Rattle.gm_metadata.specs.declared.label.Label.{Label};
ghost use Rattle.gm_metadata.specs.Images.{Image, Sizes, Same, put};
ghost use Rattle.gm_shelf.specs.Disk.{View, Answer, AreNames, IsQuiet, IsWrite, IsRun, put_run, IsRunWrite, IsFixed, IsLawful, faults_after};

use crate::fault::{ShelfFault, check_run};
use gm_metadata::Label;
use std::alloc::AllocError;

/// A set of providers, each a list of 512-byte sectors. Names and sizes never change.
///
/// Between two syncs of a provider a crash leaves each of its sectors with the value of the last
/// sync or with any value that was written since; each sector is chosen by itself. What is said of
/// contents holds of a shelf that is honest.
///
/// Failures of the device are counted, one for each call that answers `Device`. A shelf whose
/// counter stands at its last value answers `Memory` in its place.
pub trait Shelf {
    /// The laws on contents hold of it.
    ghost honest: { Self → Type 0 };

    /// What it holds, and what a crash may leave of it.
    ghost view: { Self → View };

    /// How many sectors each provider has.
    ghost size: { Self → Sizes };

    /// What else its reads do: the shelf before, provider, place, answer, what `out` holds, the
    /// shelf after.
    ghost read_gives: { Self → Label → ℕ → Answer → List ℕ → Self → Type 0 };

    /// What else its writes do: the shelf before, provider, place, sector, answer, the shelf after.
    ghost write_gives: { Self → Label → ℕ → List ℕ → Answer → Self → Type 0 };

    /// What else its syncs do: the shelf before, provider, answer, the shelf after.
    ghost sync_gives: { Self → Label → Answer → Self → Type 0 };

    /// The names of the providers, in byte order.
    fn names(&self) -> Result<Vec<Label>, AllocError>
        ensures { IfOk result (λ v. AreNames (size self.now) v.items) };

    /// How many sectors the provider has; `None` if the shelf hasn't the provider.
    fn sectors(&self, provider: Label) -> Option<u64>
        ensures { result ≡ size self.now provider };

    /// Reads the sector at this place, counted from 0. It changes nothing of what is held or left,
    /// even if it fails; after a fault `out` holds anything.
    fn read(&mut self, provider: Label, place: u64, out: &mut [u8; 512]) -> Result<(), ShelfFault>
        ensures bytes { honest self.old →
            OnOk result (out.new ≡ (view self.old).seen provider place) }
        ensures quiet { honest self.old → IsQuiet (view self.old) (view self.new) }
        ensures kept { honest self.old →
            (x : Image) → (view self.old).may_leave x → (view self.new).may_leave x }
        ensures honest { honest self.old → honest self.new }
        ensures size { size self.new ≡ size self.old }
        ensures count { (view self.old).faults ≤ (view self.new).faults }
        ensures counted { (view self.new).faults ≡ faults_after result (view self.old).faults }
        ensures absent { IsErrOf result ShelfFault.Absent ↔ (size self.old provider ≡ None) }
        ensures range { IsErrOf result ShelfFault.Range ↔
            IsSomeAnd (size self.old provider) (λ n. n ≤ place) }
        ensures device { IsErrOf result ShelfFault.Device →
            (view self.old).faults < (view self.new).faults }
        ensures gives { read_gives self.old provider place result out.new self.new };

    /// Writes the sector at this place. After a fault a read gives the old or the new value, the
    /// same one until the next write.
    fn write(&mut self, provider: Label, place: u64, sector: &[u8; 512]) -> Result<(), ShelfFault>
        ensures written { honest self.old → OnOk result
            (Same (view self.new).seen (put provider place sector.now (view self.old).seen)) }
        ensures law { honest self.old →
            IsWrite provider place sector.now (view self.old) (view self.new) }
        ensures honest { honest self.old → honest self.new }
        ensures size { size self.new ≡ size self.old }
        ensures count { (view self.old).faults ≤ (view self.new).faults }
        ensures counted { (view self.new).faults ≡ faults_after result (view self.old).faults }
        ensures absent { IsErrOf result ShelfFault.Absent ↔ (size self.old provider ≡ None) }
        ensures range { IsErrOf result ShelfFault.Range ↔
            IsSomeAnd (size self.old provider) (λ n. n ≤ place) }
        ensures device { IsErrOf result ShelfFault.Device →
            (view self.old).faults < (view self.new).faults }
        ensures gives { write_gives self.old provider place sector.now result self.new };

    /// Reads a run of sectors, from this one on. It changes nothing of what is held or left, even
    /// if it fails; after a fault `out` holds anything. A run that goes past the end is `Range`,
    /// and of an empty one that doesn't nothing is read.
    fn read_run(
        &mut self,
        provider: Label,
        first: u64,
        out: &mut [[u8; 512]],
    ) -> Result<(), ShelfFault>
        ensures bytes { honest self.old →
            OnOk result (IsRun provider first (view self.old).seen out.new) }
        ensures quiet { honest self.old → IsQuiet (view self.old) (view self.new) }
        ensures kept { honest self.old →
            (x : Image) → (view self.old).may_leave x → (view self.new).may_leave x }
        ensures honest { honest self.old → honest self.new }
        ensures size { size self.new ≡ size self.old }
        ensures count { (view self.old).faults ≤ (view self.new).faults }
        ensures counted { (view self.new).faults ≡ faults_after result (view self.old).faults }
        ensures absent { IsErrOf result ShelfFault.Absent ↔ (size self.old provider ≡ None) }
        ensures range { IsErrOf result ShelfFault.Range ↔
            IsSomeAnd (size self.old provider) (λ n. n < first + length out.old) }
        ensures nothing_done { (size self.old provider ≡ None)
            ⊎ IsSomeAnd (size self.old provider) (λ n. n < first + length out.old)
            ⊎ (length out.old ≡ 0) →
            self.new ≡ self.old }
        ensures device { IsErrOf result ShelfFault.Device →
            (view self.old).faults < (view self.new).faults }
    {
        let length = out.len() as u64;
        check_run(self.sectors(provider), first, length)?;
        for index in 0..length {
            self.read(provider, first + index, &mut out[index as usize])?;
        }
        Ok(())
    }

    /// Writes a run of sectors, from this one on. After a fault a read gives of each, by itself,
    /// the old or the new value, the same one until the next write. A run that goes past the end is
    /// `Range`, and of an empty one that doesn't nothing is written.
    fn write_run(
        &mut self,
        provider: Label,
        first: u64,
        sectors: &[[u8; 512]],
    ) -> Result<(), ShelfFault>
        ensures written { honest self.old → OnOk result (Same (view self.new).seen
            (put_run provider first sectors.now (view self.old).seen)) }
        ensures law { honest self.old →
            IsRunWrite provider first sectors.now (view self.old) (view self.new) }
        ensures honest { honest self.old → honest self.new }
        ensures size { size self.new ≡ size self.old }
        ensures count { (view self.old).faults ≤ (view self.new).faults }
        ensures counted { (view self.new).faults ≡ faults_after result (view self.old).faults }
        ensures absent { IsErrOf result ShelfFault.Absent ↔ (size self.old provider ≡ None) }
        ensures range { IsErrOf result ShelfFault.Range ↔
            IsSomeAnd (size self.old provider) (λ n. n < first + length sectors.now) }
        ensures nothing_done { (size self.old provider ≡ None)
            ⊎ IsSomeAnd (size self.old provider) (λ n. n < first + length sectors.now)
            ⊎ (length sectors.now ≡ 0) →
            self.new ≡ self.old }
        ensures device { IsErrOf result ShelfFault.Device →
            (view self.old).faults < (view self.new).faults }
    {
        let length = sectors.len() as u64;
        check_run(self.sectors(provider), first, length)?;
        for index in 0..length {
            self.write(provider, first + index, &sectors[index as usize])?;
        }
        Ok(())
    }

    /// Fixes what the provider holds: after it a crash leaves that. After a sync that failed a
    /// crash leaves nothing but what it could leave before.
    fn sync(&mut self, provider: Label) -> Result<(), ShelfFault>
        ensures fixed { honest self.old →
            OnOk result (IsFixed provider (view self.old) (view self.new)) }
        ensures quiet { honest self.old → IsQuiet (view self.old) (view self.new) }
        ensures honest { honest self.old → honest self.new }
        ensures size { size self.new ≡ size self.old }
        ensures count { (view self.old).faults ≤ (view self.new).faults }
        ensures counted { (view self.new).faults ≡ faults_after result (view self.old).faults }
        ensures absent { IsErrOf result ShelfFault.Absent ↔ (size self.old provider ≡ None) }
        ensures range { IsErrOf result ShelfFault.Range → ⊥ }
        ensures device { IsErrOf result ShelfFault.Device →
            (view self.old).faults < (view self.new).faults }
        ensures gives { sync_gives self.old provider result self.new };

    ghost lawful: { (shelf : Self) → honest shelf → IsLawful (view shelf) };
}
