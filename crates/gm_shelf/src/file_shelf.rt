//! A folder of image files.

ghost use Rattle.std.specs.Prelude.{◌≡◌, ◌≤◌, ◌<◌, ◌+◌, ◌/◌, ◌*◌, ◌↔◌, Some, None, IsOk, IfOk, IfErr, IsErrOf, IsSomeAnd};
ghost use Rattle.gm_shelf.specs.Disk.{View, faults_after};
ghost use Rattle.gm_shelf.specs.FileFaults.{WantsMemory};
ghost use Rattle.gm_shelf.specs.Faults.{fault_after};
ghost use Rattle.gm_shelf.specs.Folder.{unknown, sectors_of};
ghost use Rattle.gm_shelf.specs.Keeping.{TellsNoLack};

use crate::failure::{FileFault, ImageFailure, cause_of};
use crate::fault::{ShelfFault, check_run, device_failed};
use crate::file_id::FileId;
use crate::folder_images::{ImageFile, Images, images_in, images_named, leave_out};
use crate::open_files::{Access, OpenFiles};
use crate::passed_over::{PassedOver, passed_over_in};
use crate::provider_names::names_in;
use crate::shelf::Shelf;
use gm_metadata::Label;
use std::alloc::AllocError;
use std::fs::File;
use std::io;
use std::rt::Files;

/// The images of a folder, each file's bytes 512 to a sector. Nothing is claimed of what a file
/// holds.
#[derive(Drop)]
pub struct FileShelf<R: Files<File = File> + AllocGlobal + Clone + Drop> {
    files: OpenFiles<R>,
    // as they were when the folder was opened
    images: Images,
    failures: u64,
    last_failure: Option<ImageFailure>,
}

impl<R: Files<File = File> + AllocGlobal + Clone + Drop> FileShelf<R> {
    ghost use Rattle.gm_shelf.specs.FileShelves.{failures_of, folder_of, images_of, last_failure_of, IsSameFolder};
    ghost use Rattle.gm_shelf.specs.Folder.{images_but};

    /// Opens a folder: its regular files whose names are labels and whose lengths are multiples of
    /// 512, as they are now. Every other entry is skipped. Fails if the folder can't be listed.
    pub fn open(rt: &R, folder: &str) -> io::Result<FileShelf<R>>
        ensures folder { IfOk result (λ shelf. folder_of shelf ≡ folder.now) }
        ensures no_failures { IfOk result (λ shelf. failures_of shelf ≡ 0) }
    {
        Ok(FileShelf {
            files: OpenFiles::new(rt, folder, Access::Writing)?,
            images: images_in(rt, folder)?,
            failures: 0,
            last_failure: None,
        })
    }

    /// What a folder has beside its images, with the reasons, in byte order of names: each entry
    /// that an opening skips. Fails if the folder can't be listed.
    pub fn passed_over(rt: &R, folder: &str) -> io::Result<Vec<PassedOver>> {
        passed_over_in(rt, folder)
    }

    /// Which image failed last, and why; `None` if none has failed. It stands beside the faults,
    /// for whoever is to be told more than their number.
    pub fn last_failure(&self) -> Option<ImageFailure>
        ensures { result ≡ last_failure_of self.now }
    {
        self.last_failure
    }

    /// Leaves out files that are no images, whatever their names are.
    pub fn leave_out(&mut self, files: &[FileId])
        ensures folder { folder_of self.new ≡ folder_of self.old }
        ensures failures { failures_of self.new ≡ failures_of self.old }
        ensures images { images_of self.new ≡ images_but files.now (images_of self.old) }
    {
        leave_out(&mut self.images, files);
    }

    // Settles one image.
    fn settle_image(&mut self, name: Label, image: ImageFile) -> Result<(), ShelfFault>
        ensures same { IsSameFolder self.old self.new }
        ensures count { failures_of self.new ≡ faults_after result (failures_of self.old) }
        ensures there { TellsNoLack result }
    {
        let done = self.files.with(name, image, |file| file.settle());
        outcome(done, name, &mut self.failures, &mut self.last_failure)
    }

    /// Makes what is read next of these images what their media hold: what the system holds of
    /// them is written through, and then forgotten. A system that couldn't write something may
    /// show it all the same until then, and a sync has nothing more to report of it. Names of no
    /// image are passed over. Ends at the first image that fails.
    pub fn settle(&mut self, names: &[Label]) -> Result<(), ShelfFault>
        ensures same { IsSameFolder self.old self.new }
        ensures count { failures_of self.new ≡ faults_after result (failures_of self.old) }
        ensures there { TellsNoLack result }
    {
        for name in names {
            if let Some(image) = self.images.get(name).copied() {
                self.settle_image(*name, image)?;
            }
        }
        Ok(())
    }

    /// Opens those images of a folder that have these names, to be read alone: every write fails.
    /// No other entry of the folder is looked at. Fails if there is no such folder.
    pub fn look_at(rt: &R, folder: &str, names: &[Label]) -> io::Result<FileShelf<R>>
        ensures folder { IfOk result (λ shelf. folder_of shelf ≡ folder.now) }
        ensures no_failures { IfOk result (λ shelf. failures_of shelf ≡ 0) }
    {
        Ok(FileShelf {
            files: OpenFiles::new(rt, folder, Access::Reading)?,
            images: images_named(rt, folder, names)?,
            failures: 0,
            last_failure: None,
        })
    }
}

// The image of this name.
fn image_in(images: &Images, name: Label) -> Result<ImageFile, ShelfFault>
    ensures absent { IsErrOf result ShelfFault.Absent ↔ (sectors_of images.now name ≡ None) }
    ensures only_absent { IfErr result (λ e. e ≡ ShelfFault.Absent) }
    ensures length { IfOk result (λ image. sectors_of images.now name ≡ Some (image.length / 512)) }
{
    match images.get(&name) {
        Some(image) => Ok(*image),
        None => Err(ShelfFault::Absent),
    }
}

// Where a sector lies in a file of this length, in bytes.
fn offset_in(length: u64, place: u64) -> Result<u64, ShelfFault>
    ensures range { IsErrOf result ShelfFault.Range ↔ (length / 512 ≤ place) }
    ensures only_range { IfErr result (λ e. e ≡ ShelfFault.Range) }
    ensures offset { IfOk result (λ at. at ≡ place * 512) }
{
    if place >= length / 512 {
        return Err(ShelfFault::Range);
    }
    Ok(place * 512)
}

// Where a run of so many sectors begins in a file of this length, in bytes.
fn run_in(length: u64, first: u64, sectors: u64) -> Result<u64, ShelfFault>
    ensures range { IsErrOf result ShelfFault.Range ↔ (length / 512 < first + sectors) }
    ensures only_range { IfErr result (λ e. e ≡ ShelfFault.Range) }
    ensures offset { IfOk result (λ at. at ≡ first * 512) }
{
    check_run(Some(length / 512), first, sectors)?;
    Ok(first * 512)
}

// How a call is answered if the file of an image did this.
fn outcome(
    done: Result<(), FileFault>,
    image: Label,
    failures: &mut u64,
    last: &mut Option<ImageFailure>,
) -> Result<(), ShelfFault>
    ensures ok { IsOk done ↔ IsOk result }
    ensures memory { IfErr done (λ e. WantsMemory e → IsErrOf result ShelfFault.Memory) }
    ensures device { IfErr done (λ e. ¬ (WantsMemory e)
        → IsErrOf result (fault_after failures.old)) }
    ensures counted { failures.new ≡ faults_after result failures.old }
    ensures named { IsErrOf result ShelfFault.Device
        → IsSomeAnd last.new (λ failure. failure.image ≡ image) }
    ensures kept { IsOk done → last.new ≡ last.old }
    ensures there { TellsNoLack result }
{
    let fault = match done {
        Ok(()) => return Ok(()),
        Err(fault) => fault,
    };
    let Some(cause) = cause_of(&fault) else {
        return Err(ShelfFault::Memory);
    };
    *last = Some(ImageFailure { image, cause });
    Err(device_failed(failures))
}

impl<R: Files<File = File> + AllocGlobal + Clone + Drop> Shelf for FileShelf<R> {
    ghost use Rattle.gm_shelf.specs.FileShelves.{IsSameFolder};

    ghost honest = { λ s. ⊥ };

    ghost view = { λ s. unknown s.failures };

    ghost size = { λ s. sectors_of s.images };

    // Nothing is known of what its files hold.
    ghost read_gives = { λ s p i answer out t. IsSameFolder s t };

    ghost write_gives = { λ s p i sector answer t. IsSameFolder s t };

    ghost sync_gives = { λ s p answer t. IsSameFolder s t };

    ghost lawful = { λ s h. absurd h };

    fn names(&self) -> Result<Vec<Label>, AllocError> {
        names_in(self.files.rt.alloc(), &self.images)
    }

    fn sectors(&self, provider: Label) -> Option<u64> {
        self.images.get(&provider).map(|image| image.length / 512)
    }

    fn read(&mut self, provider: Label, place: u64, out: &mut [u8; 512]) -> Result<(), ShelfFault> {
        let image = image_in(&self.images, provider)?;
        let at = offset_in(image.length, place)?;
        let done = self.files.with(provider, image, |file| file.read(out, at));
        outcome(done, provider, &mut self.failures, &mut self.last_failure)
    }

    fn write(&mut self, provider: Label, place: u64, sector: &[u8; 512]) -> Result<(), ShelfFault> {
        let image = image_in(&self.images, provider)?;
        let at = offset_in(image.length, place)?;
        let done = self
            .files
            .with(provider, image, |file| file.write(sector, at));
        outcome(done, provider, &mut self.failures, &mut self.last_failure)
    }

    // One read of all the sectors.
    fn read_run(
        &mut self,
        provider: Label,
        first: u64,
        out: &mut [[u8; 512]],
    ) -> Result<(), ShelfFault> {
        let image = image_in(&self.images, provider)?;
        let at = run_in(image.length, first, out.len() as u64)?;
        if out.is_empty() {
            return Ok(());
        }
        let done = self.files.with(provider, image, |file| {
            file.read(out.as_flattened_mut(), at)
        });
        outcome(done, provider, &mut self.failures, &mut self.last_failure)
    }

    // One write of all the sectors.
    fn write_run(
        &mut self,
        provider: Label,
        first: u64,
        sectors: &[[u8; 512]],
    ) -> Result<(), ShelfFault> {
        let image = image_in(&self.images, provider)?;
        let at = run_in(image.length, first, sectors.len() as u64)?;
        if sectors.is_empty() {
            return Ok(());
        }
        let done = self.files.with(provider, image, |file| {
            file.write(sectors.as_flattened(), at)
        });
        outcome(done, provider, &mut self.failures, &mut self.last_failure)
    }

    fn sync(&mut self, provider: Label) -> Result<(), ShelfFault> {
        let image = image_in(&self.images, provider)?;
        let done = self.files.with(provider, image, |file| file.sync());
        outcome(done, provider, &mut self.failures, &mut self.last_failure)
    }
}
