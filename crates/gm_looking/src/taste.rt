//! The command `taste`, which says what the images of a folder tell by themselves. No registry is
//! opened, and nothing is written or held.

use gm_command_line::Form;
use gm_faults::Fault;
use gm_looks::taste_shelf;
use gm_metadata::Label;
use gm_process::{Status, Streams};
use gm_registry_files::without_beside;
use gm_reports::taste_report;
use gm_shelf::{FileShelf, PassedOver, Shelf};
use std::io::Write;

// What of a folder is passed over beside these images. What SQLite puts beside a database isn't
// told: the folder may have a registry, of which nothing is known here.
fn passed_over(rt: &HostRuntime, folder: &str, images: &[Label]) -> Result<Vec<PassedOver>, Fault> {
    let passed = FileShelf::passed_over(rt, folder)?;
    Ok(without_beside(rt.alloc(), images, passed)?)
}

/// Tastes the images of a folder, which are read alone, and prints what they tell, and what of the
/// folder is no image.
pub fn taste_folder<I, O: Write, E>(
    rt: &HostRuntime,
    folder: &str,
    form: Form,
    streams: &mut Streams<'_, I, O, E>,
) -> Result<Status, Fault> {
    let alloc = rt.alloc();
    let opened = FileShelf::open(rt, folder);
    let names = streams.explaining.heed(rt, folder, opened)?.names()?;
    let passed = passed_over(rt, folder, &names)?;
    let mut shelf = FileShelf::look_at(rt, folder, &names)?;
    let tasted = taste_shelf(alloc, &mut shelf);
    streams.explaining.failure = shelf.last_failure();
    let report = taste_report(alloc, &tasted?, &passed, form)?;
    streams.output.write_all(report.text.as_bytes())?;
    Ok(report.status)
}
