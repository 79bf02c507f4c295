//! The files that other processes have open for writing.

ghost use Rattle.std.specs.Prelude.{IfOk};
ghost use Rattle.std.specs.String.{string_bytes};
ghost use Rattle.gm_in_use.specs.SystemTexts.{IsOneLine};

use crate::answered::{answered, text_at};
use crate::system_texts::{is_open_for_writing, program_name};
use crate::uses::{Use, Uses};
use gm_shelf::FileId;
use std::alloc::AllocError;
use std::fs;

// The name of a process's program, in one line; `?` if it isn't told.
fn name_of(rt: &HostRuntime, process: u32) -> Result<String, AllocError>
    ensures { IfOk result (λ name. IsOneLine (string_bytes name)) }
{
    let path = format!(in rt.alloc(); "/proc/{process}/comm")?;
    let text = text_at(rt, path.as_str())?;
    let comm = text.as_ref().map_or("", |text| text.as_str());
    String::from_str(rt.alloc(), program_name(comm))
}

// Whether a process has what this descriptor is of open for writing.
fn is_writing(rt: &HostRuntime, process: u32, descriptor: &str) -> Result<bool, AllocError> {
    let path = format!(in rt.alloc(); "/proc/{process}/fdinfo/{descriptor}")?;
    match text_at(rt, path.as_str())? {
        Some(info) => Ok(is_open_for_writing(info.as_str())),
        None => Ok(false),
    }
}

// Notes a process if this descriptor of it is of one of the files, and open for writing.
fn note_descriptor(
    rt: &HostRuntime,
    process: u32,
    descriptor: &str,
    uses: &mut Uses,
) -> Result<(), AllocError> {
    let path = format!(in rt.alloc(); "/proc/{process}/fd/{descriptor}")?;
    let Some(found) = answered(fs::metadata(rt, path.as_str()))? else {
        return Ok(());
    };
    let file = FileId::of(&found);
    if !uses.is_looked_for(file) || !is_writing(rt, process, descriptor)? {
        return Ok(());
    }
    let name = name_of(rt, process)?;
    uses.note(file, Use::Writer { process, name })
}

// Notes a process for each of the files that it has open for writing.
fn note_process(rt: &HostRuntime, process: u32, uses: &mut Uses) -> Result<(), AllocError> {
    let folder = format!(in rt.alloc(); "/proc/{process}/fd")?;
    let Some(descriptors) = answered(fs::read_dir(rt, folder.as_str()))? else {
        return Ok(());
    };
    for descriptor in descriptors {
        if let Some(descriptor) = answered(descriptor)? {
            note_descriptor(rt, process, descriptor.file_name(), uses)?;
        }
    }
    Ok(())
}

// The number of this process, as `/proc` has it; nothing if it doesn't say.
fn own_process(rt: &HostRuntime) -> Result<Option<u32>, AllocError> {
    let Some(link) = answered(fs::read_link(rt, "/proc/self"))? else {
        return Ok(None);
    };
    Ok(link.as_str().parse::<u32>().ok())
}

/// Notes each other process that has one of the files open for writing. Processes whose open files
/// the system doesn't show are passed over.
pub(crate) fn note_writers(rt: &HostRuntime, uses: &mut Uses) -> Result<(), AllocError> {
    let own = own_process(rt)?;
    let Some(processes) = answered(fs::read_dir(rt, "/proc"))? else {
        return Ok(());
    };
    for process in processes {
        let Some(process) = answered(process)? else {
            continue;
        };
        match process.file_name().parse::<u32>() {
            Ok(process) if own != Some(process) => note_process(rt, process, uses)?,
            _ => {}
        }
    }
    Ok(())
}
