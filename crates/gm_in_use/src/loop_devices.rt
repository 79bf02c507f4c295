//! The files that back loop devices.

use crate::answered::{answered, text_at};
use crate::system_texts::backing_path;
use crate::uses::{Use, Uses};
use gm_shelf::FileId;
use std::alloc::AllocError;
use std::fs;

// The file that backs a block device, if it is a loop device that has one.
fn backing_file(rt: &HostRuntime, device: &str) -> Result<Option<FileId>, AllocError> {
    let path = format!(in rt.alloc(); "/sys/block/{device}/loop/backing_file")?;
    let Some(text) = text_at(rt, path.as_str())? else {
        return Ok(None);
    };
    let found = answered(fs::metadata(rt, backing_path(text.as_str())))?;
    Ok(found.map(|found| FileId::of(&found)))
}

// Notes a block device if one of the files backs it.
fn note_device(rt: &HostRuntime, device: &str, uses: &mut Uses) -> Result<(), AllocError> {
    match backing_file(rt, device)? {
        Some(file) if uses.is_looked_for(file) => {
            let device = format!(in rt.alloc(); "/dev/{device}")?;
            uses.note(file, Use::LoopDevice { device })
        }
        _ => Ok(()),
    }
}

/// Notes each loop device that one of the files backs, by the path that the system tells of it.
pub(crate) fn note_loop_devices(rt: &HostRuntime, uses: &mut Uses) -> Result<(), AllocError> {
    let Some(devices) = answered(fs::read_dir(rt, "/sys/block"))? else {
        return Ok(());
    };
    for device in devices {
        if let Some(device) = answered(device)? {
            note_device(rt, device.file_name(), uses)?;
        }
    }
    Ok(())
}
