//! What of a folder is passed over, since it is no image.

ghost use Rattle.std.specs.Prelude.{◌≡◌, ◌++◌, ◌∷◌, [], IfOk, OnOk, map};
ghost use Rattle.std.specs.String.{string_bytes};
ghost use Rattle.std.specs.Str.{IsUtf8};
ghost use Rattle.gm_shelf.specs.Entries.{visible};

use crate::folder_images::found_as;
use crate::no_image::{NoImage, label_of, length_of};
use std::alloc::{AllocError, Global};
use std::collections::BTreeMap;
use std::io::{self, BufRead, BufReader};
use std::rt::Files;
use std::str;

/// An entry of a folder that isn't an image.
#[derive(Debug, Drop)]
pub struct PassedOver {
    /// Its name; of one that isn't UTF-8 what can be shown of it.
    pub name: String,
    pub reason: NoImage,
}

// Room for any name of a folder, and for many of them.
const NAMES_AT_ONCE: usize = 8192;

/// A byte as it is shown: `?` for what is no visible character of ASCII, so that no terminal acts
/// upon it.
pub fn visible(byte: u8) -> u8
    ensures { result ≡ visible byte }
{
    if byte.is_ascii_graphic() { byte } else { b'?' }
}

// Appends a byte as it is shown.
fn push_visible(text: &mut String, byte: u8) -> Result<(), AllocError>
    ensures { OnOk result (string_bytes text.new ≡ string_bytes text.old ++ visible byte ∷ []) }
{
    text.push(char::from(visible(byte)))
}

/// Appends bytes as they are shown.
pub fn push_shown(text: &mut String, bytes: &[u8]) -> Result<(), AllocError>
    ensures { OnOk result
        (string_bytes text.new ≡ string_bytes text.old ++ map visible bytes.now) }
{
    for byte in bytes {
        push_visible(text, *byte)?;
    }
    Ok(())
}

// These bytes as they are shown.
fn shown(alloc: Global, bytes: &[u8]) -> Result<String, AllocError>
    ensures { IfOk result (λ text. string_bytes text ≡ map visible bytes.now) }
{
    let mut text = String::new(alloc);
    push_shown(&mut text, bytes)?;
    Ok(text)
}

// A name as it is, if it is UTF-8, and else as it is shown.
fn text_of(alloc: Global, name: &[u8]) -> Result<String, AllocError>
    ensures same { IsUtf8 name.now → IfOk result (λ text. string_bytes text ≡ name.now) }
    ensures shown { ¬ (IsUtf8 name.now)
        → IfOk result (λ text. string_bytes text ≡ map visible name.now) }
{
    match str::from_utf8(name) {
        Ok(text) => String::from_str(alloc, text),
        Err(_) => shown(alloc, name),
    }
}

// Whether this is how a folder names itself, or the one that it lies in.
fn is_a_folder_of_itself(name: &[u8]) -> bool {
    name == b".".as_slice() || name == b"..".as_slice()
}

// Why the entry of this name isn't an image, if it is there and is none.
fn reason_of<R: Files + AllocGlobal>(
    rt: &R,
    folder: &str,
    name: &[u8],
) -> io::Result<Option<NoImage>> {
    if is_a_folder_of_itself(name) {
        return Ok(None);
    }
    let label = match label_of(name) {
        Ok(label) => label,
        Err(reason) => return Ok(Some(reason)),
    };
    let found = found_as(rt, folder, label)?;
    Ok(found.and_then(|found| length_of(&found).err()))
}

// Why each entry that isn't an image is none, by its name.
fn reasons_in<R: Files + AllocGlobal>(
    rt: &R,
    folder: &str,
) -> io::Result<BTreeMap<Vec<u8>, NoImage>> {
    let alloc = rt.alloc();
    let path = format!(in alloc; "{folder}/")?;
    let names = BufReader::with_capacity(alloc, NAMES_AT_ONCE, rt.open_dir(path.as_str())?)?;
    let mut reasons = BTreeMap::new(alloc);
    for name in names.split(alloc, 0) {
        let name = name?;
        if let Some(reason) = reason_of(rt, folder, &name)? {
            reasons.insert(name, reason)?;
        }
    }
    Ok(reasons)
}

/// The entries of a folder that aren't images, in byte order of names. Fails if the folder can't
/// be listed, and if an entry can't be looked at. One that goes meanwhile is left out.
pub(crate) fn passed_over_in<R: Files + AllocGlobal>(
    rt: &R,
    folder: &str,
) -> io::Result<Vec<PassedOver>> {
    let alloc = rt.alloc();
    let mut passed = Vec::new(alloc);
    for (name, reason) in &reasons_in(rt, folder)? {
        passed.push(PassedOver {
            name: text_of(alloc, name)?,
            reason: *reason,
        })?;
    }
    Ok(passed)
}
