//! What a sector says, as text.

ghost use Rattle.std.specs.Prelude.{◌≡◌, IfOk};
ghost use Rattle.std.specs.String.{string_bytes};
ghost use Rattle.gm_metadata.specs.Sector.{bytes_at};
ghost use Rattle.gm_metadata.specs.Versions.{fields_end};
ghost use Rattle.gm_words.specs.Dump.{dump_text, first_lines, last_lines, reading_text, provider_name};

use crate::lines::{disk_flags_text, mirror_flags_text, push_field, push_number};
use gm_metadata::{Metadata, Reading, Version, read_sector};
use std::alloc::{AllocError, Global};

// The provider that a component was hardcoded for.
fn provider_name(metadata: &Metadata) -> &str
    ensures { result.now ≡ provider_name metadata.now.provider }
{
    match &metadata.provider {
        Some(name) => name.as_str(),
        None => "(none)",
    }
}

// The lines from the magic to the balance.
fn first_lines(alloc: Global, version: Version, m: &Metadata) -> Result<String, AllocError>
    ensures { IfOk result (λ text. string_bytes text ≡ first_lines version m.now) }
{
    let mut text = String::new(alloc);
    push_field(&mut text, "magic", "GEOM::MIRROR")?;
    push_number(&mut text, "version", u64::from(version.number()))?;
    push_field(&mut text, "name", m.name.as_str())?;
    push_number(&mut text, "mid", u64::from(m.mid))?;
    push_number(&mut text, "did", u64::from(m.did))?;
    push_number(&mut text, "all", u64::from(m.all))?;
    push_number(&mut text, "genid", u64::from(m.genid))?;
    push_number(&mut text, "syncid", u64::from(m.syncid))?;
    push_number(&mut text, "priority", u64::from(m.priority))?;
    push_number(&mut text, "slice", u64::from(m.slice))?;
    push_field(&mut text, "balance", m.balance.name())?;
    Ok(text)
}

// The lines from the sizes to the size of the provider.
fn last_lines(alloc: Global, m: &Metadata) -> Result<String, AllocError>
    ensures { IfOk result (λ text. string_bytes text ≡ last_lines m.now) }
{
    let mflags = mirror_flags_text(alloc, m.mflags)?;
    let dflags = disk_flags_text(alloc, m.dflags)?;
    let mut text = String::new(alloc);
    push_number(&mut text, "mediasize", m.mediasize)?;
    push_number(&mut text, "sectorsize", 512)?;
    push_number(&mut text, "sync_offset", m.sync_offset)?;
    push_field(&mut text, "mflags", mflags.as_str())?;
    push_field(&mut text, "dflags", dflags.as_str())?;
    push_field(&mut text, "provider", provider_name(m))?;
    push_number(&mut text, "provsize", m.provsize)?;
    Ok(text)
}

// The lines of what was read, with the hash of its version.
fn reading_text(alloc: Global, reading: &Reading, hash: &[u8]) -> Result<String, AllocError>
    ensures { IfOk result (λ text. string_bytes text ≡ reading_text reading.now hash.now) }
{
    let digits = hex::encode(alloc, hash)?;
    let last = last_lines(alloc, &reading.metadata)?;
    let mut text = first_lines(alloc, reading.version, &reading.metadata)?;
    text.push_str(last.as_str())?;
    push_field(&mut text, "md5", digits.as_str())?;
    Ok(text)
}

// The bytes at the place of a version's hash.
fn written_hash(version: Version, sector: &[u8; 512]) -> &[u8]
    ensures { result.now ≡ bytes_at (fields_end version) 16 sector.now }
{
    let at = version.hash_at();
    &sector[at..at + 16]
}

/// What a sector says, in 19 lines, or the line `fault N` if it doesn't decode. The hash is the one
/// at the place of the sector's version. The lines are this project's own, after `gmirror dump`.
pub fn dump_text(alloc: Global, sector: &[u8; 512]) -> Result<String, AllocError>
    ensures { IfOk result (λ text. string_bytes text ≡ dump_text sector.now) }
{
    match read_sector(sector) {
        Ok(reading) => reading_text(alloc, &reading, written_hash(reading.version, sector)),
        Err(fault) => {
            let number = fault.number();
            format!(in alloc; "fault {number}\n")
        }
    }
}
