//! From a sector to what it says.

ghost use Rattle.std.specs.Prelude.{◌≡◌, ◌==◌, ◌+◌, ◌≤◌, ℕ, IsTrue, take, drop, Some, None, IfOk, IfErr, Ok, Err, if◌then◌else◌};
ghost use Rattle.byteorder.specs.Endian.{little_number};
ghost use Rattle.gm_metadata.specs.declared.metadata.Metadata.{Metadata};
ghost use Rattle.gm_metadata.specs.declared.fault.DecodeFault.{DecodeFault};
ghost use Rattle.gm_metadata.specs.Reading.{has_hash, is_provider_field, provider_in, settings_of, said_in, encoded, reading_of, decode_of, version_read};
ghost use Rattle.gm_metadata.specs.Sector.{bytes_at, number_at, carries, IsMetadata, Bears, BearsIn, SaidIn, Cause};
ghost use Rattle.gm_metadata.specs.Versions.{version_number, kept_size};
ghost use Rattle.gm_metadata.specs.declared.decoding.Reading.{Reading};
ghost use Rattle.gm_metadata.specs.declared.version.Version as versions;
ghost use Rattle.gm_metadata.specs.declared.version.Version.TheVariants.{Four};

use crate::balance::Balance;
use crate::encoding::{MAGIC, SECTOR_SIZE};
use crate::fault::DecodeFault;
use crate::flags::{DiskFlags, MirrorFlags};
use crate::label::{Label, all_zero};
use crate::metadata::Metadata;
use crate::version::Version;
use byteorder::{ByteOrder, LittleEndian};
use md5::{Digest, Md5};

fn field_at(sector: &[u8; 512], at: usize) -> [u8; 16]
    requires { at + 16 ≤ 512 }
    ensures { result ≡ bytes_at at 16 sector.now }
{
    let mut field = [0u8; 16];
    field.copy_from_slice(&sector[at..at + 16]);
    field
}

fn u32_at(sector: &[u8; 512], at: usize) -> u32
    requires { at + 4 ≤ 512 }
    ensures { result ≡ number_at at 4 sector.now }
{
    LittleEndian::read_u32(&sector[at..])
}

fn u64_at(sector: &[u8; 512], at: usize) -> u64
    requires { at + 8 ≤ 512 }
    ensures { result ≡ number_at at 8 sector.now }
{
    LittleEndian::read_u64(&sector[at..])
}

/// Whether a sector carries metadata: it begins with the magic field, whatever follows.
#[tactic(auto, unfolding(crate::specs::Sector::magic))]
pub fn carries_metadata(sector: &[u8; 512]) -> bool
    ensures { result ≡ carries sector.now }
{
    &sector[..16] == MAGIC.as_slice()
}

fn has_hash(version: Version, sector: &[u8; 512]) -> bool
    ensures { result ≡ has_hash version sector.now }
{
    let digest = Md5::digest(&sector[..version.hash_at()]);
    let written = field_at(sector, version.hash_at());
    digest == written
}

fn provider_of(field: &[u8; 16]) -> Option<Option<Label>>
    ensures { result
        ≡ (if is_provider_field field.now then Some (provider_in field.now) else None) }
{
    if all_zero(field) {
        return Some(None);
    }
    match Label::from_field(field) {
        Some(name) => Some(Some(name)),
        None => None,
    }
}

// The fields whose values are few.
#[derive(Clone, Copy)]
struct Settings {
    balance: Balance,
    mflags: MirrorFlags,
    dflags: DiskFlags,
}

#[tactic(auto, unfolding(crate::specs::Reading::settings_of))]
fn settings_of(version: Version, sector: &[u8; 512]) -> Result<Settings, DecodeFault>
    ensures { result ≡ settings_of version sector.now }
{
    let Some(balance) = Balance::from_code(sector[58]) else {
        return Err(DecodeFault::Balance);
    };
    let mirror_bits = u64_at(sector, 79);
    if mirror_bits >= version.mirror_flags_end() {
        return Err(DecodeFault::Flags);
    }
    let Some(mflags) = MirrorFlags::from_bits(mirror_bits) else {
        return Err(DecodeFault::Flags);
    };
    let Some(dflags) = DiskFlags::from_bits(u64_at(sector, 87)) else {
        return Err(DecodeFault::Flags);
    };
    if u32_at(sector, 67) != SECTOR_SIZE {
        return Err(DecodeFault::SectorSize);
    }
    Ok(Settings {
        balance,
        mflags,
        dflags,
    })
}

fn provsize_in(version: Version, sector: &[u8; 512]) -> u64
    ensures { result ≡ kept_size version (number_at 111 8 sector.now) }
{
    version.kept_size(u64_at(sector, 111))
}

// What a sector says in a version, field by field.
#[tactic(auto, unfolding(crate::specs::Reading::said_in))]
fn said_in(version: Version, sector: &[u8; 512]) -> Result<Metadata, DecodeFault>
    ensures { result ≡ said_in version sector.now }
{
    if !has_hash(version, sector) {
        return Err(DecodeFault::Hash);
    }
    let Some(name) = Label::from_field(&field_at(sector, 20)) else {
        return Err(DecodeFault::Name);
    };
    let Some(provider) = provider_of(&field_at(sector, 95)) else {
        return Err(DecodeFault::Provider);
    };
    let settings = settings_of(version, sector)?;
    Ok(Metadata {
        name,
        mid: u32_at(sector, 36),
        did: u32_at(sector, 40),
        all: sector[44],
        genid: u32_at(sector, 45),
        syncid: u32_at(sector, 49),
        priority: sector[53],
        slice: u32_at(sector, 54),
        balance: settings.balance,
        mediasize: u64_at(sector, 59),
        sync_offset: u64_at(sector, 71),
        mflags: settings.mflags,
        dflags: settings.dflags,
        provider,
        provsize: provsize_in(version, sector),
    })
}

/// What a sector says, and in which version.
#[derive(Clone, Copy, Debug, PartialEq, Eq)]
pub struct Reading {
    pub version: Version,
    pub metadata: Metadata,
}

// What a sector says, and in which version.
#[tactic(auto, unfolding(crate::specs::Reading::reading_of))]
fn read_as_named(sector: &[u8; 512]) -> Result<Reading, DecodeFault>
    ensures { result ≡ reading_of sector.now }
{
    if !carries_metadata(sector) {
        return Err(DecodeFault::Magic);
    }
    let Some(version) = Version::from_number(u32_at(sector, 16)) else {
        return Err(DecodeFault::Version);
    };
    let metadata = said_in(version, sector)?;
    Ok(Reading { version, metadata })
}

/// What a sector says, and in which version. The bytes after the hash are ignored.
///
/// An `Err` is the first fault that stands in the sector, in the order of `DecodeFault`.
pub fn read_sector(sector: &[u8; 512]) -> Result<Reading, DecodeFault>
    // What is read is spelled so, in that version.
    ensures found { IfOk result (λ r. BearsIn r.version sector.now r.metadata) }
    // What is spelled so is read.
    ensures only { (r : Reading) → IsMetadata r.metadata → BearsIn r.version sector.now r.metadata
        → result ≡ Ok r }

    ensures exact { result ≡ reading_of sector.now }
{
    read_as_named(sector)
}

fn said(sector: &[u8; 512]) -> Result<Metadata, DecodeFault>
    ensures { result ≡ decode_of sector.now }
{
    let reading = read_as_named(sector)?;
    Ok(reading.metadata)
}

/// What a sector says, in whichever version it says it.
///
/// An `Err` is the first fault that stands in the sector, in the order of `DecodeFault`.
pub fn decode(sector: &[u8; 512]) -> Result<Metadata, DecodeFault>
    // What is read is spelled so.
    ensures found { IfOk result (λ m. Bears sector.now m) }
    // What is spelled so is read.
    ensures only { (m : Metadata) → IsMetadata m → Bears sector.now m → result ≡ Ok m }

    // The fault is the first that stands in the sector.
    ensures fault { IfErr result (λ k. Cause sector.now k) }
    ensures only_fault { (k : DecodeFault) → Cause sector.now k → result ≡ Err k }

    // Which result it is, as a function.
    ensures exact { result ≡ decode_of sector.now }
{
    said(sector)
}

fn version_read(sector: &[u8; 512]) -> Option<u32>
    ensures { result ≡ version_read (reading_of sector.now) }
{
    match read_as_named(sector) {
        Ok(reading) => Some(reading.version.number()),
        Err(_) => None,
    }
}

/// The number of the version in which a sector says something, 2 to 4; `None` if it doesn't
/// decode.
pub fn version_of(sector: &[u8; 512]) -> Option<u32>
    // The number is that of a version in which metadata are spelled.
    ensures found { (n : ℕ) → result ≡ Some n → SaidIn n sector.now }
    // If metadata are spelled in a version, it is that one's.
    ensures only { (v : versions.Version) (m : Metadata) → IsMetadata m
        → BearsIn v sector.now m → result ≡ Some (version_number v) }

    ensures exact { result ≡ version_read (reading_of sector.now) }
{
    version_read(sector)
}

/// What is encoded is read again, and it is of version 4.
pub fn encoded_is_read()
    ensures metadata { (m : Metadata) → IsMetadata m → decode_of (encoded m) ≡ Ok m }
    ensures version { (m : Metadata) → IsMetadata m
        → reading_of (encoded m) ≡ Ok (record { version = Four; metadata = m }) }
{}
