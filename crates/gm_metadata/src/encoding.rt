//! From metadata to a sector.

ghost use Rattle.std.specs.Prelude.{◌≡◌, ◌+◌, ◌-◌, ◌≤◌, ℕ, List, [], ◌∷◌, ◌++◌, length, replicate};
ghost use Rattle.gm_metadata.specs.Sector.{magic, u32_field, u64_field, provider_field, Full};
ghost use Rattle.gm_metadata.specs.Reading.{encoded};

use crate::label::Label;
use crate::metadata::Metadata;
use crate::version::Version;
use byteorder::{ByteOrder, LittleEndian};
use md5::{Digest, Md5};
use std::marker::Model;

pub(crate) const MAGIC: [u8; 16] = *b"GEOM::MIRROR\0\0\0\0";

/// The bytes of a sector.
pub const SECTOR_SIZE: u32 = 512;

// A sector that is being written, from its beginning. What isn't written yet is zero.
#[derive(Drop)]
struct Draft {
    sector: [u8; 512],
    len: usize,
}

impl Model for Draft {
    ghost use Rattle.std.specs.Prelude.{◌≡◌, ◌≤◌, ◌-◌, ℕ, List, take, drop, replicate};

    ghost Value = { List ℕ };

    ghost view = { λ d. take d.len d.sector };

    ghost invariant = { λ d. (d.len ≤ 512) × (drop d.len d.sector ≡ replicate (512 - d.len) 0) };
}

impl Draft {
    fn new() -> Draft
        ensures bytes { result ≡ [] }
        ensures len { length result ≡ 0 }
    {
        Draft {
            sector: [0; 512],
            len: 0,
        }
    }

    fn push(&mut self, bytes: &[u8])
        requires { length self.old + length bytes.now ≤ 512 }
        ensures bytes { self.new ≡ self.old ++ bytes.now }
        ensures len { length self.new ≡ length self.old + length bytes.now }
    {
        let end = self.len + bytes.len();
        self.sector[self.len..end].copy_from_slice(bytes);
        self.len = end;
    }

    fn push_byte(&mut self, byte: u8)
        requires { length self.old + 1 ≤ 512 }
        ensures bytes { self.new ≡ self.old ++ byte ∷ [] }
        ensures len { length self.new ≡ length self.old + 1 }
    {
        self.push(&[byte]);
    }

    #[tactic(auto, unfolding(crate::specs::Sector::u32_field))]
    fn push_u32(&mut self, number: u32)
        requires { length self.old + 4 ≤ 512 }
        ensures bytes { self.new ≡ self.old ++ u32_field number }
        ensures len { length self.new ≡ length self.old + 4 }
    {
        let mut bytes = [0; 4];
        LittleEndian::write_u32(&mut bytes, number);
        self.push(&bytes);
    }

    #[tactic(auto, unfolding(crate::specs::Sector::u64_field))]
    fn push_u64(&mut self, number: u64)
        requires { length self.old + 8 ≤ 512 }
        ensures bytes { self.new ≡ self.old ++ u64_field number }
        ensures len { length self.new ≡ length self.old + 8 }
    {
        let mut bytes = [0; 8];
        LittleEndian::write_u64(&mut bytes, number);
        self.push(&bytes);
    }

    fn written(&self) -> &[u8]
        ensures { result.now ≡ self.now }
    {
        &self.sector[..self.len]
    }

    fn whole(&self) -> [u8; 512]
        ensures { result ≡ self.now ++ replicate (512 - length self.now) 0 }
    {
        self.sector
    }
}

fn provider_field(provider: &Option<Label>) -> [u8; 16]
    ensures { result ≡ provider_field provider.now }
{
    match provider {
        Some(name) => name.to_field(),
        None => [0; 16],
    }
}

/// The one sector that is full with the metadata: 135 bytes of fields and hash, and zeros after
/// them. It is of version 4, the one that is written.
pub fn encode(metadata: &Metadata) -> [u8; 512]
    ensures full { Full result metadata.now }
    ensures sector { result ≡ encoded metadata.now }
{
    let mut draft = Draft::new();
    draft.push(&MAGIC);
    draft.push_u32(Version::Four.number());
    draft.push(&metadata.name.to_field());
    draft.push_u32(metadata.mid);
    draft.push_u32(metadata.did);
    draft.push_byte(metadata.all);
    draft.push_u32(metadata.genid);
    draft.push_u32(metadata.syncid);
    draft.push_byte(metadata.priority);
    draft.push_u32(metadata.slice);
    draft.push_byte(metadata.balance.code());
    draft.push_u64(metadata.mediasize);
    draft.push_u32(SECTOR_SIZE);
    draft.push_u64(metadata.sync_offset);
    draft.push_u64(metadata.mflags.bits());
    draft.push_u64(metadata.dflags.bits());
    draft.push(&provider_field(&metadata.provider));
    draft.push_u64(metadata.provsize);
    let digest = Md5::digest(draft.written());
    draft.push(&digest);
    draft.whole()
}
