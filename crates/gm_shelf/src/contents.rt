//! The newest contents of each provider of a shelf in memory.

ghost use Rattle.std.specs.Prelude.{◌≡◌, ◌≤◌, ◌<◌, ◌↔◌, ℕ, None, IfOk, IfErr, IsErrOf, IsSomeAnd};
ghost use Rattle.gm_metadata.specs.declared.label.Label.{Label};
ghost use Rattle.gm_metadata.specs.Images.{put};
ghost use Rattle.gm_shelf.specs.Cache.{size_in, held_in};

use crate::fault::ShelfFault;
use gm_metadata::Label;
use std::alloc::{AllocError, Global};
use std::collections::BTreeMap;

pub(crate) type Disks = BTreeMap<Label, Vec<[u8; 512]>>;

pub(crate) fn copied(alloc: Global, sectors: &[[u8; 512]]) -> Result<Vec<[u8; 512]>, AllocError>
    ensures { IfOk result (λ v. v.items ≡ sectors.now) }
{
    sectors.iter().copied().collect(alloc)
}

pub(crate) fn sectors_in(disks: &Disks, provider: Label) -> Option<u64>
    ensures { result ≡ size_in disks.now provider }
{
    disks.get(&provider).map(|sectors| sectors.len() as u64)
}

// The sector that is there, or the fault that the sizes alone tell.
pub(crate) fn sector_in(disks: &Disks, provider: Label, place: u64) -> Result<[u8; 512], ShelfFault>
    ensures sector { IfOk result (λ s. s ≡ held_in disks.now provider place) }
    ensures there { IfOk result (λ s. IsSomeAnd (size_in disks.now provider) (λ n. place < n)) }
    ensures absent { IsErrOf result ShelfFault.Absent ↔ (size_in disks.now provider ≡ None) }
    ensures range { IsErrOf result ShelfFault.Range ↔
        IsSomeAnd (size_in disks.now provider) (λ n. n ≤ place) }
    ensures not_device { IsErrOf result ShelfFault.Device → ⊥ }
    ensures not_memory { IsErrOf result ShelfFault.Memory → ⊥ }
{
    let Some(sectors) = disks.get(&provider) else {
        return Err(ShelfFault::Absent);
    };
    if place >= sectors.len() as u64 {
        return Err(ShelfFault::Range);
    }
    Ok(sectors[place as usize])
}

pub(crate) fn put_in(disks: &mut Disks, provider: Label, place: u64, sector: &[u8; 512])
    requires { IsSomeAnd (size_in disks.old provider) (λ n. place < n) }
    ensures sizes { (q : Label) → size_in disks.new q ≡ size_in disks.old q }
    ensures sectors { (q : Label) (j : ℕ) →
        held_in disks.new q j ≡ put provider place sector.now (held_in disks.old) q j }
{
    if let Some(sectors) = disks.get_mut(&provider) {
        sectors[place as usize] = *sector;
    }
}
