//! Images of a few sectors, on a shelf in memory.

ghost use Rattle.std.specs.Prelude.{◌↔◌, IsOk, IsTrue};

use gm_metadata::{Label, Metadata, encode};
use gm_shelf::{MemShelf, Shelf};
use md5::{Digest, Md5};
use std::alloc::Global;
use std::test::Fail;

/// Fails with these words if it doesn't hold.
pub fn must(holds: bool, what: &'static str) -> Result<(), Fail>
    ensures { IsOk result ↔ IsTrue holds }
{
    if holds { Ok(()) } else { Err(what)? }
}

/// The label of a text that is one.
pub fn label(text: &str) -> Result<Label, Fail> {
    Ok(Label::new(text).ok_or("no label")?)
}

/// So many sectors of data, each with its number from 1 on in each byte, and a last one, which says
/// this.
pub fn image(alloc: Global, data_sectors: u8, last: [u8; 512]) -> Result<Vec<[u8; 512]>, Fail> {
    let mut sectors = Vec::new(alloc);
    for place in 0..data_sectors {
        sectors.push([place + 1; 512])?;
    }
    sectors.push(last)?;
    Ok(sectors)
}

/// The sector that says this in version 2 or 3, with the hash that its fields have then.
pub fn in_version(number: u8, metadata: &Metadata) -> [u8; 512] {
    let end = if number == 2 { 111 } else { 119 };
    let written = encode(metadata);
    let mut sector = [0; 512];
    sector[..end].copy_from_slice(&written[..end]);
    sector[16] = number;
    let hash: [u8; 16] = Md5::digest(&sector[..end]).into();
    sector[end..end + 16].copy_from_slice(&hash);
    sector
}

/// Adds an image under a name that no other has.
pub fn add(shelf: &mut MemShelf, name: &str, sectors: Vec<[u8; 512]>) -> Result<(), Fail> {
    let provider = label(name)?;
    if shelf.sectors(provider).is_some() {
        return Err("the image is there")?;
    }
    shelf.add(provider, sectors)?;
    Ok(())
}

/// a.img, b.img and c.img, of four sectors each, which carry no metadata.
pub fn shelf(alloc: Global) -> Result<MemShelf, Fail> {
    let mut shelf = MemShelf::new(alloc);
    for name in ["a.img", "b.img", "c.img"] {
        add(&mut shelf, name, image(alloc, 3, [0; 512])?)?;
    }
    Ok(shelf)
}

/// One sector of a shelf that no bench holds.
pub fn sector<H: Shelf>(shelf: &mut H, name: &str, place: u64) -> Result<[u8; 512], Fail> {
    let mut sector = [0; 512];
    shelf.read(label(name)?, place, &mut sector)?;
    Ok(sector)
}

/// Fails if two shelves of a.img, b.img and c.img don't hold the same.
pub fn must_be_alike<H: Shelf>(first: &mut H, second: &mut H) -> Result<(), Fail> {
    for name in ["a.img", "b.img", "c.img"] {
        for place in 0u64..4 {
            let held = sector(first, name, place)?;
            must(held == sector(second, name, place)?, "another sector")?;
        }
    }
    Ok(())
}
