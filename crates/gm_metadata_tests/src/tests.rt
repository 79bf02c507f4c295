//! The hash of a sector is taken from the library `md5`. The sums here are those of RFC 1321, and
//! those of the sectors are `md5sum`'s of their first 119 bytes, in version 2 of their first 111.

use gm_metadata::{
    Balance, DiskFlags, Label, Metadata, MirrorFlags, Version, decode, encode, version_of,
};
use gm_shelf::{MemShelf, Shelf, write_meta};
use gm_words::dump_text;
use md5::{Digest, Md5};
use std::test::Fail;

// The sum of no bytes.
const OF_NOTHING: [u8; 16] = [
    0xd4, 0x1d, 0x8c, 0xd9, 0x8f, 0x00, 0xb2, 0x04, 0xe9, 0x80, 0x09, 0x98, 0xec, 0xf8, 0x42, 0x7e,
];

// The sum of `abc`.
const OF_ABC: [u8; 16] = [
    0x90, 0x01, 0x50, 0x98, 0x3c, 0xd2, 0x4f, 0xb0, 0xd6, 0x96, 0x3f, 0x7d, 0x28, 0xe1, 0x7f, 0x72,
];

// The sums of the metadata below in versions 2 and 3.
const IN_TWO: [u8; 16] = [
    0x9e, 0xba, 0x41, 0xf2, 0x04, 0xfe, 0x1a, 0xd2, 0x2c, 0xdb, 0xab, 0xff, 0x33, 0x18, 0x6e, 0xd4,
];

const IN_THREE: [u8; 16] = [
    0x1f, 0x18, 0x80, 0x9c, 0x8f, 0xf1, 0x95, 0x62, 0x8b, 0xf0, 0xd6, 0x58, 0x49, 0xb4, 0x63, 0x7e,
];

const DUMP: &str = "magic: GEOM::MIRROR
version: 4
name: gm0
mid: 3735928559
did: 2
all: 3
genid: 5
syncid: 6
priority: 200
slice: 8192
balance: split
mediasize: 1536
sectorsize: 512
sync_offset: 1024
mflags: NOAUTOSYNC
dflags: SYNCHRONIZING,FORCE_SYNC
provider: b.img
provsize: 2048
md5: ec98fb0a2490959db21eed6541d8a025
";

fn label(text: &str) -> Result<Label, Fail> {
    Ok(Label::new(text).ok_or("no label")?)
}

// Each field has a value that no other one has.
fn metadata() -> Result<Metadata, Fail> {
    Ok(Metadata {
        name: label("gm0")?,
        mid: 3735928559,
        did: 2,
        all: 3,
        genid: 5,
        syncid: 6,
        priority: 200,
        slice: 8192,
        balance: Balance::Split,
        mediasize: 1536,
        sync_offset: 1024,
        mflags: MirrorFlags {
            no_autosync: true,
            no_failsync: false,
        },
        dflags: DiskFlags {
            dirty: false,
            synchronizing: true,
            force_sync: true,
            inactive: false,
        },
        provider: Some(label("b.img")?),
        provsize: 2048,
    })
}

#[test]
fn the_hash_is_that_of_rfc_1321(rt: HostRuntime) -> Result<(), Fail> {
    let nothing: [u8; 16] = Md5::digest(b"").into();
    assert_eq!(rt; nothing, OF_NOTHING);
    let abc: [u8; 16] = Md5::digest(b"abc").into();
    assert_eq!(rt; abc, OF_ABC);
    Ok(())
}

#[test]
fn a_written_sector_says_its_metadata(rt: HostRuntime) -> Result<(), Fail> {
    let alloc = rt.alloc();
    let name = label("b.img")?;
    let mut shelf = MemShelf::new(alloc);
    assert!(rt; shelf.sectors(name).is_none());
    shelf.add(name, vec![in alloc; [7; 512]; 4]?)?;
    write_meta(&mut shelf, name, &metadata()?)?;
    let mut last = [0; 512];
    shelf.read(name, 3, &mut last)?;
    let text = dump_text(alloc, &last)?;
    assert_eq!(rt; text.as_str(), DUMP);
    shelf.read(name, 2, &mut last)?;
    assert!(rt; last == [7; 512]);
    Ok(())
}

// The metadata in an older version, with this hash at its place and rests after it.
fn older(metadata: &Metadata, version: Version, hash: &[u8]) -> [u8; 512] {
    let mut draft = encode(metadata);
    let at = version.hash_at();
    for (place, byte) in hash.iter().enumerate().take(16) {
        draft[at + place] = *byte;
    }
    draft[16] = version.number() as u8;
    draft
}

#[test]
fn version_2_tells_no_size_of_the_provider(rt: HostRuntime) -> Result<(), Fail> {
    let sector = older(&metadata()?, Version::Two, &IN_TWO);
    assert!(rt; version_of(&sector) == Some(2));
    let said = Metadata {
        provsize: 0,
        ..metadata()?
    };
    assert!(rt; decode(&sector) == Ok(said));
    let text = dump_text(rt.alloc(), &sector)?;
    assert!(rt; text.starts_with("magic: GEOM::MIRROR\nversion: 2\nname: gm0\n"));
    assert!(rt; text.ends_with("provsize: 0\nmd5: 9eba41f204fe1ad22cdbabff33186ed4\n"));
    Ok(())
}

#[test]
fn version_3_tells_the_size_of_the_provider(rt: HostRuntime) -> Result<(), Fail> {
    let sector = older(&metadata()?, Version::Three, &IN_THREE);
    assert!(rt; version_of(&sector) == Some(3));
    assert!(rt; decode(&sector) == Ok(metadata()?));
    let text = dump_text(rt.alloc(), &sector)?;
    assert!(rt; text.starts_with("magic: GEOM::MIRROR\nversion: 3\nname: gm0\n"));
    assert!(rt; text.ends_with("provsize: 2048\nmd5: 1f18809c8ff195628bf0d65849b4637e\n"));
    Ok(())
}
