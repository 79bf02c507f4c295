//! Images at the start, and what is found on them after the loss of a.img.

use super::{got, must};
use gm_metadata::Metadata;
use gm_shelf::MemShelf;
use gm_test_bench::{IN_SYNC, metadata, must_be};
use gm_test_media::{add, sector};
use std::process::Abort;

// An image of three sectors of data, each of which has a number of its own in each byte.
fn put(rt: &(impl Abort + AllocGlobal), shelf: &mut MemShelf, name: &str, first: u8) {
    let mut sectors = Vec::new(rt.alloc());
    for place in 0u8..3 {
        let byte = first.wrapping_add(place);
        sectors.push([byte; 512]).expect(rt, "no memory");
    }
    sectors.push([0; 512]).expect(rt, "no memory");
    got(rt, add(shelf, name, sectors));
}

/// a.img, b.img and c.img, which carry no metadata, and whose data are those of 10, 20 and 30.
pub(super) fn bare(rt: &(impl Abort + AllocGlobal)) -> MemShelf {
    let mut shelf = MemShelf::new(rt.alloc());
    for (name, first) in [("a.img", 10u8), ("b.img", 20), ("c.img", 30)] {
        put(rt, &mut shelf, name, first);
    }
    shelf
}

// Whether an image says that it is in sync in a mirror that lost a.img, as this component and with
// this syncid, and each sector of its data has this byte throughout.
fn must_hold(
    rt: &impl Abort,
    shelf: &mut MemShelf,
    (name, did): (&str, u32),
    syncid: u32,
    data: [u8; 3],
) {
    let expected = Metadata {
        genid: 1,
        syncid,
        ..got(rt, metadata(did, 3, IN_SYNC))
    };
    let last = got(rt, sector(shelf, name, 3));
    got(rt, must_be(&last, Some(expected)));
    for (place, byte) in data.iter().enumerate() {
        let held = got(rt, sector(shelf, name, place as u64));
        must(rt, held == [*byte; 512], name);
    }
}

/// b.img and c.img are in sync, with this syncid and these data.
pub(super) fn must_be_in_sync(rt: &impl Abort, shelf: &mut MemShelf, syncid: u32, data: [u8; 3]) {
    for component in [("b.img", 3u32), ("c.img", 2)] {
        must_hold(rt, shelf, component, syncid, data);
    }
}
