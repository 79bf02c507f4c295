//! A patch of one component, stopped before each call, with every image that a crash may then
//! leave.

use super::{DATA, filled, label, last_sector, must, must_hold, sector_of, shelf_before};
use gm_apply::apply;
use gm_metadata::decode;
use gm_shelf::{FaultShelf, MemShelf, Shelf, ShelfFault};
use gm_state::{Disk, Intent};
use std::process::Abort;

// The byte of the sector that is laid over sector 1 of a.
const LAID: u8 = 9;

// How many writes and syncs the whole run makes: of the dirt, of the bytes and of the metadata.
const CALLS: u64 = 6;

fn patch_of_a(rt: &impl Abort) -> [Intent; 3] {
    let provider = label(rt, "a");
    let patch = Intent::Patch {
        provider,
        first: 1,
        end: 2,
    };
    [Intent::Dirty { provider }, patch, Intent::Meta { provider }]
}

fn try_patch<H: Shelf>(rt: &(impl Abort + AllocGlobal), shelf: &mut H) -> Result<(), ShelfFault> {
    apply(shelf, &filled(rt), &patch_of_a(rt), &[[LAID; 512]])
}

fn is_dirty<H: Shelf>(rt: &impl Abort, shelf: &mut H) -> bool {
    let decoded = decode(&sector_of(rt, shelf, "a", 2)).ok();
    decoded.expect(rt, "no metadata").dflags.dirty
}

// An image that says DIRTY claims nothing; any other holds the data as they were before the patch
// or after it, as the last call that was made says.
fn claims_what_it_holds<H: Shelf>(rt: &impl Abort, image: &mut H, nth: u64) {
    must_hold(rt, image, "a", 0, DATA[0]);
    if !is_dirty(rt, image) {
        must_hold(rt, image, "a", 1, if nth < 4 { DATA[1] } else { LAID });
    }
}

// The patch ends as it would have, whatever the image was.
fn leads_on<H: Shelf>(rt: &(impl Abort + AllocGlobal), image: &mut H) {
    must(rt, try_patch(rt, image).is_ok(), "not carried out");
    must_hold(rt, image, "a", 0, DATA[0]);
    must_hold(rt, image, "a", 1, LAID);
    let last = last_sector(rt, "a", 1, Disk::InSync);
    must(
        rt,
        sector_of(rt, image, "a", 2) == last,
        "another last sector",
    );
}

fn stopped_at(rt: &(impl Abort + AllocGlobal), nth: u64) -> MemShelf {
    let mut stops = FaultShelf::stop_from(shelf_before(rt), nth);
    let done = try_patch(rt, &mut stops);
    must(rt, done.is_ok() == (nth > CALLS), "another end");
    stops.into_inner()
}

// The dirt is synced before the bytes are written, and the bytes before the metadata. An image is
// dirty from the write of the dirt on, if a crash keeps it, to that of the metadata.
#[test]
fn a_patch_that_stops_leads_on(rt: HostRuntime) {
    for nth in 1..CALLS + 2 {
        let shelf = stopped_at(&rt, nth);
        for pick in 0..2u32 {
            let mut image = shelf.crash_image(&[pick]).expect(&rt, "no memory");
            let dirty = nth > 2 && nth <= CALLS;
            must(
                &rt,
                pick == 1 || is_dirty(&rt, &mut image) == dirty,
                "another mark",
            );
            claims_what_it_holds(&rt, &mut image, nth);
            leads_on(&rt, &mut image);
        }
    }
}
