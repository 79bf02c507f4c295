//! A patch that is stopped between a write of its data and the sync after that.

use super::{MANY, ask, filled, got, must, serving};
use gm_metadata::{DiskFlags, Metadata};
use gm_shelf::{FaultShelf, MemShelf, Shelf};
use gm_state::Reply;
use gm_test_bench::{Asked, IN_SYNC, metadata, must_say, open};
use gm_test_media::{CountingShelf, sector};
use sqlite::{Alter, Connection};
use std::process::Abort;

const DIRTY: DiskFlags = DiskFlags {
    dirty: true,
    ..IN_SYNC
};

const PATCH: Asked = Asked {
    key: "k4",
    words: "patch 2 255 gm0",
    number: 4,
    reply: Reply::Plain,
    was_done: false,
};

// Which syncid and flags an image says, and the byte that each sector of its data has throughout.
#[derive(Clone, Copy)]
struct Held {
    syncid: u32,
    flags: DiskFlags,
    data: [u8; 3],
}

const UNPATCHED: Held = Held {
    syncid: 1,
    flags: IN_SYNC,
    data: [1, 2, 3],
};

const PATCHED: Held = Held {
    syncid: 2,
    flags: IN_SYNC,
    data: [1, 2, 255],
};

// A component of gm0, which has two, holds this.
fn must_have<H: Shelf>(rt: &impl Abort, shelf: &mut H, name: &str, did: u32, held: Held) {
    let said = Metadata {
        syncid: held.syncid,
        ..got(rt, metadata(did, 2, held.flags))
    };
    got(rt, must_say(shelf, name, Some(said)));
    for (place, byte) in held.data.iter().enumerate() {
        let found = got(rt, sector(shelf, name, place as u64));
        must(rt, found == [*byte; 512], "other data");
    }
}

fn must_hold<H: Shelf>(rt: &impl Abort, shelf: &mut H, first: Held, second: Held) {
    must_have(rt, shelf, "a.img", 1, first);
    must_have(rt, shelf, "b.img", 2, second);
}

// Whether a crash leaves the third sector of a.img as it was, or as it is patched, if it picks
// so of the one sector that isn't synced.
fn is_torn(rt: &impl Abort, shelf: &MemShelf) -> bool {
    let mut torn = true;
    for (pick, byte) in [(0u32, 3u8), (1, 255)] {
        let mut image = shelf.crash_image(&[pick]).expect(rt, "no memory");
        torn = torn && got(rt, sector(&mut image, "a.img", 2)) == [byte; 512];
    }
    torn
}

// a.img is marked, whichever data it has, and b.img is as it was; the opening lays the rest.
fn is_carried_out<S: Alter + Drop>(
    rt: &(impl Abort + AllocGlobal),
    store: Connection<S>,
    shelf: MemShelf,
) {
    for (pick, byte) in [(0u32, 3u8), (1, 255)] {
        let marked = Held {
            syncid: 2,
            flags: DIRTY,
            data: [1, 2, byte],
        };
        let mut image = shelf.crash_image(&[pick]).expect(rt, "no memory");
        must_hold(rt, &mut image, marked, UNPATCHED);
    }
    let bench = got(rt, open(rt.alloc(), store, serving(shelf)));
    must(rt, bench.redone() == 6, "another count of what was pending");
    let (_, mut shelf) = bench.close();
    must_hold(rt, &mut shelf, PATCHED, PATCHED);
}

// Stops after each call in turn: after one of them the sector of a.img is written and not synced.
#[test]
fn a_patch_that_is_stopped_leaves_its_image_marked(rt: HostRuntime) {
    let mut found = 0u64;
    for nth in 1..MANY {
        let (store, shelf) = filled(&rt);
        let stopping = CountingShelf::new(FaultShelf::stop_after(shelf, nth));
        let (_, store, shelf) = ask(&rt, store, stopping, PATCH);
        if is_torn(&rt, &shelf) {
            found = found.saturating_add(1);
            is_carried_out(&rt, store, shelf);
        }
    }
    must(&rt, found == 1, "another number of such stops");
}
