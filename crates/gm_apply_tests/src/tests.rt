//! A copy and the metadata that claim it, stopped before each call, with every image that a crash
//! may then leave. `copies.rt` tries copies alone, `comparing.rt` the counts of sectors that are equal
//! and that differ, and `patches.rt` a patch.

mod comparing;
mod copies;
mod patches;

use gm_apply::apply;
use gm_metadata::{Balance, Label, MirrorFlags, decode, encode};
use gm_shelf::{FaultShelf, MemShelf, Shelf, ShelfFault};
use gm_state::{Component, Disk, Intent, Mirror, State, metadata};
use std::process::Abort;

// The mirror's data: what the first byte of each sector is.
const DATA: [u8; 2] = [7, 8];

// How many reads, writes and syncs the whole run makes: two reads and a write for each copied
// sector and a sync, a write and a sync.
const CALLS: u64 = 9;

// What fails ends a test at once, here and below: so a proof has no way out of each call to go
// through, on which all that is held would be let go.
fn must(rt: &impl Abort, holds: bool, what: &str) {
    assert!(rt; holds, "{what}");
}

fn label(rt: &impl Abort, text: &str) -> Label {
    Label::new(text).expect(rt, "no label")
}

fn mirror(rt: &impl Abort) -> Mirror {
    Mirror {
        name: label(rt, "gm0"),
        mid: 7,
        all: 2,
        genid: 0,
        syncid: 1,
        slice: 4096,
        balance: Balance::Load,
        data_sectors: 2,
        flags: MirrorFlags {
            no_autosync: false,
            no_failsync: false,
        },
    }
}

fn component(rt: &impl Abort, provider: &str, did: u32, disk: Disk) -> Component {
    Component {
        provider: label(rt, provider),
        mirror: label(rt, "gm0"),
        did,
        syncid: 1,
        priority: 0,
        disk,
        hardcoded: false,
        sectors: 3,
    }
}

// The mirror of a and b as it is when b was filled.
fn filled(rt: &(impl Abort + AllocGlobal)) -> State {
    let components = [
        component(rt, "a", 1, Disk::InSync),
        component(rt, "b", 2, Disk::InSync),
    ];
    let mirrors = [mirror(rt)].to_vec(rt.alloc()).expect(rt, "no memory");
    let components = components.to_vec(rt.alloc()).expect(rt, "no memory");
    State::new(mirrors, components).expect(rt, "a state")
}

fn last_sector(rt: &impl Abort, provider: &str, did: u32, disk: Disk) -> [u8; 512] {
    encode(&metadata(&mirror(rt), &component(rt, provider, did, disk)))
}

fn add(rt: &impl Abort, shelf: &mut MemShelf, provider: &str, sectors: Vec<[u8; 512]>) {
    let provider = label(rt, provider);
    assert!(rt; shelf.sectors(provider).is_none());
    must(rt, shelf.add(provider, sectors).is_ok(), "no memory");
}

fn add_copy(
    rt: &(impl Abort + AllocGlobal),
    shelf: &mut MemShelf,
    provider: &str,
    sectors: &[[u8; 512]],
) {
    let sectors = sectors.to_vec(rt.alloc()).expect(rt, "no memory");
    add(rt, shelf, provider, sectors);
}

// Carries intents out, in a test that needs this to succeed.
fn applies<H: Shelf>(rt: &(impl Abort + AllocGlobal), shelf: &mut H, intents: &[Intent]) {
    must(rt, try_apply(rt, shelf, intents).is_ok(), "not carried out");
}

// Carries them out over the mirror of a and b. It has no clause, so that a proof doesn't carry what
// the call promises.
fn try_apply<H: Shelf>(
    rt: &(impl Abort + AllocGlobal),
    shelf: &mut H,
    intents: &[Intent],
) -> Result<(), ShelfFault> {
    apply(shelf, &filled(rt), intents, &[])
}

// Of b nothing is copied yet.
fn shelf_before(rt: &(impl Abort + AllocGlobal)) -> MemShelf {
    let mut shelf = MemShelf::new(rt.alloc());
    let a = last_sector(rt, "a", 1, Disk::InSync);
    let not_begun = Disk::Copying {
        forced: false,
        held: 0,
    };
    let b = last_sector(rt, "b", 2, not_begun);
    add_copy(rt, &mut shelf, "a", &[[DATA[0]; 512], [DATA[1]; 512], a]);
    add_copy(rt, &mut shelf, "b", &[[0; 512], [0; 512], b]);
    shelf
}

fn copy_and_meta(rt: &impl Abort) -> [Intent; 2] {
    let (source, target) = (label(rt, "a"), label(rt, "b"));
    let copy = Intent::Copy {
        source,
        target,
        first: 0,
        end: 2,
    };
    [copy, Intent::Meta { provider: target }]
}

fn sector_of<H: Shelf>(rt: &impl Abort, shelf: &mut H, provider: &str, place: u64) -> [u8; 512] {
    let mut sector = [0; 512];
    let read = shelf.read(label(rt, provider), place, &mut sector);
    must(rt, read.is_ok(), "not read");
    sector
}

// A sector has this byte in each of its places.
fn must_hold<H: Shelf>(rt: &impl Abort, shelf: &mut H, provider: &str, place: u64, byte: u8) {
    let sector = sector_of(rt, shelf, provider, place);
    must(rt, sector == [byte; 512], "another sector");
}

// How many data sectors the provider's metadata claim.
fn claimed<H: Shelf>(rt: &impl Abort, shelf: &mut H, provider: &str) -> u64 {
    let decoded = decode(&sector_of(rt, shelf, provider, 2)).ok();
    let metadata = decoded.expect(rt, "no metadata");
    if metadata.dflags.synchronizing {
        metadata.sync_offset / 512
    } else {
        2
    }
}

// Each data sector that the provider's metadata claim holds the mirror's data.
fn must_hold_claimed<H: Shelf>(rt: &impl Abort, shelf: &mut H, provider: &str) {
    let claimed = claimed(rt, shelf, provider);
    for (place, byte) in DATA.iter().enumerate() {
        if (place as u64) < claimed {
            must_hold(rt, shelf, provider, place as u64, *byte);
        }
    }
}

// Both providers hold what they hold at the end.
fn must_be_filled<H: Shelf>(rt: &impl Abort, shelf: &mut H) {
    for (provider, did) in [("a", 1), ("b", 2)] {
        for (place, byte) in DATA.iter().enumerate() {
            must_hold(rt, shelf, provider, place as u64, *byte);
        }
        let last = last_sector(rt, provider, did, Disk::InSync);
        must(
            rt,
            sector_of(rt, shelf, provider, 2) == last,
            "another last sector",
        );
    }
}

// What stands after a run that was stopped at this call.
fn stopped_at(rt: &(impl Abort + AllocGlobal), nth: u64) -> MemShelf {
    let mut stops = FaultShelf::stop_from(shelf_before(rt), nth);
    let done = try_apply(rt, &mut stops, &copy_and_meta(rt));
    let wanted = if nth > CALLS {
        Ok(())
    } else {
        Err(ShelfFault::Device)
    };
    must(rt, done == wanted, "another end");
    stops.into_inner()
}

// Carries the copy and the metadata out to their end.
fn fills<H: Shelf>(rt: &(impl Abort + AllocGlobal), shelf: &mut H) {
    applies(rt, shelf, &copy_and_meta(rt));
    must_be_filled(rt, shelf);
}

// An image claims what it holds, and leads on.
fn claims_and_leads_on<H: Shelf>(rt: &(impl Abort + AllocGlobal), image: &mut H) {
    must_hold_claimed(rt, image, "a");
    must_hold_claimed(rt, image, "b");
    fills(rt, image);
}

#[test]
fn every_image_claims_what_it_holds_and_leads_on(rt: HostRuntime) {
    for nth in 1..CALLS + 2 {
        let shelf = stopped_at(&rt, nth);
        // At most two sectors are unsynced at any time, each written once.
        for picks in 0..4u32 {
            let pick = [picks & 1, picks >> 1 & 1];
            let image = shelf.crash_image(&pick);
            claims_and_leads_on(&rt, &mut image.expect(&rt, "no memory"));
        }
    }
}

#[test]
fn a_clear_wants_its_sector_and_leaves_zeros(rt: HostRuntime) {
    let provider = label(&rt, "a");
    let mut shelf = MemShelf::new(rt.alloc());
    let absent = try_apply(&rt, &mut shelf, &[Intent::Meta { provider }]);
    must(&rt, absent == Err(ShelfFault::Absent), "not absent");
    add(&rt, &mut shelf, "a", Vec::new(rt.alloc()));
    let range = try_apply(&rt, &mut shelf, &[Intent::Clear { provider }]);
    must(&rt, range == Err(ShelfFault::Range), "not too short");
    let mut shelf = shelf_before(&rt);
    applies(&rt, &mut shelf, &[Intent::Clear { provider }]);
    for (place, byte) in [(0, DATA[0]), (1, DATA[1]), (2, 0)] {
        must_hold(&rt, &mut shelf, "a", place, byte);
    }
}
