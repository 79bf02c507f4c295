//! How many first sectors of two images are equal, and how they differ. A run is 128 sectors, and the
//! shelf reads each sector of it by itself.

use super::{add, label, must};
use gm_apply::{Difference, Unwatched, Watch, differing_sectors, equal_sectors};
use gm_metadata::Label;
use gm_shelf::{FaultShelf, MemShelf, Shelf, ShelfFault};
use std::process::Abort;

// So many sectors, each of one byte by its place, but for these places, which hold 0xff as no other
// does.
fn image(rt: &(impl Abort + AllocGlobal), sectors: u16, differing: &[u16]) -> Vec<[u8; 512]> {
    let mut image = Vec::new(rt.alloc());
    for place in 0..sectors {
        let byte = if differing.contains(&place) {
            0xff
        } else {
            (place % 251) as u8
        };
        image.push([byte; 512]).expect(rt, "no memory");
    }
    image
}

// Two providers, one of 300 sectors and one of so many, which differ at these places.
fn two_images(rt: &(impl Abort + AllocGlobal), sectors: u16, differing: &[u16]) -> MemShelf {
    let mut shelf = MemShelf::new(rt.alloc());
    add(rt, &mut shelf, "a", image(rt, 300, &[]));
    add(rt, &mut shelf, "b", image(rt, sectors, differing));
    shelf
}

// What it was told last, and how often it was told.
#[derive(Clone, Copy)]
struct Told {
    calls: u64,
    sectors: u64,
    total: u64,
}

impl Watch for Told {
    fn compared(&mut self, _provider: Label, sectors: u64, total: u64) {
        self.calls = self.calls.saturating_add(1);
        self.sectors = sectors;
        self.total = total;
    }
}

const UNTOLD: Told = Told {
    calls: 0,
    sectors: 0,
    total: 0,
};

fn equal<H: Shelf>(rt: &impl Abort, shelf: &mut H, limit: u64) -> Result<u64, ShelfFault> {
    let (a, b) = (label(rt, "a"), label(rt, "b"));
    equal_sectors(shelf, a, b, limit, &mut Unwatched)
}

fn difference<H: Shelf>(
    rt: &impl Abort,
    shelf: &mut H,
    sectors: u64,
    told: &mut Told,
) -> Result<Difference, ShelfFault> {
    let (a, b) = (label(rt, "a"), label(rt, "b"));
    differing_sectors(shelf, a, b, sectors, told)
}

// Which of 300 sectors differ, and how many are compared. How many first ones are equal, how many
// differ, which is the first of these, and in how many runs the watch is told of them.
type Case = (&'static [u16], u64, u64, u64, u64, u64);

const CASES: [Case; 10] = [
    (&[], 300, 300, 0, 300, 3),
    (&[0], 300, 0, 1, 0, 3),
    (&[127], 300, 127, 1, 127, 3),
    (&[128], 300, 128, 1, 128, 3),
    (&[299], 300, 299, 1, 299, 3),
    (&[127, 128, 129], 300, 127, 3, 127, 3),
    (&[200, 5, 201], 300, 5, 3, 5, 3),
    (&[127, 128], 128, 127, 1, 127, 1),
    (&[130], 130, 130, 0, 130, 2),
    (&[0], 0, 0, 0, 0, 0),
];

#[test]
fn two_images_are_compared(rt: HostRuntime) {
    for (differing, compared, first_ones, sectors, first, calls) in CASES {
        let mut shelf = two_images(&rt, 300, differing);
        let counted = equal(&rt, &mut shelf, compared);
        must(&rt, counted == Ok(first_ones), "another count");
        let mut told = UNTOLD;
        let found = difference(&rt, &mut shelf, compared, &mut told);
        must(
            &rt,
            found == Ok(Difference { sectors, first }),
            "another difference",
        );
        let all = told.sectors == compared && told.total == compared;
        must(&rt, all && told.calls == calls, "told otherwise");
    }
}

const DEVICE: Result<u64, ShelfFault> = Err(ShelfFault::Device);

// Which sectors differ, from which read on all fail, and how the count ends: nothing is read after
// the run that differs. All sectors of both images take 600 reads.
const FAILING: [(&[u16], u64, Result<u64, ShelfFault>); 5] = [
    (&[], 1, DEVICE),
    (&[], 129, DEVICE),
    (&[], 257, DEVICE),
    (&[], 600, DEVICE),
    (&[127], 257, Ok(127)),
];

#[test]
fn a_read_that_fails_is_told(rt: HostRuntime) {
    for (differing, nth, counted) in FAILING {
        let mut shelf = FaultShelf::stop_from(two_images(&rt, 300, differing), nth);
        must(&rt, equal(&rt, &mut shelf, 300) == counted, "another count");
        let mut shelf = FaultShelf::stop_from(shelf.into_inner(), nth);
        let found = difference(&rt, &mut shelf, 300, &mut UNTOLD);
        must(&rt, found == Err(ShelfFault::Device), "a difference");
    }
    let mut short = two_images(&rt, 200, &[]);
    must(&rt, equal(&rt, &mut short, 300) == Ok(200), "another count");
    let found = difference(&rt, &mut short, 300, &mut UNTOLD);
    must(&rt, found == Err(ShelfFault::Range), "past the end");
}
