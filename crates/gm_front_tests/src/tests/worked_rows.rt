//! Rows of commands as the lines of batches: what each line is answered, and what is found after
//! the last one, in the registry and on the images. The rows stand in `rows`.

mod rows;

use super::{Told, got, in_memory, must, open, serving, tell, try_status};
use gm_bench::Bench;
use gm_front::BatchEnd;
use gm_looks::taste_shelf;
use gm_metadata::{Balance, DiskFlags, Label, Metadata, MirrorFlags, Version, encode, read_sector};
use gm_shelf::{MemShelf, Shelf};
use gm_test_media::{add, in_version, sector};
use gm_words::tasting_text;
use rows::ROWS;
use sqlite::{Alter, Connection};
use std::io::Write;
use std::process::Abort;

// What the sectors of an image hold before its last one.
#[derive(Clone, Copy)]
enum Data {
    // That at place i has the byte i + 1, from 256 on again, in each of its bytes.
    Plain,
    // The same, but for the last byte of the one at this place.
    But(u64),
    // This byte in each byte of each.
    All(u8),
}

// What a last sector says of a component of gm0 that is in sync, and in which version.
#[derive(Clone, Copy)]
struct Said {
    version: u8,
    did: u32,
    all: u8,
    genid: u32,
    syncid: u32,
}

// An image of so many sectors, of which the last may carry metadata.
#[derive(Clone, Copy)]
struct Image {
    name: &'static str,
    sectors: u64,
    data: Data,
    last: Option<Said>,
}

// What is asked over images and an empty registry, and what is found then.
#[derive(Clone, Copy)]
struct Row {
    shows: &'static str,
    images: &'static str,
    lines: &'static str,
    found: &'static str,
}

const NO_MIRROR_FLAGS: MirrorFlags = MirrorFlags {
    no_autosync: false,
    no_failsync: false,
};

const NO_DISK_FLAGS: DiskFlags = DiskFlags {
    dirty: false,
    synchronizing: false,
    force_sync: false,
    inactive: false,
};

fn row_of(text: &'static str) -> Option<Row> {
    let mut parts = text.split('|');
    Some(Row {
        shows: parts.next()?.trim(),
        images: parts.next()?.trim(),
        lines: parts.next()?.trim(),
        found: parts.next()?.trim(),
    })
}

// Images that carry no metadata.
fn bare(name: &'static str, sectors: u64, data: Data) -> Image {
    let last = None;
    Image {
        name,
        sectors,
        data,
        last,
    }
}

// One of four sectors that says of itself that it is in sync.
fn claiming(name: &'static str, did: u32, genid: u32, syncid: u32, data: Data) -> Image {
    let (version, all) = (4, 2);
    Image {
        last: Some(Said {
            version,
            did,
            all,
            genid,
            syncid,
        }),
        ..bare(name, 4, data)
    }
}

// One of so many components that says the same in an older version.
fn older(name: &'static str, version: u8, did: u32, all: u8, data: Data) -> Image {
    let (genid, syncid) = (0, 1);
    Image {
        last: Some(Said {
            version,
            did,
            all,
            genid,
            syncid,
        }),
        ..bare(name, 4, data)
    }
}

// The image of this word. The long ones have 257 sectors of data, which differ in one byte. By the
// last ones of a count of syncs there is none after it. What a loss leaves is one image that says
// so, and the lost one, which doesn't.
fn image_of(word: &str) -> Option<Image> {
    match word {
        "a" => Some(bare("a.img", 4, Data::Plain)),
        "b" => Some(bare("b.img", 4, Data::All(200))),
        "c" => Some(bare("c.img", 2, Data::Plain)),
        "short-c" => Some(bare("c.img", 1, Data::Plain)),
        "d" => Some(bare("d.img", 4, Data::All(0))),
        "long-a" => Some(bare("a.img", 258, Data::Plain)),
        "long-b" => Some(bare("b.img", 258, Data::But(256))),
        "last-a" => Some(claiming("a.img", 1, 0, 4294967295, Data::Plain)),
        "last-b" => Some(claiming("b.img", 2, 0, 4294967295, Data::Plain)),
        "claiming-a" => Some(claiming("a.img", 1, 0, 1, Data::Plain)),
        "claiming-b" => Some(claiming("b.img", 2, 0, 1, Data::Plain)),
        "second-a" => Some(older("a.img", 2, 1, 2, Data::Plain)),
        "second-alone" => Some(older("a.img", 2, 1, 1, Data::Plain)),
        "third-b" => Some(older("b.img", 3, 2, 2, Data::But(2))),
        "unequal-b" => Some(claiming("b.img", 2, 0, 1, Data::But(2))),
        "left-a" => Some(claiming("a.img", 1, 1, 1, Data::Plain)),
        "lost-b" => Some(claiming("b.img", 2, 0, 1, Data::Plain)),
        _ => None,
    }
}

// The sector at this place of such data.
fn data_sector(data: Data, place: u64) -> [u8; 512] {
    let byte = (place.wrapping_add(1) % 256) as u8;
    let mut sector = [byte; 512];
    match data {
        Data::Plain => {}
        Data::But(other) => sector[511] = if place == other { byte ^ 1 } else { byte },
        Data::All(byte) => sector = [byte; 512],
    }
    sector
}

fn last_sector(rt: &impl Abort, said: Option<Said>) -> [u8; 512] {
    let Some(said) = said else {
        return [0; 512];
    };
    let metadata = Metadata {
        name: Label::new("gm0").expect(rt, "no label"),
        mid: 7,
        did: said.did,
        all: said.all,
        genid: said.genid,
        syncid: said.syncid,
        priority: 0,
        slice: 4096,
        balance: Balance::Load,
        mediasize: 1536,
        sync_offset: 0,
        mflags: NO_MIRROR_FLAGS,
        dflags: NO_DISK_FLAGS,
        provider: None,
        provsize: 2048,
    };
    if said.version == 4 {
        encode(&metadata)
    } else {
        in_version(said.version, &metadata)
    }
}

fn sectors_of(rt: &(impl Abort + AllocGlobal), image: &Image) -> Vec<[u8; 512]> {
    let mut sectors = Vec::new(rt.alloc());
    for place in 1..image.sectors {
        let sector = data_sector(image.data, place.saturating_sub(1));
        sectors.push(sector).expect(rt, "no memory");
    }
    sectors
        .push(last_sector(rt, image.last))
        .expect(rt, "no memory");
    sectors
}

fn shelf_of(rt: &(impl Abort + AllocGlobal), images: &str) -> MemShelf {
    let mut shelf = MemShelf::new(rt.alloc());
    for word in images.split(' ') {
        if let Some(image) = image_of(word) {
            got(rt, add(&mut shelf, image.name, sectors_of(rt, &image)));
        }
    }
    shelf
}

fn sector_at<H: Shelf>(rt: &impl Abort, shelf: &mut H, name: &str, place: u64) -> [u8; 512] {
    got(rt, sector(shelf, name, place))
}

// Whether the sectors of an image before its last one are plain.
fn is_plain<H: Shelf>(rt: &impl Abort, shelf: &mut H, image: &Image) -> bool {
    for place in 1..image.sectors {
        let place = place.saturating_sub(1);
        if sector_at(rt, shelf, image.name, place) != data_sector(Data::Plain, place) {
            return false;
        }
    }
    true
}

fn push(rt: &impl Abort, text: &mut String, more: &str) {
    text.push_str(more).expect(rt, "no memory");
}

// Appends what an image says, and what it holds.
fn push_said<H: Shelf>(rt: &impl Abort, text: &mut String, shelf: &mut H, image: &Image) {
    let data = if is_plain(rt, shelf, image) {
        "plain"
    } else {
        "other"
    };
    let last = sector_at(rt, shelf, image.name, image.sectors.saturating_sub(1));
    push_last(rt, text, image.name, &last);
    push(rt, text, data);
    push(rt, text, "\n");
}

fn push_last(rt: &impl Abort, text: &mut String, name: &str, last: &[u8; 512]) {
    match read_sector(last) {
        Err(fault) => {
            let number = fault.number();
            write!(text, "{name}: fault {number}, ").expect(rt, "no memory");
        }
        Ok(reading) => {
            push_metadata(rt, text, name, &reading.metadata);
            push_version(rt, text, reading.version);
        }
    }
}

// Appends a version that isn't the one that is written.
fn push_version(rt: &impl Abort, text: &mut String, version: Version) {
    if version != Version::Four {
        let number = version.number();
        write!(text, "version {number}, ").expect(rt, "no memory");
    }
}

fn push_metadata(rt: &impl Abort, text: &mut String, name: &str, metadata: &Metadata) {
    let (did, all) = (metadata.did, metadata.all);
    let (genid, syncid) = (metadata.genid, metadata.syncid);
    let (flags, offset) = (metadata.dflags.bits(), metadata.sync_offset);
    let (mediasize, provsize) = (metadata.mediasize, metadata.provsize);
    write!(
        text,
        "{name}: did {did} of {all}, genid {genid}, syncid {syncid}, "
    )
    .expect(rt, "no memory");
    write!(
        text,
        "flags {flags}, offset {offset}, {mediasize} of {provsize} bytes, "
    )
    .expect(rt, "no memory");
}

// Appends what each image says, and what a taste tells of them.
fn push_images<H: Shelf>(
    rt: &(impl Abort + AllocGlobal),
    text: &mut String,
    shelf: &mut H,
    images: &str,
) {
    for word in images.split(' ') {
        if let Some(image) = image_of(word) {
            push_said(rt, text, shelf, &image);
        } else {
            must(rt, word == "taste", "no such image");
            push_taste(rt, text, shelf);
        }
    }
}

fn push_taste<H: Shelf>(rt: &(impl Abort + AllocGlobal), text: &mut String, shelf: &mut H) {
    let tasted = taste_shelf(rt.alloc(), shelf).expect(rt, "no taste");
    let told = tasting_text(rt.alloc(), &tasted).expect(rt, "no memory");
    push(rt, text, told.as_str());
}

// How a batch ended that was taken whole.
fn end_of(rt: &impl Abort, told: &Told) -> &'static str {
    must(rt, told.left == 0, "something wasn't read");
    match told.end {
        Ok(BatchEnd::Ended { refused: true }) => "with a refusal\n",
        Ok(BatchEnd::Ended { refused: false }) => "without a refusal\n",
        _ => "with a fault\n",
    }
}

// Hands the lines in, and appends what is found of them and of the registry.
fn push_answers<S: Alter, H: Shelf>(
    rt: &(impl Abort + AllocGlobal),
    text: &mut String,
    bench: &mut Bench<S, H>,
    lines: &str,
) {
    let told = tell(rt, bench, lines.as_bytes());
    for byte in told.text.iter() {
        text.push(char::from(*byte)).expect(rt, "no memory");
    }
    push(rt, text, end_of(rt, &told));
    let status = try_status(rt, bench).expect(rt, "no status");
    push(rt, text, status.as_str());
}

// What is found of a row, as a text.
fn push_found<S: Alter + Drop, H: Shelf + Drop>(
    rt: &(impl Abort + AllocGlobal),
    text: &mut String,
    store: Connection<S>,
    shelf: H,
    row: &Row,
) {
    let mut bench = open(rt, store, shelf);
    push_answers(rt, text, &mut bench, row.lines);
    let (_, mut shelf) = bench.close();
    push_images(rt, text, &mut shelf, row.images);
}

fn must_find(rt: &(impl Abort + AllocGlobal), row: &Row) {
    let mut text = String::new(rt.alloc());
    push_found(
        rt,
        &mut text,
        in_memory(rt),
        serving(shelf_of(rt, row.images)),
        row,
    );
    must(rt, text.as_str().trim() == row.found, row.shows);
}

#[test]
fn each_row_is_found_as_worked_out_by_hand(rt: HostRuntime) {
    let mut count = 0u64;
    for text in ROWS.split('=').skip(1) {
        must_find(&rt, &row_of(text).expect(&rt, "no row"));
        count = count.saturating_add(1);
    }
    must(&rt, count == 27, "another count of rows");
}
