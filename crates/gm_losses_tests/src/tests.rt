//! Each kind of loss, on disks in memory, and each read of its images that fails.

use gm_apply::Watch;
use gm_commands::{BalanceWord, Command, NewComponent, NewMirror, Providers, Slice};
use gm_losses::{Loss, losses};
use gm_metadata::{Balance, Label, MirrorFlags, encode};
use gm_shelf::{FaultShelf, MemShelf, Shelf, ShelfFault};
use gm_state::{Component, Disk, Mirror, State, metadata};
use std::process::Abort;

fn label(rt: &impl Abort, text: &str) -> Label {
    Label::new(text).expect(rt, "no label")
}

fn mirror(rt: &impl Abort, name: &str, mid: u32) -> Mirror {
    Mirror {
        name: label(rt, name),
        mid,
        all: 3,
        genid: 1,
        syncid: 1,
        slice: 4096,
        balance: Balance::Load,
        data_sectors: 3,
        flags: MirrorFlags {
            no_autosync: false,
            no_failsync: false,
        },
    }
}

fn component(rt: &impl Abort, provider: &str, did: u32, disk: Disk) -> Component {
    Component {
        provider: label(rt, provider),
        mirror: label(rt, "gm0"),
        did,
        syncid: 1,
        priority: 0,
        disk,
        hardcoded: false,
        sectors: 4,
    }
}

// gm0 on a.img and b.img, which have its data, and on c.img, which is being filled.
fn state(rt: &(impl Abort + AllocGlobal)) -> State {
    let filled = Disk::Copying {
        forced: false,
        held: 1,
    };
    let components = [
        component(rt, "a.img", 1, Disk::InSync),
        component(rt, "b.img", 2, Disk::InSync),
        component(rt, "c.img", 3, filled),
    ];
    let mirrors = [mirror(rt, "gm0", 7)].to_vec(rt.alloc());
    let components = components.to_vec(rt.alloc()).expect(rt, "no memory");
    State::new(mirrors.expect(rt, "no memory"), components).expect(rt, "no state")
}

const ZEROS: [u8; 512] = [0; 512];

// A sector of zeros but for its first byte.
fn one_byte() -> [u8; 512] {
    let mut sector = ZEROS;
    sector[0] = 1;
    sector
}

// The first sector of a database.
fn database() -> [u8; 512] {
    let mut sector = ZEROS;
    for (place, byte) in b"SQLite format 3\0".iter().enumerate() {
        if let Some(kept) = sector.get_mut(place) {
            *kept = *byte;
        }
    }
    sector
}

// Adds an image of so many sectors: zeros but for these.
fn add(
    rt: &(impl Abort + AllocGlobal),
    shelf: &mut MemShelf,
    name: &str,
    count: usize,
    held: &[(usize, [u8; 512])],
) {
    let mut sectors = vec![in rt.alloc(); ZEROS; count].expect(rt, "no memory");
    for (place, sector) in held {
        if let Some(kept) = sectors.get_mut(*place) {
            *kept = *sector;
        }
    }
    let provider = label(rt, name);
    assert!(rt; shelf.sectors(provider).is_none());
    shelf.add(provider, sectors).expect(rt, "no memory");
}

// Metadata of a mirror with this did and syncid.
fn said(rt: &impl Abort, name: &str, did: u32, syncid: u32, dirty: bool) -> [u8; 512] {
    let mut said = metadata(
        &mirror(rt, name, 5),
        &component(rt, "x.img", did, Disk::InSync),
    );
    said.syncid = syncid;
    said.dflags.dirty = dirty;
    encode(&said)
}

// What a.img says as it is registered.
fn registered(rt: &impl Abort) -> [u8; 512] {
    encode(&metadata(
        &mirror(rt, "gm0", 7),
        &component(rt, "a.img", 1, Disk::InSync),
    ))
}

// a.img as it is registered; d.img and e.img of gm1, with e.img newer; i.img, which is blank; j.img
// with data in sector 128; k.img, a database with data in its last sector; m.img and n.img of gm2,
// with m.img newer and DIRTY; and p.img and q.img of gm3, which differ in two sectors.
fn images(rt: &(impl Abort + AllocGlobal)) -> MemShelf {
    let mut shelf = MemShelf::new(rt.alloc());
    add(rt, &mut shelf, "a.img", 4, &[(3, registered(rt))]);
    add(
        rt,
        &mut shelf,
        "d.img",
        4,
        &[(3, said(rt, "gm1", 1, 3, false))],
    );
    add(
        rt,
        &mut shelf,
        "e.img",
        4,
        &[(3, said(rt, "gm1", 2, 4, false))],
    );
    add(rt, &mut shelf, "i.img", 4, &[]);
    add(rt, &mut shelf, "j.img", 130, &[(128, one_byte())]);
    add(
        rt,
        &mut shelf,
        "k.img",
        4,
        &[(0, database()), (3, one_byte())],
    );
    add(
        rt,
        &mut shelf,
        "m.img",
        4,
        &[(3, said(rt, "gm2", 1, 4, true))],
    );
    add(
        rt,
        &mut shelf,
        "n.img",
        4,
        &[(3, said(rt, "gm2", 2, 3, false))],
    );
    add(
        rt,
        &mut shelf,
        "p.img",
        4,
        &[(2, one_byte()), (3, said(rt, "gm3", 1, 3, false))],
    );
    add(
        rt,
        &mut shelf,
        "q.img",
        4,
        &[(1, one_byte()), (3, said(rt, "gm3", 2, 3, false))],
    );
    shelf
}

// What was told of the last run.
#[derive(Drop)]
struct Told {
    sectors: u64,
    total: u64,
}

impl Watch for Told {
    fn compared(&mut self, _provider: Label, sectors: u64, total: u64) {
        self.sectors = sectors;
        self.total = total;
    }
}

fn labelled(rt: &impl Abort, name: &str, provider: &str) -> Command {
    Command::Label(NewMirror {
        name: label(rt, name),
        provider: label(rt, provider),
        mid: 9,
        did: 1,
        balance: BalanceWord::Load,
        slice: Slice::new(4096).expect(rt, "no slice"),
        flags: MirrorFlags {
            no_autosync: false,
            no_failsync: false,
        },
        hardcoded: false,
    })
}

fn inserted(rt: &impl Abort, name: &str, provider: &str) -> Command {
    Command::Insert(NewComponent {
        name: label(rt, name),
        provider: label(rt, provider),
        did: 9,
        priority: 0,
        hardcoded: false,
    })
}

fn providers(rt: &(impl Abort + AllocGlobal), names: &[&str]) -> Providers {
    let mut named = Vec::new(rt.alloc());
    for name in names {
        named.push(label(rt, *name)).expect(rt, "no memory");
    }
    Providers::new(named).expect(rt, "none")
}

fn adopted(rt: &(impl Abort + AllocGlobal), name: &str, names: &[&str]) -> Command {
    Command::Adopt {
        name: label(rt, name),
        providers: providers(rt, names),
    }
}

// Whether just these losses are told, in this order, and just that to the watch at last.
fn are_told<H: Shelf>(
    rt: &(impl Abort + AllocGlobal),
    shelf: &mut H,
    command: &Command,
    watched: [u64; 2],
    expected: &[Loss],
) -> Result<bool, ShelfFault> {
    let mut told = Told {
        sectors: 0,
        total: 0,
    };
    let list = losses(rt.alloc(), shelf, &state(rt), command, &mut told)?;
    Ok(list.as_slice() == expected && [told.sectors, told.total] == watched)
}

// A command takes so many reads, and is told so unless one of the first six or the last fails.
fn tells(
    rt: &(impl Abort + AllocGlobal),
    command: &Command,
    reads: u64,
    watched: [u64; 2],
    expected: &[Loss],
) {
    for nth in [1, 2, 3, 4, 5, 6, reads.max(1), reads.saturating_add(1)] {
        let mut shelf = FaultShelf::stop_from(images(rt), nth);
        let wanted = if nth > reads {
            Ok(true)
        } else {
            Err(ShelfFault::Device)
        };
        let told = are_told(rt, &mut shelf, command, watched, expected);
        assert!(rt; told == wanted, "at {nth} of {reads}");
    }
}

// Of a label two sectors are read. Of an insert they are too, and then each run of 128 sectors up to
// the first data; of an image that is lost or cleared its last one, and of an adoption that of each
// image, and then the data of those that are compared.
#[test]
fn each_loss_is_told_unless_a_read_fails(rt: HostRuntime) {
    let [a, b, d, e, i, j, k, n, q] = [
        "a.img", "b.img", "d.img", "e.img", "i.img", "j.img", "k.img", "n.img", "q.img",
    ]
    .map(|name| label(&rt, name));
    let name = label(&rt, "gm0");
    let both = [
        Loss::Database { provider: k },
        Loss::LastSector { provider: k },
    ];
    tells(&rt, &labelled(&rt, "gm9", "i.img"), 2, [0, 0], &[]);
    tells(&rt, &labelled(&rt, "gm9", "k.img"), 2, [0, 0], &both);
    tells(&rt, &inserted(&rt, "gm0", "i.img"), 6, [4, 4], &[]);
    tells(&rt, &inserted(&rt, "gm0", "k.img"), 2, [0, 0], &both[..1]);
    let data = Loss::Data {
        provider: j,
        place: 128,
    };
    tells(
        &rt,
        &inserted(&rt, "gm0", "j.img"),
        132,
        [128, 130],
        &[data],
    );
    let providers = providers(&rt, &["a.img"]);
    let intact = Loss::Intact { provider: a };
    tells(
        &rt,
        &Command::Lost { name, providers },
        1,
        [0, 0],
        &[intact],
    );
    let left = Loss::Left {
        provider: e,
        newer: true,
    };
    tells(&rt, &adopted(&rt, "gm1", &["d.img"]), 10, [0, 0], &[left]);
    let whole = Loss::Whole { provider: n };
    tells(&rt, &adopted(&rt, "gm2", &["m.img"]), 10, [0, 0], &[whole]);
    tells(&rt, &adopted(&rt, "gm2", &["n.img"]), 10, [0, 0], &[]);
    let differs = Loss::Differs {
        provider: q,
        sectors: 2,
        first: 1,
    };
    tells(
        &rt,
        &adopted(&rt, "gm3", &["q.img", "p.img"]),
        16,
        [3, 3],
        &[differs],
    );
    let member = Loss::Member {
        provider: d,
        mirror: label(&rt, "gm1"),
    };
    tells(&rt, &Command::Clear { provider: d }, 1, [0, 0], &[member]);
    tells(&rt, &Command::Clear { provider: i }, 1, [0, 0], &[]);
    let deactivate = Command::Deactivate { name, provider: a };
    let copy = Loss::OnlyCopy { provider: b };
    tells(&rt, &deactivate, 0, [0, 0], &[copy]);
    let all = Loss::Mirror { components: 3 };
    tells(&rt, &Command::Destroy { name }, 0, [0, 0], &[all]);
    tells(&rt, &Command::Forget { name }, 0, [0, 0], &[]);
}
