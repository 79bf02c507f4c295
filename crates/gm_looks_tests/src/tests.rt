//! Each line of what is pending, with its images or without, and each read of them that fails.

use gm_looks::{pending_text, pending_text_on};
use gm_metadata::{Balance, Label, MirrorFlags, encode};
use gm_shelf::{FaultShelf, MemShelf, Shelf, ShelfFault};
use gm_state::{Component, Disk, Intent, Mirror, State, metadata};
use std::process::Abort;

fn label(rt: &impl Abort, text: &str) -> Label {
    Label::new(text).expect(rt, "no label")
}

fn mirror(rt: &impl Abort, name: &str, mid: u32) -> Mirror {
    Mirror {
        name: label(rt, name),
        mid,
        all: 2,
        genid: 0,
        syncid: 1,
        slice: 4096,
        balance: Balance::Load,
        data_sectors: 3,
        flags: MirrorFlags {
            no_autosync: false,
            no_failsync: false,
        },
    }
}

fn component(rt: &impl Abort, mirror: &str, provider: &str, did: u32) -> Component {
    Component {
        provider: label(rt, provider),
        mirror: label(rt, mirror),
        did,
        syncid: 1,
        priority: 0,
        disk: Disk::InSync,
        hardcoded: false,
        sectors: 4,
    }
}

// gm0 on a.img and b.img, and gm1 on c.img.
fn state(rt: &(impl Abort + AllocGlobal)) -> State {
    let mirrors = [mirror(rt, "gm0", 7), mirror(rt, "gm1", 8)];
    let components = [
        component(rt, "gm0", "a.img", 1),
        component(rt, "gm0", "b.img", 2),
        component(rt, "gm1", "c.img", 1),
    ];
    let mirrors = mirrors.to_vec(rt.alloc()).expect(rt, "no memory");
    let components = components.to_vec(rt.alloc()).expect(rt, "no memory");
    State::new(mirrors, components).expect(rt, "no state")
}

const TEXT: &str = concat!(
    "copy 256 sectors of a.img to b.img from 512\n",
    "copy 1 sectors of c.img to d.img from 0\n",
    "copy 0 sectors of a.img to b.img from 7\n",
    "metadata of a.img\nmetadata of c.img\nclear d.img\nclear e.img\n",
    "mark a.img dirty\npatch 2 sectors of b.img from 2\n"
);

const TEXT_ON: &str = concat!(
    "copy 256 sectors of a.img to b.img from 512: a.img as registered, b.img member\n",
    "copy 1 sectors of c.img to d.img from 0: c.img another, d.img no metadata\n",
    "copy 0 sectors of a.img to b.img from 7: a.img as registered, b.img member\n",
    "metadata of a.img: as registered\nmetadata of c.img: another\n",
    "clear d.img: zero\nclear e.img: absent\n",
    "mark a.img dirty: as registered\npatch 2 sectors of b.img from 2: member\n"
);

fn copy(source: Label, target: Label, first: u32, end: u32) -> Intent {
    Intent::Copy {
        source,
        target,
        first,
        end,
    }
}

fn intents(rt: &impl Abort) -> [Intent; 9] {
    let [a, b, c, d, e] = ["a.img", "b.img", "c.img", "d.img", "e.img"].map(|name| label(rt, name));
    [
        copy(a, b, 512, 768),
        copy(c, d, 0, 1),
        copy(a, b, 7, 2),
        Intent::Meta { provider: a },
        Intent::Meta { provider: c },
        Intent::Clear { provider: d },
        Intent::Clear { provider: e },
        Intent::Dirty { provider: a },
        Intent::Patch {
            provider: b,
            first: 2,
            end: 4,
        },
    ]
}

// Adds an image of four sectors, the last of which is this.
fn add(rt: &(impl Abort + AllocGlobal), shelf: &mut MemShelf, name: &str, last: [u8; 512]) {
    let sectors = [[1; 512], [1; 512], [1; 512], last].to_vec(rt.alloc());
    let sectors = sectors.expect(rt, "no memory");
    let provider = label(rt, name);
    assert!(rt; shelf.sectors(provider).is_none());
    shelf.add(provider, sectors).expect(rt, "no memory");
}

// a.img as it is registered, b.img and c.img with what a.img says, and d.img with zeros.
fn shelf(rt: &(impl Abort + AllocGlobal)) -> MemShelf {
    let component = component(rt, "gm0", "a.img", 1);
    let said = encode(&metadata(&mirror(rt, "gm0", 7), &component));
    let mut shelf = MemShelf::new(rt.alloc());
    add(rt, &mut shelf, "a.img", said);
    add(rt, &mut shelf, "b.img", said);
    add(rt, &mut shelf, "c.img", said);
    add(rt, &mut shelf, "d.img", [0; 512]);
    shelf
}

// Whether the lines are told so, with their images.
fn are_told<H: Shelf>(
    rt: &(impl Abort + AllocGlobal),
    state: &State,
    shelf: &mut H,
) -> Result<bool, ShelfFault> {
    let text = pending_text_on(rt.alloc(), state, &intents(rt), shelf)?;
    Ok(text.as_str() == TEXT_ON)
}

// The intents take eleven reads, of which e.img's isn't one: it isn't there.
#[test]
fn each_intent_has_a_line_unless_a_read_fails(rt: HostRuntime) {
    let text = pending_text(rt.alloc(), &intents(&rt)).expect(&rt, "no memory");
    assert!(rt; text.as_str() == TEXT, "another text");
    let state = state(&rt);
    for nth in 1u64..13 {
        let mut shelf = FaultShelf::stop_from(shelf(&rt), nth);
        let wanted = if nth > 11 {
            Ok(true)
        } else {
            Err(ShelfFault::Device)
        };
        assert!(rt; are_told(&rt, &state, &mut shelf) == wanted, "at {nth}");
    }
}
