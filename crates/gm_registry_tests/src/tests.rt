//! Each statement once over memory, with values worked out by hand.

mod calls;
mod counting;
mod first;
mod parts;
mod patched;
mod reading;
mod rows;
mod stops;
mod stored;

use gm_changes::{Change, decide};
use gm_commands::{BalanceWord, Command, NewComponent, NewMirror, Slice};
use gm_metadata::{Balance, Label, MirrorFlags};
use gm_refusals::{Fact, Facts};
use gm_rows::StoreFault;
use gm_state::{Component, Disk, Mirror, State};
use std::process::Abort;
use std::test::Fail;

const NO_FLAGS: MirrorFlags = MirrorFlags {
    no_autosync: false,
    no_failsync: false,
};

// What fails ends a test at once, here and below: so a proof has no way out of each call to go
// through, on which all that is held would be let go.
fn must(rt: &impl Abort, holds: bool, what: &str) {
    assert!(rt; holds, "{what}");
}

// What is there in place of a failure.
fn got<T>(rt: &impl Abort, outcome: Result<T, Fail>) -> T {
    match outcome {
        Ok(value) => value,
        Err(_) => panic!(rt; "it failed"),
    }
}

fn label(rt: &impl Abort, text: &str) -> Label {
    Label::new(text).expect(rt, "no label")
}

fn mirror(rt: &impl Abort, all: u8) -> Mirror {
    Mirror {
        name: label(rt, "gm0"),
        mid: 7,
        all,
        genid: 0,
        syncid: 1,
        slice: 4096,
        balance: Balance::Load,
        data_sectors: 3,
        flags: NO_FLAGS,
    }
}

fn component(rt: &impl Abort, provider: &str, did: u32) -> Component {
    Component {
        provider: label(rt, provider),
        mirror: label(rt, "gm0"),
        did,
        syncid: 1,
        priority: 0,
        disk: Disk::InSync,
        hardcoded: false,
        sectors: 4,
    }
}

fn state(rt: &(impl Abort + AllocGlobal), mirrors: &[Mirror], components: &[Component]) -> State {
    let mirrors = mirrors.to_vec(rt.alloc()).expect(rt, "no memory");
    let components = components.to_vec(rt.alloc()).expect(rt, "no memory");
    State::new(mirrors, components).expect(rt, "no state")
}

fn bare(rt: &impl Abort, provider: &str) -> Fact {
    Fact {
        provider: label(rt, provider),
        sectors: 4,
        last: [0; 512],
        equal: 0,
    }
}

fn change(
    rt: &(impl Abort + AllocGlobal),
    state: &State,
    facts: &[Fact],
    command: &Command,
) -> Change {
    let facts = Facts::new(facts.to_vec(rt.alloc()).expect(rt, "no memory"));
    let decided = decide(rt.alloc(), state, &facts, command).expect(rt, "no memory");
    decided.ok().expect(rt, "refused")
}

// A mirror on one provider, of four sectors.
fn labels_on(rt: &(impl Abort + AllocGlobal), name: &str, provider: &str, mid: u32) -> Change {
    let command = Command::Label(NewMirror {
        name: label(rt, name),
        provider: label(rt, provider),
        mid,
        did: 1,
        balance: BalanceWord::Load,
        slice: Slice::new(4096).expect(rt, "no slice"),
        flags: NO_FLAGS,
        hardcoded: true,
    });
    change(rt, &state(rt, &[], &[]), &[bare(rt, provider)], &command)
}

// gm0 on a.img.
fn labels(rt: &(impl Abort + AllocGlobal)) -> Change {
    labels_on(rt, "gm0", "a.img", 7)
}

// b.img beside it.
fn inserts(rt: &(impl Abort + AllocGlobal)) -> Change {
    let command = Command::Insert(NewComponent {
        name: label(rt, "gm0"),
        provider: label(rt, "b.img"),
        did: 2,
        priority: 9,
        hardcoded: false,
    });
    let state = state(rt, &[mirror(rt, 1)], &[component(rt, "a.img", 1)]);
    change(
        rt,
        &state,
        &[bare(rt, "a.img"), bare(rt, "b.img")],
        &command,
    )
}

// Both are gone.
fn destroys(rt: &(impl Abort + AllocGlobal)) -> Change {
    let command = Command::Destroy {
        name: label(rt, "gm0"),
    };
    let components = [component(rt, "a.img", 1), component(rt, "b.img", 2)];
    let state = state(rt, &[mirror(rt, 2)], &components);
    change(
        rt,
        &state,
        &[bare(rt, "a.img"), bare(rt, "b.img")],
        &command,
    )
}

#[test]
fn faults_have_texts(rt: HostRuntime) {
    for (fault, text) in [
        (StoreFault::Memory, "out of memory"),
        (StoreFault::Store, "the store failed"),
        (StoreFault::Unreadable, "the registry is unreadable"),
    ] {
        let shown = format!(in rt.alloc(); "{fault}").expect(&rt, "no memory");
        must(&rt, shown.as_str() == text, text);
    }
}
