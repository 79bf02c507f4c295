//! A command whose calls are made one by one, and what the bench shows between them.

use super::{got, in_memory, must, serving};
use gm_bench::{Answer, Bench, Phase};
use gm_metadata::Metadata;
use gm_shelf::{MemShelf, Shelf};
use gm_state::Reply;
use gm_test_bench::{
    IN_SYNC, LABEL, metadata, must_be, open, try_accept, try_apply, try_last, try_settle, try_view,
};
use gm_test_media::{add, image, label};
use sqlite::{Alter, Connection};
use std::process::Abort;

// a.img, and one without sectors.
fn with_an_empty_one(rt: &(impl Abort + AllocGlobal)) -> MemShelf {
    let mut shelf = MemShelf::new(rt.alloc());
    let sectors = got(rt, image(rt.alloc(), 3, [0; 512]));
    got(rt, add(&mut shelf, "a.img", sectors));
    got(rt, add(&mut shelf, "empty.img", Vec::new(rt.alloc())));
    shelf
}

// What the last sector of an image holds.
fn last_of<S: Alter, H: Shelf>(
    rt: &impl Abort,
    bench: &mut Bench<S, H>,
    name: &str,
) -> Option<[u8; 512]> {
    try_last(bench, got(rt, label(name))).expect(rt, "no look")
}

// The phase, how many mirrors and components are viewed, and what a.img says.
fn must_show<S: Alter, H: Shelf>(
    rt: &(impl Abort + AllocGlobal),
    bench: &mut Bench<S, H>,
    phase: Phase,
    count: usize,
    said: Option<Metadata>,
) {
    let state = try_view(rt.alloc(), bench).expect(rt, "no view");
    must(rt, state.mirrors().len() == count, "other mirrors");
    must(rt, state.components().len() == count, "other components");
    let last = last_of(rt, bench, "a.img").expect(rt, "no last sector");
    got(rt, must_be(&last, said));
    for none in ["empty.img", "x.img"] {
        must(rt, last_of(rt, bench, none).is_none(), "a last sector");
    }
    must(rt, bench.phase() == phase, "another phase");
}

// What a.img says after the label.
fn labelled(rt: &impl Abort) -> Option<Metadata> {
    Some(got(rt, metadata(1, 1, IN_SYNC)))
}

// The label, which is accepted now or was before.
fn is_answered<S: Alter, H: Shelf>(
    rt: &(impl Abort + AllocGlobal),
    bench: &mut Bench<S, H>,
    answer: Answer,
) {
    let given = got(rt, try_accept(rt.alloc(), bench, "k1", LABEL));
    must(rt, given == Ok(answer), "another answer");
}

fn goes_through_its_phases<S: Alter + Drop, H: Shelf + Drop>(
    rt: &(impl Abort + AllocGlobal),
    store: Connection<S>,
    shelf: H,
) {
    let mut bench = got(rt, open(rt.alloc(), store, shelf));
    must_show(rt, &mut bench, Phase::Ready, 0, None);
    is_answered(rt, &mut bench, Answer::Done(1, Reply::Plain));
    must_show(rt, &mut bench, Phase::Pending, 1, None);
    must(
        rt,
        got(rt, try_apply(&mut bench)).is_ok(),
        "not carried out",
    );
    must_show(rt, &mut bench, Phase::Applied, 1, labelled(rt));
    must(rt, got(rt, try_settle(&mut bench)).is_ok(), "not settled");
    must_show(rt, &mut bench, Phase::Ready, 1, labelled(rt));
    is_answered(rt, &mut bench, Answer::Repeated(1, Reply::Plain));
    must_show(rt, &mut bench, Phase::Ready, 1, labelled(rt));
}

#[test]
fn a_command_goes_through_its_phases(rt: HostRuntime) {
    goes_through_its_phases(&rt, in_memory(&rt), serving(with_an_empty_one(&rt)));
}
