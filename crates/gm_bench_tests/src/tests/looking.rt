//! What tells of a bench: each once, of images of which something wrote over one; and audits and
//! scrubs whose shelf fails at each of their looks.

use super::{Watched, filled, got, must, serving, stopping};
use gm_bench::{Bench, BenchFault, Phase, Watch};
use gm_looks::{Flaw, Scrubbed, Standing, Unlike, taste_shelf};
use gm_metadata::Label;
use gm_shelf::Shelf;
use gm_state::Reply;
use gm_test_bench::{open, try_accepted, try_audit, try_kept, try_scrub, try_unlike};
use gm_test_media::label;
use gm_words::tasting_text;
use sqlite::{Alter, Connection};
use std::process::Abort;

// Nothing is done with what it is told.
#[derive(Drop)]
struct Unheard;

impl Watch for Unheard {
    fn compared(&mut self, _provider: Label, _sectors: u64, _total: u64) {}
}

#[derive(Clone, Copy)]
enum Look {
    Audit,
    Scrub,
}

// Whether it lists nothing.
fn try_look<S: Alter, H: Shelf>(
    rt: &impl AllocGlobal,
    bench: &mut Bench<S, H>,
    look: Look,
) -> Result<bool, BenchFault> {
    match look {
        Look::Audit => Ok(try_audit(rt.alloc(), bench)?.is_empty()),
        Look::Scrub => Ok(try_scrub(rt.alloc(), bench, None, &mut Unheard)?.is_empty()),
    }
}

// One over a shelf of which a look fails closes the bench; else it lists nothing.
fn look_at<S: Alter + Drop, H: Shelf + Drop>(
    rt: &(impl Abort + AllocGlobal),
    store: Connection<S>,
    shelf: Watched<H>,
    look: Look,
    fails: bool,
) -> (Connection<S>, H) {
    let mut bench = got(rt, open(rt.alloc(), store, shelf));
    let told = try_look(rt, &mut bench, look);
    if fails {
        must(rt, told == Err(BenchFault::Disk), "another fault");
        must(rt, bench.phase() == Phase::Failed, "not closed");
        let again = try_look(rt, &mut bench, look);
        must(rt, again == Err(BenchFault::Closed), "looked at again");
        let count = try_accepted(&mut bench);
        must(rt, count == Err(BenchFault::Closed), "counted");
    } else {
        must(rt, told == Ok(true), "it lists some");
        must(rt, bench.phase() == Phase::Ready, "closed");
    }
    let (store, shelf) = bench.close();
    (store, shelf.inner.into_inner())
}

// An audit of two components looks at two sectors; a scrub of two images of three data sectors
// takes six. Each is done over a shelf whose nth look fails, and at last over one that serves all.
#[test]
fn a_look_that_fails_closes_the_bench(rt: HostRuntime) {
    let (mut store, mut shelf) = filled(&rt);
    for nth in 1u64..8 {
        (store, shelf) = look_at(&rt, store, stopping(shelf, nth), Look::Audit, nth < 3);
        (store, shelf) = look_at(&rt, store, stopping(shelf, nth), Look::Scrub, nth < 7);
    }
}

// The command under a key, and how many there are.
fn must_tell_commands<S: Alter, H: Shelf>(rt: &impl Abort, bench: &mut Bench<S, H>) {
    let found = try_kept(bench, "k2").expect(rt, "no look");
    let kept = found.expect(rt, "no command under k2");
    let words = "insert --did 2 --priority 0 --hardcode off gm0 b.img";
    let is_told = kept.number == 2 && kept.words.as_str() == words && kept.reply == Reply::Plain;
    must(rt, is_told, "another command");
    let none = try_kept(bench, "k9").expect(rt, "no look");
    must(rt, none.is_none(), "a command under k9");
    must(rt, try_accepted(bench) == Ok(3), "another count");
}

// What a command is about that stands otherwise than it is registered, and what an audit and a
// scrub list.
fn must_tell_of_b<S: Alter, H: Shelf>(
    rt: &(impl Abort + AllocGlobal),
    bench: &mut Bench<S, H>,
    provider: Label,
) {
    let standing = Standing::NoMetadata;
    let unlike = got(rt, try_unlike(rt.alloc(), bench, "remove gm0 a.img"));
    let unlike = unlike.expect(rt, "no look");
    let expected = [Unlike { provider, standing }];
    must(rt, unlike.as_slice() == expected.as_slice(), "another one");
    let audited = try_audit(rt.alloc(), bench).expect(rt, "no audit");
    must(
        rt,
        audited.as_slice() == [provider].as_slice(),
        "another name",
    );
    let flaw = Flaw::Differs {
        sectors: 1,
        first: 1,
    };
    let scrubbed = try_scrub(rt.alloc(), bench, None, &mut Unheard);
    let scrubbed = scrubbed.expect(rt, "no scrub");
    let expected = [Scrubbed { provider, flaw }];
    must(
        rt,
        scrubbed.as_slice() == expected.as_slice(),
        "another flaw",
    );
}

const TASTED: &str = "gm0             mid 7 genid 0 syncid 1
  a.img           ACTIVE
  source: a.img
left out:
  b.img           no metadata
";

// b.img has another sector of data, and nothing in its last one.
fn must_tell<S: Alter + Drop, H: Shelf + Drop>(
    rt: &(impl Abort + AllocGlobal),
    store: Connection<S>,
    mut shelf: H,
) {
    let b = got(rt, label("b.img"));
    let sectors = shelf.sectors(b).expect(rt, "no b.img");
    let last = sectors.saturating_sub(1);
    for (place, byte) in [(1u64, 9u8), (last, 0)] {
        let written = shelf.write(b, place, &[byte; 512]);
        must(rt, written.is_ok(), "not written");
    }
    let mut bench = got(rt, open(rt.alloc(), store, shelf));
    must_tell_commands(rt, &mut bench);
    must_tell_of_b(rt, &mut bench, b);
    let (_, mut shelf) = bench.close();
    let tasted = taste_shelf(rt.alloc(), &mut shelf).expect(rt, "no taste");
    let text = tasting_text(rt.alloc(), &tasted).expect(rt, "no memory");
    must(rt, text.as_str() == TASTED, "another taste");
}

#[test]
fn each_look_tells_what_is_there(rt: HostRuntime) {
    let (store, shelf) = filled(&rt);
    must_tell(&rt, store, serving(shelf));
}
