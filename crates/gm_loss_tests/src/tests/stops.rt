//! Losses whose shelf or store stops at each of their calls in turn. The same loss is asked again
//! of what that leaves and of what a crash leaves of it: it is done, or repeated if it was
//! accepted, and what is found after it is what a loss leaves that wasn't stopped.

use super::found::{bare, must_be_in_sync};
use super::media::{
    Came, Job, Media, NEVER, Stops, behind, crash_image, must_be_of_a_stop, perform_over, serve,
};
use super::{got, must};
use gm_bench::{Answer, BenchFault};
use gm_shelf::MemShelf;
use gm_state::Reply;
use gm_test_media::{ALL, Calls, StoreBytes, sector};
use std::process::Abort;

// A loss is over long before it makes so many calls of the shelf or of a file.
const MANY: u64 = 400;

// A loss of a.img under a key and a number, after commands of which the last is pending: how many
// intents are pending before it, and how many then; and which syncid and data the others have in
// the end.
#[derive(Clone, Copy)]
struct Loss {
    commands: &'static str,
    key: &'static str,
    number: u64,
    before: u64,
    behind: u64,
    syncid: u32,
    data: [u8; 3],
}

// Of the source of a copy to b.img, after which c.img is the source; and of a component whose
// second sector is patched, as that of b.img and c.img is.
const LOSSES: [Loss; 2] = [
    Loss {
        commands: "label --mid 7 --did 1 gm0 a.img
insert --did 2 gm0 c.img
advance gm0 c.img
insert --did 3 gm0 b.img
advance gm0 b.img",
        key: "k6",
        number: 6,
        before: 2,
        behind: 4,
        syncid: 1,
        data: [10, 11, 12],
    },
    Loss {
        commands: "label --mid 7 --did 1 gm0 a.img
insert --did 2 gm0 c.img
advance gm0 c.img
insert --did 3 gm0 b.img
advance gm0 b.img
patch 1 60 gm0",
        key: "k7",
        number: 7,
        before: 9,
        behind: 8,
        syncid: 2,
        data: [10, 60, 12],
    },
];

impl Loss {
    // What it comes to that isn't stopped.
    fn done(self) -> Came {
        Came::Lost(Answer::Done(self.number, Reply::Plain), self.before)
    }

    // What it comes to again while so many intents are pending.
    fn repeated(self, pending: u64) -> Came {
        Came::Lost(Answer::Repeated(self.number, Reply::Plain), pending)
    }

    // The media before it: the image is gone.
    fn start(self, rt: &(impl Abort + AllocGlobal)) -> Media {
        behind(rt, &bare(rt), self.commands)
    }
}

// The loss asked again of what a stop left, in which no image is strange, and not stopped: nothing
// is pending after it, and all is as it is to be; what it came to.
fn loses_again(
    rt: &(impl Abort + AllocGlobal),
    loss: Loss,
    store: &StoreBytes,
    shelf: &MemShelf,
) -> Came {
    must_be_of_a_stop(rt, store, shelf);
    let (came, over) = perform_over(rt, store, shelf, Job::Lose(loss.key));
    let (looked, mut left) = perform_over(rt, &over.store, &over.shelf, Job::Look);
    must(rt, looked == Came::Opened(0), "something is pending");
    must_be_in_sync(rt, &mut left.shelf, loss.syncid, loss.data);
    came
}

// A loss whose shelf stops at its nth call, before or after it acts.
fn stop_shelf(
    rt: &(impl Abort + AllocGlobal),
    loss: Loss,
    from: &Media,
    acts: bool,
    nth: u64,
) -> (Came, Media) {
    let stops = Stops { nth, acts, ..NEVER };
    let left = serve(rt, (&from.store, &from.shelf), stops, Job::Lose(loss.key));
    must(rt, !left.stopped, "the store stopped");
    (left.came, left.media)
}

// Whether two shelves hold the same.
fn are_alike(rt: &impl Abort, first: &mut MemShelf, other: &mut MemShelf) -> bool {
    let mut alike = true;
    for at in 0u64..8 {
        let name = if at < 4 { "b.img" } else { "c.img" };
        let held = got(rt, sector(first, name, at % 4));
        alike = alike && held == got(rt, sector(other, name, at % 4));
    }
    alike
}

// The picks of this number of a crash: no more than three sectors are unsynced at a time, each of
// them written once.
fn picked(rt: &impl Abort, shelf: &MemShelf, number: u32) -> MemShelf {
    crash_image(rt, shelf, &[number % 2, number / 2 % 2, number / 4])
}

// Each number, and the one that lacks its last pick: the same image has been visited if there is no
// sector for that.
const NUMBERS: [(u32, u32); 8] = [
    (0, 0),
    (1, 0),
    (2, 0),
    (3, 1),
    (4, 0),
    (5, 1),
    (6, 2),
    (7, 3),
];

// Asks the loss again of each image that a crash may leave of a shelf. It was accepted before the
// shelf was called.
fn visit_each(rt: &(impl Abort + AllocGlobal), loss: Loss, left: &Media, pending: u64) {
    for (number, earlier) in NUMBERS {
        let mut image = picked(rt, &left.shelf, number);
        let mut visited = picked(rt, &left.shelf, earlier);
        if number == 0 || !are_alike(rt, &mut image, &mut visited) {
            let came = loses_again(rt, loss, &left.store, &image);
            must(rt, came == loss.repeated(pending), "not repeated");
        }
    }
}

// A loss whose shelf stops so at its nth call, or comes to this, and what is found after it;
// whether it wasn't stopped. All that the loss left pending is still so if it was.
fn shelf_stops_at(
    rt: &(impl Abort + AllocGlobal),
    loss: Loss,
    from: &Media,
    (acts, nth): (bool, u64),
    expected: &Came,
) -> bool {
    let (came, left) = stop_shelf(rt, loss, from, acts, nth);
    let ended = came == *expected;
    let well = ended || came == Came::Failed(BenchFault::Disk);
    must(rt, well, "another fault");
    visit_each(rt, loss, &left, if ended { 0 } else { loss.behind });
    ended
}

// Stops at each call of the shelf in turn, until a loss ends; after how many calls.
fn stop_at_each(
    rt: &(impl Abort + AllocGlobal),
    loss: Loss,
    from: &Media,
    acts: bool,
    expected: &Came,
) -> u64 {
    let mut calls: u64 = 0;
    let mut ended = false;
    for nth in 1..MANY {
        if !ended {
            ended = shelf_stops_at(rt, loss, from, (acts, nth), expected);
            calls = nth;
        }
    }
    must(rt, ended, "no loss ended");
    calls
}

#[test]
fn a_loss_whose_shelf_stops_is_repeated(rt: HostRuntime) {
    for loss in LOSSES {
        let from = loss.start(&rt);
        for acts in [false, true] {
            let calls = stop_at_each(&rt, loss, &from, acts, &loss.done());
            println!(rt; "{calls} calls of the shelf").expect(&rt, "no output");
            must(&rt, calls > 10, "a stop didn't come");
        }
    }
}

// A loss that was stopped after its commit, and is stopped again when it is repeated.
fn stop_twice(rt: &(impl Abort + AllocGlobal), loss: Loss, from: &Media, acts: bool, first: u64) {
    let (came, left) = stop_shelf(rt, loss, from, acts, first);
    must(rt, came == Came::Failed(BenchFault::Disk), "no stop");
    stop_at_each(rt, loss, &left, acts, &loss.repeated(loss.behind));
}

// A loss that stopped so, and is stopped so again at each call of the shelf.
fn stop_repeated(rt: &(impl Abort + AllocGlobal), acts: bool) {
    for loss in LOSSES {
        let from = loss.start(rt);
        for first in 1..8 {
            stop_twice(rt, loss, &from, acts, first);
        }
    }
}

#[test]
fn a_repeated_loss_whose_shelf_stops_before_a_call_is_repeated(rt: HostRuntime) {
    stop_repeated(&rt, false);
}

#[test]
fn a_repeated_loss_whose_shelf_stops_after_a_call_is_repeated(rt: HostRuntime) {
    stop_repeated(&rt, true);
}

// The loss is done if its commit didn't come, and else repeated, with all or nothing of it
// pending; nothing is if it was answered.
fn visit(
    rt: &(impl Abort + AllocGlobal),
    loss: Loss,
    store: &StoreBytes,
    shelf: &MemShelf,
    was_done: bool,
) {
    let came = loses_again(rt, loss, store, shelf);
    let is_over = came == loss.repeated(0);
    let stays = came == loss.done() || came == loss.repeated(loss.behind);
    must(rt, is_over || stays && !was_done, "another answer");
}

// One loss over files that serve so many calls, and both media as they stand and as a crash leaves
// them, which loses of both what isn't synced; whether the stop didn't come.
fn store_stops_at(rt: &(impl Abort + AllocGlobal), loss: Loss, from: &Media, files: Calls) -> bool {
    let stops = Stops { files, ..NEVER };
    let left = serve(rt, (&from.store, &from.shelf), stops, Job::Lose(loss.key));
    let was_done = left.came == loss.done();
    let well = was_done || left.came == Came::Failed(BenchFault::Store);
    must(rt, well, "another fault");
    visit(rt, loss, &left.media.store, &left.media.shelf, was_done);
    let crashed = crash_image(rt, &left.media.shelf, &[]);
    visit(rt, loss, &left.crashed, &crashed, was_done);
    was_done && !left.stopped
}

// Stops at each call of a file in turn, of the log or of the database, until a loss ends without
// a stop; after how many calls.
fn stop_file(rt: &(impl Abort + AllocGlobal), loss: Loss, from: &Media, is_log: bool) -> u64 {
    let mut count: u64 = 0;
    let mut ended = false;
    for served in 0..MANY {
        if !ended {
            let files = if is_log {
                Calls { log: served, ..ALL }
            } else {
                Calls { db: served, ..ALL }
            };
            ended = store_stops_at(rt, loss, from, files);
            count = served;
        }
    }
    must(rt, ended, "no loss ended");
    count
}

#[test]
fn a_loss_whose_store_stops_is_done_or_repeated(rt: HostRuntime) {
    for loss in LOSSES {
        let from = loss.start(&rt);
        for is_log in [true, false] {
            let calls = stop_file(&rt, loss, &from, is_log);
            println!(rt; "{calls} calls of a file").expect(&rt, "no output");
            must(&rt, calls > 2, "a stop didn't come");
        }
    }
}
