//! What is found on images and at a bench, as a text, and whether images claim what they lack. Last
//! sectors are read here byte by byte, apart from the program.

use super::media::Found;
use super::scripts::{Script, key_at, reply_to};
use super::{got, must};
use gm_bench::{Answer, Bench};
use gm_refusals::{CallRefusal, Refusal};
use gm_shelf::Shelf;
use gm_test_bench::{number, try_run, try_view};
use gm_test_media::sector;
use gm_words::status_text;
use sqlite::Alter;
use std::process::Abort;

const IMAGES: [&str; 3] = ["a.img", "b.img", "c.img"];

// Where fields of metadata stand in a last sector. Of a number of several bytes it is the one that
// isn't always zero here.
const VERSION: usize = 16;

const NAME: usize = 20;

const MID: usize = 36;

const DID: usize = 40;

const ALL: usize = 44;

const GENID: usize = 45;

const SYNCID: usize = 49;

const BALANCE: usize = 58;
// In units of 256 bytes.
const OFFSET: usize = 72;

const FLAGS: usize = 87;

// The flag SYNCHRONIZING; and DIRTY and INACTIVE, of which each alone exempts from any claim.
const SYNCHRONIZING: u8 = 2;

const EXEMPT: u8 = 1 | 8;

fn sector_of<H: Shelf>(rt: &impl Abort, shelf: &mut H, name: &str, place: u64) -> [u8; 512] {
    got(rt, sector(shelf, name, place))
}

// The byte that a sector of an image has throughout; 0 if it has several.
fn byte_at<H: Shelf>(rt: &impl Abort, shelf: &mut H, name: &str, place: u64) -> u8 {
    let held = sector_of(rt, shelf, name, place);
    if held == [held[0]; 512] { held[0] } else { 0 }
}

// The same of each sector of its data.
fn data_of<H: Shelf>(rt: &impl Abort, shelf: &mut H, name: &str) -> [u8; 3] {
    [
        byte_at(rt, shelf, name, 0),
        byte_at(rt, shelf, name, 1),
        byte_at(rt, shelf, name, 2),
    ]
}

// What an image says, and what data it has.
fn said<H: Shelf>(rt: &(impl Abort + AllocGlobal), shelf: &mut H, name: &str) -> String {
    let last = sector_of(rt, shelf, name, 3);
    let [first, second, third] = data_of(rt, shelf, name);
    let data = format!(in rt.alloc(); "data {first} {second} {third}").expect(rt, "no memory");
    let text = if last == [0; 512] {
        format!(in rt.alloc(); "\n{name}: nothing, {data}")
    } else {
        let (version, did, all) = (last[VERSION], last[DID], last[ALL]);
        let (genid, syncid) = (last[GENID], last[SYNCID]);
        let (balance, flags) = (last[BALANCE], last[FLAGS]);
        let numbers = format!(in rt.alloc();
            "version {version}, did {did} of {all}, genid {genid}, syncid {syncid}"
        ).expect(rt, "no memory");
        format!(in rt.alloc(); "\n{name}: {numbers}, balance {balance}, flags {flags}, {data}")
    };
    text.expect(rt, "no memory")
}

/// What is found of the images, after a text on mirrors.
pub(super) fn with_images<H: Shelf>(
    rt: &(impl Abort + AllocGlobal),
    mut text: String,
    shelf: &mut H,
) -> String {
    for name in IMAGES {
        let said = said(rt, shelf, name);
        text.push_str(said.as_str()).expect(rt, "no memory");
    }
    text
}

/// The mirrors, as a status shows them.
pub(super) fn mirrors<S: Alter, H: Shelf>(
    rt: &(impl Abort + AllocGlobal),
    bench: &mut Bench<S, H>,
) -> String {
    let state = try_view(rt.alloc(), bench).expect(rt, "no view");
    let status = status_text(rt.alloc(), &state).expect(rt, "no memory");
    String::from_str(rt.alloc(), status.trim()).expect(rt, "no memory")
}

// What a command is answered by a bench that doesn't fail.
fn answer_to<S: Alter, H: Shelf>(
    rt: &(impl Abort + AllocGlobal),
    bench: &mut Bench<S, H>,
    place: u64,
    words: &str,
) -> Answer {
    let key = key_at(rt, place);
    got(rt, try_run(rt.alloc(), bench, key, words)).expect(rt, "a fault")
}

// Whether the key of the command at this place is taken. It writes nothing.
fn is_taken<S: Alter, H: Shelf>(
    rt: &(impl Abort + AllocGlobal),
    bench: &mut Bench<S, H>,
    place: u64,
) -> bool {
    let answer = answer_to(rt, bench, place, "destroy none");
    let is_taken = answer == Answer::Refused(CallRefusal::KeyTaken);
    let no_mirror = Answer::Refused(CallRefusal::ByRules(Refusal::NoMirror));
    must(rt, is_taken || answer == no_mirror, "another answer");
    is_taken
}

/// How many commands of a script were accepted, of which so many were answered: perhaps the one
/// that comes next, and none after it. Each of them is repeated under its number.
pub(super) fn accepted<S: Alter, H: Shelf>(
    rt: &(impl Abort + AllocGlobal),
    bench: &mut Bench<S, H>,
    script: Script,
    done: u64,
) -> u64 {
    let next = done.saturating_add(1);
    must(
        rt,
        !is_taken(rt, bench, next),
        "a command that wasn't handed in",
    );
    let is_next = is_taken(rt, bench, done);
    let commands = if is_next { next } else { done };
    for place in 0..commands {
        let number = place.saturating_add(1);
        let words = script.station(rt, number).words;
        let answer = answer_to(rt, bench, place, words);
        let expected = Answer::Repeated(number, reply_to(words));
        must(rt, answer == expected, "not repeated");
    }
    commands
}

// How many first sectors of a mirror's data the last sector of a component of gm0 claims.
fn claimed(last: &[u8; 512]) -> u8 {
    let is_of_mirror = last[NAME..NAME + 4].starts_with(b"gm0\0") && last[MID] == 7;
    if !is_of_mirror || last[FLAGS] & EXEMPT != 0 {
        return 0;
    }
    if last[FLAGS] & SYNCHRONIZING == 0 {
        return 3;
    }
    last[OFFSET] / 2
}

// The syncid and the data of the mirror: those of a.img, which is ACTIVE wherever there is one.
#[derive(Clone, Copy)]
struct Mirrored {
    syncid: u32,
    data: [u8; 3],
}

// The three bytes that a text says, with spaces between them.
fn three_bytes(text: &str) -> [u8; 3] {
    let mut bytes = [0; 3];
    for (place, said) in text.split(' ').enumerate() {
        if place < 3 {
            bytes[place] = (number(said) % 256) as u8;
        }
    }
    bytes
}

// What is said of a.img, with commas between its parts.
fn mirrored_in(said: &str) -> Mirrored {
    let mut mirrored = Mirrored {
        syncid: 0,
        data: [0; 3],
    };
    for part in said.split(',') {
        if let Some(syncid) = part.strip_prefix(" syncid ") {
            mirrored.syncid = number(syncid);
        }
        if let Some(data) = part.strip_prefix(" data ") {
            mirrored.data = three_bytes(data);
        }
    }
    mirrored
}

// The mirror after so many commands of a script.
fn mirror_behind(rt: &impl Abort, script: Script, commands: u64) -> Mirrored {
    for line in script.station(rt, commands).found.split('\n') {
        if let Some(said) = line.strip_prefix("a.img:") {
            return mirrored_in(said);
        }
    }
    panic!(rt; "no a.img")
}

// Whether so many first sectors of an image are these data.
fn has_data(held: [u8; 3], data: [u8; 3], sectors: u8) -> bool {
    let mut has = true;
    for (place, byte) in held.iter().enumerate() {
        has = has && (usize::from(sectors) <= place || *byte == data[place]);
    }
    has
}

/// Whether each component that counts claims no sector that it lacks. Those count that are
/// registered after so many commands of a script, all that were accepted. Until an adoption is
/// carried out, its images say what they said before it, and don't count. An image with the
/// mirror's syncid after the last command claims the data after it, any other those before it.
pub(super) fn must_claim_truly<H: Shelf>(
    rt: &impl Abort,
    shelf: &mut H,
    script: Script,
    found: Found,
) {
    let Found { commands, pending } = found;
    let station = script.station(rt, commands);
    let is_adopting = pending > 0 && station.words.starts_with("adopt");
    let before = mirror_behind(rt, script, commands.saturating_sub(1));
    let after = mirror_behind(rt, script, commands);
    for (name, listed) in [("a.img", "  a.img "), ("b.img", "  b.img ")] {
        if station.found.contains(listed) && !is_adopting {
            let last = sector_of(rt, shelf, name, 3);
            let is_behind = u32::from(last[SYNCID]) == after.syncid;
            let list = if is_behind { after } else { before };
            let held = data_of(rt, shelf, name);
            let has = has_data(held, list.data, claimed(&last));
            must(rt, has, "a claim of what isn't there");
        }
    }
}
