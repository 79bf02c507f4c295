//! How far a long work is, told on the complaints.

use crate::amount::{Amount, Portion, SECTOR};
use crate::legible::Legible;
use crate::terminal_width::terminal_columns;
use gm_apply::Watch;
use gm_metadata::Label;
use std::io::Write;
use std::time::{Duration, Instant};

/// How it is told.
#[derive(Clone, Copy, Debug, PartialEq, Eq)]
pub enum Style {
    /// Not at all.
    Quiet,
    /// A line at each ten per cent, but only one a second; and a line when all is done.
    Lines,
    /// One line, which is written over again, and which is no wider than the terminal.
    Bar,
}

// How long a bar stays at least, in milliseconds.
const BAR_STAYS: u64 = 100;

// How long it takes at least from one line to the next, in milliseconds.
const LINE_AFTER: u64 = 1000;

// What is under way: an image, how many sectors it had when it was told of first, and when.
#[derive(Clone, Copy)]
struct UnderWay {
    image: Label,
    first: u64,
    since: Option<Instant>,
    tenths: u64,
}

/// Tells how far images are.
#[derive(Drop)]
pub struct Meter<'a, E> {
    rt: &'a HostRuntime,
    /// What it is told on, which also takes lines of whoever has the meter.
    pub complaints: &'a mut Legible<E>,
    style: Style,
    columns: usize,
    under_way: Option<UnderWay>,
    shown: Option<Instant>,
}

// How many parts of so many a part is of the whole: with 100, per cents.
fn parts(of: u64, part: u64, whole: u64) -> u64 {
    part.saturating_mul(of) / whole.max(1)
}

// How many bytes these sectors have.
fn bytes(sectors: u64) -> u64 {
    sectors.saturating_mul(SECTOR)
}

// How long ago that was, in milliseconds, and 1 at least.
fn milliseconds_since(rt: &HostRuntime, since: Instant) -> Option<u64> {
    let gone = since.elapsed(rt).ok()?;
    let seconds = gone.as_secs().saturating_mul(1000);
    Some(
        seconds
            .saturating_add(u64::from(gone.subsec_millis()))
            .max(1),
    )
}

// Whether so many milliseconds are over at a moment, from another one on if there is one.
fn are_over(milliseconds: u64, now: Instant, since: Option<Instant>) -> bool {
    match since {
        Some(since) => {
            now.saturating_duration_since(since) >= Duration::from_millis(milliseconds)
        }
        None => true,
    }
}

impl<'a, E: Write> Meter<'a, E> {
    /// Of nothing yet.
    pub fn new(rt: &'a HostRuntime, complaints: &'a mut Legible<E>, style: Style) -> Meter<'a, E> {
        Meter {
            rt,
            complaints,
            style,
            columns: terminal_columns(rt),
            under_way: None,
            shown: None,
        }
    }

    // What is known of an image that is told of.
    fn under_way(&self, image: Label, part: u64) -> UnderWay {
        match self.under_way {
            Some(known) if known.image == image => known,
            _ => UnderWay {
                image,
                first: part,
                since: Instant::now(self.rt).ok(),
                tenths: 0,
            },
        }
    }

    // Adds a field to a line, if the line is then not too wide.
    fn push_field(&self, line: &mut String, field: &str) {
        let wide = line.len().saturating_add(field.len()).saturating_add(1);
        if wide <= self.columns {
            let _ = line.push_str(" ");
            let _ = line.push_str(field);
        }
    }

    // How many seconds are left, and how fast it is, if anything of it was done.
    fn push_speed(&self, line: &mut String, known: &UnderWay, part: u64, whole: u64) {
        let Some(since) = known.since else {
            return;
        };
        let Some(gone) = milliseconds_since(self.rt, since) else {
            return;
        };
        let done = part.saturating_sub(known.first);
        if done == 0 {
            return;
        }
        let alloc = self.rt.alloc();
        let left = whole.saturating_sub(part).saturating_mul(gone) / done.max(1) / 1000;
        let (minutes, seconds) = (left / 60, left % 60);
        if let Ok(left) = format!(in alloc; "{minutes}:{seconds:02} left") {
            self.push_field(line, left.as_str());
        }
        let rate = Amount(bytes(done).saturating_mul(1000) / gone.max(1));
        if let Ok(rate) = format!(in alloc; "{rate}/s") {
            self.push_field(line, rate.as_str());
        }
    }

    // The line of a bar: the image and the per cents, and as many fields more as there is room for.
    fn bar_line(&self, known: &UnderWay, part: u64, whole: u64) -> Option<String> {
        let alloc = self.rt.alloc();
        let image = known.image;
        let percent = parts(100, part, whole);
        let mut line = format!(in alloc; "{image} {percent}%").ok()?;
        let portion = Portion {
            bytes: bytes(part),
            whole: bytes(whole),
        };
        let portion = format!(in alloc; "{portion}").ok()?;
        self.push_field(&mut line, portion.as_str());
        self.push_speed(&mut line, known, part, whole);
        Some(line)
    }

    fn show_bar(&mut self, known: &UnderWay, part: u64, whole: u64) {
        let Ok(now) = Instant::now(self.rt) else {
            return;
        };
        if !are_over(BAR_STAYS, now, self.shown) {
            return;
        }
        let Some(line) = self.bar_line(known, part, whole) else {
            return;
        };
        // It is cleared first: a terminal that clears after a full line would take its end away.
        let _ = self.complaints.clear_line();
        let _ = write!(self.complaints, "{line}");
        let _ = self.complaints.flush();
        self.shown = Some(now);
    }

    // Whether it is time for a line, from the last one on, or else from the image's beginning on.
    fn line_is_due(&self, known: &UnderWay, now: Option<Instant>) -> bool {
        let since = match self.shown {
            Some(shown) => Some(shown),
            None => known.since,
        };
        match now {
            Some(now) => are_over(LINE_AFTER, now, since),
            None => false,
        }
    }

    fn show_line(&mut self, known: &UnderWay, part: u64, whole: u64) {
        let tenths = parts(10, part, whole);
        if tenths <= known.tenths {
            return;
        }
        let now = Instant::now(self.rt).ok();
        if part < whole && !self.line_is_due(known, now) {
            return;
        }
        let image = known.image;
        let percent = tenths.saturating_mul(10);
        let portion = Portion {
            bytes: bytes(part),
            whole: bytes(whole),
        };
        let _ = writeln!(self.complaints, "{image} {percent}%: {portion}");
        self.shown = now;
    }

    /// Tells that so many sectors of an image are done, of so many.
    pub fn show(&mut self, image: Label, part: u64, whole: u64) {
        let known = self.under_way(image, part);
        match self.style {
            Style::Quiet => {}
            Style::Lines => self.show_line(&known, part, whole),
            Style::Bar => self.show_bar(&known, part, whole),
        }
        self.under_way = Some(UnderWay {
            image: known.image,
            first: known.first,
            since: known.since,
            tenths: parts(10, part, whole),
        });
    }

    /// Takes a bar away. What is told after that shows it again.
    pub fn end(&mut self) {
        if self.style == Style::Bar && self.shown.is_some() {
            let _ = self.complaints.clear_line();
            let _ = self.complaints.flush();
            self.shown = None;
        }
    }
}

impl<E: Write> Watch for Meter<'_, E> {
    fn compared(&mut self, provider: Label, sectors: u64, total: u64) {
        self.show(provider, sectors, total);
    }
}
