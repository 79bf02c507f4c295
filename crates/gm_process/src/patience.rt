//! What is in use, and is tried again for a while.

use std::thread;
use std::time::{Duration, Instant};

// How long it is waited between two tries, in milliseconds.
const PAUSE: u64 = 100;

/// For how long what is in use is tried again.
#[derive(Clone, Copy)]
pub struct Patience {
    time: Duration,
    // None if the clock can't be read: then nothing is tried again.
    since: Option<Instant>,
}

impl Patience {
    /// So many seconds from now on.
    pub fn begin(rt: &HostRuntime, seconds: u32) -> Patience {
        Patience {
            time: Duration::from_secs(u64::from(seconds)),
            since: Instant::now(rt).ok(),
        }
    }

    // How much of the time is left.
    fn left(&self, rt: &HostRuntime) -> Option<Duration> {
        let gone = self.since?.elapsed(rt).ok()?;
        if gone >= self.time {
            return None;
        }
        Some(self.time.saturating_sub(gone))
    }

    /// Whether it is to be tried again: after a pause, if there is time left.
    pub fn pauses(&self, rt: &HostRuntime) -> bool {
        let Some(left) = self.left(rt) else {
            return false;
        };
        thread::sleep(rt, left.min(Duration::from_millis(PAUSE)));
        true
    }
}
