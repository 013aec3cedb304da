//! When a line of a terminal is written anew.

use std::time::{Clock, Duration, Instant};

/// How long work lasts at least of which something is shown, in milliseconds.
const SHOWN_AFTER_MILLIS: u64 = 500;
/// How long a line stays at least, in milliseconds.
const SHOWN_FOR_MILLIS: u64 = 200;

/// Says when a line about a piece of work is due: once the work has lasted half a second, and then about five times a second.
#[derive(Drop)]
pub(crate) struct Pace<'a, R> {
    clock: &'a R,
    /// When the work began.
    begun: Option<Instant>,
    /// When its line was due last.
    shown: Option<Instant>,
}

impl<'a, R: Clock> Pace<'a, R> {
    /// Of work that has not begun.
    pub(crate) fn new(clock: &'a R) -> Pace<'a, R> {
        Pace {
            clock,
            begun: None,
            shown: None,
        }
    }

    /// The work begins now, if the clock can be read.
    pub(crate) fn begin(&mut self) {
        self.begun = Instant::now(self.clock).ok();
    }

    /// Whether the work has begun.
    pub(crate) fn has_begun(&self) -> bool {
        self.begun.is_some()
    }

    /// How long the work has lasted, where its line is due now, which is then taken as written.
    pub(crate) fn due(&mut self) -> Option<Duration> {
        let begun = self.begun?;
        let now = Instant::now(self.clock).ok()?;
        let is_due = match self.shown {
            None => is_after(now, begun, SHOWN_AFTER_MILLIS),
            Some(shown) => is_after(now, shown, SHOWN_FOR_MILLIS),
        };
        if !is_due {
            return None;
        }
        self.shown = Some(now);
        Some(now.duration_since(begun))
    }
}

/// Whether so many milliseconds lie between two moments.
fn is_after(now: Instant, then: Instant, millis: u64) -> bool {
    now.duration_since(then) >= Duration::from_millis(millis)
}
