//! The time since a thread began. docs/ARCHITECTURE.md, "Serving".

ghost use Rattle.std.specs.Prelude.{◌≡◌};
ghost use Rattle.server_state.specs.Stopwatch.{micros_between, millis_between};

use std::rt::Clock;
use std::time::Instant;

/// The moment at which it was made. None if the clock could not be read.
#[derive(Clone, Copy)]
pub struct Stopwatch {
    start: Option<Instant>,
}

impl Stopwatch {
    /// It begins now.
    pub fn new(clock: &impl Clock) -> Stopwatch {
        Stopwatch {
            start: Instant::now(clock).ok(),
        }
    }

    /// Whole milliseconds since it began. None if the clock can't be read, or went back.
    pub fn read(&self, clock: &impl Clock) -> Option<u64> {
        millis_between(self.start, Instant::now(clock).ok())
    }

    /// Whole microseconds since it began. None if the clock can't be read, or went back.
    pub fn micros(&self, clock: &impl Clock) -> Option<u64> {
        micros_between(self.start, Instant::now(clock).ok())
    }
}

/// Whole milliseconds from one moment to another. None if either is not known, the other one is earlier, or the number is no
/// `u64`.
fn millis_between(start: Option<Instant>, now: Option<Instant>) -> Option<u64>
    ensures { result ≡ millis_between start now }
{
    let gone = now?.checked_duration_since(start?)?;
    u64::try_from(gone.as_millis()).ok()
}

/// Whole microseconds from one moment to another. None if either is not known, the other one is earlier, or the number is no
/// `u64`.
fn micros_between(start: Option<Instant>, now: Option<Instant>) -> Option<u64>
    ensures { result ≡ micros_between start now }
{
    let gone = now?.checked_duration_since(start?)?;
    u64::try_from(gone.as_micros()).ok()
}
