//! What is found at a time.

ghost use Rattle.std.specs.Prelude.{◌≡◌, option_map, None};
ghost use Rattle.recorded_times.specs.Found.{found_with};

use crate::line::TimesLine;
use std::fmt;

/// Where a recording stood from one time on until the next.
#[derive(Clone, Copy, Debug, PartialEq, Eq)]
pub struct Found {
    /// The recorded position, in bytes of the stream.
    pub position: u64,
    /// When it was noted, in milliseconds since the beginning of 1970.
    pub from: u64,
    /// When the next position was noted. None: this is the last one.
    pub to: Option<u64>,
}

impl fmt::Display for Found {
    ghost use Rattle.std.specs.Prelude.{Some};
    ghost use Rattle.recorded_times.specs.Found.{found_text};

    ghost output = { λ found. Some (found_text found) };

    fn fmt<W: fmt::Write>(&self, f: &mut fmt::Formatter<W>) -> fmt::Result {
        match self.to {
            Some(to) => write!(f, "position {} from {} to {}", self.position, self.from, to),
            None => write!(f, "position {} from {} to -1", self.position, self.from),
        }
    }
}

/// What is found if the last line at or before a time is this one, and this one follows.
pub(crate) fn found_with(before: Option<TimesLine>, after: Option<TimesLine>) -> Option<Found>
    ensures { result ≡ option_map (λ line. found_with line after) before }
{
    match before {
        Some(line) => Some(Found {
            position: line.position,
            from: line.millis,
            to: millis_of(after),
        }),
        None => None,
    }
}

/// The time of a line.
fn millis_of(line: Option<TimesLine>) -> Option<u64>
    ensures { result ≡ option_map (λ line. line.millis) line }
{
    match line {
        Some(line) => Some(line.millis),
        None => None,
    }
}
