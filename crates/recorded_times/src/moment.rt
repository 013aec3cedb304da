//! A time as a word. docs/CONTROL.md, "When a frame was recorded".

ghost use Rattle.std.specs.Prelude.{◌≡◌};
ghost use Rattle.jiff.specs.Words.{parse_timestamp};
ghost use Rattle.recorded_times.specs.Moments.{instant_millis, moment_of};

use crate::line::number_of;
use jiff::Timestamp;

/// The time that a word names, in milliseconds since the beginning of 1970: their number, or a date with its offset, as
/// `2026-11-29T08:41:36.123Z`. None: it names none, or one before 1970.
pub fn moment_of(word: &str) -> Option<u64>
    ensures { result ≡ moment_of word.now }
{
    match number_of(word.as_bytes()) {
        Some(millis) => Some(millis),
        None => instant_of(word),
    }
}

/// The time that a date names.
fn instant_of(word: &str) -> Option<u64>
    ensures { result ≡ instant_millis (parse_timestamp word.now) }
{
    let instant = word.parse::<Timestamp>().ok()?;
    u64::try_from(instant.as_millisecond()).ok()
}
