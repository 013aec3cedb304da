//! Timestamps as dates. docs/CONTROL.md, "A page for people".

ghost use Rattle.std.specs.Prelude.{◌≡◌, ◌++◌, ◌≤ℤ◌, IfNone, IfSome, codes, pos};
ghost use Rattle.std.specs.Fmt.{signed_decimal};
ghost use Rattle.jiff.specs.Words.{iso_datetime_text};
ghost use Rattle.archive_report.specs.Dates.{date_text, is_before_start, is_known};

use jiff::Timestamp;
use jiff::civil::DateTime;
use jiff::tz::Offset;
use std::fmt;

/// The instant so many milliseconds after the beginning of 1970 in UTC, as `2026-11-26T03:00:00.123Z`; the number itself
/// where no date is so late, and a hyphen for a time that is not known, which is a negative one.
#[derive(Clone, Copy, Debug)]
pub(crate) struct Date(pub i64);

/// A moment, so many milliseconds after the beginning of 1970 in UTC, with all digits of its milliseconds, as
/// `2026-11-29T08:41:36.120Z`; the number itself if no date is so late. One before 1970 is shown as its beginning.
#[derive(Clone, Copy, Debug)]
pub struct Moment(pub i64);

impl fmt::Display for Moment {
    fn fmt<W: fmt::Write>(&self, f: &mut fmt::Formatter<W>) -> fmt::Result {
        let time = self.0.max(0);
        let millis = time % 1_000;
        match civil_of(time - millis) {
            Some(civil) => write!(
                f,
                "{civil}.{}{}{}Z",
                millis / 100,
                millis / 10 % 10,
                millis % 10
            ),
            None => write!(f, "{time}"),
        }
    }
}

/// When a recording was stopped that began at a time. Of a stop before its start it is the number, and that is said: no date that
/// it may stand for is one of the recording.
#[derive(Clone, Copy, Debug)]
pub(crate) struct StopDate {
    pub start: i64,
    pub stop: i64,
}

impl StopDate {
    /// Whether it is known, and before the start.
    pub(crate) fn is_before_start(self) -> bool
        ensures { result ≡ is_before_start self.start self.stop }
    {
        self.stop >= 0 && self.stop < self.start
    }
}

impl fmt::Display for StopDate {
    ghost use Rattle.std.specs.Prelude.{Some};
    ghost use Rattle.archive_report.specs.Dates.{stop_text};

    ghost output = { λ date. Some (stop_text date.start date.stop) };

    fn fmt<W: fmt::Write>(&self, f: &mut fmt::Formatter<W>) -> fmt::Result {
        if self.is_before_start() {
            write!(f, "{} (before its start)", self.stop)
        } else {
            write!(f, "{}", Date(self.stop))
        }
    }
}

impl Date {
    /// Whether the time is known.
    pub(crate) fn is_known(self) -> bool
        ensures { result ≡ is_known self.0 }
    {
        self.0 >= 0
    }
}

impl fmt::Display for Date {
    ghost use Rattle.std.specs.Prelude.{Some};
    ghost use Rattle.archive_report.specs.Dates.{date_text};

    ghost output = { λ date. Some (date_text date.0) };

    fn fmt<W: fmt::Write>(&self, f: &mut fmt::Formatter<W>) -> fmt::Result {
        let time = self.0;
        if time < 0 {
            return f.write_str("-");
        }
        match civil_of(time) {
            Some(civil) => write!(f, "{civil}Z"),
            None => write!(f, "{time}"),
        }
    }
}

/// The date and the time of day in UTC, so many milliseconds after the beginning of 1970, if there is one.
fn civil_of(time: i64) -> Option<DateTime>
    requires { pos 0 ≤ℤ time }
    ensures dated { IfSome result (λ civil. date_text time ≡ iso_datetime_text civil ++ codes "Z") }
    ensures late { IfNone result (date_text time ≡ signed_decimal time) }
{
    match Timestamp::from_millisecond(time) {
        Ok(instant) => Some(Offset::UTC.to_datetime(instant)),
        Err(_) => None,
    }
}
