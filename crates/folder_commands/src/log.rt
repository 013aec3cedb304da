//! A server's lines on standard error, with its name and with times. docs/SERVING.md, "What the server prints".

use archive_report::Moment;
use std::fmt::{self, Display};
use std::io::Eprint;
use std::rt::Clock;
use std::time::SystemTime;

/// How grave a line is.
#[derive(Clone, Copy, Debug, PartialEq, Eq)]
pub(crate) enum Level {
    /// A quiet server prints it too.
    Error,
    /// A quiet server leaves it out.
    Info,
}

/// Where a server's lines go, and what they begin with.
#[derive(Drop)]
pub(crate) struct Log<'a, R> {
    rt: &'a R,
    name: Option<&'a str>,
    has_times: bool,
}

impl<'a, R: Eprint + Clock> Log<'a, R> {
    /// Standard error. Each line begins with a name, if there is one, and before that with its time and level, if it has times.
    pub(crate) fn new(rt: &'a R, name: Option<&'a str>, has_times: bool) -> Log<'a, R> {
        Log {
            rt,
            name,
            has_times,
        }
    }

    /// The clock that it has its times of, which prints its lines.
    pub(crate) fn rt(&self) -> &'a R {
        self.rt
    }

    /// Prints a line.
    pub(crate) fn print<D: Display + Drop>(&self, level: Level, line: D) {
        let moment = if self.has_times {
            Some(Moment(now(self.rt)))
        } else {
            None
        };
        let _ = self.rt.eprintln(LogLine {
            moment,
            level,
            name: self.name,
            line,
        });
    }
}

/// Milliseconds since the beginning of 1970. 0 if the clock can't be read, or is before that.
pub(crate) fn now(clock: &impl Clock) -> i64 {
    let Ok(now) = SystemTime::now(clock) else {
        return 0;
    };
    match now.duration_since(SystemTime::UNIX_EPOCH) {
        Ok(gone) => i64::try_from(gone.as_millis()).unwrap_or(0),
        Err(_) => 0,
    }
}

/// A line with what it begins with.
#[derive(Drop)]
struct LogLine<'a, D> {
    moment: Option<Moment>,
    level: Level,
    name: Option<&'a str>,
    line: D,
}

impl<D: Display> Display for LogLine<'_, D> {
    fn fmt<W: fmt::Write>(&self, f: &mut fmt::Formatter<W>) -> fmt::Result {
        if let Some(moment) = self.moment {
            let level = match self.level {
                Level::Error => "error",
                Level::Info => "info",
            };
            write!(f, "{moment} {level} ")?;
        }
        if let Some(name) = self.name {
            write!(f, "{name}: ")?;
        }
        write!(f, "{}", self.line)
    }
}
