//! The names of files of times.

ghost use Rattle.std.specs.Prelude.{◌≡◌};
ghost use Rattle.recorded_times.specs.Names.{is_name_of};

use std::fmt;

/// The name of a file of times.
#[derive(Clone, Copy, Debug, PartialEq, Eq)]
pub struct TimesName {
    /// The recording's id.
    pub recording: u64,
    /// When the recording was started, in milliseconds as the archive's caller counts them.
    pub start_timestamp: i64,
}

impl fmt::Display for TimesName {
    ghost use Rattle.std.specs.Prelude.{Some};
    ghost use Rattle.recorded_times.specs.Names.{name_text};

    ghost output = { λ name. Some (name_text name) };

    fn fmt<W: fmt::Write>(&self, f: &mut fmt::Formatter<W>) -> fmt::Result {
        write!(f, "{}-{}.times", self.recording, self.start_timestamp)
    }
}

/// Whether a file's name is one of a recording with this id, whenever it was started.
pub fn is_name_of(name: &str, recording: u64) -> bool
    ensures { result ≡ is_name_of name.now recording }
{
    let mut digits = itoa::Buffer::new();
    let bytes = name.as_bytes();
    let digits = digits.format(recording).as_bytes();
    bytes.starts_with(digits)
        && bytes[digits.len()..].starts_with(b"-")
        && bytes.ends_with(b".times")
}
