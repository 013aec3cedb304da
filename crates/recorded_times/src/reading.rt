//! The first line of bytes.

ghost use Rattle.std.specs.Prelude.{◌≡◌, [], MatchOption};
ghost use Rattle.recorded_times.specs.Search.{IsFirstLine};
ghost use Rattle.recorded_times.specs.Times.{times_lines_of};

use crate::line::{TimesLine, line_end, line_of};

/// A line, and where it stands.
#[derive(Clone, Copy)]
pub(crate) struct FirstLine {
    /// Where it begins.
    pub start: usize,
    pub line: TimesLine,
    /// Where the next one may begin.
    pub end: usize,
}

/// The first line of bytes that begin where a line may. Costs a step for each byte up to its end.
pub(crate) fn first_line(bytes: &[u8]) -> Option<FirstLine>
    ensures { MatchOption result (times_lines_of bytes.now ≡ []) (IsFirstLine bytes.now) }
{
    let mut start = 0;
    'texts: while let Some(size) = line_end(&bytes[start..]) {
        let end = start + size + 1;
        if let Some(line) = line_of(&bytes[start..][..size]) {
            return Some(FirstLine { start, line, end });
        }
        start = end;
    }
    None
}
