//! The words of a line `start` or `start-from` that have rules.

ghost use Rattle.std.specs.Prelude.{◌≡◌};
ghost use Rattle.start_faults.specs.StartFaults.{name_of, rule_of};

use std::fmt;

/// A word that may be wrong. `<stream>`, `<session id>` and `<initial term>` may be any number of 32 bits.
#[derive(Clone, Copy, Debug, PartialEq, Eq)]
pub enum StartWord {
    Source,
    TermLength,
    Mtu,
    SegmentLength,
    StartPosition,
    Timestamp,
    Channel,
}

impl StartWord {
    /// How docs/CONTROL.md, "Lines", names it.
    pub fn name(self) -> &'static str
        ensures { result.now ≡ name_of self }
    {
        match self {
            StartWord::Source => "<source>",
            StartWord::TermLength => "<term length>",
            StartWord::Mtu => "<mtu>",
            StartWord::SegmentLength => "<segment length>",
            StartWord::StartPosition => "<start position>",
            StartWord::Timestamp => "<timestamp>",
            StartWord::Channel => "<channel>",
        }
    }

    /// What it has to be.
    pub fn rule(self) -> &'static str
        ensures { result.now ≡ rule_of self }
    {
        match self {
            StartWord::Source =>
                "at most 128 bytes of UTF-8, without blanks and control characters",
            StartWord::TermLength => "a power of two from 65536 to 1073741824",
            StartWord::Mtu => "a multiple of 32, from 64 to 65504",
            StartWord::SegmentLength => "a power of two from the term length to 1073741824",
            StartWord::StartPosition =>
                "a multiple of 32 from 0, less than 2147483648 term lengths",
            StartWord::Timestamp => "0 or more",
            StartWord::Channel => "1 to 1024 bytes of UTF-8, without control characters",
        }
    }
}

/// The text that names the word and says its rule.
impl fmt::Display for StartWord {
    fn fmt<W: fmt::Write>(&self, f: &mut fmt::Formatter<W>) -> fmt::Result {
        write!(
            f,
            "start is BadParameter: {} has to be {}",
            self.name(),
            self.rule()
        )
    }
}
