//! How much of its history an archive has used. docs/CONTROL.md, "Standard error".

ghost use Rattle.std.specs.Prelude.{◌≡◌, ◌↔◌, ◌*◌, ◌≤◌, IsTrue};

use std::fmt;

/// How many entries of an archive's history count, and how many may.
#[derive(Clone, Copy, Debug, PartialEq, Eq)]
pub struct HistoryUse {
    /// How many count.
    pub counted: u64,
    /// How many may.
    pub limit: u32,
}

impl HistoryUse {
    ghost use Rattle.tool_core.specs.HistoryUse.{level_of};

    /// How many hundredths of its limit it has reached, of those at which a warning is due: 99, 95 or 90. 0 where it has
    /// reached fewer, and of a limit below 100.
    pub fn level(&self) -> u8
        ensures { result ≡ level_of self.now.counted self.now.limit }
    {
        if self.limit < 100 {
            0
        } else if self.has_reached(99) {
            99
        } else if self.has_reached(95) {
            95
        } else if self.has_reached(90) {
            90
        } else {
            0
        }
    }

    /// Whether so many hundredths of the limit count.
    fn has_reached(&self, hundredths: u8) -> bool
        ensures { IsTrue result ↔ (self.now.limit * hundredths ≤ self.now.counted * 100) }
    {
        u64::from(self.limit) * u64::from(hundredths) <= self.counted.saturating_mul(100)
    }
}

impl fmt::Display for HistoryUse {
    fn fmt<W: fmt::Write>(&self, f: &mut fmt::Formatter<W>) -> fmt::Result {
        write!(
            f,
            "{} of the {} entries of the history are used, {} are left",
            self.counted,
            self.limit,
            u64::from(self.limit).saturating_sub(self.counted)
        )
    }
}
