//! A part of a recording.

ghost use Rattle.std.specs.Prelude.{◌≡◌, IsTrue, IsFalse};
ghost use Rattle.archive_export.specs.Exporting.{LiesWithin, span_begin, span_end};

use crate::capture::Destination;
use archive_model::Registration;

/// From one position of a recording to another, in bytes of its stream.
#[derive(Clone, Copy, Debug, PartialEq, Eq)]
pub struct Span {
    /// Where it begins: at the recording's start, where no position is named.
    pub from: Option<i64>,
    /// Where it ends: at the recorded position.
    pub to: Option<i64>,
}

/// What is exported of a recording, and to where.
#[derive(Clone, Copy)]
pub(crate) struct Target {
    /// The recording's id.
    pub recording: i64,
    /// Where the first frame begins.
    pub first: i64,
    /// Where the last one ends.
    pub last: i64,
    /// How far the recording is recorded.
    pub recorded: i64,
    /// Where its datagrams go.
    pub destination: Destination,
}

impl Span {
    ghost use Rattle.archive_export.specs.Exporting.{LiesWithin, span_begin, span_end};

    /// Where it begins in a recording.
    pub(crate) fn first(&self, known: &Registration) -> i64
        ensures { result ≡ span_begin self.now known.now }
    {
        self.from.unwrap_or(known.descriptor.start_position)
    }

    /// Where it ends there.
    pub(crate) fn last(&self, known: &Registration) -> i64
        ensures { result ≡ span_end self.now known.now }
    {
        self.to.unwrap_or(known.recorded)
    }

    /// Whether it lies in a recording.
    pub(crate) fn is_within(&self, known: &Registration) -> bool
        ensures within { IsTrue result → LiesWithin self.now known.now }
        ensures outside { IsFalse result → LiesWithin self.now known.now → ⊥ }
    {
        let first = self.first(known);
        let last = self.last(known);
        known.descriptor.start_position <= first && first <= last && last <= known.recorded
    }
}
