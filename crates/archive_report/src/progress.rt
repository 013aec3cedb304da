//! What a terminal shows of an export that lasts. docs/CONTROL.md, "Standard error".

ghost use Rattle.std.specs.Prelude.{◌≡◌, ◌-◌};
ghost use Rattle.archive_commands.specs.Progress.{hundredths};

use archive_commands::{Measure, Screen};
use archive_export::Span;
use archive_model::Registration;
use disk_core::FileId;
use std::cell::Cell;
use std::io::Eprint;
use tool_core::{Beginning, Observer, Unobserved};

/// Gets how an export goes on. Nothing that is written depends on it.
pub trait ExportObserver: Observer {
    /// The archive has the recording, of which frames are to be written.
    fn found(&mut self, _known: &Registration) {}
}

impl ExportObserver for Unobserved {}

/// From one position of a recording to another, in bytes of its stream.
#[derive(Clone, Copy, Debug)]
struct Stretch {
    first: u64,
    last: u64,
}

impl Stretch {
    /// How many hundredths of it lie before a position, a hundred at most.
    fn percent_before(self, position: u64) -> u128
        ensures { result ≡ hundredths (position - self.first) (self.last - self.first) }
    {
        let done = position.saturating_sub(self.first) as u128;
        let whole = self.last.saturating_sub(self.first) as u128;
        (done * 100 / whole.max(1)).min(100)
    }
}

/// What an export is to write of a recording, once that is known.
#[derive(Drop)]
pub struct Extent {
    stretch: Cell<Option<Stretch>>,
}

impl Extent {
    /// Of an export that has not found its recording.
    pub fn unknown() -> Extent {
        Extent {
            stretch: Cell::new(None),
        }
    }
}

impl Measure for &Extent {
    fn percent_before(&self, file: FileId, end: u64) -> Option<u128> {
        let FileId::Segment { base, .. } = file else {
            return None;
        };
        let stretch = self.stretch.get()?;
        Some(stretch.percent_before(base.unsigned_abs().saturating_add(end)))
    }
}

/// Gives the progress of an export what is to be written, and takes away the line that shows an opening.
#[derive(Drop)]
pub struct ExportReporter<'a, R> {
    screen: &'a Screen<'a, R>,
    span: Span,
    extent: &'a Extent,
}

impl<'a, R: Eprint> ExportReporter<'a, R> {
    /// Of this part of a recording; where it begins and ends is put there, once it is known.
    pub fn new(
        screen: &'a Screen<'a, R>,
        span: &Span,
        extent: &'a Extent,
    ) -> ExportReporter<'a, R> {
        let span = *span;
        ExportReporter {
            screen,
            span,
            extent,
        }
    }
}

impl<R: Eprint> Observer for ExportReporter<'_, R> {
    fn began(&mut self, _beginning: &Beginning) {
        self.screen.work();
    }
}

impl<R: Eprint> ExportObserver for ExportReporter<'_, R> {
    fn found(&mut self, known: &Registration) {
        let first = self
            .span
            .from
            .unwrap_or(known.descriptor.start_position)
            .unsigned_abs();
        let last = self.span.to.unwrap_or(known.recorded).unsigned_abs();
        self.extent.stretch.set(Some(Stretch { first, last }));
    }
}
