//! Who gets reports of what happens while an archive is served. docs/SERVING.md, "What the server prints".

use crate::happening::Happening;
use metrics_text::Measures;
use std::io::Eprint;

/// Gets reports, from several threads. Nothing that is recorded or answered depends on it.
pub trait Reporter {
    /// Reports one thing that happened. No lock is held meanwhile.
    fn report(&self, happening: &Happening<'_>);

    /// Gets what is measured of the server, from the thread that receives. No lock is held meanwhile.
    fn measured(&self, _measures: &Measures) {}

    /// Milliseconds between two times that the server is measured.
    fn measures_every(&self) -> u64 {
        1_000
    }
}

/// Nothing is reported.
#[derive(Clone, Copy, Debug, Drop)]
pub struct Unreported;

impl Reporter for Unreported {
    fn report(&self, happening: &Happening<'_>) {
        let _ = happening;
    }
}

/// Reports on standard error, by a line for each thing that happened.
#[derive(Drop)]
pub struct LineReporter<'a, R> {
    rt: &'a R,
    is_quiet: bool,
}

impl<'a, R: Eprint> LineReporter<'a, R> {
    /// Reports everything; if it is quiet, faults and the end alone.
    pub fn new(rt: &'a R, is_quiet: bool) -> LineReporter<'a, R> {
        LineReporter { rt, is_quiet }
    }
}

impl<R: Eprint> Reporter for LineReporter<'_, R> {
    fn report(&self, happening: &Happening<'_>) {
        if !self.is_quiet || happening.is_reported_quietly() {
            let _ = self.rt.eprintln(*happening);
        }
    }
}
