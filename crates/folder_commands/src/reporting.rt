//! What a server reports while it runs: lines on standard error, and what is to be written into files. docs/SERVING.md, "What the
//! server prints", "Metrics" and "When a frame was recorded".

use crate::log::{Level, Log};
use crate::observers::is_same;
use crate::why::{FaultLine, LateFault};
use crate::writing::Handing;
use archive_commands::Viewer;
use host_disk::{HostDisk, LastFault};
use metrics_text::{Measures, RecorderAbout, RecordingMeasures, print_metrics};
use server::{Happening, Reporter};
use std::alloc::Global;
use std::fs;
use std::io::{self, Eprint, ErrorKind};
use std::rt::Clock;
use std::sync::Wait;
use std::sync::atomic::{AtomicI32, AtomicU64, Ordering};

/// Causes of faults of a metrics file that are reported at most.
const REPORTED_CAUSES: usize = 8;
/// No cause.
const NO_CAUSE: i32 = i32::MIN;

/// Milliseconds between two texts of the metrics.
const METRICS: u64 = 1_000;
/// Milliseconds between two times that a server is measured at least, and at most if there are times.
const SHORTEST: u64 = 10;

const LONGEST: u64 = 250;

/// What is measured for files.
#[derive(Clone, Copy, Drop)]
pub(crate) struct Measured<'a> {
    /// Which recorder the metrics are of. None: there are no metrics.
    pub(crate) about: Option<RecorderAbout<'a>>,
    /// Milliseconds between two lines of times. None: there are no times.
    pub(crate) times_every: Option<u64>,
}

impl Measured<'_> {
    /// Milliseconds between two times that a server is measured: a second, or shorter, so that lines of times come when they are due.
    fn every(&self) -> u64 {
        match self.times_every {
            None => METRICS,
            Some(every) => (every / 4).max(SHORTEST).min(LONGEST),
        }
    }
}

/// Reports what happens, a line for each, and hands on what is to be written into files.
#[derive(Drop)]
pub(crate) struct ServeReporter<'a, R> {
    log: Log<'a, R>,
    rt: HostRuntime,
    is_quiet: bool,
    measured: Measured<'a>,
    handing: &'a Handing,
    /// How often the server was measured.
    rounds: AtomicU64,
}

impl<'a, R: Eprint + Clock> ServeReporter<'a, R> {
    /// Reports by lines; faults and the end alone if it is quiet.
    pub(crate) fn new(
        log: Log<'a, R>,
        rt: HostRuntime,
        is_quiet: bool,
        measured: Measured<'a>,
        handing: &'a Handing,
    ) -> ServeReporter<'a, R> {
        ServeReporter {
            log,
            rt,
            is_quiet,
            measured,
            handing,
            rounds: AtomicU64::new(0),
        }
    }

    /// The text of the metrics, each second. None without memory.
    fn text_of(&self, measures: &Measures) -> Option<String> {
        let about = self.measured.about?;
        let round = self.rounds.fetch_add(1, Ordering::SeqCst);
        if round % (METRICS / self.measured.every().max(1)).max(1) != 0 {
            return None;
        }
        print_metrics(self.rt.alloc(), &about, measures).ok()
    }

    /// Where the recordings stand, if there are times. None without memory.
    fn recordings_of(&self, measures: &Measures) -> Option<Vec<RecordingMeasures>> {
        self.measured.times_every?;
        Vec::from_slice(self.rt.alloc(), measures.recordings.as_slice()).ok()
    }
}

impl<R: Eprint + Clock + Wait> Reporter for ServeReporter<'_, R> {
    fn report(&self, happening: &Happening<'_>) {
        if happening.is_reported_quietly() {
            self.log.print(Level::Error, *happening);
        } else if !self.is_quiet {
            self.log.print(Level::Info, *happening);
        }
    }

    fn measured(&self, measures: &Measures) {
        let (text, recordings) = (self.text_of(measures), self.recordings_of(measures));
        if self.handing.put(self.log.rt(), text, recordings) {
            self.log.print(Level::Error, LateFault);
        }
    }

    fn measures_every(&self) -> u64 {
        self.measured.every()
    }
}

/// A file that metrics are written to.
#[derive(Drop)]
pub(crate) struct MetricsFile<'a> {
    rt: HostRuntime,
    name: &'a str,
    /// The numbers of the causes of its faults that were reported.
    reported: [AtomicI32; REPORTED_CAUSES],
}

impl<'a> MetricsFile<'a> {
    pub(crate) fn new(rt: HostRuntime, name: &'a str) -> MetricsFile<'a> {
        MetricsFile {
            rt,
            name,
            reported: [
                AtomicI32::new(NO_CAUSE),
                AtomicI32::new(NO_CAUSE),
                AtomicI32::new(NO_CAUSE),
                AtomicI32::new(NO_CAUSE),
                AtomicI32::new(NO_CAUSE),
                AtomicI32::new(NO_CAUSE),
                AtomicI32::new(NO_CAUSE),
                AtomicI32::new(NO_CAUSE),
            ],
        }
    }

    /// Writes a text beside the file, and gives it the file's name.
    pub(crate) fn write(&self, text: &str) -> io::Result<()> {
        let Ok(part) = format!(in self.rt.alloc(); "{}.part", self.name) else {
            return Err(io::Error::from(ErrorKind::OutOfMemory));
        };
        fs::write(&self.rt, part.as_str(), text)?;
        fs::rename(&self.rt, part.as_str(), self.name)
    }

    /// Whether a fault has a cause that was not reported. From now on it was; no more than eight are.
    pub(crate) fn is_new(&self, error: io::Error) -> bool {
        let cause = error.raw_os_error().unwrap_or(0);
        for slot in self.reported.iter() {
            let reported = slot.load(Ordering::SeqCst);
            if reported == cause {
                return false;
            }
            if reported == NO_CAUSE {
                slot.store(cause, Ordering::SeqCst);
                return true;
            }
        }
        false
    }
}

/// Reports each call of a served folder that fails, once for each file and cause.
#[derive(Drop)]
pub(crate) struct ServeFaults<'a, R> {
    log: Log<'a, R>,
    reported: Vec<LastFault>,
}

impl<'a, R: Eprint + Clock> ServeFaults<'a, R> {
    pub(crate) fn new(alloc: Global, log: Log<'a, R>) -> ServeFaults<'a, R> {
        ServeFaults {
            log,
            reported: Vec::new(alloc),
        }
    }
}

impl<R: Eprint + Clock> Viewer<HostDisk> for ServeFaults<'_, R> {
    fn failed(&mut self, disk: &HostDisk) {
        let Some(fault) = disk.last_fault() else {
            return;
        };
        if self
            .reported
            .iter()
            .any(|reported| is_same(reported, &fault))
        {
            return;
        }
        // Where there is no memory for it, it may be reported again.
        let _ = self.reported.push(fault);
        self.log.print(Level::Error, FaultLine(fault));
    }
}
