//! What a server writes into files beside its archive, by a thread of its own: metrics, and times. docs/SERVING.md, "Metrics" and "When a
//! frame was recorded".

use crate::log::{Level, Log, now};
use crate::reporting::MetricsFile;
use crate::times_writer::TimesWriter;
use crate::why::MetricsFault;
use host_disk::ReadFolder;
use metrics_text::RecordingMeasures;
use server::Openings;
use std::io::Eprint;
use std::rt::Clock;
use std::sync::{Condvar, Mutex, Wait};

/// Milliseconds after which a write that has not ended is reported.
const LATE: u64 = 10_000;

/// What waits to be written.
#[derive(Drop)]
struct Waiting {
    /// The text of the metrics.
    text: Option<String>,
    /// Where recordings stand.
    recordings: Option<Vec<RecordingMeasures>>,
    has_ended: bool,
    /// When the write began that has not ended.
    since: Option<u64>,
    /// Whether it was reported that one does not end.
    is_reported: bool,
}

impl Waiting {
    /// Whether there is nothing to do.
    fn is_idle(&self) -> bool {
        self.text.is_none() && self.recordings.is_none() && !self.has_ended
    }
}

/// What was taken to be written.
#[derive(Drop)]
struct Taken {
    text: Option<String>,
    recordings: Option<Vec<RecordingMeasures>>,
    has_ended: bool,
}

/// Where what is to be written waits for the thread that writes.
#[derive(Drop)]
pub(crate) struct Handing {
    waiting: Mutex<Waiting>,
    came: Condvar,
}

impl Handing {
    /// Nothing waits.
    pub(crate) fn new() -> Handing {
        Handing {
            waiting: Mutex::new(Waiting {
                text: None,
                recordings: None,
                has_ended: false,
                since: None,
                is_reported: false,
            }),
            came: Condvar::new(),
        }
    }

    /// Hands on what is to be written, in place of what waits. Waits for nothing. Whether a write lasts that long, the first time.
    pub(crate) fn put<R: Wait + Clock>(
        &self,
        rt: &R,
        text: Option<String>,
        recordings: Option<Vec<RecordingMeasures>>,
    ) -> bool {
        let now = now(rt).unsigned_abs();
        let mut waiting = self.waiting.lock(rt);
        if text.is_some() {
            waiting.text = text;
        }
        if recordings.is_some() {
            waiting.recordings = recordings;
        }
        self.came.notify_all();
        let is_late = match waiting.since {
            Some(since) => now.saturating_sub(since) >= LATE,
            None => false,
        };
        let is_new = is_late && !waiting.is_reported;
        waiting.is_reported |= is_late;
        is_new
    }

    /// Nothing more comes.
    pub(crate) fn end<R: Wait>(&self, rt: &R) {
        let mut waiting = self.waiting.lock(rt);
        waiting.has_ended = true;
        self.came.notify_all();
    }

    /// Waits until something is to be written, or nothing more comes, and takes it.
    fn take<R: Wait + Clock>(&self, rt: &R) -> Taken {
        let waiting = self.waiting.lock(rt);
        let mut waiting = self
            .came
            .wait_while(rt, waiting, |waiting| waiting.is_idle());
        waiting.since = Some(now(rt).unsigned_abs());
        Taken {
            text: waiting.text.take(),
            recordings: waiting.recordings.take(),
            has_ended: waiting.has_ended,
        }
    }

    /// What was taken is written.
    fn written<R: Wait>(&self, rt: &R) {
        let mut waiting = self.waiting.lock(rt);
        waiting.since = None;
    }
}

/// What writes.
#[derive(Drop)]
pub(crate) struct Writing<'a, R> {
    pub(crate) log: Log<'a, R>,
    pub(crate) metrics: Option<MetricsFile<'a>>,
    pub(crate) times: Option<TimesWriter<'a, R>>,
}

impl<R: Wait + Clock + Eprint> Writing<'_, R> {
    /// Writes what is handed on until nothing more comes. A fault is reported, and nothing else depends on it.
    pub(crate) fn write_all<O: Openings<ReadFolder>>(
        &mut self,
        rt: &R,
        handing: &Handing,
        archive: &O,
    ) {
        for _ in rt.forever() {
            let taken = handing.take(rt);
            if let Some(text) = &taken.text {
                self.write_metrics(text.as_str());
            }
            if let Some(times) = &mut self.times {
                if let Some(recordings) = &taken.recordings {
                    times.note(archive, recordings.as_slice());
                }
                if taken.has_ended {
                    times.finish(archive);
                }
            }
            handing.written(rt);
            if taken.has_ended {
                return;
            }
        }
    }

    /// Writes the metrics, if there is a file for them.
    fn write_metrics(&self, text: &str) {
        if let Some(metrics) = &self.metrics {
            if let Err(error) = metrics.write(text) {
                if metrics.is_new(error) {
                    self.log.print(Level::Error, MetricsFault(error));
                }
            }
        }
    }
}
