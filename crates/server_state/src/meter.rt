//! What is counted for the metrics alone: docs/SERVING.md, "Metrics".

ghost use Rattle.std.specs.Prelude.{◌≡◌};

use crate::client_places::ClientPlaces;
use crate::counts::Count;
use archive_model::Reply;
use frame_core::Refusal;
use metrics_text::{ArchiveMeasures, ClientMeasures, RecorderMeasures, SettleTimes};
use std::sync::atomic::{AtomicBool, Ordering};
use std::sync::{Mutex, Wait};

/// What threads count for the metrics, if there are metrics.
#[derive(Drop)]
pub struct Meter {
    is_on: bool,
    /// Frames that were written.
    pub frames: Count,
    settles: Mutex<SettleTimes>,
    /// How many clients are served.
    pub clients: ClientPlaces,
    polls: Count,
    entries: Count,
    limit: Count,
    /// Checkpoints that were made.
    pub checkpoints: Count,
    /// Checkpoints that were refused.
    pub refused_checkpoints: Count,
    is_open: AtomicBool,
    is_broken: AtomicBool,
}

impl Meter {
    /// Nothing was counted, and no archive is open. Without metrics nothing is.
    pub(crate) fn new(is_on: bool) -> Meter
        ensures { result.is_on ≡ is_on }
    {
        Meter {
            is_on,
            frames: Count::new(),
            settles: Mutex::new(SettleTimes::new()),
            clients: ClientPlaces::new(),
            polls: Count::new(),
            entries: Count::new(),
            limit: Count::new(),
            checkpoints: Count::new(),
            refused_checkpoints: Count::new(),
            is_open: AtomicBool::new(false),
            is_broken: AtomicBool::new(false),
        }
    }

    /// Whether there are metrics.
    pub fn is_on(&self) -> bool
        ensures { result ≡ self.now.is_on }
    {
        self.is_on
    }

    /// The archive is open.
    pub fn set_open(&self) {
        self.is_open.store(true, Ordering::SeqCst);
    }

    /// A device fault broke the archive.
    pub fn set_broken(&self) {
        self.is_broken.store(true, Ordering::SeqCst);
    }

    /// So many entries of the history count, and so many may.
    pub(crate) fn set_history(&self, counted: u64, limit: u32) {
        self.entries.set(counted);
        self.limit.set(u64::from(limit));
    }

    /// How many entries of the history counted when it was noted last.
    pub fn entries(&self) -> u64 {
        self.entries.get()
    }

    /// A settle was made, which took so many microseconds.
    pub fn settled<R: Wait>(&self, rt: &R, micros: u64) {
        self.settles.lock(rt).note(micros);
    }

    /// A client's call was answered so.
    pub fn note_call(&self, outcome: &Result<Reply, Refusal>) {
        if self.is_on && matches!(outcome, Ok(Reply::Polled { .. })) {
            self.polls.add(1);
        }
    }

    /// What is measured of the archive.
    pub(crate) fn archive(&self) -> ArchiveMeasures {
        let is_open = self.is_open.load(Ordering::SeqCst);
        let (entries, limit) = (self.entries.get(), self.limit.get());
        ArchiveMeasures {
            is_open,
            is_broken: self.is_broken.load(Ordering::SeqCst),
            is_full: is_open && entries >= limit,
            entries,
            limit,
            checkpoints: self.checkpoints.get(),
            refused_checkpoints: self.refused_checkpoints.get(),
        }
    }

    /// What is measured of the thread that records, which settled so many bytes.
    pub(crate) fn recorder<R: Wait>(&self, rt: &R, bytes: u64) -> RecorderMeasures {
        RecorderMeasures {
            bytes,
            frames: self.frames.get(),
            settles: *self.settles.lock(rt),
        }
    }

    /// What is measured of clients, of whom so many connections were taken, and by whom so many replays are open.
    pub(crate) fn clients(&self, connections: u64, replays: u64) -> ClientMeasures {
        ClientMeasures {
            connections,
            clients: self.clients.served(),
            places: self.clients.places(),
            polls: self.polls.get(),
            replays,
        }
    }
}
