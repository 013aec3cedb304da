//! What is counted of datagrams that are not taken, and of publications that are not recorded.

ghost use Rattle.std.specs.Prelude.{◌≡◌};
ghost use Rattle.server_state.specs.Places.{recordings_level};

use crate::counts::Count;
use frame_core::Refusal;
use frame_core::limits::MAX_RECORDINGS;
use metrics_text::{PlaceMeasures, RefusedMeasures};
use std::sync::atomic::{AtomicU8, Ordering};
use stream_pairs::MAX_IMAGES;

/// What several threads count of them. A publication counts once for each cause.
#[derive(Drop)]
pub struct PlaceCounts {
    /// Datagrams of an image's publication from another address than its sender, and those from networks that are not taken.
    pub foreign: Count,
    /// Publications that got no place.
    pub without_place: Count,
    /// Publications for which no recording may begin yet.
    pub late: Count,
    /// Publications that are not recorded, since there are as many recordings as there may be.
    recordings: Count,
    /// Since the history is full.
    history: Count,
    /// Since the archive is broken.
    broken: Count,
    /// Since there is no memory.
    memory: Count,
    /// For another cause.
    other: Count,
    /// Images by what they count when another publication wants a place.
    recorded: Count,
    waiting: Count,
    unwanted: Count,
    /// Recordings that stood when they were looked at last.
    standing: Count,
    /// At which level of them that was reported last.
    level: AtomicU8,
}

impl PlaceCounts {
    /// Nothing was counted yet.
    pub(crate) fn new() -> PlaceCounts {
        PlaceCounts {
            foreign: Count::new(),
            without_place: Count::new(),
            late: Count::new(),
            recordings: Count::new(),
            history: Count::new(),
            broken: Count::new(),
            memory: Count::new(),
            other: Count::new(),
            recorded: Count::new(),
            waiting: Count::new(),
            unwanted: Count::new(),
            standing: Count::new(),
            level: AtomicU8::new(0),
        }
    }

    /// A publication is not recorded: the call was refused.
    pub fn refuse(&self, cause: Refusal) {
        let count = match cause {
            Refusal::MaxRecordings => &self.recordings,
            Refusal::HistoryFull => &self.history,
            Refusal::Broken => &self.broken,
            Refusal::DeviceFault => &self.broken,
            Refusal::NoMemory => &self.memory,
            _ => &self.other,
        };
        count.add(1);
    }

    /// So many images feed a session, so many feed none and are wanted, and so many are of other publications.
    pub fn set_images(&self, recorded: u64, waiting: u64, unwanted: u64) {
        self.recorded.set(recorded);
        self.waiting.set(waiting);
        self.unwanted.set(unwanted);
    }

    /// So many recordings stand. Whether that is to be reported: at 90, 95 and 99 hundredths of those that may, each once until
    /// fewer stand than the first of these.
    pub fn note_recordings(&self, count: usize) -> bool {
        self.standing.set(count as u64);
        let level = recordings_level(count as u64);
        let before = self.level.load(Ordering::SeqCst);
        if level == 0 || level > before {
            self.level.store(level, Ordering::SeqCst);
        }
        level > before
    }

    /// What is measured of them.
    pub(crate) fn measures(&self) -> PlaceMeasures {
        PlaceMeasures {
            foreign: self.foreign.get(),
            refused: RefusedMeasures {
                places: self.without_place.get(),
                recordings: self.recordings.get(),
                starts: self.late.get(),
                history: self.history.get(),
                broken: self.broken.get(),
                memory: self.memory.get(),
                other: self.other.get(),
            },
            recorded: self.recorded.get(),
            waiting: self.waiting.get(),
            other: self.unwanted.get(),
            places: MAX_IMAGES as u64,
            recordings: self.standing.get(),
            limit: MAX_RECORDINGS as u64,
        }
    }
}

/// Which level so many recordings reach: 90, 95 or 99 hundredths of 1,024, or none.
fn recordings_level(count: u64) -> u8
    ensures { result ≡ recordings_level count }
{
    if count < 922 {
        0
    } else if count < 973 {
        1
    } else if count < 1_014 {
        2
    } else {
        3
    }
}
