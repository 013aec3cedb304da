//! A thread that truncates, lists and purges recordings of others.

use crate::blocks::SHORT_TERM;
use crate::chance::Chance;
use crate::recorder::list;
use archive_model::Reply;
use control_core::{Event, Request};
use frame_core::Refusal;

/// A recording whose positions were asked for, and where it ends.
#[derive(Clone, Copy)]
pub(crate) struct Retention {
    recording: i64,
    end: i64,
    has_asked: bool,
}

impl Retention {
    /// One that asked for nothing yet.
    pub(crate) fn new() -> Retention {
        Retention {
            recording: 0,
            end: 0,
            has_asked: false,
        }
    }

    /// The next call: the positions of a recording by chance, and then a call by chance on it.
    pub(crate) fn next(&mut self, chance: &mut Chance) -> Event {
        if self.has_asked {
            self.has_asked = false;
            return self.call(chance);
        }
        self.has_asked = true;
        self.recording = chance.below(5);
        self.end = 0;
        Event::Ask(Request::Positions {
            recording: self.recording,
        })
    }

    fn call(&self, chance: &mut Chance) -> Event {
        match chance.below(14) {
            0..=1 => list(),
            2..=3 => Event::Sweep,
            4 => Event::Verify {
                recording: self.recording,
            },
            throw => Event::Ask(self.request(throw, chance)),
        }
    }

    fn request(&self, throw: i64, chance: &mut Chance) -> Request {
        let recording = self.recording;
        match throw {
            5..=7 => Request::Truncate {
                recording,
                position: self.end.wrapping_sub(chance.below(3).wrapping_mul(64)),
            },
            8..=10 => Request::PurgeSegments {
                recording,
                position: self
                    .end
                    .wrapping_sub(self.end.wrapping_rem_euclid(i64::from(SHORT_TERM))),
            },
            _ => Request::PurgeRecording { recording },
        }
    }

    /// Takes from an answer where the recording ends.
    pub(crate) fn note(&mut self, answer: &Result<Reply, Refusal>) {
        if let Ok(Reply::Positions { recorded, .. }) = answer {
            self.end = *recorded;
        }
    }
}
