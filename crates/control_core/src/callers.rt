//! What an archive keeps of its callers: recorder sessions and open replays.

ghost use Rattle.std.specs.Prelude.{◌≡◌};
ghost use Rattle.control_core.specs.Callers.{moved_to};
ghost use Rattle.control_core.specs.Desk.{is_replay_before};
ghost use Rattle.control_core.specs.Turns.{part_of};

use archive_model::{Numbered, Registration};
use record_core::Recording;

/// Where blocks lie that are written and not settled.
#[derive(Clone, Copy, Debug, PartialEq, Eq)]
pub struct Written {
    /// Where the first block begins, in bytes of the stream.
    pub first: i64,
    /// Where the last block ends, in bytes of the stream.
    pub last: i64,
}

/// Who writes a recording: docs/CONTROL.md, "Recorder sessions".
#[derive(Clone, Copy, Debug, PartialEq, Eq)]
pub struct RecorderSession {
    /// Its number, from 0 at each opening.
    pub number: i64,
    /// The recording that it writes.
    pub recording: i64,
    /// What it wrote and did not settle.
    pub written: Option<Written>,
}

/// A replay that is open: docs/CONTROL.md, "Replays".
#[derive(Clone, Copy, Debug, PartialEq, Eq)]
pub struct OpenReplay {
    /// Its number, from 0 at each opening.
    pub number: i64,
    /// The recording that it gives.
    pub recording: i64,
    /// Where its next frame begins, in bytes of the stream.
    pub next: i64,
    /// Where it ends, in bytes of the stream: it gives frames that begin before it.
    pub bound: i64,
}

/// A recorder session that was found among those that are open.
#[derive(Clone, Copy, Debug, PartialEq, Eq)]
pub struct FoundSession {
    /// At which index it stands, until a session ends.
    pub index: usize,
    /// The session.
    pub session: RecorderSession,
}

/// A replay that was found among those that are open.
#[derive(Clone, Copy, Debug, PartialEq, Eq)]
pub struct FoundReplay {
    /// At which index it stands, until a replay is closed.
    pub index: usize,
    /// The replay.
    pub replay: OpenReplay,
}

/// A recorder session that was found, and the recording that it writes.
#[derive(Clone, Copy, Debug)]
pub struct Writer<'a> {
    /// The session, and where it stands.
    pub found: FoundSession,
    /// Its recording.
    pub known: &'a Registration,
}

/// A replay that was found, and the recording that it gives.
#[derive(Clone, Copy, Debug)]
pub struct Reader<'a> {
    /// The replay, and where it stands.
    pub found: FoundReplay,
    /// Its recording.
    pub known: &'a Registration,
}

impl Numbered for RecorderSession {
    ghost number_of = { λ s. s.number };

    fn has_number(&self, number: &i64) -> bool {
        self.number == *number
    }
}

impl Numbered for OpenReplay {
    ghost number_of = { λ r. r.number };

    fn has_number(&self, number: &i64) -> bool {
        self.number == *number
    }
}

impl Writer<'_> {
    /// Where what the session wrote of its recording ends, and up to where that is recorded.
    pub(crate) fn part(&self) -> Recording
        ensures { result ≡ part_of self.now.known.now self.now.found.session }
    {
        let session = &self.found.session;
        let recorded = self.known.recorded;
        Recording {
            session: session.number,
            written: session.written.map_or(recorded, |it| it.last),
            committed: recorded,
        }
    }
}

impl OpenReplay {
    pub(crate) fn move_to(&mut self, next: &i64)
        ensures { self.new ≡ moved_to next.now self.old }
    {
        self.next = *next;
    }

    /// Whether it is of a recording and goes on below a position.
    #[tactic(auto, unfolding(crate::specs::Desk::is_replay_before))]
    pub(crate) fn is_before(&self, recording: &i64, position: &i64) -> bool
        ensures { result ≡ is_replay_before recording.now position.now self.now }
    {
        self.recording == *recording && self.next < *position
    }
}
