//! A replay: what it reads, where it goes on and where it ends. docs/CONTROL.md, "Replays".

ghost use Rattle.std.specs.Prelude.{◌≡◌, ◌≤ℤ◌, pos, negsuc};
ghost use Rattle.frame_core.specs.ReplayEnd.{bound_of, is_done};

use frame_core::{is_replay_done, replay_bound};

/// A replay of a recording. Positions are in bytes of the stream.
#[derive(Clone, Copy, Debug, PartialEq, Eq)]
pub struct Replay {
    /// The recording that it gives.
    pub recording: i64,
    /// Where its next frame begins.
    pub next: i64,
    /// Where it ends: it gives frames that begin before it.
    pub bound: i64,
}

impl Replay {
    /// A replay of a recording from a position, with a length in bytes of the stream: -1, or one that reaches past the
    /// last position, means that it has no end. Does not allocate.
    pub fn new(recording: i64, position: i64, length: i64) -> Replay
        ensures recording { result.recording ≡ recording }
        ensures next { result.next ≡ position }
        ensures bound { negsuc 0 ≤ℤ length → result.bound ≡ bound_of position length }
    {
        Replay {
            recording,
            next: position,
            bound: replay_bound(&position, &length),
        }
    }

    /// Where its next frame begins, in bytes of the stream. Does not allocate.
    pub fn next_position(&self) -> i64
        ensures { result ≡ self.now.next }
    {
        self.next
    }

    /// Whether it gives no frame any more: it is at its bound, or at the recorded position of a recording that isn't
    /// active. Does not allocate.
    pub fn is_done(&self, recorded: i64, active: bool) -> bool
        ensures { result ≡ is_done self.now.bound self.now.next recorded active }
    {
        is_replay_done(&self.bound, &self.next, &recorded, active)
    }
}
