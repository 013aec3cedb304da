//! What sessions wrote and did not settle, and when they are due to settle. docs/SERVING.md, "When a frame is durable".
//!
//! A time is in milliseconds since the recording thread began. It is None if the clock could not be read.

ghost use Rattle.std.specs.Prelude.{◌≡◌, None, false, nat_le, replicate, slice_set, true};
ghost use Rattle.server_recorder.specs.Settling.{PassesFirst, after_block, session_settled, elapsed, is_due, is_enough, is_full, is_half_due, is_overdue, later, nothing_written, pace_after, session_at, some_overdue, sooner, with_more};

use stream_pairs::{FED_SESSIONS, Place, Seat};

/// A session that wrote so many bytes settles, if no further block waits.
const SETTLED_IF_NONE_WAITS: u64 = 65_536;
/// A session that wrote so many bytes settles.
const SETTLED_ALWAYS: u64 = 1_048_576;
/// Microseconds that a sync takes at least where segment files are flushed before they are settled.
const SLOW_SYNC: u64 = 200;

/// What a session wrote and did not settle.
#[derive(Clone, Copy)]
pub(crate) struct Written {
    /// The session's number.
    pub session: i64,
    /// The place of the image that the last block is of.
    pub image: Place,
    /// The term of the last block.
    pub term_id: i32,
    /// How many bytes of the stream the blocks cover, at most 2^64 - 1.
    pub bytes: u64,
    /// When the oldest block was written.
    pub since: Option<u64>,
}

/// What is known of a session.
#[derive(Clone, Copy)]
pub(crate) struct SessionState {
    /// What it wrote and did not settle, if it wrote anything.
    pub written: Option<Written>,
    /// When it settled last. None before its first settling.
    pub settled_at: Option<u64>,
}

/// What the session at each seat wrote and did not settle, over batches, and what time it is.
#[derive(Clone, Copy)]
pub(crate) struct Settling {
    /// Milliseconds for which a block waits for its settling at most.
    every: u64,
    time: Option<u64>,
    sessions: [SessionState; FED_SESSIONS],
    /// Microseconds that each of the last syncs took.
    pace: u64,
}

impl Settling {
    /// Nothing was written. A block waits for so many milliseconds at most.
    pub fn new(every: u64) -> Settling
        ensures { result ≡ record {
          every = every;
          time = None;
          sessions = replicate 64 nothing_written;
          pace = 0;
        } }
    {
        Settling {
            every,
            time: None,
            sessions: [NOTHING_WRITTEN; FED_SESSIONS],
            pace: 0,
        }
    }

    /// Sets the time.
    pub fn set_time(&mut self, time: Option<u64>)
        ensures { self.new ≡ record self.old { time = time } }
    {
        self.time = time;
    }

    /// Notes that so many syncs, one after another, took so many microseconds. None says nothing.
    pub fn note_syncs(&mut self, micros: u64, syncs: usize)
        ensures { self.new ≡ record self.old { pace = pace_after micros syncs self.old.pace } }
    {
        if syncs > 0 {
            self.pace = micros / syncs as u64;
        }
    }

    /// Whether the last syncs took so long that segment files are flushed before they are settled: 200 microseconds each.
    pub fn is_slow(&self) -> bool
        ensures { result ≡ nat_le 200 self.now.pace }
    {
        self.pace >= SLOW_SYNC
    }

    /// What the session at a seat wrote and did not settle. None if it wrote nothing.
    pub fn written(&self, seat: Seat) -> Option<Written>
        ensures { result ≡ (session_at seat self.now.sessions).written }
    {
        self.session(seat).written
    }

    /// The session of a number, at a seat, wrote a block of an image: its term, and how many bytes of the stream it covers.
    pub fn add(&mut self, seat: Seat, session: i64, image: Place, term_id: i32, bytes: u64)
        ensures { self.new ≡ record self.old {
          sessions = slice_set self.old.sessions seat
              (after_block self.old.time session image term_id bytes (session_at seat self.old.sessions));
        } }
    {
        let state = self.session(seat);
        let (before, since) = match state.written {
            Some(written) if written.session == session => (written.bytes, written.since),
            _ => (0, self.time),
        };
        let written = Written {
            session,
            image,
            term_id,
            bytes: before.saturating_add(bytes),
            since,
        };
        self.set_session(
            seat,
            SessionState {
                written: Some(written),
                settled_at: state.settled_at,
            },
        );
    }

    /// What the session at a seat wrote, which it settles now. None if it wrote nothing.
    pub fn take(&mut self, seat: Seat) -> Option<Written>
        ensures written { result ≡ (session_at seat self.old.sessions).written }
        ensures settled { self.new ≡ session_settled seat self.old }
    {
        let written = self.written(seat)?;
        let settled_at = self.time;
        self.set_session(
            seat,
            SessionState {
                written: None,
                settled_at,
            },
        );
        Some(written)
    }

    /// Whether the session at a seat has to settle now. `block_waits`: a further block waits. `is_asked`: a client asked for it.
    pub fn is_due(&self, seat: Seat, block_waits: bool, is_asked: bool) -> bool
        ensures { result ≡ is_due self.now.every self.now.time block_waits is_asked
            (session_at seat self.now.sessions) }
    {
        let state = self.session(seat);
        let Some(written) = state.written else {
            return false;
        };
        is_asked
            || is_overdue(self.every, self.time, &state)
            || is_enough(written.bytes, block_waits)
    }

    /// Whether what the session at a seat wrote has waited for at least half as long as a block may.
    pub fn is_half_due(&self, seat: Seat) -> bool
        ensures { result ≡ is_half_due self.now.every self.now.time (session_at seat self.now.sessions).written }
    {
        let Some(written) = self.written(seat) else {
            return false;
        };
        match elapsed(written.since, self.time) {
            Some(wait) => wait >= self.every - self.every / 2,
            None => true,
        }
    }

    /// Whether the session of a number, at a seat, will have written so much with so many bytes more that it has to settle before
    /// its next block is written.
    pub fn is_full_with(&self, seat: Seat, session: i64, more: u64) -> bool
        ensures { result ≡ is_enough true
            (with_more session more (session_at seat self.now.sessions).written) }
    {
        let before = match self.written(seat) {
            Some(written) if written.session == session => written.bytes,
            _ => 0,
        };
        is_enough(before.saturating_add(more), true)
    }

    /// Whether the session at a seat wrote so much that it has to settle before its next block is written.
    pub fn is_full(&self, seat: Seat) -> bool
        ensures { result ≡ is_full (session_at seat self.now.sessions) }
    {
        match self.written(seat) {
            Some(written) => is_enough(written.bytes, true),
            None => false,
        }
    }

    /// In how many milliseconds the first session is due by time alone. None if no session wrote anything.
    pub fn next_due(&self) -> Option<u64>
        ensures { PassesFirst (λ ms. some_overdue self.now.every (later ms self.now.time) self.now.sessions) result }
    {
        let mut next = None;
        for session in self.sessions.iter() {
            next = sooner(next, due_in(self.every, self.time, session));
        }
        next
    }

    fn session(&self, seat: Seat) -> SessionState
        ensures { result ≡ session_at seat self.now.sessions }
    {
        match self.sessions.get(seat) {
            Some(state) => *state,
            None => NOTHING_WRITTEN,
        }
    }

    fn set_session(&mut self, seat: Seat, state: SessionState)
        ensures { self.new ≡ record self.old { sessions = slice_set self.old.sessions seat state } }
    {
        if seat < FED_SESSIONS {
            self.sessions[seat] = state;
        }
    }
}

const NOTHING_WRITTEN: SessionState = SessionState {
    written: None,
    settled_at: None,
};

/// Milliseconds from one time to another. None if either is not known, or the clock went back.
fn elapsed(from: Option<u64>, time: Option<u64>) -> Option<u64>
    ensures { result ≡ elapsed from time }
{
    time?.checked_sub(from?)
}

/// Whether the oldest block waited for `every` milliseconds, or the last settling is longer ago than that.
fn is_overdue(every: u64, time: Option<u64>, state: &SessionState) -> bool
    ensures { result ≡ is_overdue every time state.now }
{
    let Some(written) = state.written else {
        return false;
    };
    let has_waited = match elapsed(written.since, time) {
        Some(wait) => wait >= every,
        None => true,
    };
    let is_long_ago = match elapsed(state.settled_at, time) {
        Some(gone) => gone > every,
        None => true,
    };
    has_waited || is_long_ago
}

/// In how many milliseconds a session is due by time alone. None if it wrote nothing.
fn due_in(every: u64, time: Option<u64>, state: &SessionState) -> Option<u64>
    ensures { PassesFirst (λ ms. is_overdue every (later ms time) state.now) result }
{
    let written = state.written?;
    let wait_left = match elapsed(written.since, time) {
        Some(wait) => every.saturating_sub(wait),
        None => 0,
    };
    let gone_left = match elapsed(state.settled_at, time) {
        Some(gone) if gone <= every => (every - gone).saturating_add(1),
        _ => 0,
    };
    Some(wait_left.min(gone_left))
}

/// The lesser of two numbers; the other one if one is missing.
pub(crate) fn sooner(first: Option<u64>, second: Option<u64>) -> Option<u64>
    ensures { result ≡ sooner first second }
{
    match (first, second) {
        (Some(first), Some(second)) => Some(first.min(second)),
        (None, second) => second,
        (first, None) => first,
    }
}

/// Whether so many bytes are to be settled at once.
fn is_enough(bytes: u64, block_waits: bool) -> bool
    ensures { result ≡ is_enough block_waits bytes }
{
    bytes >= SETTLED_ALWAYS || (bytes >= SETTLED_IF_NONE_WAITS && !block_waits)
}
