//! Where a publication goes on before its setup frame: docs/PROTOCOL.md, "Where an image joins".

ghost use Rattle.std.specs.Prelude.{◌≡◌, ◌<◌, ◌^◌};
ghost use Rattle.server_state.specs.Resuming.{is_resumable, is_resumable_slot, is_one_stream, is_within_reach, may_resume, resume_reach, slot_stand};

use frame_core::Geometry;
use stream_pairs::{SessionSlot, StreamPoint};

/// The longest message of a stream whose terms are long, in bytes.
const LONGEST_MESSAGE: u64 = 16_777_216;

/// Whether an image may go on before its setup frame, where a recording of its publication stands.
#[derive(Clone, Copy, Debug, PartialEq, Eq)]
pub enum Resumes {
    /// It may.
    Yes,
    /// Not now: an image of its publication was given up, since what was missing was not sent again.
    NoRepeat,
    /// Not now: an image of its publication was lost, since a block of it was refused.
    WasLost,
}

impl Resumes {
    /// Whether it may.
    pub fn may_resume(self) -> bool
        ensures { result ≡ may_resume self }
    {
        match self {
            Resumes::Yes => true,
            Resumes::NoRepeat => false,
            Resumes::WasLost => false,
        }
    }
}

/// Where a recording stands: where it ends, or where the session that writes it is settled to.
#[derive(Clone, Copy, Debug, PartialEq, Eq)]
pub struct Stand {
    /// The recording's id.
    pub recording: i64,
    /// The position, in bytes of the stream.
    pub position: i64,
}

/// The reach of a publication, in bytes: how far before its setup frame it may go on. Half a term, and the longest message: an
/// eighth of a term, at most 16,777,216. Does not allocate.
pub fn resume_reach(geometry: &Geometry) -> u64
    ensures value { result ≡ resume_reach geometry.now }
    ensures small { result < 2 ^ 31 }
{
    let term_length = u64::from(geometry.term_length.unsigned_abs());
    term_length / 2 + (term_length / 8).min(LONGEST_MESSAGE)
}

/// Whether a position lies before the point where a publication joined, within its reach. Does not allocate.
pub fn is_within_reach(join: &StreamPoint, position: i64) -> bool
    ensures { result ≡ is_within_reach join.now position }
{
    0 <= position
        && position < join.position
        && join.position - position <= resume_reach(&join.geometry) as i64
}

/// Whether two points are of one stream: of the same publication, with the same initial term id, term length and MTU. Does not
/// allocate.
pub fn is_one_stream(join: &StreamPoint, other: &StreamPoint) -> bool
    ensures { result ≡ is_one_stream join.now other.now }
{
    other.is_of(&join.publication)
        && other.geometry.initial_term_id == join.geometry.initial_term_id
        && other.geometry.term_length == join.geometry.term_length
        && other.geometry.mtu == join.geometry.mtu
}

/// Whether a publication that joined at a point may go on at another one. Does not allocate.
pub fn is_resumable(join: &StreamPoint, other: &StreamPoint) -> bool
    ensures { result ≡ is_resumable join.now other.now }
{
    is_one_stream(join, other) && is_within_reach(join, other.position)
}

/// Where a session stands, if a publication that joined at a point may go on there: it is open, and has no image.
pub(crate) fn slot_stand(join: &StreamPoint, slot: Option<SessionSlot>) -> Option<Stand>
    ensures { result ≡ slot_stand join.now slot }
{
    match slot {
        Some(slot) if is_resumable_slot(join, &slot) => Some(Stand {
            recording: slot.recording,
            position: slot.point.position,
        }),
        _ => None,
    }
}

fn is_resumable_slot(join: &StreamPoint, slot: &SessionSlot) -> bool
    ensures { result ≡ is_resumable_slot join.now slot.now }
{
    slot.is_open && slot.image.is_none() && is_resumable(join, &slot.point)
}
