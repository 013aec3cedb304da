//! Holes between recordings of one publication, as they stand when a server begins. docs/SERVING.md, "What the server prints".

ghost use Rattle.std.specs.Prelude.{◌≡◌, length};
ghost use Rattle.server_recorder.specs.Holes.{begin_point, hole_at, hole_before, hole_bytes, holes_below, with_hole};

use crate::streams::stand_before;
use archive_model::Descriptor;
use frame_core::{Geometry, Publication};
use stream_pairs::StreamPoint;

/// Holes between recordings.
#[derive(Clone, Copy, Debug, PartialEq, Eq)]
pub(crate) struct StandingHoles {
    /// How many there are.
    pub count: u64,
    /// Bytes of them.
    pub bytes: u64,
}

/// The holes between recordings of one publication, of recordings by rising id: where one begins past the end of the last one
/// before it. Costs a step for each two recordings. Does not allocate.
pub(crate) fn standing_holes(recordings: &[Descriptor]) -> StandingHoles
    ensures { result ≡ holes_below (length recordings.now) recordings.now }
{
    let mut holes = StandingHoles { count: 0, bytes: 0 };
    for index in 0..recordings.len() {
        holes = with_hole(holes, hole_at(recordings, index));
    }
    holes
}

/// One hole of so many bytes more, if it has any.
fn with_hole(holes: StandingHoles, bytes: u64) -> StandingHoles
    ensures { result ≡ with_hole holes bytes }
{
    if bytes == 0 {
        holes
    } else {
        StandingHoles {
            count: holes.count.saturating_add(1),
            bytes: holes.bytes.saturating_add(bytes),
        }
    }
}

/// Bytes of the hole before a recording of several.
fn hole_at(recordings: &[Descriptor], index: usize) -> u64
    ensures { result ≡ hole_at index recordings.now }
{
    match recordings.get(index) {
        Some(recording) => hole_before(&recordings[..index], recording),
        None => 0,
    }
}

/// Bytes of the hole between the last recording of a publication and the next one.
fn hole_before(before: &[Descriptor], recording: &Descriptor) -> u64
    ensures { result ≡ hole_before before.now recording.now }
{
    let begin = begin_point(recording);
    match stand_before(before, &begin) {
        Some(stand) => hole_bytes(stand.position, begin.position),
        None => 0,
    }
}

/// Where a recording begins.
fn begin_point(recording: &Descriptor) -> StreamPoint
    ensures { result ≡ begin_point recording.now }
{
    StreamPoint {
        publication: Publication {
            session_id: recording.session_id,
            stream_id: recording.stream_id,
        },
        geometry: Geometry {
            initial_term_id: recording.initial_term_id,
            term_length: recording.term_length,
            mtu: recording.mtu,
        },
        position: recording.start_position,
    }
}

/// Bytes from the end of a recording to where the next one begins; 0 if it begins there or before.
fn hole_bytes(from: i64, to: i64) -> u64
    ensures { result ≡ hole_bytes from to }
{
    if 0 <= from && from < to {
        (to - from).unsigned_abs()
    } else {
        0
    }
}
