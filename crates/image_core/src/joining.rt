//! Which frames may join an image, whatever it has received.

ghost use Rattle.std.specs.Prelude.{◌≡◌, ◌<◌, ◌≤◌, ◌+◌, ◌*◌, ◌^◌, ◌≤ℤ◌, pos, unsigned_abs, if◌then◌else◌, None, IfSome, IsTrue};
ghost use Rattle.frame_core.specs.FrameEncoding.{aligned_length, frame_of};
ghost use Rattle.frame_core.specs.Position.{frame_position};
ghost use Rattle.image_core.specs.Received.{is_inside, is_of, is_within, joining_position, window};

use frame_core::limits::HEADER_LENGTH;
use frame_core::{FrameKind, FrameRef, Geometry, Publication};

/// Whether a frame is of the publication's session and stream.
#[tactic(auto, unfolding(crate::specs::Received::is_of))]
pub fn is_of(publication: &Publication, frame: &FrameRef<'_>) -> bool
    ensures { result ≡ is_of publication.now (frame_of frame.now) }
{
    frame.session_id == publication.session_id && frame.stream_id == publication.stream_id
}

/// Whether a frame is a message or a pad with at most so many bytes in its datagram as the MTU allows.
fn is_within(geometry: &Geometry, frame: &FrameRef<'_>) -> bool
    ensures { let it = frame_of frame.now in
        result ≡ is_within geometry.now.mtu it.kind it.length }
{
    match frame.kind {
        FrameKind::Pad => HEADER_LENGTH as i32 <= geometry.mtu,
        FrameKind::Message => frame.length <= geometry.mtu,
        FrameKind::Heartbeat => false,
    }
}

/// Whether a frame lies inside its term.
#[tactic(auto, unfolding(crate::specs::Received::is_inside))]
fn is_inside(geometry: &Geometry, frame: &FrameRef<'_>) -> bool
    ensures inside { result ≡ is_inside geometry.now (frame_of frame.now) }
    ensures small { let begins = unsigned_abs frame.now.term_offset in IsTrue result →
        begins + aligned_length (frame_of frame.now) ≤ unsigned_abs geometry.now.term_length }
{
    let size = u64::from(geometry.term_length.unsigned_abs());
    u64::from(frame.term_offset.unsigned_abs()) + frame.aligned_length() <= size
}

/// The position at which a frame may join, if nothing that was received speaks against it.
#[tactic(auto, unfolding(crate::specs::Received::joining_position))]
pub fn joining_position(
    geometry: &Geometry,
    publication: &Publication,
    frame: &FrameRef<'_>,
) -> Option<u64>
    ensures position { result ≡
        joining_position geometry.now publication.now (frame_of frame.now) }
    ensures room { IfSome result (λ p.
        p + aligned_length (frame_of frame.now) ≤ 2 ^ 31 * unsigned_abs geometry.now.term_length) }
    ensures small { IfSome result (λ p. p < 2 ^ 62) }
{
    if is_of(publication, frame) && is_within(geometry, frame) && is_inside(geometry, frame) {
        frame.position_in(geometry)
    } else {
        None
    }
}

/// The position of a heartbeat of the publication.
pub fn heartbeat_position(
    geometry: &Geometry,
    publication: &Publication,
    frame: &FrameRef<'_>,
) -> Option<u64>
    requires { pos 0 ≤ℤ geometry.now.term_length }
    ensures position { result ≡
        (if is_of publication.now (frame_of frame.now)
        then frame_position geometry.now (frame_of frame.now)
        else None) }
    ensures room { IfSome result (λ p. p ≤ 2 ^ 31 * unsigned_abs geometry.now.term_length) }
{
    if is_of(publication, frame) {
        frame.position_in(geometry)
    } else {
        None
    }
}

/// Half a term.
pub fn window(geometry: &Geometry) -> u64
    ensures half { result ≡ window geometry.now }
    ensures small { result < 2 ^ 31 }
{
    u64::from(geometry.term_length.unsigned_abs()) / 2
}
