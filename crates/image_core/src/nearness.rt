//! Which frames an image's stock has room for.

ghost use Rattle.std.specs.Prelude.{◌≡◌, ◌<◌, ◌≤◌, ◌+◌, ◌^◌, map};
ghost use Rattle.std.specs.List.{list_all};
ghost use Rattle.frame_core.specs.FrameEncoding.{frame_of};
ghost use Rattle.image_core.specs.Stock.{are_near, is_near, kept_length, stock_end};

use crate::image::Image;
use frame_core::limits::HEADER_LENGTH;
use frame_core::{FrameKind, FrameRef, Geometry};

/// How many bytes of its stream an image keeps at most, past what was taken. A pad counts by its header, 32 bytes.
pub const STOCK: u64 = 1_048_576;

/// Whether what is kept of each of the frames ends within the image's stock. Costs a step for each frame.
pub fn has_room_for(image: &Image, frames: &[FrameRef<'_>]) -> bool
    ensures { result ≡ are_near image.now (map frame_of frames.now) }
{
    are_near(image.geometry(), stock_end(image), frames)
}

/// Whether what is kept of each of the frames ends at a limit at most.
fn are_near(geometry: &Geometry, limit: u64, frames: &[FrameRef<'_>]) -> bool
    ensures { result ≡ list_all (λ frame. is_near geometry.now limit (frame_of frame)) frames.now }
{
    frames.iter().all(|frame| is_near(geometry, limit, frame))
}

/// Where the stock of an image ends, in bytes of the stream.
pub fn stock_end(image: &Image) -> u64
    ensures end { result ≡ stock_end image.now }
    ensures small { result ≤ 2 ^ 62 }
{
    image.taken() as u64 + STOCK
}

/// Whether a frame is never held, or what is kept of it ends at a limit at most.
fn is_near(geometry: &Geometry, limit: u64, frame: &FrameRef<'_>) -> bool
    ensures { result ≡ is_near geometry.now limit (frame_of frame.now) }
{
    match frame.kind {
        FrameKind::Pad | FrameKind::Message => match frame.position_in(geometry) {
            Some(position) => position + kept_length(frame) <= limit,
            None => true,
        },
        FrameKind::Heartbeat => true,
    }
}

/// How many bytes of the stock a frame takes: a message all that it covers of the stream, a pad its header's.
fn kept_length(frame: &FrameRef<'_>) -> u64
    ensures bytes { result ≡ kept_length (frame_of frame.now) }
    ensures small { result < 2 ^ 33 }
{
    match frame.kind {
        FrameKind::Pad => HEADER_LENGTH as u64,
        FrameKind::Message => frame.aligned_length(),
        FrameKind::Heartbeat => 0,
    }
}
