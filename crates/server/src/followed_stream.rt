//! What is followed. docs/PROTOCOL.md, "Following a recording".

ghost use Rattle.std.specs.Prelude.{◌≡◌, ◌≤ℤ◌, pos};

use archive_model::Descriptor;
use frame_core::{Geometry, Publication};

/// Bytes of frames that are read at once, about.
const READ_AT_ONCE: i64 = 1_048_576;

/// What is followed: of which stream heartbeats are, and how many frames are read at once at most.
#[derive(Clone, Copy)]
pub(crate) struct FollowedStream {
    pub geometry: Geometry,
    pub publication: Publication,
    pub most: i64,
    ghost some: { pos 1 ≤ℤ most },
}

impl FollowedStream {
    ghost use Rattle.archive_model.specs.State.{geometry_of};

    /// That of a recording.
    pub fn of(descriptor: &Descriptor) -> FollowedStream
        ensures geometry { result.geometry ≡ geometry_of descriptor.now }
        ensures publication { result.publication ≡ record {
          session_id = descriptor.now.session_id;
          stream_id = descriptor.now.stream_id;
        } }
    {
        FollowedStream {
            geometry: descriptor.geometry(),
            publication: Publication {
                session_id: descriptor.session_id,
                stream_id: descriptor.stream_id,
            },
            most: (READ_AT_ONCE / i64::from(descriptor.mtu.max(1))).clamp(1, 4_096),
        }
    }
}
