//! Heartbeats that a follower is sent. docs/PROTOCOL.md, "Following a recording".

ghost use Rattle.std.specs.Prelude.{◌≡◌, ◌<◌, ◌^◌, pos, IsTrue, MatchOption, false};
ghost use Rattle.frame_core.specs.FrameEncoding.{frame_of};
ghost use Rattle.frame_core.specs.Position.{HasPosition};
ghost use Rattle.settled_replays.specs.Sending.{IsSign, IsSignBytes, is_in_terms};

use frame_core::{FrameKind, FrameRef, Geometry, Publication, term_of};

/// What a heartbeat says to a follower, as its flags.
#[derive(Clone, Copy, Debug, PartialEq, Eq)]
pub enum Sign {
    /// Nothing comes at the moment.
    Alive,
    /// No frame comes any more: the bound is reached, or the recording is stopped and all of it was sent.
    Ended,
    /// No frame can be sent any more: one is damaged, or the device failed.
    Failed,
}

impl Sign {
    ghost use Rattle.settled_replays.specs.Sending.{flags_of};

    /// The flags in its heartbeat's header.
    pub fn flags(self) -> u8
        ensures { result ≡ flags_of self }
    {
        match self {
            Sign::Alive => 0xC0,
            Sign::Ended => 0xE0,
            Sign::Failed => 0xE1,
        }
    }
}

/// The bytes of a heartbeat at a position, in bytes of the stream. None if the position has no term. Does not allocate.
pub fn sign_at(
    geometry: &Geometry,
    publication: &Publication,
    position: u64,
    sign: Sign,
) -> Option<[u8; 32]>
    ensures { MatchOption result (is_in_terms geometry.now position ≡ false)
        (IsSignBytes geometry.now publication.now sign position) }
{
    let frame = heartbeat_at(geometry, publication, position, sign.flags())?;
    Some(frame.header())
}

/// A heartbeat with these flags. None if the position has no term.
fn heartbeat_at(
    geometry: &Geometry,
    publication: &Publication,
    position: u64,
    flags: u8,
) -> Option<FrameRef<'static>>
    ensures { MatchOption result (is_in_terms geometry.now position ≡ false)
        (λ frame. IsSign geometry.now publication.now flags position (frame_of frame)) }
{
    if !is_in_terms(geometry, position) {
        return None;
    }
    let (term_id, term_offset) = term_of(geometry, position as i64);
    Some(FrameRef {
        kind: FrameKind::Heartbeat,
        flags,
        length: 0,
        term_offset,
        session_id: publication.session_id,
        stream_id: publication.stream_id,
        term_id,
        reserved: 0,
        payload: &[],
    })
}

/// Whether a position is before the end of the last term.
fn is_in_terms(geometry: &Geometry, position: u64) -> bool
    ensures value { result ≡ is_in_terms geometry.now position }
    ensures small { IsTrue result → position < 2 ^ 62 }
{
    if geometry.term_length <= 0 {
        return false;
    }
    position < (1 << 31) * u64::from(geometry.term_length.unsigned_abs())
}
