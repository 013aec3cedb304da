//! The frames of a datagram: docs/PROTOCOL.md, "Datagrams".

ghost use Rattle.std.specs.Prelude.{map, MatchResult};
ghost use Rattle.frame_core.specs.Datagram.{IsDatagram, IsDatagramRefusal};
ghost use Rattle.frame_core.specs.FrameEncoding.{frame_of};

use crate::codec::decode_front;
use crate::frame::{FrameKind, FrameRef};
use crate::refusal::Refusal;
use std::alloc::Global;

/// The frames of a datagram, in order. BadFrame, with the offset in bytes of the first bad frame: where no frame
/// stands in front of what is left, or a heartbeat does behind another frame; an empty datagram is bad at 0. Behind a
/// heartbeat at 0 and behind a pad nothing is read. NoMemory where the list can't grow. Costs a step for each
/// frame.
pub fn frames_of_datagram(alloc: Global, bytes: &[u8]) -> Result<Vec<FrameRef<'_>>, Refusal>
    ensures { MatchResult result
        (λ frames. IsDatagram bytes.now (map frame_of frames.items))
        (IsDatagramRefusal bytes.now) }
{
    if bytes.is_empty() {
        return Err(Refusal::BadFrame { offset: 0 });
    }
    let mut frames = Vec::new(alloc);
    let mut offset = 0;
    'fronts: while offset < bytes.len() {
        let (_, rest) = bytes.split_at(offset);
        let Ok((frame, used)) = decode_front(rest) else {
            return Err(Refusal::BadFrame { offset });
        };
        if frame.kind == FrameKind::Heartbeat {
            if offset > 0 {
                return Err(Refusal::BadFrame { offset });
            }
            frames.push(frame)?;
            return Ok(frames);
        }
        frames.push(frame)?;
        offset += used;
    }
    Ok(frames)
}
