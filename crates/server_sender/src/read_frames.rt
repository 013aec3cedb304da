//! Frames of a recording on their way into a publication. docs/PROTOCOL.md, "Publications of recordings".

ghost use Rattle.std.specs.Prelude.{◌≡◌, ◌==◌, [], drop, length, IfOk};
ghost use Rattle.std.specs.Slice.{IsItemAt};
ghost use Rattle.frame_core.specs.FrameEncoding.{frame_of};

use archive_model::PolledFrame;
use frame_core::{Frame, FrameRef, Items};
use replay_core::FrameTaker;
use std::alloc::{AllocError, Global};
use std::collections::VecDeque;
use std::marker::Model;

/// Copies of frames that were read and are not laid yet, in their order, each with where it begins. To a contract they are the list
/// of them. The memory of dropped ones is used again.
#[derive(Drop)]
pub struct ReadFrames {
    alloc: Global,
    frames: VecDeque<PolledFrame>,
    spare: Vec<Vec<u8>>,
}

impl Model for ReadFrames {
    ghost use Rattle.std.specs.Prelude.{List};
    ghost use Rattle.archive_model.specs.declared.reply.PolledFrame.{PolledFrame};

    ghost Value = { List PolledFrame };

    ghost view = { λ r. r.frames.items };
}

impl ReadFrames {
    /// None. Does not allocate.
    pub fn new(alloc: Global) -> ReadFrames
        ensures { result ≡ [] }
    {
        ReadFrames {
            alloc,
            frames: VecDeque::new(alloc),
            spare: Vec::new(alloc),
        }
    }

    /// Whether there are none.
    pub fn is_empty(&self) -> bool
        ensures { result ≡ (length self.now == 0) }
    {
        self.frames.is_empty()
    }

    /// Drops them, and keeps their memory.
    pub fn clear(&mut self)
        ensures { self.new ≡ [] }
    {
        while !self.is_empty() {
            self.drop_first();
        }
    }

    /// The first one.
    pub(crate) fn first(&self) -> Option<&PolledFrame>
        ensures { IsItemAt self.now 0 result }
    {
        self.frames.front()
    }

    /// Drops the first one, and keeps its memory.
    pub(crate) fn drop_first(&mut self)
        ensures { self.new ≡ drop 1 self.old }
    {
        if let Some(first) = self.frames.pop_front() {
            let _ = self.spare.push(first.frame.payload.into_vec());
        }
    }

    /// A copy of a frame, with spare memory if there is some. AllocError if there is none.
    fn copy(&mut self, frame: &FrameRef<'_>) -> Result<Frame, AllocError>
        ensures copy { IfOk result (λ copy. copy ≡ frame_of frame.now) }
        ensures same { self.new ≡ self.old }
    {
        let mut payload = self.spare.pop().unwrap_or(Vec::new(self.alloc));
        payload.clear();
        payload.extend_from_slice(frame.payload)?;
        Ok(with_payload(frame, payload))
    }
}

/// A copy of each frame comes after those that are there.
impl FrameTaker for ReadFrames {
    ghost use Rattle.server_sender.specs.Publishing.{KeepsRead};

    ghost takes = { KeepsRead };

    ghost leaves = { λ old new. new ≡ old };

    fn take(
        &mut self,
        position: i64,
        _header: &[u8],
        frame: &FrameRef<'_>,
    ) -> Result<(), AllocError> {
        let frame = self.copy(frame)?;
        self.frames.push_back(PolledFrame { position, frame })?;
        Ok(())
    }
}

/// A frame with a payload of its own.
fn with_payload(frame: &FrameRef<'_>, payload: Vec<u8>) -> Frame
    ensures { result ≡ record (frame_of frame.now) { payload = payload.items } }
{
    Frame {
        kind: frame.kind,
        flags: frame.flags,
        length: frame.length,
        term_offset: frame.term_offset,
        session_id: frame.session_id,
        stream_id: frame.stream_id,
        term_id: frame.term_id,
        reserved: frame.reserved,
        payload: Items::from_vec(payload),
    }
}
