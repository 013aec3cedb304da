//! Who takes the frames of a poll, each as it is read. docs/CONTROL.md, "Replays".

ghost use Rattle.std.specs.Prelude.{◌≡◌, ◌∷◌, ◌++◌, [], ℤ, OnErr, OnOk};
ghost use Rattle.frame_core.specs.declared.frame.Frame.{Frame};
ghost use Rattle.frame_core.specs.FrameEncoding.{frame_of, header_of};

use frame_core::{Frame, FrameRef};
use std::alloc::{AllocError, Global};

/// Who takes frames, each with where it begins.
pub trait FrameTaker {
    /// That a frame, which begins at a position in bytes of the stream, makes the one taker the other.
    ghost takes: { Self → ℤ → Frame → Self → Type 0 };

    /// That a take for which there is no memory may make the one taker the other.
    ghost leaves: { Self → Self → Type 0 };

    /// Takes a frame that begins at a position, in bytes of the stream. The bytes are those of its header: in front of its
    /// payload they are the frame's encoding. AllocError where there is no memory for it.
    fn take(&mut self, position: i64, header: &[u8], frame: &FrameRef<'_>) -> Result<(), AllocError>
        requires header { header.now ≡ header_of (frame_of frame.now) }
        ensures taken { OnOk result (takes self.old position (frame_of frame.now) self.new) }
        ensures left { OnErr result (leaves self.old self.new) };
}

/// Keeps a copy of each frame.
#[derive(Drop)]
pub struct FrameCopies {
    /// What the copies' memory is of.
    pub alloc: Global,
    /// The copies, in the order in which the frames were taken.
    pub frames: Vec<Frame>,
}

impl FrameTaker for FrameCopies {
    ghost takes = { λ old position frame new. new.frames.items ≡ old.frames.items ++ frame ∷ [] };

    ghost leaves = { λ old new. new.frames.items ≡ old.frames.items };

    fn take(
        &mut self,
        _position: i64,
        _header: &[u8],
        frame: &FrameRef<'_>,
    ) -> Result<(), AllocError> {
        let Ok(copy) = frame.to_frame(self.alloc) else {
            return Err(AllocError);
        };
        self.frames.push(copy)?;
        Ok(())
    }
}
