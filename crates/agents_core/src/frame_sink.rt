//! Where a replayer's frames go: docs/ARCHITECTURE.md, "Agents".

use archive_model::PolledFrame;

/// Where a replayer's frames go.
pub trait FrameSink {
    ghost use Rattle.std.specs.Prelude.{Bool, List};
    ghost use Rattle.archive_model.specs.declared.reply.PolledFrame.{PolledFrame};

    /// What a state may answer to frames, and which state follows.
    ghost takes: { Self → List PolledFrame → Bool → Self → Type 0 };

    /// Takes the frames of a poll, or none. Whether more are wanted.
    fn take(&mut self, frames: &[PolledFrame]) -> bool
        ensures { Self.takes self.old frames.now result self.new };
}
