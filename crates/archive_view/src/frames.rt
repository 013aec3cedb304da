//! The frames of a recording: docs/STORAGE.md, "Boundaries" and "Looking at an archive".

ghost use Rattle.std.specs.Prelude.{◌≡◌, ◌+◌, ◌<◌, ◌≤ℤ◌, pos, IfErr, IfOk, IsErrOf, IsTrue, unsigned_abs};
ghost use Rattle.frame_core.specs.declared.refusal.Refusal.TheVariants.{DeviceFault};
ghost use Rattle.frame_core.specs.FrameEncoding.{aligned_length};
ghost use Rattle.disk_core.specs.DiskImage.{reads};
ghost use Rattle.disk_core.specs.Life.{HasFailed, IsQuiet};
ghost use Rattle.segment_store.specs.DamagedFrame.{RefusesFrame};
ghost use Rattle.archive_model.specs.State.{geometry_of};
ghost use Rattle.control_core.specs.Orderly.{IsLaid};
ghost use Rattle.recording_reads.specs.Recording.{layout_of};
ghost use Rattle.archive_view.specs.ShownFrames.{Shows};

use crate::ArchiveView;
use archive_model::Registration;
use disk_core::Disk;
use frame_core::{Frame, Refusal};
use recording_reads::layout_of;
use segment_store::read_frame;
use std::alloc::Global;

impl<D: Disk> ArchiveView<D> {
    ghost use Rattle.archive_view.specs.ShownFrames.{HasBounded, HasShown};

    /// Whether a frame of a recording begins or ends at a position, none past the recorded one: by the frames of the position's
    /// term.
    ///
    /// `UnknownRecording` where the recording isn't there; `Damaged` with the position at which the frames of the term break
    /// off before that one; `DeviceFault`. The disk is only read. Costs a step for each frame of the term before the position.
    /// docs/STORAGE.md, "Boundaries".
    pub fn is_boundary(&mut self, recording: &i64, position: i64) -> Result<bool, Refusal>
        ensures { HasBounded D.life self.old self.new recording.now position result }
    {
        let Some(known) = self.desk.recording(recording) else {
            return Err(Refusal::UnknownRecording);
        };
        recording_reads::is_boundary(&mut self.disk, known, position)
    }

    /// The frame of a recording that begins at a position, and ends at or before the recorded one.
    ///
    /// `UnknownRecording` where the recording isn't there; `BadPosition` where the position isn't between its start and its
    /// recorded position; `Damaged` where no frame is shown there; `DeviceFault`; `NoMemory`. The disk is only read. Costs
    /// the frame. docs/STORAGE.md, "Damaged frames".
    pub fn frame_at(
        &mut self,
        alloc: Global,
        recording: &i64,
        position: i64,
    ) -> Result<Frame, Refusal>
        ensures { HasShown D.life self.old self.new recording.now position result }
    {
        let Some(known) = self.desk.recording(recording) else {
            return Err(Refusal::UnknownRecording);
        };
        if position < known.descriptor.start_position || position >= known.recorded {
            return Err(Refusal::BadPosition);
        }
        shown(alloc, &mut self.disk, known, position)
    }
}

/// The frame of a recording at a position. `Damaged`; `DeviceFault`; `NoMemory`.
fn shown<D: Disk>(
    alloc: Global,
    disk: &mut D,
    registration: &Registration,
    position: i64,
) -> Result<Frame, Refusal>
    requires laid { IsLaid registration.now }
    requires from_start { registration.now.descriptor.start_position ≤ℤ position }
    ensures frame { IfOk result (λ frame. IsTrue (D.life disk.new).obeys →
        Shows registration.now position frame (reads (D.life disk.old).now)) }
    ensures ends { IfOk result (λ frame. pos (unsigned_abs position + aligned_length frame) ≤ℤ registration.now.recorded) }
    ensures covers { IfOk result (λ frame. 0 < aligned_length frame) }
    ensures refused { IfErr result (RefusesFrame (D.life disk.new).obeys (reads (D.life disk.old).now)
        (layout_of registration.now.descriptor) (geometry_of registration.now.descriptor) registration.now.recorded position) }
    ensures quiet { IsQuiet (D.life disk.old) (D.life disk.new) }
    ensures cause { IsErrOf result DeviceFault → HasFailed (D.life disk.old) (D.life disk.new) }
{
    let descriptor = &registration.descriptor;
    read_frame(
        alloc,
        disk,
        &layout_of(descriptor),
        &descriptor.geometry(),
        position,
        registration.recorded,
    )
}
