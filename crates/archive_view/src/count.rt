//! How many frames a recording has: docs/STORAGE.md, "Damaged frames".

use crate::ArchiveView;
use disk_core::Disk;
use frame_core::Refusal;
use recording_reads::count_frames;
use std::alloc::Global;

impl<D: Disk> ArchiveView<D> {
    ghost use Rattle.archive_view.specs.Verified.{HasVerified};

    /// How many frames a recording has, from its start to its recorded position: each is read.
    ///
    /// `UnknownRecording` where it isn't there; `Damaged` with the position at which the frames break off; `DeviceFault`;
    /// `NoMemory`. The disk is only read. Costs what each frame costs. docs/STORAGE.md, "Damaged frames".
    pub fn verify(&mut self, alloc: Global, recording: &i64) -> Result<i64, Refusal>
        ensures { HasVerified D.life self.old self.new recording.now result }
    {
        let Some(known) = self.desk.recording(recording) else {
            return Err(Refusal::UnknownRecording);
        };
        count_frames(alloc, &mut self.disk, known)
    }
}
