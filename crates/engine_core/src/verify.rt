//! A recording whose frames are read one after another. docs/STORAGE.md, "Damaged frames".

ghost use Rattle.std.specs.Prelude.{IfSome, IsTrue};
ghost use Rattle.disk_core.specs.DiskImage.{reads};
ghost use Rattle.disk_core.specs.Life.{IsQuiet};
ghost use Rattle.archive_model.specs.Register.{registration_in};
ghost use Rattle.control_core.specs.declared.event.Event.TheVariants as events;
ghost use Rattle.engine_core.specs.Catalogued.{KeepsFound};
ghost use Rattle.engine_core.specs.Shown.{CountsShown};

use crate::stored::StoredArchive;
use archive_model::Reply;
use control_core::decide_verify;
use disk_core::Disk;
use frame_core::Refusal;
use recording_reads::count_frames;
use std::alloc::Global;

impl<D: Disk> StoredArchive<D> {
    ghost use Rattle.engine_core.specs.Seen.{HasEnded, state_of};

    /// Reads each recorded frame of a recording, and answers how many there are.
    ///
    /// `UnknownRecording` where it isn't there; `Damaged` with the position at which the frames break off; `DeviceFault`;
    /// `NoMemory`. The archive stays as it is. Costs what each frame costs. docs/STORAGE.md, "Damaged frames".
    pub(crate) fn verify(&mut self, alloc: Global, recording: &i64) -> Result<Reply, Refusal>
        ensures ends { HasEnded D.life self.old self.new (events.Verify recording.now) result }
        ensures shows { IsTrue (D.life self.new.storage.disk).obeys →
            IfSome (registration_in self.old.desk.state.register recording.now) (λ g.
            CountsShown (reads (D.life self.old.storage.disk).now) g result) }
        ensures quiet { IsQuiet (D.life self.old.storage.disk) (D.life self.new.storage.disk) }
        ensures catalogue { KeepsFound (state_of D.life self.old) (state_of D.life self.new) self.old.desk.state.register }
    {
        let known = decide_verify(&self.desk, recording)?;
        let frames = count_frames(alloc, &mut self.storage.disk, known)?;
        Ok(Reply::Verified { frames })
    }
}
