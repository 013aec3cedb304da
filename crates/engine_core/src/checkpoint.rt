//! The catalogue is written anew while recordings go on. docs/STORAGE.md, "Checkpoints".

ghost use Rattle.control_core.specs.declared.event.Event.TheVariants as events;
ghost use Rattle.engine_core.specs.Catalogued.{RenewsFound};
ghost use Rattle.engine_core.specs.Touching.{Touches};

use crate::making::failed;
use crate::stored::StoredArchive;
use archive_model::Reply;
use control_core::decide_sweep;
use disk_core::Disk;
use frame_core::Refusal;
use std::alloc::Global;

impl<D: Disk> StoredArchive<D> {
    ghost use Rattle.engine_core.specs.Seen.{HasEnded, state_of};

    /// Writes the catalogue anew in the bank that is not in use, by at most seven calls of the disk, and goes on there. Sessions
    /// and replays go on, and so does what was written and not settled: nothing changes of the recordings, as many entries
    /// count as recordings are active, and the catalogue is of version 2.
    ///
    /// `Broken` if a write has failed; `NotCatalogue` if the other bank may not be written; `HistoryFull` at the last epoch. A
    /// full history is no refusal. `NoMemory`, before the first call; `DeviceFault` if the disk fails: the archive is then
    /// broken, and a crash leaves the same recordings. docs/STORAGE.md, "Checkpoints". Costs the recordings.
    pub(crate) fn checkpoint(&mut self, alloc: Global) -> Result<Reply, Refusal>
        ensures ends { HasEnded D.life self.old self.new events.Checkpoint result }
        ensures touches { Touches (state_of D.life self.old) events.Checkpoint (D.life self.new.storage.disk) }
        ensures catalogue { RenewsFound (state_of D.life self.old) (state_of D.life self.new) }
    {
        decide_sweep(&self.desk)?;
        self.storage.log.may_checkpoint()?;
        match self.storage.checkpoint(alloc, self.desk.register()) {
            Ok(()) => {
                self.desk.note_checkpoint();
                Ok(Reply::Checkpointed)
            }
            Err(refusal) => Err(failed(&mut self.desk, refusal)),
        }
    }
}
