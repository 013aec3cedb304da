//! A recorder session writes a block. docs/CONTROL.md, "Recorder sessions"; docs/STORAGE.md, "Segments".

ghost use Rattle.control_core.specs.declared.event.Event.TheVariants as events;
ghost use Rattle.engine_core.specs.Catalogued.{KeepsFound};
ghost use Rattle.engine_core.specs.Touching.{WantsMemory, WritesBlock};

use crate::making::failed;
use crate::stored::StoredArchive;
use archive_model::Reply;
use control_core::decide_write;
use disk_core::Disk;
use frame_core::{Block, Refusal};
use recording_reads::layout_of;

impl<D: Disk> StoredArchive<D> {
    ghost use Rattle.engine_core.specs.Seen.{HasEnded, state_of};

    /// Writes a recorder session's block behind what it wrote before, or behind what is recorded, by one call of the disk,
    /// and answers where it ends, in bytes of the stream. It is durable once it is settled, with what was written before.
    ///
    /// The refusals of docs/CONTROL.md, "Refusals"; `DeviceFault` where the disk fails, with the archive broken. Does not
    /// allocate. Costs the block's bytes, the open sessions, and a lookup of the recording.
    pub(crate) fn write(&mut self, session: &i64, block: &Block) -> Result<Reply, Refusal>
        ensures ends { HasEnded D.life self.old self.new (events.Write session.now block.now) result }
        ensures touches { WritesBlock self.old.desk.state session.now block.now
            (D.life self.old.storage.disk) (D.life self.new.storage.disk) }
        ensures memory { WantsMemory self.old.desk.state (events.Write session.now block.now) result }
        ensures catalogue { KeepsFound (state_of D.life self.old) (state_of D.life self.new) self.old.desk.state.register }
    {
        let found = decide_write(&self.desk, session, block)?;
        let layout = layout_of(&found.writer.known.descriptor);
        let index = found.writer.found.index;
        let span = found.span;
        match self.storage.write(&layout, block) {
            Ok(()) => {
                self.desk.note_written(session, index, &span);
                Ok(Reply::Written {
                    position: span.last,
                })
            }
            Err(refusal) => Err(failed(&mut self.desk, refusal)),
        }
    }
}
