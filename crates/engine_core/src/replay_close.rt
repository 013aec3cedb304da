//! A replay is closed. docs/CONTROL.md, "Replays".

ghost use Rattle.std.specs.Prelude.{◌≡◌};
ghost use Rattle.control_core.specs.declared.event.Event.TheVariants as events;
ghost use Rattle.engine_core.specs.Catalogued.{KeepsFound};
ghost use Rattle.engine_core.specs.Touching.{WantsMemory};

use crate::stored::StoredArchive;
use archive_model::Reply;
use control_core::decide_close;
use disk_core::Disk;
use frame_core::Refusal;

impl<D: Disk> StoredArchive<D> {
    ghost use Rattle.engine_core.specs.Seen.{HasEnded, state_of};

    /// Closes a replay: `UnknownReplay` where none of the number is open. The disk is not asked; does not allocate. Costs
    /// the open replays.
    pub(crate) fn close(&mut self, replay: &i64) -> Result<Reply, Refusal>
        ensures ends { HasEnded D.life self.old self.new (events.ReplayClose replay.now) result }
        ensures disk { self.new.storage ≡ self.old.storage }
        ensures memory { WantsMemory self.old.desk.state (events.ReplayClose replay.now) result }
        ensures catalogue { KeepsFound (state_of D.life self.old) (state_of D.life self.new) self.old.desk.state.register }
    {
        let found = decide_close(&self.desk, replay)?;
        self.desk.close_replay(replay, found.index);
        Ok(Reply::Closed)
    }
}
