//! What a recorder session wrote is recorded. docs/CONTROL.md, "Recorder sessions"; docs/STORAGE.md, "Segments".

ghost use Rattle.std.specs.Prelude.{◌≡◌, Ok, unsigned_abs};
ghost use Rattle.segment_store.specs.Layout.{file_of};
ghost use Rattle.archive_model.specs.declared.reply.Reply.TheVariants as replies;
ghost use Rattle.catalogue_log.specs.Banks.{bank_file};
ghost use Rattle.control_core.specs.declared.event.Event.TheVariants as events;
ghost use Rattle.control_core.specs.declared.turns.Settling.TheVariants.{Blocks};
ghost use Rattle.control_core.specs.Changes.{settled};
ghost use Rattle.control_core.specs.Exact.{settled_archive};
ghost use Rattle.control_core.specs.Turns.{session_in, settle_decision};
ghost use Rattle.engine_core.specs.Catalogued.{KeepsFound, register_made};
ghost use Rattle.engine_core.specs.Making.{CommitsEntry};
ghost use Rattle.engine_core.specs.Moves.{SettlesAt};
ghost use Rattle.engine_core.specs.Settling.{IsSettlement};
ghost use Rattle.engine_core.specs.Touching.{SettlesBlocks, WantsMemory};

use crate::making::failed;
use crate::stored::StoredArchive;
use archive_model::Reply;
use catalogue_log::Entry;
use control_core::{FoundSession, Settling, Written, decide_settle};
use disk_core::Disk;
use frame_core::Refusal;
use recording_reads::layout_of;
use segment_store::Layout;

// What a recorder session wrote, as it is to be recorded.
#[derive(Clone, Copy)]
struct Settlement {
    // The session, where it stands.
    found: FoundSession,
    // Its recording, and how that lies in segment files.
    recording: i64,
    layout: Layout,
    // Where the blocks lie.
    written: Written,
}

impl<D: Disk> StoredArchive<D> {
    ghost use Rattle.engine_core.specs.Seen.{HasEnded, state_of};

    /// Records what a recorder session wrote as one entry of the history, by five calls of the disk, and answers up to
    /// where its recording is recorded then, in bytes of the stream: a crash from then on leaves it recorded. Where the
    /// session wrote nothing the disk is not asked.
    ///
    /// The refusals of docs/CONTROL.md, "Refusals"; `NoMemory`, which leaves what was written to be settled; `DeviceFault`
    /// where the disk fails, with the archive broken. Costs a lookup at each session and recording.
    pub(crate) fn settle(&mut self, session: &i64) -> Result<Reply, Refusal>
        ensures ends { HasEnded D.life self.old self.new (events.Settle session.now) result }
        ensures touches { SettlesBlocks (state_of D.life self.old) session.now (D.life self.new.storage.disk) }
        ensures memory { WantsMemory self.old.desk.state (events.Settle session.now) result }
        ensures catalogue { KeepsFound (state_of D.life self.old) (state_of D.life self.new)
            (register_made self.old.desk.state (events.Settle session.now)) }
    {
        let decided = decide_settle(&self.desk, session)?;
        match decided.settling {
            Settling::Nothing { position } => Ok(Reply::Settled { position }),
            Settling::Blocks { recording, written } => {
                let settlement = Settlement {
                    found: decided.writer.found,
                    recording,
                    layout: layout_of(&decided.writer.known.descriptor),
                    written,
                };
                self.settle_blocks(session, &settlement)
            }
        }
    }

    /// Records what a session wrote, once it is decided; then the desk follows. `NoMemory`; `DeviceFault` where the disk fails:
    /// the archive is then broken.
    fn settle_blocks(&mut self, session: &i64, settlement: &Settlement) -> Result<Reply, Refusal>
        requires { IsSettlement self.old.desk.state session.now settlement.now }
        ensures settles { CommitsEntry (state_of D.life self.old) (state_of D.life self.new)
            (λ a. settle_decision a.desk session.now ≡ Ok (Blocks settlement.now.recording settlement.now.written))
            (replies.Settled settlement.now.written.last) (λ a. settled_archive a session.now settlement.now.recording) result }
        ensures touches { SettlesAt (D.life self.old.storage.disk) (D.life self.new.storage.disk)
            (file_of settlement.now.layout (unsigned_abs settlement.now.written.first)) (bank_file self.old.storage.log.bank) }
        ensures catalogue { KeepsFound (state_of D.life self.old) (state_of D.life self.new)
            (settled (session_in self.old.desk.state session.now) self.old.desk.state).register }
    {
        let position = settlement.written.last;
        let entry = Entry::Settle {
            recording: settlement.recording,
            position,
        };
        let first = settlement.written.first;
        match self.storage.settle(&settlement.layout, first, &entry) {
            Ok(()) => {
                self.desk.settle(session, &settlement.found);
                Ok(Reply::Settled { position })
            }
            Err(refusal) => Err(failed(&mut self.desk, refusal)),
        }
    }
}
