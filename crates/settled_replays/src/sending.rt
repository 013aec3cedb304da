//! What a follower is sent by a turn. docs/PROTOCOL.md, "Following a recording".

ghost use Rattle.std.specs.Prelude.{◌≡◌, ◌⊎◌, ◌≤ℤ◌, [], pos, IsErrOf, OnErr, OnOk};
ghost use Rattle.frame_core.specs.declared.refusal.Refusal.TheVariants.{DeviceFault};
ghost use Rattle.disk_core.specs.DiskImage.{reads};
ghost use Rattle.disk_core.specs.Life.{HasFailed, IsQuiet};
ghost use Rattle.recording_reads.specs.Settled.{seen_to};
ghost use Rattle.settled_replays.specs.Holding.{SeesNothing};
ghost use Rattle.settled_replays.specs.Reading.{LooksIfRead};
ghost use Rattle.settled_replays.specs.Sending.{SendsShown};

use crate::replayer::SettledReplayer;
use crate::sent_frames::SentFrames;
use archive_lock::{Naming, SharedArchive};
use disk_core::Disk;
use frame_core::Refusal;
use std::alloc::Global;
use std::sync::Wait;

impl<E: Disk + Drop> SettledReplayer<E> {
    /// The bytes of the next frames of the replay, at most so many, as a follower is sent them, in place of those that were
    /// there: one `turn`.
    ///
    /// Refused as that is; then there are no bytes.
    pub fn send<D: Disk, A: Naming, R: Wait>(
        &mut self,
        rt: &R,
        alloc: Global,
        archive: &SharedArchive<D, A>,
        most: i64,
        sent: &mut SentFrames,
    ) -> Result<(), Refusal>
        requires table { self.old.held.pass.table ≡ A.table }
        requires some { pos 1 ≤ℤ most }
        ensures sends { OnOk result (SendsShown sent.new (E.life self.new.reader.disk).obeys
            (reads (E.life self.old.reader.disk).now) (seen_to self.new.held.seen self.old.reader.cursor.known)
            self.old.reader.cursor.replay most self.new.reader.cursor.replay.next) }
        ensures looked { OnOk result (LooksIfRead D.life A.opening self.old.held self.old.reader.cursor.replay.next self.new.held) }
        ensures refused { OnErr result ((sent.new ≡ []) × (self.new.reader.cursor.replay ≡ self.old.reader.cursor.replay)) }
        ensures cursor { (self.new.reader.cursor.known.descriptor ≡ self.old.reader.cursor.known.descriptor)
            × (self.new.reader.cursor.replay ≡ record self.old.reader.cursor.replay { next = self.new.reader.cursor.replay.next }) }
        ensures pass { (self.new.held.pass.table ≡ self.old.held.pass.table)
            × (self.new.held.pass.number ≡ self.old.held.pass.number) }
        ensures quiet { IsQuiet (E.life self.old.reader.disk) (E.life self.new.reader.disk) }
        ensures cause { IsErrOf result DeviceFault → HasFailed (E.life self.old.reader.disk) (E.life self.new.reader.disk)
            ⊎ SeesNothing D.life A.opening self.old.held self.new.held DeviceFault }
    {
        sent.clear();
        let turned = self.turn(rt, alloc, archive, most, sent);
        if turned.is_err() {
            sent.clear();
        }
        turned
    }
}
