//! A replay is opened. docs/CONTROL.md, "Replays".

ghost use Rattle.std.specs.Prelude.{◌≡◌, IfErr, IfOk, IsErrOf, IsTrue, Err, Some};
ghost use Rattle.frame_core.specs.declared.refusal.Refusal.TheVariants.{DeviceFault};
ghost use Rattle.disk_core.specs.DiskImage.{reads};
ghost use Rattle.disk_core.specs.Life.{HasFailed, IsQuiet};
ghost use Rattle.catalogue_log.specs.LogState.{LogState};
ghost use Rattle.control_core.specs.ByDecision.{OpensBy};
ghost use Rattle.control_core.specs.declared.event.Event.TheVariants as events;
ghost use Rattle.control_core.specs.Exact.{Archive, asked_opening, opens_by_frames};
ghost use Rattle.control_core.specs.Turns.{open_decision, opening_in};
ghost use Rattle.engine_core.specs.Calls.{IfRead};
ghost use Rattle.engine_core.specs.Catalogued.{KeepsFound};
ghost use Rattle.engine_core.specs.Consistent.{IsCrashConsistent};
ghost use Rattle.engine_core.specs.Replaying.{IsDecided, ShowsOpening};
ghost use Rattle.engine_core.specs.Shown.{OpensShown};

use crate::stored::StoredArchive;
use archive_model::Reply;
use control_core::{Desk, Opening, OpeningDecision, decide_open};
use disk_core::Disk;
use frame_core::Refusal;
use recording_reads::is_boundary;

impl<D: Disk> StoredArchive<D> {
    ghost use Rattle.engine_core.specs.Seen.{HasEnded, state_of};

    /// Opens a replay of a recording, from a position of its stream on and over so many bytes: position -1 means the start,
    /// length -1 that there is no end. Answers the replay's number. Where the position lies strictly inside the recording,
    /// frames of its term are read.
    ///
    /// `BadParameter` below -1; `UnknownRecording`; `BadPosition` where no frame begins there; `Damaged` where the frames
    /// break off before it; `MaxReplays` where 64 are open; `DeviceFault`; `NoMemory`. Each leaves the archive as it was.
    /// Costs a step for each frame of the term before the position.
    pub(crate) fn open_replay(
        &mut self,
        recording: &i64,
        position: &i64,
        length: &i64,
    ) -> Result<Reply, Refusal>
        ensures ends { HasEnded D.life self.old self.new
            (events.ReplayOpen recording.now position.now length.now) result }
        ensures shows { IsTrue (D.life self.new.storage.disk).obeys →
            OpensShown (reads (D.life self.old.storage.disk).now) self.old.desk.state recording.now
            (open_decision self.old.desk.state recording.now position.now length.now) result }
        ensures quiet { IsQuiet (D.life self.old.storage.disk) (D.life self.new.storage.disk) }
        ensures catalogue { KeepsFound (state_of D.life self.old) (state_of D.life self.new) self.old.desk.state.register }
    {
        let opening = decided_opening(
            &mut self.storage.disk,
            &self.desk,
            recording,
            position,
            length,
        )?;
        self.desk.reserve_replay()?;
        let replay = self.desk.next_replay();
        self.desk.open_replay(&opening);
        Ok(Reply::ReplayOpened { replay })
    }
}

/// The replay that is to be opened, by what the desk decides and, where its position lies strictly inside the recording, by
/// what the frames say. The refusals of `open_replay` but `NoMemory`; `Damaged` where the frames break off before the
/// position.
fn decided_opening<D: Disk>(
    disk: &mut D,
    desk: &Desk,
    recording: &i64,
    position: &i64,
    length: &i64,
) -> Result<Opening, Refusal>
    // Where no frame is asked, or the disk obeys the crash model, the refusal is exact too.
    ensures decided { (log : LogState) (a : Archive) → desk.now.state ≡ a.desk →
        IsCrashConsistent (D.life disk.old) log a →
        IfRead (opens_by_frames (open_decision a.desk recording.now position.now length.now)) (D.life disk.new)
        (IsDecided (asked_opening a recording.now (open_decision a.desk recording.now position.now length.now))
        (HasFailed (D.life disk.old) (D.life disk.new)
        × IsTrue (opens_by_frames (open_decision a.desk recording.now position.now length.now))) result) }
    // Whatever the files hold, the refusal is one that the decision allows.
    ensures allowed { IfErr result (λ refusal.
        OpensBy desk.now.state (open_decision desk.now.state recording.now position.now length.now) (Err refusal) desk.now.state) }
    ensures leads { IfOk result (λ opening.
        opening_in (open_decision desk.now.state recording.now position.now length.now) ≡ Some opening) }
    // Whatever they hold, what is told of the position is what they show.
    ensures shows { IsTrue (D.life disk.new).obeys →
        ShowsOpening (reads (D.life disk.old).now) desk.now.state recording.now
        (open_decision desk.now.state recording.now position.now length.now) result }
    ensures quiet { IsQuiet (D.life disk.old) (D.life disk.new) }
    ensures cause { IsErrOf result DeviceFault → HasFailed (D.life disk.old) (D.life disk.new) }
{
    match decide_open(desk, recording, position, length) {
        OpeningDecision::Decided(decided) => decided,
        OpeningDecision::IfBoundary {
            known,
            position,
            decided,
        } => {
            if !is_boundary(disk, known, position)? {
                return Err(Refusal::BadPosition);
            }
            decided
        }
    }
}
