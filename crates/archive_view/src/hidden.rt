//! An entry behind the catalogue's closed gate: docs/STORAGE.md, "A closed gate".

ghost use Rattle.std.specs.Prelude.{◌≡◌, ◌⊎◌, IfErr, IfOk, IsErrOf, IsTrue};
ghost use Rattle.std.specs.Bool.{MatchBool};
ghost use Rattle.frame_core.specs.declared.refusal.Refusal.TheVariants.{DeviceFault, NoMemory};
ghost use Rattle.disk_core.specs.DiskImage.{reads};
ghost use Rattle.disk_core.specs.Life.{HasFailed, IsQuiet};
ghost use Rattle.archive_view.specs.Hidden.{HasFrames, HasNoFrames, TellsHiddenEntry};

use crate::ArchiveView;
use catalogue_log::{Entry, Hidden, Log, hidden_entry};
use control_core::Desk;
use disk_core::Disk;
use frame_core::Refusal;
use recording_reads::is_written_to;
use std::alloc::Global;

impl<D: Disk> ArchiveView<D> {
    ghost use Rattle.archive_view.specs.Asked.{HasAsked};
    ghost use Rattle.archive_view.specs.Viewed.{desk_of, log_of};

    /// The entry behind the catalogue's closed gate that may have been answered, so that its gate may be damaged: it stands
    /// there whole, and the gate behind it is open, or it is a Settle up to whose position whole frames stand. None if there is
    /// no such entry.
    ///
    /// `DeviceFault`; `NoMemory`. The disk is only read. docs/STORAGE.md, "A closed gate". Costs a call of the disk, and for a
    /// Settle a step for each of its frames.
    pub fn hidden_entry(&mut self, alloc: Global) -> Result<Option<Hidden>, Refusal>
        ensures asked { HasAsked D.life (λ image found.
            TellsHiddenEntry image (desk_of self.old).register (log_of self.old) found) self.old self.new result }
        ensures log { log_of self.new ≡ log_of self.old }
    {
        hidden_behind(alloc, &mut self.disk, &self.desk, &self.log)
    }
}

/// The entry behind the gate of a log that may have been answered. `DeviceFault`; `NoMemory`.
fn hidden_behind<D: Disk>(
    alloc: Global,
    disk: &mut D,
    desk: &Desk,
    log: &Log,
) -> Result<Option<Hidden>, Refusal>
    ensures found { IfOk result (λ found. IsTrue (D.life disk.new).obeys →
        TellsHiddenEntry (reads (D.life disk.old).now) desk.now.state.register log.now found) }
    ensures refused { IfErr result (λ refusal. (refusal ≡ DeviceFault) ⊎ (refusal ≡ NoMemory)) }
    ensures quiet { IsQuiet (D.life disk.old) (D.life disk.new) }
    ensures cause { IsErrOf result DeviceFault → HasFailed (D.life disk.old) (D.life disk.new) }
{
    let Some(hidden) = hidden_entry(alloc, disk, log)? else {
        return Ok(None);
    };
    if hidden.is_followed || has_frames(disk, desk, &hidden.entry)? {
        return Ok(Some(hidden));
    }
    Ok(None)
}

/// Whether an entry settles frames that stand. `DeviceFault`.
fn has_frames<D: Disk>(disk: &mut D, desk: &Desk, entry: &Entry) -> Result<bool, Refusal>
    ensures found { IfOk result (λ found. IsTrue (D.life disk.new).obeys → MatchBool found
        (HasFrames (reads (D.life disk.old).now) desk.now.state.register entry.now)
        (HasNoFrames (reads (D.life disk.old).now) desk.now.state.register entry.now)) }
    ensures refused { IfErr result (λ refusal. refusal ≡ DeviceFault) }
    ensures quiet { IsQuiet (D.life disk.old) (D.life disk.new) }
    ensures cause { IsErrOf result DeviceFault → HasFailed (D.life disk.old) (D.life disk.new) }
{
    let Entry::Settle {
        recording,
        position,
    } = entry
    else {
        return Ok(false);
    };
    let Some(known) = desk.recording(recording) else {
        return Ok(false);
    };
    if !known.is_active() || *position <= known.recorded {
        return Ok(false);
    }
    is_written_to(disk, known, *position)
}
