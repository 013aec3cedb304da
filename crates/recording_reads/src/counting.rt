//! How many frames a recording has. docs/STORAGE.md, "Damaged frames".

ghost use Rattle.std.specs.Prelude.{IfErr, IfOk, IsErrOf, IsTrue};
ghost use Rattle.frame_core.specs.declared.refusal.Refusal.TheVariants.{DeviceFault};
ghost use Rattle.disk_core.specs.DiskImage.{reads};
ghost use Rattle.disk_core.specs.Life.{HasFailed, IsQuiet};
ghost use Rattle.control_core.specs.Orderly.{IsLaid};
ghost use Rattle.recording_reads.specs.Reading.{HasFrames, RefusesCount};

use crate::layout_of;
use archive_model::Registration;
use disk_core::Disk;
use frame_core::Refusal;
use segment_store::read_frame;
use std::alloc::Global;

/// How many frames a recording has, from its start to its recorded position: each is read.
///
/// `Damaged` with the position at which they break off before the recorded one; `DeviceFault`; `NoMemory`. The disk stays
/// as it is. Costs what each frame costs. docs/STORAGE.md, "Damaged frames".
pub fn count_frames<D: Disk>(
    alloc: Global,
    disk: &mut D,
    registration: &Registration,
) -> Result<i64, Refusal>
    requires { IsLaid registration.now }
    ensures count { IfOk result (λ count. IsTrue (D.life disk.new).obeys →
        HasFrames (reads (D.life disk.old).now) registration.now count) }
    ensures refused { IfErr result (RefusesCount (D.life disk.new).obeys (reads (D.life disk.old).now) registration.now) }
    ensures quiet { IsQuiet (D.life disk.old) (D.life disk.new) }
    ensures cause { IsErrOf result DeviceFault → HasFailed (D.life disk.old) (D.life disk.new) }
{
    let layout = layout_of(&registration.descriptor);
    let geometry = registration.descriptor.geometry();
    let recorded = registration.recorded;
    let mut at = layout.start_position;
    let mut count = 0;
    'frames: while at < recorded {
        let frame = read_frame(alloc, disk, &layout, &geometry, at, recorded)?;
        at += frame.aligned_length() as i64;
        count += 1;
    }
    Ok(count)
}
