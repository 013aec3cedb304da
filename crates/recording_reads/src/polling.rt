//! What a replay is given of its recording. docs/CONTROL.md, "Replays".

ghost use Rattle.std.specs.Prelude.{◌<◌, ◌≤ℤ◌, IfErr, IfOk, IsErrOf, IsTrue, List, OnErr, unsigned_abs};
ghost use Rattle.frame_core.specs.declared.frame.Frame.{Frame};
ghost use Rattle.frame_core.specs.declared.refusal.Refusal.TheVariants.{DeviceFault};
ghost use Rattle.disk_core.specs.DiskImage.{reads};
ghost use Rattle.disk_core.specs.Life.{HasFailed, IsQuiet};
ghost use Rattle.segment_store.specs.Layout.{IsFromStart};
ghost use Rattle.replay_core.specs.Pages.{KeepsRead, kept};
ghost use Rattle.replay_core.specs.Poll.{AgreeOn, MovesTo};
ghost use Rattle.archive_model.specs.State.{geometry_of};
ghost use Rattle.control_core.specs.Orderly.{IsLaidOut};
ghost use Rattle.recording_reads.specs.Handing.{HandsShown, TakesSome};
ghost use Rattle.recording_reads.specs.Reading.{RefusesPoll};
ghost use Rattle.recording_reads.specs.Recording.{layout_of};

use crate::layout_of;
use archive_model::Registration;
use control_core::OpenReplay;
use disk_core::Disk;
use frame_core::Refusal;
use replay_core::{FrameTaker, PageCache, Replay, Store};
use std::alloc::Global;

/// Hands on the next frames of a replay, at most so many, that begin before its bound and the recorded position, each with
/// where it begins, and gives where the replay goes on, in bytes of the stream. They are read through pages of a
/// generation, which agree with the disk.
///
/// `Damaged` where the frames break off; `DeviceFault`; `NoMemory`, also where the taker has none for a frame: the taker
/// may then have taken some of the frames. The disk stays as it is, and pages that were read are kept, also where it is
/// refused. Costs what the frames that are given cost. docs/CONTROL.md, "Replays"; docs/STORAGE.md, "Pages".
pub fn hand_frames<D: Disk, T: FrameTaker>(
    alloc: Global,
    disk: &mut D,
    pages: &mut PageCache,
    generation: u64,
    registration: &Registration,
    replay: &OpenReplay,
    most: i64,
    taker: &mut T,
) -> Result<i64, Refusal>
    requires laid_out { IsLaidOut registration.now }
    requires from_start { IsFromStart (layout_of registration.now.descriptor) replay.now.next }
    // Kept pages agree with the disk, whatever frames stand there.
    requires agree { IsTrue (D.life disk.old).obeys → (frames : List Frame) →
        AgreeOn (reads (D.life disk.old).now) (layout_of registration.now.descriptor) generation (kept pages.old)
        (unsigned_abs replay.now.next) frames }
    ensures handed { IfOk result (HandsShown T.takes taker.old taker.new (D.life disk.new).obeys
        (reads (D.life disk.old).now) registration.now replay.now most) }
    ensures left { OnErr result (TakesSome T.takes T.leaves taker.old taker.new) }
    // Whatever the disk answers: where frames are due it goes further, else it stays.
    ensures moves { IfOk result (λ next. (replay.now.next ≤ℤ next) × (0 < unsigned_abs most →
        MovesTo registration.now.recorded replay.now.bound replay.now.next next)) }
    ensures refused { IfErr result (RefusesPoll (D.life disk.new).obeys (reads (D.life disk.old).now)
        (layout_of registration.now.descriptor) (geometry_of registration.now.descriptor) registration.now.recorded
        replay.now.bound (unsigned_abs most) (unsigned_abs replay.now.next)) }
    ensures pages { KeepsRead (IsTrue (D.life disk.new).obeys) (reads (D.life disk.old).now)
        (layout_of registration.now.descriptor) generation registration.now.recorded (kept pages.old) (kept pages.new) }
    ensures quiet { IsQuiet (D.life disk.old) (D.life disk.new) }
    ensures cause { IsErrOf result DeviceFault → HasFailed (D.life disk.old) (D.life disk.new) }
{
    let mut reader = Replay {
        recording: replay.recording,
        next: replay.next,
        bound: replay.bound,
    };
    let mut store = Store {
        disk,
        pages,
        layout: layout_of(&registration.descriptor),
        geometry: registration.descriptor.geometry(),
        generation,
    };
    let asked = most.unsigned_abs() as usize;
    reader.hand_on(alloc, &mut store, registration.recorded, asked, taker)?;
    Ok(reader.next)
}
