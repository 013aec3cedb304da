//! Frames read back for a replay. docs/CONTROL.md, "Replays"; docs/STORAGE.md, "Damaged frames".

ghost use Rattle.std.specs.Prelude.{◌≡◌, ◌<◌, ◌≤ℤ◌, ◌+ℤ◌, pos, IfOk, IfErr, OnOk, OnErr, IsErrOf, IsTrue, unsigned_abs};
ghost use Rattle.disk_core.specs.DiskImage.{reads};
ghost use Rattle.disk_core.specs.Life.{HasFailed, IsQuiet};
ghost use Rattle.frame_core.specs.declared.refusal.Refusal.TheVariants.{DeviceFault};
ghost use Rattle.frame_core.specs.Block.{covered};
ghost use Rattle.segment_store.specs.Layout.{IsFromStart, IsGeometryOf, IsLayout};
ghost use Rattle.replay_core.specs.Pages.{KeepsRead, kept};
ghost use Rattle.replay_core.specs.Taking.{HandsOn, TookSome};
ghost use Rattle.replay_core.specs.Poll.{AgreeOn, ArePolled, BeginBefore, IsDue, MovesTo, RefusesPoll};

use crate::replay::Replay;
use crate::store::Store;
use crate::taking::{FrameCopies, FrameTaker};
use disk_core::Disk;
use frame_core::{Frame, Refusal};
use std::alloc::Global;

impl Replay {
    /// The next frames, at most so many, that begin before the replay's bound and the recorded position, in bytes of the
    /// stream; the replay then goes on behind them. They are those on the disk where the store's pages agree with it.
    /// Damaged where they break off; DeviceFault where the disk fails; NoMemory: the replay then stays where it is. The
    /// disk stays as it is, and pages below the recorded position are kept, also where it is refused. Costs what
    /// `Store::hand_frame` costs, for each frame that is given, and nothing for those before its position. Polls of 64 to
    /// 256 frames cost less a frame than those of thousands, whose memory the system takes back each time.
    pub fn poll<D: Disk>(
        &mut self,
        alloc: Global,
        store: &mut Store<'_, D>,
        recorded: i64,
        most: usize,
    ) -> Result<Vec<Frame>, Refusal>
        requires layout { IsLayout store.old.layout }
        requires geometry { IsGeometryOf store.old.layout store.old.geometry }
        requires from_start { IsFromStart store.old.layout self.old.next }
        ensures frames { IfOk result (λ frames. IsTrue (D.life store.new.disk.now).obeys →
            AgreeOn (reads (D.life store.old.disk.now).now) store.old.layout store.old.generation
            (kept store.old.pages.now) (unsigned_abs self.old.next) frames.items →
            ArePolled (reads (D.life store.old.disk.now).now) store.old.layout store.old.geometry recorded self.old.bound most
            (unsigned_abs self.old.next) frames.items (unsigned_abs self.new.next)) }
        ensures onwards { self.old.next ≤ℤ self.new.next }
        // Also where the disk does not obey, or pages do not agree with it.
        ensures begins { IfOk result (λ frames. pos 0 ≤ℤ self.old.next →
            BeginBefore self.old.bound (unsigned_abs self.old.next) frames.items) }
        ensures covers { IfOk result (λ frames. self.new.next ≡ self.old.next +ℤ pos (covered frames.items)) }
        ensures moves { IfOk result (λ frames. 0 < most →
            MovesTo recorded self.old.bound self.old.next self.new.next) }
        ensures same { self.new ≡ record self.old { next = self.new.next } }
        ensures err { OnErr result (self.new ≡ self.old) }
        ensures refused { IfErr result (RefusesPoll (D.life store.new.disk.now).obeys
            (reads (D.life store.old.disk.now).now) store.old.layout store.old.geometry store.old.generation
            (kept store.old.pages.now) recorded self.old.bound most (unsigned_abs self.old.next)) }
        ensures due { OnErr result (IsDue recorded self.old.bound most self.old.next) }
        ensures pages { KeepsRead (IsTrue (D.life store.new.disk.now).obeys) (reads (D.life store.old.disk.now).now)
            store.old.layout store.old.generation recorded (kept store.old.pages.now) (kept store.new.pages.now) }
        ensures quiet { IsQuiet (D.life store.old.disk.now) (D.life store.new.disk.now) }
        ensures cause { IsErrOf result DeviceFault → HasFailed (D.life store.old.disk.now) (D.life store.new.disk.now) }
        ensures store { (store.new.layout ≡ store.old.layout) × (store.new.geometry ≡ store.old.geometry)
            × (store.new.generation ≡ store.old.generation) × (store.new.disk.ghost_name ≡ store.old.disk.ghost_name)
            × (store.new.pages.ghost_name ≡ store.old.pages.ghost_name) }
    {
        let mut copies = FrameCopies {
            alloc,
            frames: Vec::new(alloc),
        };
        self.hand_on(alloc, store, recorded, most, &mut copies)?;
        Ok(copies.frames)
    }

    /// Hands the next frames on, those that `poll` gives, each as it is read; the replay then goes on behind them. Refused
    /// as `poll`, and NoMemory where the taker has none for a frame: the replay then stays where it is, and the taker may
    /// have taken some of the frames. Costs what `Store::hand_frame` costs, for each frame: no memory for those that pages
    /// have.
    pub fn hand_on<D: Disk, T: FrameTaker>(
        &mut self,
        alloc: Global,
        store: &mut Store<'_, D>,
        recorded: i64,
        most: usize,
        taker: &mut T,
    ) -> Result<(), Refusal>
        requires layout { IsLayout store.old.layout }
        requires geometry { IsGeometryOf store.old.layout store.old.geometry }
        requires from_start { IsFromStart store.old.layout self.old.next }
        ensures handed { OnOk result (HandsOn T.takes taker.old taker.new (D.life store.new.disk.now).obeys
            (reads (D.life store.old.disk.now).now) store.old.layout store.old.geometry store.old.generation
            (kept store.old.pages.now) recorded self.old.bound most self.old.next self.new.next) }
        ensures left { OnErr result (TookSome T.takes T.leaves taker.old taker.new self.old.next) }
        ensures onwards { self.old.next ≤ℤ self.new.next }
        ensures moves { OnOk result (0 < most → MovesTo recorded self.old.bound self.old.next self.new.next) }
        ensures same { self.new ≡ record self.old { next = self.new.next } }
        ensures err { OnErr result (self.new ≡ self.old) }
        ensures refused { IfErr result (RefusesPoll (D.life store.new.disk.now).obeys
            (reads (D.life store.old.disk.now).now) store.old.layout store.old.geometry store.old.generation
            (kept store.old.pages.now) recorded self.old.bound most (unsigned_abs self.old.next)) }
        ensures due { OnErr result (IsDue recorded self.old.bound most self.old.next) }
        ensures pages { KeepsRead (IsTrue (D.life store.new.disk.now).obeys) (reads (D.life store.old.disk.now).now)
            store.old.layout store.old.generation recorded (kept store.old.pages.now) (kept store.new.pages.now) }
        ensures quiet { IsQuiet (D.life store.old.disk.now) (D.life store.new.disk.now) }
        ensures cause { IsErrOf result DeviceFault → HasFailed (D.life store.old.disk.now) (D.life store.new.disk.now) }
        ensures store { (store.new.layout ≡ store.old.layout) × (store.new.geometry ≡ store.old.geometry)
            × (store.new.generation ≡ store.old.generation) × (store.new.disk.ghost_name ≡ store.old.disk.ghost_name)
            × (store.new.pages.ghost_name ≡ store.old.pages.ghost_name) }
    {
        let mut at = self.next;
        let mut taken = 0;
        while taken < most && at < self.bound && at < recorded {
            let size = store.hand_frame(alloc, at, recorded, taker)?;
            at += size as i64;
            taken += 1;
        }
        self.next = at;
        Ok(())
    }
}
