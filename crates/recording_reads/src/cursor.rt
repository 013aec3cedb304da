//! Where a reader of settled frames is. docs/CONTROL.md, "Replays".

ghost use Rattle.std.specs.Prelude.{◌≡◌, ◌<◌, IfErr, IsErrOf, IsTrue, OnOk, unsigned_abs};
ghost use Rattle.frame_core.specs.ReplayEnd.{is_done};
ghost use Rattle.frame_core.specs.declared.refusal.Refusal.TheVariants.{DeviceFault};
ghost use Rattle.disk_core.specs.DiskImage.{reads};
ghost use Rattle.disk_core.specs.Life.{HasFailed, IsQuiet};
ghost use Rattle.replay_core.specs.Pages.{KeepsRead, kept};
ghost use Rattle.replay_core.specs.Poll.{MovesTo};
ghost use Rattle.recording_reads.specs.Handing.{HandsShown};
ghost use Rattle.recording_reads.specs.Recording.{layout_of};
ghost use Rattle.recording_reads.specs.Settled.{IsReadable, PagesAgree, RefusesTurn, moved, seen_to};

use crate::hand_frames;
use archive_model::Registration;
use control_core::OpenReplay;
use disk_core::Disk;
use frame_core::{Refusal, is_replay_done};
use replay_core::{FrameTaker, PageCache};
use std::alloc::Global;
use std::marker::Model;

/// The generation of a reader's pages: it has one recording, of which nothing that was read is truncated.
const GENERATION: u64 = 0;

/// A recording as far as it was seen to be recorded, and a replay of it. To a contract it is these two.
#[derive(Drop)]
pub struct Cursor {
    known: Registration,
    replay: OpenReplay,
}

impl Model for Cursor {
    ghost use Rattle.recording_reads.specs.Settled.{CursorView, IsReadable};

    ghost Value = { CursorView };

    ghost view = { λ c. record { known = c.known; replay = c.replay } };

    ghost invariant = { λ c. IsReadable c.known c.replay };
}

impl Cursor {
    /// Where a replay of a recording goes on. `is_readable` tells whether it can be read. Does not allocate.
    pub fn new(known: Registration, replay: OpenReplay) -> Cursor
        requires { IsReadable known replay }
        ensures { result ≡ record { known = known; replay = replay } }
    {
        Cursor { known, replay }
    }

    /// The recording, as recorded up to the position that was seen last. Does not allocate.
    pub fn known(&self) -> &Registration
        ensures { result.now ≡ self.now.known }
    {
        &self.known
    }

    /// The replay. Its next position and its bound are in bytes of the stream. Does not allocate.
    pub fn replay(&self) -> OpenReplay
        ensures { result ≡ self.now.replay }
    {
        self.replay
    }

    /// Whether the replay gives no frame any more, of a recording that is active or not: it is at its bound, or at the
    /// position that was seen last of a recording that isn't active. Does not allocate.
    pub fn is_done(&self, active: bool) -> bool
        ensures { result ≡ is_done self.now.replay.bound self.now.replay.next self.now.known.recorded active }
    {
        is_replay_done(
            &self.replay.bound,
            &self.replay.next,
            &self.known.recorded,
            active,
        )
    }

    /// Hands on the next frames of the replay, at most so many, that begin before its bound and end at or before a position
    /// that was seen, in bytes of the stream. They are read through pages that agree with the disk.
    pub(crate) fn hand_on<D: Disk, T: FrameTaker>(
        &mut self,
        alloc: Global,
        disk: &mut D,
        pages: &mut PageCache,
        seen: i64,
        most: i64,
        taker: &mut T,
    ) -> Result<(), Refusal>
        requires agree { PagesAgree (D.life disk.old) (layout_of self.old.known.descriptor) (kept pages.old) }
        ensures handed { OnOk result (HandsShown T.takes taker.old taker.new (D.life disk.new).obeys
            (reads (D.life disk.old).now) (seen_to seen self.old.known) self.old.replay most self.new.replay.next) }
        ensures moves { OnOk result (0 < unsigned_abs most →
            MovesTo seen self.old.replay.bound self.old.replay.next self.new.replay.next) }
        ensures refused { IfErr result (RefusesTurn T.takes T.leaves taker.old taker.new (D.life disk.new).obeys
            (reads (D.life disk.old).now) seen most self.old self.new) }
        ensures cursor { self.new ≡ moved seen self.new.replay.next self.old }
        ensures pages { KeepsRead (IsTrue (D.life disk.new).obeys) (reads (D.life disk.old).now)
            (layout_of self.old.known.descriptor) 0 seen (kept pages.old) (kept pages.new) }
        ensures quiet { IsQuiet (D.life disk.old) (D.life disk.new) }
        ensures cause { IsErrOf result DeviceFault → HasFailed (D.life disk.old) (D.life disk.new) }
    {
        self.known.recorded = seen;
        let next = hand_frames(
            alloc,
            disk,
            pages,
            GENERATION,
            &self.known,
            &self.replay,
            most,
            taker,
        )?;
        self.replay.next = next;
        Ok(())
    }
}
