//! A reader of settled frames, with a disk of its own. docs/CONTROL.md, "Replays"; docs/STORAGE.md, "Folders".

ghost use Rattle.std.specs.Prelude.{◌≡◌, ◌<◌, [], IfErr, IsErrOf, IsTrue, OnOk, unsigned_abs};
ghost use Rattle.frame_core.specs.ReplayEnd.{is_done};
ghost use Rattle.frame_core.specs.declared.refusal.Refusal.TheVariants.{DeviceFault};
ghost use Rattle.disk_core.specs.DiskImage.{reads};
ghost use Rattle.disk_core.specs.Life.{HasFailed, IsQuiet};
ghost use Rattle.replay_core.specs.Pages.{KeepsRead, kept};
ghost use Rattle.replay_core.specs.Poll.{MovesTo};
ghost use Rattle.recording_reads.specs.Handing.{HandsShown};
ghost use Rattle.recording_reads.specs.Recording.{layout_of};
ghost use Rattle.recording_reads.specs.Settled.{PagesAgree, RefusesTurn, moved, seen_to};

use crate::Cursor;
use disk_core::Disk;
use frame_core::Refusal;
use replay_core::{FrameTaker, PageCache};
use std::alloc::Global;

/// Reads settled frames of one recording by a disk that is only read. What a kept page has is what the disk reads.
#[derive(Drop)]
pub struct SettledReader<D: Disk> {
    disk: D,
    pages: PageCache,
    cursor: Cursor,
    pub ghost paged: { PagesAgree (D.life disk) (layout_of cursor.known.descriptor) (kept pages) },
}

impl<D: Disk> SettledReader<D> {
    /// A reader by a disk, from where a cursor is. No page is kept yet. Does not allocate.
    pub fn new(disk: D, pages: PageCache, cursor: Cursor) -> SettledReader<D>
        requires { kept pages ≡ [] }
        ensures disk { result.disk ≡ disk }
        ensures pages { result.pages ≡ pages }
        ensures cursor { result.cursor ≡ cursor }
    {
        SettledReader {
            disk,
            pages,
            cursor,
        }
    }

    /// Hands on the next frames of the replay, at most so many, that begin before its bound and end at or before a position
    /// that was seen, in bytes of the stream, each with where it begins. They are what the disk shows. If the frames of the
    /// recording up to the position that was seen stand there, they are these. No byte past that position is read, and no
    /// page that reaches past it is kept.
    ///
    /// `Damaged` if the frames break off, with the position; `DeviceFault`; `NoMemory`, also if the taker has none for a
    /// frame: the taker may then have taken some of the frames. The replay stays where it was, and may be asked again.
    /// Costs what a poll of these frames costs, without their copies: once pages are kept it takes no memory of its own.
    pub fn turn<T: FrameTaker>(
        &mut self,
        alloc: Global,
        seen: i64,
        most: i64,
        taker: &mut T,
    ) -> Result<(), Refusal>
        ensures handed { OnOk result (HandsShown T.takes taker.old taker.new (D.life self.new.disk).obeys
            (reads (D.life self.old.disk).now) (seen_to seen self.old.cursor.known) self.old.cursor.replay most
            self.new.cursor.replay.next) }
        ensures moves { OnOk result (0 < unsigned_abs most →
            MovesTo seen self.old.cursor.replay.bound self.old.cursor.replay.next self.new.cursor.replay.next) }
        ensures refused { IfErr result (RefusesTurn T.takes T.leaves taker.old taker.new (D.life self.new.disk).obeys
            (reads (D.life self.old.disk).now) seen most self.old.cursor self.new.cursor) }
        ensures cursor { self.new.cursor ≡ moved seen self.new.cursor.replay.next self.old.cursor }
        ensures pages { KeepsRead (IsTrue (D.life self.new.disk).obeys) (reads (D.life self.old.disk).now)
            (layout_of self.old.cursor.known.descriptor) 0 seen (kept self.old.pages) (kept self.new.pages) }
        ensures quiet { IsQuiet (D.life self.old.disk) (D.life self.new.disk) }
        ensures cause { IsErrOf result DeviceFault → HasFailed (D.life self.old.disk) (D.life self.new.disk) }
    {
        self.cursor
            .hand_on(alloc, &mut self.disk, &mut self.pages, seen, most, taker)
    }

    /// Whether the replay gives no frame any more, of a recording that is active or not: it is at its bound, or at the
    /// position that was seen last of a recording that isn't active. Does not allocate.
    pub fn is_done(&self, active: bool) -> bool
        ensures { result ≡ is_done self.now.cursor.replay.bound self.now.cursor.replay.next
            self.now.cursor.known.recorded active }
    {
        self.cursor.is_done(active)
    }

    /// Where the next frame begins, in bytes of the stream. Does not allocate.
    pub fn next_position(&self) -> i64
        ensures { result ≡ self.now.cursor.replay.next }
    {
        self.cursor.replay().next
    }

    /// The disk, which was only read, and where the replay goes on.
    pub fn into_parts(self) -> (D, Cursor)
        ensures disk { result.0 ≡ self.disk }
        ensures cursor { result.1 ≡ self.cursor }
    {
        let SettledReader { disk, cursor, .. } = self;
        (disk, cursor)
    }
}
