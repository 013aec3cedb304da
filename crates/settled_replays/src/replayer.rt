//! A replay of a shared archive whose frames are read beside its lock. docs/CONTROL.md, "Replays".

ghost use Rattle.std.specs.Prelude.{◌≡◌, ◌⊎◌, ◌≤ℤ◌, [], int_lt, not, pos, IfErr, IsErrOf, OnOk};
ghost use Rattle.frame_core.specs.ReplayEnd.{is_done};
ghost use Rattle.frame_core.specs.declared.refusal.Refusal.TheVariants.{DeviceFault};
ghost use Rattle.disk_core.specs.DiskImage.{reads};
ghost use Rattle.disk_core.specs.Life.{HasFailed, IsQuiet};
ghost use Rattle.replay_core.specs.Pages.{kept};
ghost use Rattle.recording_reads.specs.Handing.{HandsShown};
ghost use Rattle.recording_reads.specs.Recording.{layout_of};
ghost use Rattle.recording_reads.specs.Settled.{seen_to};
ghost use Rattle.settled_replays.specs.Holding.{ClosesHeld, SeesNothing};
ghost use Rattle.settled_replays.specs.Reading.{KeepsUp, LooksIfRead, RefusesReading, is_ahead, segment_in};

use crate::held::HeldReplay;
use archive_lock::{Made, Naming, SharedArchive};
use call_history::Pass;
use disk_core::Disk;
use frame_core::{Refusal, segment_base};
use recording_reads::{Cursor, SettledReader, layout_of};
use replay_core::{FrameTaker, PageCache};
use segment_store::Layout;
use std::alloc::Global;
use std::sync::Wait;

/// A replay that is held open in a shared archive, and the reader of its frames, by a disk of its own. Each frame from where the
/// next one begins is protected: the replay was opened there or before, of the reader's recording.
#[derive(Drop)]
pub struct SettledReplayer<E: Disk> {
    held: HeldReplay,
    layout: Layout,
    reader: SettledReader<E>,
    pub ghost recording: { held.recording ≡ reader.cursor.known.descriptor.recording },
    pub ghost laid: { layout ≡ layout_of reader.cursor.known.descriptor },
    pub ghost protected: { held.from ≤ℤ reader.cursor.replay.next },
}

impl<E: Disk + Drop> SettledReplayer<E> {
    /// A reader of a replay that is open, by a disk that is only read, from where a cursor is: in the same recording, and where
    /// the replay was opened or behind that. No page is kept yet. Does not allocate.
    pub fn new(held: HeldReplay, disk: E, pages: PageCache, cursor: Cursor) -> SettledReplayer<E>
        requires recording { held.recording ≡ cursor.known.descriptor.recording }
        requires protected { held.from ≤ℤ cursor.replay.next }
        requires pages { kept pages ≡ [] }
        ensures held { result.held ≡ held }
        ensures disk { result.reader.disk ≡ disk }
        ensures cursor { result.reader.cursor ≡ cursor }
    {
        SettledReplayer {
            held,
            layout: layout_of(&cursor.known().descriptor),
            reader: SettledReader::new(disk, pages, cursor),
        }
    }

    /// Hands on the next frames of the replay, at most so many, that begin before its bound and are recorded. First it looks how
    /// far the recording is recorded, if all that was seen is read. No byte past what was seen is read, and no lock is held
    /// while frames are read.
    ///
    /// Refused as the look is, and then nothing was read; else as `SettledReader::turn`. The next frame stays the same, and may
    /// be asked for again.
    pub fn turn<D: Disk, A: Naming, R: Wait, T: FrameTaker>(
        &mut self,
        rt: &R,
        alloc: Global,
        archive: &SharedArchive<D, A>,
        most: i64,
        taker: &mut T,
    ) -> Result<(), Refusal>
        requires table { self.old.held.pass.table ≡ A.table }
        requires some { pos 1 ≤ℤ most }
        ensures handed { OnOk result (HandsShown T.takes taker.old taker.new (E.life self.new.reader.disk).obeys
            (reads (E.life self.old.reader.disk).now) (seen_to self.new.held.seen self.old.reader.cursor.known)
            self.old.reader.cursor.replay most self.new.reader.cursor.replay.next) }
        ensures looked { OnOk result (LooksIfRead D.life A.opening self.old.held self.old.reader.cursor.replay.next self.new.held) }
        ensures refused { IfErr result (RefusesReading D.life A.opening T.takes T.leaves taker.old taker.new
            (E.life self.new.reader.disk).obeys (reads (E.life self.old.reader.disk).now) most self.old.held self.new.held
            self.old.reader.cursor self.new.reader.cursor) }
        ensures cursor { (self.new.reader.cursor.known.descriptor ≡ self.old.reader.cursor.known.descriptor)
            × (self.new.reader.cursor.replay ≡ record self.old.reader.cursor.replay { next = self.new.reader.cursor.replay.next }) }
        ensures pass { (self.new.held.pass.table ≡ self.old.held.pass.table)
            × (self.new.held.pass.number ≡ self.old.held.pass.number) }
        ensures quiet { IsQuiet (E.life self.old.reader.disk) (E.life self.new.reader.disk) }
        ensures cause { IsErrOf result DeviceFault → HasFailed (E.life self.old.reader.disk) (E.life self.new.reader.disk)
            ⊎ SeesNothing D.life A.opening self.old.held self.new.held DeviceFault }
    {
        let next = self.reader.next_position();
        self.held.look_if_read(rt, alloc, archive, next)?;
        self.reader.turn(alloc, self.held.seen(), most, taker)
    }

    /// Whether all that was seen is read: the next turn looks how far the recording is recorded by now. Does not allocate.
    pub fn is_all_read(&self) -> bool
        ensures { result ≡ not (int_lt self.now.reader.cursor.replay.next self.now.held.seen) }
    {
        self.reader.next_position() >= self.held.seen()
    }

    /// Whether the next frame is in a later segment than where the archive's replay was opened. Does not allocate.
    pub fn is_ahead(&self) -> bool
        ensures { result ≡ is_ahead self.now.held.from (segment_in self.now.layout self.now.reader.cursor.replay.next) }
    {
        let base = segment_in(&self.layout, self.reader.next_position());
        is_ahead(self.held.from(), &base)
    }

    /// Moves the archive's replay on to where the next frame's segment begins, if that is further on: by two calls, which read
    /// nothing. So what was read may be purged. If that is refused the replay stays, and protects more than it needs.
    pub fn keep_up<D: Disk, A: Naming, R: Wait>(
        &mut self,
        rt: &R,
        alloc: Global,
        archive: &SharedArchive<D, A>,
    )
        requires { self.old.held.pass.table ≡ A.table }
        ensures keeps_up { KeepsUp D.life A.opening self.old.held
            (segment_in self.old.layout self.old.reader.cursor.replay.next) self.new.held }
        ensures reader { self.new.reader ≡ self.old.reader }
        ensures pass { (self.new.held.pass.table ≡ self.old.held.pass.table)
            × (self.new.held.pass.number ≡ self.old.held.pass.number) }
    {
        let base = segment_in(&self.layout, self.reader.next_position());
        self.held.keep_up(rt, alloc, archive, base);
    }

    /// Whether the replay gives no frame any more: it is at its bound, or all that was seen of a recording that was not active
    /// then is read. Does not allocate.
    pub fn is_done(&self) -> bool
        ensures { result ≡ is_done self.now.reader.cursor.replay.bound self.now.reader.cursor.replay.next
            self.now.reader.cursor.known.recorded self.now.held.is_active }
    {
        self.reader.is_done(self.held.is_active())
    }

    /// Where the next frame begins, in bytes of the stream. Does not allocate.
    pub fn next_position(&self) -> i64
        ensures { result ≡ self.now.reader.cursor.replay.next }
    {
        self.reader.next_position()
    }

    /// The recording's id. Does not allocate.
    pub fn recording(&self) -> i64
        ensures { result ≡ self.now.held.recording }
    {
        self.held.recording()
    }

    /// The number of the archive's replay, which changes as it moves on. Does not allocate.
    pub fn number(&self) -> i64
        ensures { result ≡ self.now.held.number }
    {
        self.held.number()
    }

    /// Closes the archive's replay, by one call, however that is answered: the pass. No more is read then.
    pub fn close<D: Disk, A: Naming, R: Wait>(
        self,
        rt: &R,
        alloc: Global,
        archive: &SharedArchive<D, A>,
    ) -> Pass<Made>
        requires { self.held.pass.table ≡ A.table }
        ensures closes { ClosesHeld D.life A.opening self.held.pass self.held.number result }
        ensures pass { (result.table ≡ self.held.pass.table) × (result.number ≡ self.held.pass.number) }
    {
        self.held.close(rt, alloc, archive)
    }

    /// The pass. No more is read. The archive's replay stays open, for another one to close. Does not allocate.
    pub fn release(self) -> Pass<Made>
        ensures { result ≡ self.held.pass }
    {
        self.held.release()
    }
}

/// Where the segment of a position begins, of a recording that has terms and begins at the position or before it.
fn segment_in(layout: &Layout, position: i64) -> Option<i64>
    ensures { result ≡ segment_in layout.now position }
{
    if layout.term_length <= 0 || layout.segment_length <= 0 {
        return None;
    }
    if layout.start_position < 0 || position < layout.start_position {
        return None;
    }
    let base = segment_base(
        layout.start_position.unsigned_abs(),
        layout.term_length.unsigned_abs(),
        layout.segment_length.unsigned_abs(),
        position.unsigned_abs(),
    );
    Some(base as i64)
}

/// Whether a segment begins further on than a position.
fn is_ahead(from: i64, base: &Option<i64>) -> bool
    ensures { result ≡ is_ahead from base.now }
{
    match base {
        Some(base) => from < *base,
        None => false,
    }
}
