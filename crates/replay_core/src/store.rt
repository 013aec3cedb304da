//! What replays of a recording read from: a disk through pages. docs/STORAGE.md, "Pages" and "Damaged frames".

ghost use Rattle.std.specs.Prelude.{◌≡◌, ◌⊎◌, ◌<◌, ◌^◌, ℕ, IfOk, IfErr, IsErrOf, IsTrue, OnErr};
ghost use Rattle.disk_core.specs.DiskImage.{reads};
ghost use Rattle.disk_core.specs.Life.{HasFailed, IsQuiet};
ghost use Rattle.frame_core.specs.declared.refusal.Refusal.TheVariants.{DeviceFault};
ghost use Rattle.frame_core.specs.FrameEncoding.{frame_of, header_of};
ghost use Rattle.frame_core.specs.Front.{IsFront};
ghost use Rattle.segment_store.specs.Layout.{IsFromStart, IsGeometryOf, IsLayout};
ghost use Rattle.replay_core.specs.Pages.{KeepsRead, kept};
ghost use Rattle.replay_core.specs.Taking.{HandsOne, RefusesHanding};

use crate::cache::PageCache;
use crate::gathering::{Source, gather_frame};
use crate::taking::FrameTaker;
use disk_core::Disk;
use frame_core::limits::HEADER_LENGTH;
use frame_core::{FrameRef, Geometry, Refusal};
use segment_store::{Layout, read_frame, shown_frame};
use std::alloc::Global;

/// What replays of a recording read from.
#[derive(Drop)]
pub struct Store<'a, D> {
    /// The disk that has its segment files.
    pub disk: &'a mut D,
    /// Pages of segment files, of this recording and others.
    pub pages: &'a mut PageCache,
    /// Where its frames lie.
    pub layout: Layout,
    /// Its terms.
    pub geometry: Geometry,
    /// The archive's generation. Pages that were kept in another are not read; none are kept in the last.
    pub generation: u64,
}

impl<D> Store<'_, D> {
    /// Hands the frame at a position on, through pages: as `segment_store::read_frame` reads it, where the pages that are kept
    /// of the recording's generation agree with the disk on the frame's bytes. It is lent from what was gathered of pages, or
    /// from what the disk was read into. How many bytes of the stream it covers.
    ///
    /// Damaged only where the disk has none there, whatever pages have; DeviceFault where the disk fails, also in what is read
    /// ahead; NoMemory where there is none for the payload of a frame that stands there, or the taker has none for it: then the
    /// taker is what its own refusal left. The disk stays as it is.
    ///
    /// Only pages that lie whole below the limit are kept, none in the last generation, and none for which there is no
    /// memory: the frame is handed on all the same. Costs no call of the disk where pages have the frame; else one for up
    /// to 16 pages of 4,096 bytes, and what `segment_store::read_frame` costs where they don't have it then, as behind the
    /// last whole page. Copies a frame's bytes once, and those that are read once more. Takes memory for a payload only where
    /// pages don't have the frame; for pages, what they are read into and the frame's bytes only while there were fewer, or
    /// none as long.
    pub fn hand_frame<T: FrameTaker>(
        &mut self,
        alloc: Global,
        position: i64,
        limit: i64,
        taker: &mut T,
    ) -> Result<u64, Refusal>
    where
        D: Disk,
        requires layout { IsLayout self.old.layout }
        requires geometry { IsGeometryOf self.old.layout self.old.geometry }
        requires recorded { IsFromStart self.old.layout position }
        ensures handed { IfOk result (HandsOne T.takes taker.old taker.new (D.life self.new.disk.now).obeys
            (reads (D.life self.old.disk.now).now) self.old.layout self.old.geometry self.old.generation
            (kept self.old.pages.now) limit position) }
        ensures small { IfOk result (λ size. size < 2 ^ 33) }
        ensures left { OnErr result ((taker.new ≡ taker.old) ⊎ T.leaves taker.old taker.new) }
        // Whatever pages have.
        ensures refused { IfErr result (RefusesHanding (D.life self.new.disk.now).obeys
            (reads (D.life self.old.disk.now).now) self.old.layout self.old.geometry limit position) }
        ensures pages { KeepsRead (IsTrue (D.life self.new.disk.now).obeys) (reads (D.life self.old.disk.now).now)
            self.old.layout self.old.generation limit (kept self.old.pages.now) (kept self.new.pages.now) }
        ensures quiet { IsQuiet (D.life self.old.disk.now) (D.life self.new.disk.now) }
        ensures cause { IsErrOf result DeviceFault → HasFailed (D.life self.old.disk.now) (D.life self.new.disk.now) }
        ensures store { (self.new.layout ≡ self.old.layout) × (self.new.geometry ≡ self.old.geometry)
            × (self.new.generation ≡ self.old.generation) × (self.new.disk.ghost_name ≡ self.old.disk.ghost_name)
            × (self.new.pages.ghost_name ≡ self.old.pages.ghost_name) }
    {
        let source = Source {
            layout: self.layout,
            generation: self.generation,
            limit,
        };
        let at = position.unsigned_abs();
        let most = self.geometry.mtu.unsigned_abs() as usize;
        gather_frame(alloc, self.disk, self.pages, &source, at, most)?;
        let bytes = self.pages.gathered.as_slice();
        if let Some(shown) = shown_frame(&self.layout, &self.geometry, at, &limit, bytes) {
            taker.take(position, header_in(bytes, &shown), &shown)?;
            return Ok(shown.aligned_length());
        }
        let frame = read_frame(
            alloc,
            self.disk,
            &self.layout,
            &self.geometry,
            position,
            limit,
        )?;
        let header = frame.header();
        taker.take(position, &header, &frame.as_ref())?;
        Ok(frame.aligned_length())
    }
}

/// The bytes of the header of the frame that the bytes begin with.
fn header_in<'a>(bytes: &'a [u8], frame: &FrameRef<'_>) -> &'a [u8]
    requires { (used : ℕ) × IsFront bytes.now (frame_of frame.now) used }
    ensures { result.now ≡ header_of (frame_of frame.now) }
{
    &bytes[..HEADER_LENGTH]
}
