//! The bytes of a frame, gathered from pages that are kept or read: docs/STORAGE.md, "Pages".

ghost use Rattle.std.specs.Prelude.{◌≡◌, ◌<◌, ◌≤◌, ◌+◌, ◌*◌, ◌^◌, pos, ℕ, [], length, IfErr, IfOk, IsErrOf, IsTrue, unsigned_abs};
ghost use Rattle.disk_core.specs.DiskImage.{Files, bytes_of, reads};
ghost use Rattle.disk_core.specs.Life.{HasFailed, IsQuiet};
ghost use Rattle.frame_core.specs.declared.refusal.Refusal.TheVariants.{DeviceFault};
ghost use Rattle.segment_store.specs.Layout.{IsLayout, file_of, offset_of};
ghost use Rattle.segment_store.specs.Reading.{AreReadAt};
ghost use Rattle.replay_core.specs.Gathering.{Gathers, KeepsParts, MayKeep};
ghost use Rattle.replay_core.specs.Pages.{key_at, kept};

use crate::cache::{PAGE_LENGTH, PAGES_AHEAD, PageCache, PageKey, add_part};
use disk_core::Disk;
use frame_core::limits::HEADER_LENGTH;
use frame_core::{FrameKind, Refusal, decode_header};
use segment_store::{Layout, spot_of};
use std::alloc::Global;

/// Bytes of a page.
const PAGE: u64 = PAGE_LENGTH as u64;

/// What the pages of a recording are read of.
#[derive(Clone, Copy)]
pub struct Source {
    /// Where its frames lie.
    pub layout: Layout,
    /// The archive's generation.
    pub generation: u64,
    /// Pages that lie whole below this position, in bytes of the stream, may be kept.
    pub limit: i64,
}

/// The key of the page of a position.
fn key_of(source: &Source, position: u64) -> PageKey
    ensures { result ≡ key_at source.now.layout source.now.generation position }
{
    PageKey {
        recording: source.layout.recording,
        generation: source.generation,
        number: position / PAGE,
    }
}

/// How many pages from a position's on may be kept, at most so many: those that lie whole below the limit and end in the
/// position's term. None in the last generation.
fn pages_from(source: &Source, position: u64, most: usize) -> usize
    requires layout { IsLayout source.now.layout }
    ensures pages { 0 < result → MayKeep source.now position result }
    ensures high { 0 < result → position < 2 ^ 63 }
    ensures few { result ≤ most }
{
    if source.generation == u64::MAX || source.limit < 0 {
        return 0;
    }
    let term = u64::from(source.layout.term_length.unsigned_abs());
    let offset = position % PAGE;
    let below = source
        .limit
        .unsigned_abs()
        .saturating_sub(position - offset);
    let inside = term - position % term + offset;
    (below.min(inside) / PAGE).min(most as u64) as usize
}

/// Keeps a page of a window: the one of this index of the pages that begin with a position's.
fn keep_part(
    alloc: Global,
    pages: &mut PageCache,
    source: &Source,
    position: u64,
    window: &[u8],
    index: usize,
)
    requires index { index < 2 ^ 32 }
    requires high { position < 2 ^ 63 }
    ensures kept { KeepsParts source.now position window.now (kept pages.old) (kept pages.new) }
    ensures gathered { pages.new.gathered ≡ pages.old.gathered }
{
    let start = index * PAGE_LENGTH;
    if start < window.len() {
        let end = window.len().min(start + PAGE_LENGTH);
        let key = PageKey {
            recording: source.layout.recording,
            generation: source.generation,
            number: position / PAGE + index as u64,
        };
        pages.keep(alloc, key, &window[start..end]);
    }
}

/// Keeps the pages of a window, which begins with the page of a position.
fn keep_pages(alloc: Global, pages: &mut PageCache, source: &Source, position: u64, window: &[u8])
    requires high { position < 2 ^ 63 }
    ensures kept { KeepsParts source.now position window.now (kept pages.old) (kept pages.new) }
    ensures gathered { pages.new.gathered ≡ pages.old.gathered }
{
    for index in 0..PAGES_AHEAD {
        keep_part(alloc, pages, source, position, window, index);
    }
}

/// Reads into a window from the page of a position on, keeps the pages that it then has, and gathers from the first.
fn load_into<D: Disk>(
    alloc: Global,
    disk: &mut D,
    pages: &mut PageCache,
    source: &Source,
    position: u64,
    size: usize,
    window: &mut [u8],
) -> Result<bool, Refusal>
    requires layout { IsLayout source.now.layout }
    requires start { unsigned_abs source.now.layout.start_position ≤ position }
    requires high { position < 2 ^ 63 }
    requires pages { (count : ℕ) × MayKeep source.now position count × (length window.old ≤ 4096 * count) }
    ensures gathers { (files : Files) (from : ℕ) → (D.life disk.old).now ≡ files → from + length pages.old.gathered.items ≡ position →
        Gathers (IsTrue (D.life disk.new).obeys) files source.now from (kept pages.old) (kept pages.new) pages.old.gathered.items pages.new.gathered.items }
    ensures more { IfOk result (λ more. IsTrue more → length pages.old.gathered.items < length pages.new.gathered.items) }
    ensures quiet { IsQuiet (D.life disk.old) (D.life disk.new) }
    ensures cause { IsErrOf result DeviceFault → HasFailed (D.life disk.old) (D.life disk.new) }
    ensures faults { IfErr result (λ refusal. refusal ≡ DeviceFault) }
{
    let spot = spot_of(&source.layout, position);
    let offset = position % PAGE;
    let count = disk.read_at(spot.file, spot.offset - offset, window)?;
    let part = &window[..count];
    keep_pages(alloc, pages, source, position, part);
    Ok(add_part(&mut pages.gathered, part, offset as usize, size))
}

/// Reads so many pages from a position's on by one call of the disk, keeps them, and gathers from the first. False where
/// it has nothing to gather, or there is no memory.
fn load<D: Disk>(
    alloc: Global,
    disk: &mut D,
    pages: &mut PageCache,
    source: &Source,
    position: u64,
    count: usize,
    size: usize,
) -> Result<bool, Refusal>
    requires layout { IsLayout source.now.layout }
    requires start { unsigned_abs source.now.layout.start_position ≤ position }
    requires high { position < 2 ^ 63 }
    requires few { count ≤ 16 }
    requires pages { MayKeep source.now position count }
    ensures gathers { (files : Files) (from : ℕ) → (D.life disk.old).now ≡ files → from + length pages.old.gathered.items ≡ position →
        Gathers (IsTrue (D.life disk.new).obeys) files source.now from (kept pages.old) (kept pages.new) pages.old.gathered.items pages.new.gathered.items }
    ensures more { IfOk result (λ more. IsTrue more → length pages.old.gathered.items < length pages.new.gathered.items) }
    ensures quiet { IsQuiet (D.life disk.old) (D.life disk.new) }
    ensures cause { IsErrOf result DeviceFault → HasFailed (D.life disk.old) (D.life disk.new) }
    ensures faults { IfErr result (λ refusal. refusal ≡ DeviceFault) }
{
    let Some(mut window) = pages.take_window(alloc) else {
        return Ok(false);
    };
    let end = window.len().min(count * PAGE_LENGTH);
    let part = &mut window.as_mut_slice()[..end];
    let more = load_into(alloc, disk, pages, source, position, size, part);
    pages.window = Some(window);
    more
}

/// Adds to the bytes that were gathered from a position on, up to so many: from a page that is kept, else from pages that
/// are read. False where none may be kept, or none were added.
fn gather_more<D: Disk>(
    alloc: Global,
    disk: &mut D,
    pages: &mut PageCache,
    source: &Source,
    from: u64,
    size: usize,
) -> Result<bool, Refusal>
    requires layout { IsLayout source.now.layout }
    requires start { unsigned_abs source.now.layout.start_position ≤ from }
    requires high { from < 2 ^ 63 }
    ensures gathers { (files : Files) → (D.life disk.old).now ≡ files →
        Gathers (IsTrue (D.life disk.new).obeys) files source.now from (kept pages.old) (kept pages.new) pages.old.gathered.items pages.new.gathered.items }
    ensures more { IfOk result (λ more. IsTrue more → length pages.old.gathered.items < length pages.new.gathered.items) }
    ensures quiet { IsQuiet (D.life disk.old) (D.life disk.new) }
    ensures cause { IsErrOf result DeviceFault → HasFailed (D.life disk.old) (D.life disk.new) }
    ensures faults { IfErr result (λ refusal. refusal ≡ DeviceFault) }
{
    let position = from + pages.gathered.len() as u64;
    let key = key_of(source, position);
    if pages.gather_kept(&key, (position % PAGE) as usize, size) {
        return Ok(true);
    }
    let most = pages.most_ahead();
    let count = pages_from(source, position, most);
    if count == 0 {
        return Ok(false);
    }
    load(alloc, disk, pages, source, position, count, size)
}

/// Gathers bytes from a position on until there are so many. False where there are fewer.
fn gather<D: Disk>(
    alloc: Global,
    disk: &mut D,
    pages: &mut PageCache,
    source: &Source,
    from: u64,
    size: usize,
) -> Result<bool, Refusal>
    requires layout { IsLayout source.now.layout }
    requires start { unsigned_abs source.now.layout.start_position ≤ from }
    requires high { from < 2 ^ 63 }
    ensures gathers { (files : Files) → (D.life disk.old).now ≡ files →
        Gathers (IsTrue (D.life disk.new).obeys) files source.now from (kept pages.old) (kept pages.new) pages.old.gathered.items pages.new.gathered.items }
    ensures quiet { IsQuiet (D.life disk.old) (D.life disk.new) }
    ensures cause { IsErrOf result DeviceFault → HasFailed (D.life disk.old) (D.life disk.new) }
    ensures faults { IfErr result (λ refusal. refusal ≡ DeviceFault) }
{
    while pages.gathered.len() < size {
        if !gather_more(alloc, disk, pages, source, from, size)? {
            return Ok(false);
        }
    }
    Ok(true)
}

/// Gathers the bytes of the frame that stands at a position, as far as pages have them: at most so many of a data frame.
pub fn gather_frame<D: Disk>(
    alloc: Global,
    disk: &mut D,
    pages: &mut PageCache,
    source: &Source,
    from: u64,
    most: usize,
) -> Result<(), Refusal>
    requires layout { IsLayout source.now.layout }
    requires start { unsigned_abs source.now.layout.start_position ≤ from }
    requires high { from < 2 ^ 63 }
    ensures gathers { (files : Files) → (D.life disk.old).now ≡ files →
        Gathers (IsTrue (D.life disk.new).obeys) files source.now from (kept pages.old) (kept pages.new) [] pages.new.gathered.items }
    ensures quiet { IsQuiet (D.life disk.old) (D.life disk.new) }
    ensures cause { IsErrOf result DeviceFault → HasFailed (D.life disk.old) (D.life disk.new) }
    ensures faults { IfErr result (λ refusal. refusal ≡ DeviceFault) }
{
    pages.gathered.clear();
    if !gather(alloc, disk, pages, source, from, HEADER_LENGTH)? {
        return Ok(());
    }
    let size = frame_size(pages.gathered.as_slice(), most);
    gather(alloc, disk, pages, source, from, size)?;
    Ok(())
}

/// How many bytes are gathered of the frame whose header stands in front: all of a data frame that has at most so many,
/// and of others the header.
fn frame_size(bytes: &[u8], most: usize) -> usize {
    match decode_header(bytes) {
        Some(header) => match header.kind {
            FrameKind::Message => {
                let size = header.length.unsigned_abs() as usize;
                if size <= most { size } else { HEADER_LENGTH }
            }
            FrameKind::Pad | FrameKind::Heartbeat => HEADER_LENGTH,
        },
        None => HEADER_LENGTH,
    }
}
