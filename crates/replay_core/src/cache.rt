//! Pages of segment files, kept in memory: docs/STORAGE.md, "Pages".

ghost use Rattle.std.specs.Prelude.{◌≡◌, ◌<◌, ◌≤◌, ◌⊎◌, false, [], length, IfOk, IfErr, IfSome, IsErrOf, IsTrue};
ghost use Rattle.frame_core.specs.declared.refusal.Refusal.TheVariants.{BadParameter, NoMemory};
ghost use Rattle.replay_core.specs.Gathering.{AddsKept, AddsPart, KeepsOne, StaysKept};
ghost use Rattle.replay_core.specs.Pages.{kept};

use frame_core::Refusal;
use lru::LruCache;
use std::alloc::Global;
use std::num::NonZeroUsize;

/// Bytes of a page.
pub const PAGE_LENGTH: usize = 4_096;
/// Pages that one call of the disk reads at most.
pub const PAGES_AHEAD: usize = 16;

/// Which page of a recording's stream it is.
#[derive(Clone, Copy, Debug, PartialEq, Eq, Hash)]
pub struct PageKey {
    /// The recording's id.
    pub recording: i64,
    /// In which generation of the archive it was read.
    pub generation: u64,
    /// Its positions, in bytes of the stream, divided by 4,096.
    pub number: u64,
}

/// Pages of segment files, each of at most 4,096 bytes: as many as its file had there.
#[derive(Drop)]
pub struct PageCache {
    // The most recently used first.
    pages: LruCache<PageKey, Vec<u8>>,
    // The bytes of the frame that is read.
    pub(crate) gathered: Vec<u8>,
    // What pages are read into, once there were some.
    pub(crate) window: Option<Vec<u8>>,
    // A page that went: the next one takes its memory.
    spare: Option<Vec<u8>>,
}

impl PageCache {
    /// No pages, and room for so many: BadParameter for none, NoMemory where there is none for their keys. A page takes
    /// memory when it is read, and leaves it to the next one where it goes. What pages are read into, 64 KiB, is taken at
    /// the first read and kept.
    pub fn new(alloc: Global, capacity: usize) -> Result<PageCache, Refusal>
        ensures empty { IfOk result (λ cache. kept cache ≡ []) }
        ensures capacity { IfOk result (λ cache. cache.pages.cap ≡ capacity) }
        ensures none { capacity ≡ 0 → IsErrOf result BadParameter }
        ensures refused { IfErr result (λ refusal. (refusal ≡ NoMemory) ⊎ ((refusal ≡ BadParameter) × (capacity ≡ 0))) }
    {
        let Some(room) = NonZeroUsize::new(capacity) else {
            return Err(Refusal::BadParameter);
        };
        Ok(PageCache {
            pages: LruCache::new(alloc, room)?,
            gathered: Vec::new(alloc),
            window: None,
            spare: None,
        })
    }

    /// How many pages are read by one call of the disk at most: no more than are kept.
    pub(crate) fn most_ahead(&self) -> usize
        ensures { result ≤ 16 }
    {
        PAGES_AHEAD.min(self.pages.cap().get())
    }

    /// Adds to the gathered bytes what a page has from an offset on, until there are so many of them. False where the page
    /// is not kept, has none, or there is no memory for them.
    pub(crate) fn gather_kept(&mut self, key: &PageKey, offset: usize, size: usize) -> bool
        ensures added { AddsKept (kept self.old) key.now offset self.old.gathered.items self.new.gathered.items }
        ensures kept { StaysKept (kept self.old) (kept self.new) }
        ensures more { IsTrue result → length self.old.gathered.items < length self.new.gathered.items }
        ensures none { result ≡ false → self.new.gathered.items ≡ self.old.gathered.items }
    {
        self.use_page(key);
        match self.pages.peek_mru() {
            Some((first, page)) if *first == *key => {
                add_part(&mut self.gathered, page.as_slice(), offset, size)
            }
            _ => false,
        }
    }

    /// Makes a page the most recently used, where it is kept.
    fn use_page(&mut self, key: &PageKey)
        ensures kept { StaysKept (kept self.old) (kept self.new) }
        ensures same { self.new ≡ record self.old { pages = self.new.pages } }
    {
        if let Some((first, _)) = self.pages.peek_mru() {
            if *first == *key {
                return;
            }
        }
        self.pages.promote(key);
    }

    /// Keeps a page, as the most recently used; the least recently used goes where there is no room. Keeps nothing where
    /// there is no memory for it.
    pub(crate) fn keep(&mut self, alloc: Global, key: PageKey, bytes: &[u8])
        ensures kept { KeepsOne (kept self.old) (kept self.new) key bytes.now }
        ensures gathered { self.new.gathered ≡ self.old.gathered }
    {
        let Some(page) = self.page_of(alloc, bytes) else {
            return;
        };
        let gone = match self.pages.push(key, page) {
            Ok(gone) => gone,
            Err(failed) => Some(failed.value),
        };
        if let Some((_, page)) = gone {
            self.spare = Some(page);
        }
    }

    /// A page with these bytes, in the memory of one that went where there is such. None where there is no memory.
    fn page_of(&mut self, alloc: Global, bytes: &[u8]) -> Option<Vec<u8>>
        ensures page { IfSome result (λ page. page.items ≡ bytes.now) }
        ensures same { self.new ≡ record self.old { spare = self.new.spare } }
    {
        let Some(mut page) = self.spare.take() else {
            return Vec::from_slice(alloc, bytes).ok();
        };
        page.clear();
        page.extend_from_slice(bytes).ok()?;
        Some(page)
    }

    /// What pages are read into, which is taken out. None where there is no memory for it.
    pub(crate) fn take_window(&mut self, alloc: Global) -> Option<Vec<u8>>
        ensures same { self.new ≡ record self.old { window = self.new.window } }
    {
        match self.window.take() {
            Some(window) => Some(window),
            None => vec![in alloc; 0; PAGES_AHEAD * PAGE_LENGTH].ok(),
        }
    }
}

/// Adds to gathered bytes what a part has from an offset on, of its first 4,096 bytes, until there are so many of them.
/// False where it has none, or there is no memory for them.
pub(crate) fn add_part(gathered: &mut Vec<u8>, part: &[u8], offset: usize, size: usize) -> bool
    ensures added { AddsPart part.now offset gathered.old.items gathered.new.items }
    ensures more { IsTrue result → length gathered.old.items < length gathered.new.items }
    ensures none { result ≡ false → gathered.new.items ≡ gathered.old.items }
{
    let wanted = size.saturating_sub(gathered.len());
    let end = offset
        .saturating_add(wanted)
        .min(part.len())
        .min(PAGE_LENGTH);
    if end <= offset {
        return false;
    }
    gathered.extend_from_slice(&part[offset..end]).is_ok()
}
