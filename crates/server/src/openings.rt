//! How a server opens its disk again for those who read beside the archive. docs/ARCHITECTURE.md, "Serving".

use disk_core::MemoryDisk;
use server_recorder::Unflushed;
use std::alloc::Global;

/// Opens the disk of a server again as an `E`, each time for one who only reads. What a read by it gives is of a disk that a crash
/// at that moment might have left (docs/STORAGE.md, "Folders").
pub trait Openings<E> {
    /// Whether the disk can be opened again. If not, no connection follows.
    fn can_open(&self) -> bool;

    /// Opens the disk again. None if that fails.
    fn open_again(&self, alloc: Global) -> Option<E>;
}

/// What flushes nothing opens nothing either: a disk in memory can't be opened again.
impl Openings<MemoryDisk> for Unflushed {
    fn can_open(&self) -> bool {
        false
    }

    fn open_again(&self, _alloc: Global) -> Option<MemoryDisk> {
        None
    }
}
