//! Ten megabytes in writes of 64 bytes to a disk in memory.

use disk_core::{Disk, FileId, MemoryDisk};
use std::alloc::Global;

/// Writes to so many files in turn, with a sync after each ten. Gives how many calls have changed the disk.
pub(crate) fn changes(alloc: Global, files: u32) -> Option<u64> {
    let files = u64::from(files.max(1));
    let mut disk = MemoryDisk::new(alloc);
    for i in 0..16_384u64 {
        let file = FileId::Segment {
            recording: (i % files) as i64,
            base: 0,
        };
        write_ten(&mut disk, file, i / files * 640)?;
    }
    Some(disk.changes())
}

/// Ten writes to a file from a place on, and a sync.
fn write_ten(disk: &mut MemoryDisk, file: FileId, at: u64) -> Option<()> {
    for k in 0..10u64 {
        disk.write_at(file, at.saturating_add(k * 64), &[7; 64])
            .ok()?;
    }
    disk.sync(file).ok()
}
