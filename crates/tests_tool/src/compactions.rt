//! The command `compact` that ends early, and an observer of a history: docs/STORAGE.md, "Compaction".

use super::scripts::{after, behind, with_disk, with_short_history};
use archive_commands::{CommandFault, Stop, compact_archive};
use disk_core::{Disk, FileId, MemoryDisk};
use std::alloc::Global;
use std::io::Write;
use std::test::*;
use tool_core::{EarlyEnd, HistoryUse, Observer, Unobserved};

/// The disk after a script that recorded a frame and did not stop its recording.
fn recorded(alloc: Global) -> Result<MemoryDisk, Fail> {
    after(
        alloc,
        "start 1001 7 42 65536 1408 131072 0 1000 c; block 0 HELLO_AT_0",
    )
}

/// Removes the other bank of a disk.
pub fn remove_spare(disk: &mut MemoryDisk) -> Result<(), Fail> {
    disk.remove(FileId::BankB)?;
    Ok(disk.sync(FileId::BankB)?)
}

/// A disk whose other bank is not there.
fn without_spare(alloc: Global) -> Result<MemoryDisk, Fail> {
    let mut disk = recorded(alloc)?;
    with_disk(remove_spare(&mut disk), disk)
}

/// The disk after the command, or why that ended early.
fn compact<W: Write>(alloc: Global, disk: MemoryDisk, out: &mut W) -> Result<MemoryDisk, Stop> {
    match compact_archive(alloc, disk, out, &mut Unobserved) {
        Ok(disk) => Ok(disk),
        Err(CommandFault { why, disk }) => {
            drop(disk);
            Err(why)
        }
    }
}

/// Takes a few bytes, and then fails.
#[derive(Drop)]
struct FullWriter {
    room: usize,
}

impl Write for FullWriter {
    fn write(&mut self, buf: &[u8]) -> std::io::Result<usize> {
        let count = buf.len().min(self.room);
        self.room -= count;
        Ok(count)
    }

    fn flush(&mut self) -> std::io::Result<()> {
        Ok(())
    }
}

/// Why the command ended early over a disk and a writer that takes nothing.
fn ended(alloc: Global, disk: MemoryDisk) -> Option<Stop> {
    compact(alloc, disk, &mut FullWriter { room: 0 }).err()
}

/// `compact` ends early if its output takes nothing, or if the other bank is missing.
#[test]
fn the_command_ends_early(rt: HostRuntime) -> Result<(), Fail> {
    let disk = recorded(rt.alloc())?;
    assert!(rt; ended(rt.alloc(), disk) == Some(Stop::Cut(EarlyEnd::Write)));
    let disk = without_spare(rt.alloc())?;
    assert!(rt; matches!(ended(rt.alloc(), disk), Some(Stop::Refused(_))));
    Ok(())
}

/// Keeps what it was told last of a history, and how often.
#[derive(Clone, Copy)]
struct Counting {
    last: HistoryUse,
    times: u32,
}

impl Observer for Counting {
    fn used(&mut self, history: &HistoryUse) {
        self.last = *history;
        self.times = self.times.saturating_add(1);
    }
}

/// Tells of a history of three entries by a script that starts and stops a recording. Whether that was answered to its end.
fn tells_of_history(alloc: Global, disk: MemoryDisk, counting: &mut Counting) -> bool {
    let lines = b"start 1001 7 42 65536 1408 131072 0 1000 c\nstop 0 1\nlist 0 1\n".as_slice();
    behind(alloc, lines, &mut Vec::new(alloc), disk, counting).is_ok()
}

/// How full the history is, is reported at the opening and after each line.
#[test]
fn a_history_that_fills_up(rt: HostRuntime) -> Result<(), Fail> {
    let mut counting = Counting {
        last: HistoryUse {
            counted: 0,
            limit: 0,
        },
        times: 0,
    };
    let disk = with_short_history(rt.alloc())?;
    assert!(rt; tells_of_history(rt.alloc(), disk, &mut counting));
    assert!(rt; counting.times == 4 && counting.last.counted == 2 && counting.last.limit == 3);
    let text = counting.last.to_string(rt.alloc())?;
    assert!(rt; text.as_str() == "2 of the 3 entries of the history are used, 1 are left");
    Ok(())
}
