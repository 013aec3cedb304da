//! Eight threads that record into the archive of a folder, and say what they were answered as soon as they are, so that
//! whoever kills the process knows what has to be there. And archives that are made and opened.

use crate::crew::{Left, crewed};
use crate::work::Plan;
use call_history::Stored;
use disk_core::Disk;
use engine_core::Engine;
use frame_core::Refusal;
use host_disk::HostDisk;
use std::alloc::Global;
use std::io::Print;
use std::path::Path;
use std::rt::Clock;
use std::sync::Wait;
use std::thread::Threads;

const WRITERS: u64 = 8;

/// Records into the archive of a folder until each thread told so many answers. Answers how many calls there were.
pub(crate) fn recorded<R: Threads + Wait + Clock + Print + Sync>(
    rt: &R,
    host: HostRuntime,
    folder: &str,
    seed: u32,
    turns: u32,
) -> Result<u64, Refusal> {
    let disk = disk_of(host, folder)?;
    let engine = opened(host.alloc(), disk)?;
    let plan = Plan::Folder { seed, turns };
    calls_of(crewed(rt, host.alloc(), engine, false, WRITERS, plan))
}

/// A folder as a disk.
pub(crate) fn disk_of(host: HostRuntime, folder: &str) -> Result<HostDisk, Refusal> {
    match HostDisk::open(host, host.alloc(), Path::new(folder)) {
        Ok(disk) => Ok(disk),
        Err(_) => Err(Refusal::DeviceFault),
    }
}

/// A new archive.
pub(crate) fn made<D: Disk + Drop>(
    alloc: Global,
    disk: D,
    limit: u32,
) -> Result<Engine<D>, Refusal> {
    match Engine::create(alloc, disk, limit) {
        Ok(engine) => Ok(engine),
        Err(refused) => Err(refused.refusal),
    }
}

/// The archive of a disk.
pub(crate) fn opened<D: Disk + Drop>(alloc: Global, disk: D) -> Result<Engine<D>, Refusal> {
    match Engine::open(alloc, disk) {
        Ok((engine, _)) => Ok(engine),
        Err(refused) => Err(refused.refusal),
    }
}

/// How many calls the history has, where they are counted.
fn calls_of(left: Result<Left<HostDisk>, Refusal>) -> Result<u64, Refusal> {
    let left = left?;
    match &left.history {
        Stored::Counted(calls) => Ok(*calls),
        Stored::Kept(_) => Err(Refusal::BadParameter),
    }
}
