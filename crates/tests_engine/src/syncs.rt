//! How often an archive syncs its disk: docs/STORAGE.md, "Recovery".

use crate::calls::{created, event_in};
use disk_core::{Disk, Fault, FileId, ListFault, MemoryDisk};
use engine_core::Engine;
use frame_core::Refusal;
use std::alloc::{AllocError, Global};
use std::process::Abort;
use std::test::Fail;

/// A disk whose syncs are counted.
#[derive(Drop)]
struct Synced<D> {
    disk: D,
    syncs: u64,
}

impl<D: Disk> Disk for Synced<D> {
    ghost life = { λ synced. D.life synced.disk };

    ghost reads_may_stay = { λ synced. D.reads_may_stay synced.disk };

    fn len(&mut self, file: FileId) -> Result<u64, Fault> {
        self.disk.len(file)
    }

    fn read_at(&mut self, file: FileId, at: u64, into: &mut [u8]) -> Result<usize, Fault> {
        self.disk.read_at(file, at, into)
    }

    fn write_at(&mut self, file: FileId, at: u64, bytes: &[u8]) -> Result<(), Fault> {
        self.disk.write_at(file, at, bytes)
    }

    fn cut(&mut self, file: FileId, len: u64) -> Result<(), Fault> {
        self.disk.cut(file, len)
    }

    fn remove(&mut self, file: FileId) -> Result<(), Fault> {
        self.disk.remove(file)
    }

    fn sync(&mut self, file: FileId) -> Result<(), Fault> {
        self.syncs = self.syncs.wrapping_add(1);
        self.disk.sync(file)
    }

    fn list(&mut self) -> Result<Vec<FileId>, ListFault> {
        self.disk.list()
    }

    fn faults(&self) -> u64 {
        self.disk.faults()
    }
}

/// The lines of a recording and so many blocks of it, each settled alone or all together.
fn script(alloc: Global, blocks: i64, together: bool) -> Result<String, AllocError> {
    let mut script = String::from_str(alloc, "start 0")?;
    for block in 0..blocks {
        write!(script, "\nwrite 0 {}", block.wrapping_mul(64))?;
        if !together || block.wrapping_add(1) == blocks {
            script.push_str("\nsettle 0")?;
        }
    }
    Ok(script)
}

/// Makes the calls of a script, whatever they are answered.
fn run(
    alloc: Global,
    engine: &mut Engine<Synced<MemoryDisk>>,
    script: &str,
) -> Result<(), Refusal> {
    let mut events = Vec::new(alloc);
    for line in script.lines() {
        events.push(event_in(alloc, line)?)?;
    }
    engine.drive(alloc, events.as_slice())?;
    Ok(())
}

/// How many changes are made of the disk of a new archive by a recording and so many blocks, and how many of them are syncs.
fn counted(alloc: Global, blocks: i64, together: bool) -> Result<(u64, u64), Refusal> {
    let script = script(alloc, blocks, together)?;
    let disk = Synced {
        disk: MemoryDisk::new(alloc),
        syncs: 0,
    };
    match created(alloc, disk, 32) {
        Ok(mut engine) => {
            let ran = run(alloc, &mut engine, script.as_str());
            let Synced { disk, syncs } = engine.into_disk();
            ran.and(Ok((disk.changes(), syncs)))
        }
        Err(refused) => Err(refused.refusal),
    }
}

/// The same of so many blocks alone.
fn of_blocks(alloc: Global, blocks: i64, together: bool) -> Result<(u64, u64), Refusal> {
    let (before, synced) = counted(alloc, 0, together)?;
    let (changes, syncs) = counted(alloc, blocks, together)?;
    Ok((changes.wrapping_sub(before), syncs.wrapping_sub(synced)))
}

/// A settle makes five changes, three of them syncs, however many blocks it records.
#[test]
fn sixteen_blocks_to_one_settle(rt: HostRuntime) -> Result<(), Fail> {
    assert!(rt; of_blocks(rt.alloc(), 16, true)? == (21, 3));
    assert!(rt; of_blocks(rt.alloc(), 16, false)? == (96, 48));
    Ok(())
}
