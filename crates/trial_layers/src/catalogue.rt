//! A bank of 100,000 entries on a disk in memory, opened again and again.

use archive_model::{Channel, SourceIdentity, StartFields};
use catalogue_log::{Entry, Log, create, open};
use disk_core::MemoryDisk;
use std::alloc::Global;

/// Makes the bank and opens it so often. Gives the entries that were read in all.
pub(crate) fn entries_read(alloc: Global, openings: u32) -> Option<u64> {
    let mut disk = MemoryDisk::new(alloc);
    fill(alloc, &mut disk)?;
    let mut entries = 0u64;
    for _ in 0..openings {
        entries = entries.saturating_add(opened(alloc, &mut disk)? as u64);
    }
    Some(entries)
}

/// How many entries an opening reads.
fn opened(alloc: Global, disk: &mut MemoryDisk) -> Option<usize> {
    match open(alloc, disk) {
        Ok((_, entries)) => Some(entries.len()),
        Err(_) => None,
    }
}

/// Makes the bank: a start, and then settlements.
fn fill(alloc: Global, disk: &mut MemoryDisk) -> Option<()> {
    let mut log = create(alloc, disk, 1_048_576).ok()?;
    let is_full = add_start(alloc, disk, &mut log).is_some() && add_settlements(disk, &mut log);
    is_full.then_some(())
}

fn add_start(alloc: Global, disk: &mut MemoryDisk, log: &mut Log) -> Option<()> {
    let channel = Channel::new(String::from_str(alloc, "c").ok()?);
    let start = Entry::Start {
        recording: 0,
        fields: StartFields {
            stream_id: 1_001,
            session_id: 7,
            initial_term_id: 42,
            term_length: 65_536,
            mtu: 1_408,
            segment_length: 131_072,
            start_position: 0,
            timestamp: 1_000,
            channel,
            source_identity: SourceIdentity::none(alloc),
        },
    };
    add(disk, log, &start).then_some(())
}

fn add_settlements(disk: &mut MemoryDisk, log: &mut Log) -> bool {
    for index in 1..100_000u32 {
        let settle = Entry::Settle {
            recording: 0,
            position: i64::from(index) * 64,
        };
        if !add(disk, log, &settle) {
            return false;
        }
    }
    true
}

/// Adds an entry. Whether it was added.
fn add(disk: &mut MemoryDisk, log: &mut Log, entry: &Entry) -> bool {
    entry.is_held(log.version()) && log.append(disk, entry).is_ok()
}
