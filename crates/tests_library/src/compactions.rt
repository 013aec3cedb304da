//! Compactions of a catalogue: byte for byte, and requests for memory refused.

use crate::catalogues::holds;
use archive_model::Registration;
use catalogue_log::{Bank, compact, open_register};
use disk_core::{Disk, Fault, FileId, MemoryDisk};
use frame_core::Refusal;
use std::alloc::Global;
use std::process::Abort;
use std::test::Fail;

// Bank A of version 1 of docs/STORAGE.md, "Entries", stopped by a restart: the limit 3, the start of the recording 0, and its settlement
// at 64.
const BANK: [u8; 112] = [
    0x01, 0x01, 0x00, 0x00, 0x03, 0x00, 0x00, 0x00, 0x01, 0x00, 0x00, 0x00, 0x00, 0x00, 0x00, 0x00,
    0x00, 0x00, 0x00, 0x00, 0x00, 0x00, 0x00, 0x00, 0x00, 0x00, 0x00, 0x00, 0x00, 0x00, 0x00, 0x00,
    0x01, 0x01, 0x33, 0x00, 0x00, 0x00, 0x00, 0x00, 0x00, 0x00, 0x00, 0x00, 0xe8, 0x03, 0x00, 0x00,
    0x00, 0x00, 0x00, 0x00, 0x00, 0x00, 0x00, 0x00, 0x00, 0x00, 0x00, 0x00, 0x2a, 0x00, 0x00, 0x00,
    0x00, 0x00, 0x02, 0x00, 0x00, 0x00, 0x01, 0x00, 0x80, 0x05, 0x00, 0x00, 0x07, 0x00, 0x00, 0x00,
    0xe9, 0x03, 0x00, 0x00, 0x01, 0x00, 0x63, 0x01, 0x02, 0x10, 0x00, 0x00, 0x00, 0x00, 0x00, 0x00,
    0x00, 0x00, 0x00, 0x40, 0x00, 0x00, 0x00, 0x00, 0x00, 0x00, 0x00, 0x01, 0x08, 0x00, 0x00, 0x00,
];

// Bank B after its compaction: version 2, the epoch 2, the next id 1, and the recording, which stopped at 64 without a timestamp.
const COMPACTED: [u8; 118] = [
    0x01, 0x02, 0x00, 0x00, 0x03, 0x00, 0x00, 0x00, 0x02, 0x00, 0x00, 0x00, 0x00, 0x00, 0x00, 0x00,
    0x00, 0x00, 0x00, 0x00, 0x00, 0x00, 0x00, 0x00, 0x00, 0x00, 0x00, 0x00, 0x00, 0x00, 0x00, 0x00,
    0x01, 0x0a, 0x08, 0x00, 0x01, 0x00, 0x00, 0x00, 0x00, 0x00, 0x00, 0x00, 0x01, 0x09, 0x45, 0x00,
    0x00, 0x00, 0x00, 0x00, 0x00, 0x00, 0x00, 0x00, 0xe8, 0x03, 0x00, 0x00, 0x00, 0x00, 0x00, 0x00,
    0xff, 0xff, 0xff, 0xff, 0xff, 0xff, 0xff, 0xff, 0x00, 0x00, 0x00, 0x00, 0x00, 0x00, 0x00, 0x00,
    0x40, 0x00, 0x00, 0x00, 0x00, 0x00, 0x00, 0x00, 0x2a, 0x00, 0x00, 0x00, 0x00, 0x00, 0x02, 0x00,
    0x00, 0x00, 0x01, 0x00, 0x80, 0x05, 0x00, 0x00, 0x07, 0x00, 0x00, 0x00, 0xe9, 0x03, 0x00, 0x00,
    0x01, 0x00, 0x63, 0x00, 0x00, 0x00,
];

/// Writes that bank and the closed gate of bank B, and syncs both.
fn write_banks(disk: &mut MemoryDisk) -> Result<(), Fault> {
    disk.write_at(FileId::BankA, 0, &BANK)?;
    disk.sync(FileId::BankA)?;
    disk.write_at(FileId::BankB, 0, &[0])?;
    disk.sync(FileId::BankB)
}

/// Whether a recording is the one of the bank, stopped at 64.
fn is_kept(recording: &Registration) -> bool {
    recording.descriptor.recording == 0
        && recording.descriptor.stop_position == 64
        && recording.descriptor.stop_timestamp == -1
        && recording.recorded == 64
}

/// Which bank is in use, if the catalogue has the recording and its next id.
fn kept_in(alloc: Global, disk: &mut MemoryDisk) -> &'static str {
    match open_register(alloc, disk) {
        Ok((log, register)) => {
            let has = register.next_recording() == 1
                && register.recordings().len() == 1
                && register.recordings().iter().all(is_kept);
            match log.bank() {
                Bank::A if has => "A",
                Bank::B if has => "B",
                _ => "another state",
            }
        }
        Err(_) => "refused",
    }
}

/// By how many changes a catalogue is compacted.
fn changes_of(alloc: Global, disk: &mut MemoryDisk) -> Result<Option<u64>, Refusal> {
    let before = disk.changes();
    compact(alloc, disk)?;
    Ok(disk.changes().checked_sub(before))
}

/// The first compaction goes into bank B, and bank A stays.
fn check_first(rt: &impl Abort, alloc: Global, disk: &mut MemoryDisk) -> Result<(), Fail> {
    assert!(rt; changes_of(alloc, disk)? == Some(7));
    assert!(rt; holds(disk, FileId::BankB, &COMPACTED)? && holds(disk, FileId::BankA, &BANK)?);
    Ok(())
}

/// The next goes into bank A: its gate is closed first, and the epoch is 3.
fn check_next(rt: &impl Abort, alloc: Global, disk: &mut MemoryDisk) -> Result<(), Fail> {
    let mut third = COMPACTED;
    third[8] = 3;
    assert!(rt; changes_of(alloc, disk)? == Some(9));
    assert!(rt; holds(disk, FileId::BankA, &third)? && kept_in(alloc, disk) == "A");
    Ok(())
}

fn check_both(rt: &impl Abort, alloc: Global, disk: &mut MemoryDisk) -> Result<(), Fail> {
    write_banks(disk)?;
    check_first(rt, alloc, disk)?;
    check_next(rt, alloc, disk)
}

/// A compaction writes the other bank, byte for byte, and the next one writes the first bank again.
#[test]
fn a_catalogue_is_compacted_byte_for_byte(rt: HostRuntime) -> Result<(), Fail> {
    let mut disk = MemoryDisk::new(rt.alloc());
    check_both(&rt, rt.alloc(), &mut disk)
}

/// Writes the banks, again where memory is refused.
fn write_banks_again(disk: &mut MemoryDisk) -> Result<(), Fault> {
    match write_banks(disk) {
        Ok(()) => Ok(()),
        Err(_) => write_banks(disk),
    }
}

/// Compacts the catalogue, again where memory is refused; where the disk found none, that is a fault of it.
fn compact_again(rt: &impl Abort, alloc: Global, disk: &mut MemoryDisk) -> Result<(), Refusal> {
    if let Err(refusal) = compact(alloc, disk) {
        assert!(rt; refusal == Refusal::NoMemory || refusal == Refusal::DeviceFault);
        compact(alloc, disk)?;
    }
    Ok(())
}

/// The catalogue is in bank B then.
fn check_again(rt: &impl Abort, alloc: Global, disk: &mut MemoryDisk) -> Result<(), Fail> {
    write_banks_again(disk)?;
    compact_again(rt, alloc, disk)?;
    let found = kept_in(alloc, disk);
    assert!(rt; found == "B" || found == "refused" && kept_in(alloc, disk) == "B");
    Ok(())
}

/// If memory is refused once, the catalogue is as it was, and is compacted then.
#[test]
fn refused_memory_leaves_what_is_compacted(rt: HostRuntime) -> Result<(), Fail> {
    let mut disk = MemoryDisk::new(rt.alloc());
    check_again(&rt, rt.alloc(), &mut disk)
}
