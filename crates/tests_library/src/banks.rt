//! The two banks of a catalogue: which of them is in use, and how many reads an opening makes. A bank that is written
//! anew, stopped at each change of the disk.

use crate::catalogues::answer;
use catalogue_log::{Bank, open, write_anew};
use disk_core::{Disk, Fault, FileId, MemoryDisk};
use frame_core::Refusal;
use std::alloc::{AllocError, Global};
use std::test::Fail;

// A bank with the epoch 1, the limit 3 and the closed gate of its first entry.
const EMPTY: [u8; 33] = [
    0x01, 0x01, 0x00, 0x00, 0x03, 0x00, 0x00, 0x00, 0x01, 0x00, 0x00, 0x00, 0x00, 0x00, 0x00, 0x00,
    0x00, 0x00, 0x00, 0x00, 0x00, 0x00, 0x00, 0x00, 0x00, 0x00, 0x00, 0x00, 0x00, 0x00, 0x00, 0x00,
    0x00,
];

// Two restarts and the closed gate behind them.
const RESTARTS: [u8; 9] = [0x01, 0x08, 0x00, 0x00, 0x01, 0x08, 0x00, 0x00, 0x00];

/// Makes an empty bank of this version and epoch, with this gate.
fn empty_bank(
    disk: &mut MemoryDisk,
    file: FileId,
    gate: u8,
    version: u8,
    epoch: u8,
) -> Result<(), Fault> {
    let mut bytes = EMPTY;
    bytes[0] = gate;
    bytes[1] = version;
    bytes[8] = epoch;
    disk.write_at(file, 0, &bytes)
}

/// Makes a bank A with the epoch 2 and two restarts.
fn two_restarts(disk: &mut MemoryDisk) -> Result<(), Fault> {
    empty_bank(disk, FileId::BankA, 1, 1, 2)?;
    disk.write_at(FileId::BankA, 32, &RESTARTS)
}

/// Makes both banks: bank B with this gate, version and epoch, and then so many bytes.
fn two_banks(
    disk: &mut MemoryDisk,
    gate: u8,
    version: u8,
    epoch: u8,
    length: u64,
) -> Result<(), Fault> {
    two_restarts(disk)?;
    empty_bank(disk, FileId::BankB, gate, version, epoch)?;
    disk.cut(FileId::BankB, length)
}

/// What opening answers then.
fn beside(
    alloc: Global,
    gate: u8,
    version: u8,
    epoch: u8,
    length: u64,
) -> Result<(&'static str, i64), Fault> {
    let mut disk = MemoryDisk::new(alloc);
    let made = two_banks(&mut disk, gate, version, epoch, length);
    made.and(Ok(answer(alloc, &mut disk)))
}

/// The bank with an open gate and the higher epoch is in use. A later one that is damaged, newer or no catalogue is
/// refused, and so are two of one epoch.
#[test]
fn the_open_bank_of_the_later_epoch_is_in_use(rt: HostRuntime) -> Result<(), Fail> {
    let rows = [
        // Bank B is no bank that is looked at.
        (0, 1, 3, 0, ("A", 2)),
        (0, 1, 3, 33, ("A", 2)),
        (1, 1, 3, 31, ("A", 2)),
        // It is of an earlier epoch, whatever else it holds, of the same one, or of a later one.
        (1, 1, 1, 33, ("A", 2)),
        (1, 9, 1, 33, ("A", 2)),
        (1, 1, 2, 33, ("NotCatalogue", 0)),
        (1, 1, 3, 33, ("B", 0)),
        (1, 2, 3, 33, ("B", 0)),
        // A later bank that is damaged, of another version, or none, is not passed over.
        (1, 1, 3, 32, ("Damaged", 32)),
        (1, 3, 3, 33, ("NewerVersion", 0)),
        (1, 0, 3, 33, ("NotCatalogue", 0)),
    ];
    for (gate, version, epoch, length, told) in rows {
        assert!(rt; beside(rt.alloc(), gate, version, epoch, length)? == told);
    }
    Ok(())
}

/// Puts a header, so many restarts and a closed gate.
fn put_restarts(bytes: &mut Vec<u8>, count: usize) -> Result<(), AllocError> {
    bytes.extend_from_slice(&EMPTY[..32])?;
    for _ in 0..count {
        bytes.extend_from_slice(&RESTARTS[..4])?;
    }
    bytes.extend_from_slice(&[0])
}

/// Makes a bank A with so many restarts.
fn many_restarts(alloc: Global, disk: &mut MemoryDisk, count: usize) -> Result<(), Fail> {
    let mut bytes = Vec::new(alloc);
    put_restarts(&mut bytes, count)?;
    Ok(disk.write_at(FileId::BankA, 0, bytes.as_slice())?)
}

/// How many entries a catalogue has, and how many calls its opening makes.
fn opened(alloc: Global, disk: &mut MemoryDisk) -> Result<(usize, Option<u64>), Refusal> {
    let before = disk.calls();
    let (_, entries) = open(alloc, disk)?;
    Ok((entries.len(), disk.calls().checked_sub(before)))
}

/// The same of a catalogue of so many restarts.
fn opening(alloc: Global, count: usize) -> Result<(usize, Option<u64>), Fail> {
    let mut disk = MemoryDisk::new(alloc);
    many_restarts(alloc, &mut disk, count)?;
    Ok(opened(alloc, &mut disk)?)
}

/// An opening makes two syncs, a read of each bank's header, and one for each 64,256 bytes. Of the 65,536 that are read
/// at once the last 1,280 may be too few for an entry.
#[test]
fn an_opening_reads_each_part_once(rt: HostRuntime) -> Result<(), Fail> {
    for (count, calls) in [(0, 5), (16_000, 5), (32_000, 6), (64_000, 8)] {
        assert!(rt; opening(rt.alloc(), count)? == (count, Some(calls)));
    }
    Ok(())
}

/// Makes bank A as before, and bank B of these bytes, and syncs both.
fn beside_bytes(disk: &mut MemoryDisk, bank_b: &[u8]) -> Result<(), Fault> {
    two_restarts(disk)?;
    disk.write_at(FileId::BankB, 0, bank_b)?;
    disk.sync(FileId::BankA)?;
    disk.sync(FileId::BankB)
}

/// Writes a catalogue with two restarts anew as one with none, on a disk that stops after so many changes; bank B was open
/// or not.
fn stop_anew(disk: &mut MemoryDisk, is_open: bool, stop: u64) -> Result<(), Fault> {
    let made = if is_open {
        beside_bytes(disk, &EMPTY)
    } else {
        beside_bytes(disk, &[7; 400])
    };
    made?;
    let mut bytes = EMPTY;
    bytes[8] = 3;
    disk.stop_after(stop);
    let _ = write_anew(disk, Bank::A, is_open, &bytes[1..]);
    Ok(())
}

/// The bank that is found after such a stop and a crash by a choice.
fn bank_after(alloc: Global, is_open: bool, stop: u64, choice: u8) -> Result<&'static str, Fail> {
    let mut disk = MemoryDisk::new(alloc);
    stop_anew(&mut disk, is_open, stop)?;
    let mut left = disk.crash(&[choice])?;
    Ok(answer(alloc, &mut left).0)
}

/// If the disk stops while the other bank is written, each crash leaves the old bank in use until the new one's gate is
/// open.
#[test]
fn a_stop_while_a_bank_is_written_anew(rt: HostRuntime) -> Result<(), Fail> {
    let rows = [
        // Behind a closed gate: five changes, of which the fourth opens the gate.
        (false, 0, "A"),
        (false, 1, "A"),
        (false, 2, "A"),
        (false, 3, "A"),
        (false, 5, "B"),
        (false, 6, "B"),
        // Behind an open one, of an earlier epoch: two changes more close it first.
        (true, 0, "A"),
        (true, 1, "A"),
        (true, 2, "A"),
        (true, 4, "A"),
        (true, 5, "A"),
        (true, 7, "B"),
    ];
    for (is_open, stop, found) in rows {
        for choice in [0u8, 1, 7, 255] {
            assert!(rt; bank_after(rt.alloc(), is_open, stop, choice)? == found);
        }
    }
    Ok(())
}
