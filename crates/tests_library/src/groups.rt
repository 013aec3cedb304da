//! Entries that are added together: byte for byte as that many appends leave them; stops at each change of the disk, calls that
//! fail, requests for memory refused.

use crate::catalogues::BANK;
use catalogue_log::{Entry, Log, are_held, open};
use disk_core::{Disk, Fault, FileId, MemoryDisk};
use frame_core::Refusal;
use std::alloc::{AllocError, Global};
use std::process::Abort;
use std::test::Fail;

/// Bank A of docs/STORAGE.md, "Entries", with another limit, and the closed gate of bank B: two entries count.
fn write_banks(disk: &mut MemoryDisk, limit: u8) -> Result<(), Fault> {
    let mut bank = BANK;
    bank[4] = limit;
    disk.write_at(FileId::BankA, 0, &bank)?;
    disk.write_at(FileId::BankB, 0, &[0])
}

/// So many settles of the bank's recording, one after another.
fn settles(alloc: Global, count: i64) -> Result<Vec<Entry>, AllocError> {
    let mut entries = Vec::new(alloc);
    for index in 0..count {
        let settle = Entry::Settle {
            recording: 0,
            position: index.saturating_mul(32).saturating_add(96),
        };
        entries.push(settle)?;
    }
    Ok(entries)
}

/// Adds entries together, at most 64, which the bank's version has to hold.
fn add_all(log: &mut Log, disk: &mut MemoryDisk, entries: &[Entry]) -> Result<(), Refusal> {
    if entries.is_empty() || entries.len() > 64 || !are_held(log.version(), entries) {
        return Err(Refusal::BadParameter);
    }
    log.append_all(disk, entries)
}

/// Adds entries one after another.
fn add_each(log: &mut Log, disk: &mut MemoryDisk, entries: &[Entry]) -> Result<(), Refusal> {
    for entry in entries {
        if !entry.is_held(log.version()) {
            return Err(Refusal::BadParameter);
        }
        log.append(disk, entry)?;
    }
    Ok(())
}

/// The log of a disk with that bank.
fn log_of(alloc: Global, disk: &mut MemoryDisk, limit: u8) -> Result<Log, Refusal> {
    if write_banks(disk, limit).is_err() {
        return Err(Refusal::DeviceFault);
    }
    let (log, _) = open(alloc, disk)?;
    Ok(log)
}

/// Whether bank A of one disk is that of another, of up to 2,000 bytes.
fn is_same(one: &mut MemoryDisk, other: &mut MemoryDisk) -> Result<bool, Fault> {
    let mut first = [9; 2_000];
    let mut second = [9; 2_000];
    let count = one.read_at(FileId::BankA, 0, &mut first)?;
    let others = other.read_at(FileId::BankA, 0, &mut second)?;
    Ok(count == others && first == second)
}

/// So many entries, added together on one disk and one after another on another: both banks are the same, and both logs go on in
/// the same place.
fn check_same(rt: &impl Abort, alloc: Global, count: i64) -> Result<(), Fail> {
    let entries = settles(alloc, count)?;
    let mut together = MemoryDisk::new(alloc);
    let mut log = log_of(alloc, &mut together, 100)?;
    let before = together.changes();
    add_all(&mut log, &mut together, entries.as_slice())?;
    assert!(rt; together.changes().saturating_sub(before) == 4);
    let mut apart = MemoryDisk::new(alloc);
    let mut other = log_of(alloc, &mut apart, 100)?;
    add_each(&mut other, &mut apart, entries.as_slice())?;
    assert!(rt; is_same(&mut together, &mut apart)?);
    assert!(rt; log.gate() == other.gate() && log.counted() == other.counted());
    assert!(rt; log.counted() == entries.len().saturating_add(2));
    Ok(())
}

/// Entries that are added together leave the bytes of that many appends, by four changes of the disk in all.
#[test]
fn entries_added_together_are_written_as_that_many_appends(rt: HostRuntime) -> Result<(), Fail> {
    for count in [1i64, 2, 64] {
        check_same(&rt, rt.alloc(), count)?;
    }
    Ok(())
}

/// How many entries a crash leaves by a choice, where the disk stops after so many changes of adding so many.
fn left_after(alloc: Global, count: i64, stop: u64, choice: u8) -> Result<usize, Fail> {
    let entries = settles(alloc, count)?;
    let mut disk = MemoryDisk::new(alloc);
    let mut log = log_of(alloc, &mut disk, 100)?;
    disk.stop_after(stop);
    let _ = add_all(&mut log, &mut disk, entries.as_slice());
    let mut left = disk.crash(&[choice])?;
    let (_, found) = open(alloc, &mut left)?;
    Ok(found.len())
}

/// All of them or none, whatever the stop.
#[test]
fn a_stop_at_each_change_of_a_group(rt: HostRuntime) -> Result<(), Fail> {
    // Changes before the stop, and whether the entries are there by the choices 0, 1 and 255.
    let rows = [
        (0, [false, false, false]),
        (1, [false, false, false]),
        (2, [false, false, false]),
        (3, [false, true, false]),
        (4, [true, true, true]),
    ];
    for count in [1i64, 2, 64] {
        for (stop, there) in rows {
            for (choice, all) in [(0u8, there[0]), (1, there[1]), (255, there[2])] {
                let left = left_after(rt.alloc(), count, stop, choice)?;
                let added = usize::try_from(count).unwrap_or(0);
                assert!(rt; left == if all { added.saturating_add(2) } else { 2 });
            }
        }
    }
    Ok(())
}

/// Of two entries added together whose call of this number fails: the refusal, that of two more, and how many entries the disk has
/// then.
fn failed_at(alloc: Global, call: u64) -> Result<(Option<Refusal>, Option<Refusal>, usize), Fail> {
    let entries = settles(alloc, 2)?;
    let mut disk = MemoryDisk::new(alloc);
    let mut log = log_of(alloc, &mut disk, 100)?;
    disk.fail_at(call);
    let first = add_all(&mut log, &mut disk, entries.as_slice()).err();
    let second = add_all(&mut log, &mut disk, entries.as_slice()).err();
    let (_, found) = open(alloc, &mut disk)?;
    Ok((first, second, found.len()))
}

/// Each call that fails breaks the log, and the disk has both entries once their gate was written.
#[test]
fn each_call_of_a_group_fails(rt: HostRuntime) -> Result<(), Fail> {
    for (call, found) in [(1u64, 2), (2, 2), (3, 4), (4, 4)] {
        let told = failed_at(rt.alloc(), call)?;
        assert!(rt; told == (Some(Refusal::DeviceFault), Some(Refusal::Broken), found));
    }
    Ok(())
}

/// What adding so many entries is refused by at a limit, where two count, and whether nothing has changed.
fn refused_at(alloc: Global, limit: u8, count: i64) -> Result<(Option<Refusal>, bool), Fail> {
    let entries = settles(alloc, count)?;
    let mut disk = MemoryDisk::new(alloc);
    let mut log = log_of(alloc, &mut disk, limit)?;
    let changes = disk.changes();
    let told = add_all(&mut log, &mut disk, entries.as_slice()).err();
    Ok((told, disk.changes() == changes && log.counted() == 2))
}

/// A group of entries that the history has no room for is refused whole, and nothing changes.
#[test]
fn a_group_has_room_or_is_refused_whole(rt: HostRuntime) -> Result<(), Fail> {
    // The limit, how many entries, and whether they have no room.
    let rows = [
        (2u8, 1i64, true),
        (3, 1, false),
        (3, 2, true),
        (4, 2, false),
        (65, 64, true),
        (66, 64, false),
    ];
    for (limit, count, full) in rows {
        let told = refused_at(rt.alloc(), limit, count)?;
        assert!(rt;
            told == if full {
                (Some(Refusal::HistoryFull), true)
            } else {
                (None, false)
            }
        );
    }
    Ok(())
}

/// The settles, made again where memory is refused.
fn settles_again(alloc: Global, count: i64) -> Result<Vec<Entry>, AllocError> {
    match settles(alloc, count) {
        Ok(entries) => Ok(entries),
        Err(_) => settles(alloc, count),
    }
}

/// The log, opened again where memory is refused.
fn log_again(alloc: Global, disk: &mut MemoryDisk) -> Result<Log, Refusal> {
    match log_of(alloc, disk, 100) {
        Ok(log) => Ok(log),
        Err(_) => log_of(alloc, disk, 100),
    }
}

/// Prepares entries, again where memory is refused, which leaves the log as it was.
fn prepare_again(rt: &impl Abort, log: &mut Log, entries: &[Entry]) -> Result<(), Refusal> {
    if entries.len() > 64 || !are_held(log.version(), entries) {
        return Err(Refusal::BadParameter);
    }
    if log.prepare_all(entries).is_err() {
        assert!(rt; log.counted() == 2);
        log.prepare_all(entries)?;
    }
    Ok(())
}

/// Entries that are refused memory can be prepared again, and prepared ones are not refused for want of memory. A disk
/// that finds none answers a fault.
#[test]
fn refused_memory_comes_before_a_prepared_group(rt: HostRuntime) -> Result<(), Fail> {
    let entries = settles_again(rt.alloc(), 64)?;
    let mut disk = MemoryDisk::new(rt.alloc());
    let mut log = log_again(rt.alloc(), &mut disk)?;
    prepare_again(&rt, &mut log, entries.as_slice())?;
    let told = add_all(&mut log, &mut disk, entries.as_slice());
    assert!(rt; told != Err(Refusal::NoMemory));
    Ok(())
}
