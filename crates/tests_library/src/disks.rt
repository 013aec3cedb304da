//! The disk in memory: docs/STORAGE.md, "Crash model" and "Crashes in memory", by example; and each request for
//! memory refused.

use crate::catalogues::holds;
use disk_core::{Disk, Fault, FileId, ListFault, MemoryDisk};
use frame_core::Refusal;
use std::alloc::Global;
use std::process::Abort;

const FILE: FileId = FileId::Segment {
    recording: 7,
    base: 65536,
};

// A call that changes a file.
#[derive(Clone, Copy)]
enum Step<'a> {
    Write(FileId, u64, &'a [u8]),
    Cut(FileId, u64),
    Remove(FileId),
    Sync(FileId),
}

fn make(disk: &mut MemoryDisk, step: Step<'_>) -> Result<(), Fault> {
    match step {
        Step::Write(file, at, bytes) => disk.write_at(file, at, bytes),
        Step::Cut(file, len) => disk.cut(file, len),
        Step::Remove(file) => disk.remove(file),
        Step::Sync(file) => disk.sync(file),
    }
}

/// Whether a file is listed.
fn lists(disk: &mut MemoryDisk, file: FileId) -> Result<bool, ListFault> {
    Ok(disk.list()?.contains(&file))
}

/// Whether a file is there. Want of memory for the list is no fault, and the disk can be asked again.
fn is_there(rt: &impl Abort, disk: &mut MemoryDisk, file: FileId) -> Result<bool, ListFault> {
    let listed = lists(disk, file);
    if let Err(fault) = listed {
        assert!(rt; fault == ListFault::NoMemory);
        return lists(disk, file);
    }
    listed
}

/// What a file reads as has these bytes, or it is absent.
fn reads(rt: &impl Abort, disk: &mut MemoryDisk, file: FileId, bytes: Option<&[u8]>) -> bool {
    holds(disk, file, bytes.unwrap_or(&[])) == Ok(true)
        && is_there(rt, disk, file) == Ok(bytes.is_some())
}

/// Writes and syncs three bytes, and then writes the second over.
fn write_over(disk: &mut MemoryDisk) -> Result<(), Fault> {
    disk.write_at(FILE, 0, &[1, 2, 3])?;
    disk.sync(FILE)?;
    disk.write_at(FILE, 1, &[9])
}

/// What a file reads as behind a crash by a choice.
fn left_reads(rt: &impl Abort, disk: &MemoryDisk, choice: &[u8], bytes: Option<&[u8]>) -> bool {
    match disk.crash(choice) {
        Ok(mut left) => reads(rt, &mut left, FILE, bytes),
        Err(_) => false,
    }
}

/// What each choice leaves of it: as synced, as written, with another byte, and as synced.
fn is_left(rt: &impl Abort, disk: &MemoryDisk) -> bool {
    left_reads(rt, disk, &[0], Some(&[1, 2, 3]))
        && left_reads(rt, disk, &[1], Some(&[1, 9, 3]))
        && left_reads(rt, disk, &[255], Some(&[1, 255, 3]))
        && left_reads(rt, disk, &[], Some(&[1, 2, 3]))
}

/// A crash leaves synced bytes as they are, and unsynced ones as before, as written or as others, by its choice.
#[test]
fn a_crash_leaves_what_the_choice_says(rt: HostRuntime) {
    let mut disk = MemoryDisk::new(rt.alloc());
    assert!(rt; write_over(&mut disk).is_ok());
    assert!(rt; is_left(&rt, &disk));
}

/// Five calls that change nothing of a file that is absent.
fn call_absent(disk: &mut MemoryDisk) -> Result<(), Fault> {
    disk.sync(FILE)?;
    disk.remove(FILE)?;
    disk.cut(FILE, 1)?;
    disk.write_at(FILE, 5, &[])?;
    disk.sync(FILE)
}

/// They succeed, and the file is still absent.
fn is_absent(rt: &impl Abort, disk: &mut MemoryDisk) -> bool {
    call_absent(disk).is_ok()
        && disk.len(FILE) == Ok(0)
        && reads(rt, disk, FILE, None)
        && disk.changes() == 5
        && disk.faults() == 0
}

/// A contract cannot tell a fault from want of memory, so that these calls succeed is asked here.
#[test]
fn calls_on_an_absent_file_succeed(rt: HostRuntime) {
    let mut disk = MemoryDisk::new(rt.alloc());
    assert!(rt; is_absent(&rt, &mut disk));
}

/// A call fails, and the file then reads so.
fn fails(rt: &impl Abort, disk: &mut MemoryDisk, step: Step<'_>, bytes: Option<&[u8]>) -> bool {
    make(disk, step).is_err() && reads(rt, disk, FILE, bytes)
}

/// The next call fails, and the file then reads so.
fn fails_next(
    rt: &impl Abort,
    disk: &mut MemoryDisk,
    step: Step<'_>,
    bytes: Option<&[u8]>,
) -> bool {
    disk.fail_at(1);
    fails(rt, disk, step, bytes)
}

/// A write, a cut and a remove that fail.
fn take_effect(rt: &impl Abort, disk: &mut MemoryDisk) -> bool {
    disk.fail_at(2);
    make(disk, Step::Write(FILE, 0, &[1])).is_ok()
        && fails(rt, disk, Step::Write(FILE, 1, &[2]), Some(&[1, 2]))
        && fails_next(rt, disk, Step::Cut(FILE, 1), Some(&[1]))
        && fails_next(rt, disk, Step::Remove(FILE), None)
}

/// A write on a disk that stopped.
fn is_stopped(rt: &impl Abort, disk: &mut MemoryDisk) -> bool {
    disk.stop_after(0);
    make(disk, Step::Write(FILE, 0, &[9])).is_err() && left_reads(rt, disk, &[1], None)
}

/// A failing call of the disk in memory takes effect all the same, and a call after a stop does not.
#[test]
fn failing_calls_take_effect_and_stopped_ones_do_not(rt: HostRuntime) {
    let mut disk = MemoryDisk::new(rt.alloc());
    assert!(rt; take_effect(&rt, &mut disk));
    assert!(rt; is_stopped(&rt, &mut disk));
}

// What the banks A and B hold, if they are there.
type Found = (Option<&'static [u8]>, Option<&'static [u8]>);

const A: &[u8] = &[0, 0, 1, 2];

const B: Option<&[u8]> = Some(&[5]);

// Calls on the two banks, one after another.
const STEPS: [Step<'static>; 7] = [
    Step::Write(FileId::BankA, 2, &[1, 2]),
    Step::Sync(FileId::BankA),
    Step::Write(FileId::BankB, 0, &[5]),
    Step::Write(FileId::BankA, 3, &[7, 8]),
    Step::Cut(FileId::BankA, 1),
    Step::Sync(FileId::BankB),
    Step::Remove(FileId::BankA),
];

// What a crash leaves of both by the bytes 0, 1 and 9: before these calls, and behind each of them.
const LEFT: [[Found; 3]; 8] = [
    [(None, None); 3],
    [(None, None), (Some(A), None), (Some(&[9, 9, 9, 9]), None)],
    [(Some(A), None); 3],
    [(Some(A), None), (Some(A), B), (Some(A), Some(&[9]))],
    [
        (Some(A), None),
        (Some(&[0, 0, 1, 7, 8]), B),
        (Some(&[0, 0, 1, 9, 9]), Some(&[9])),
    ],
    [(Some(A), None), (Some(&[0]), B), (Some(&[0]), Some(&[9]))],
    [(Some(A), B), (Some(&[0]), B), (Some(&[0]), B)],
    [(Some(A), B), (None, B), (Some(&[9, 9, 9, 9]), B)],
];

/// What the two banks read as.
fn both_read(rt: &impl Abort, disk: &mut MemoryDisk, found: Found) -> bool {
    reads(rt, disk, FileId::BankA, found.0) && reads(rt, disk, FileId::BankB, found.1)
}

/// The disk that a crash leaves, at the second try where there is no memory for it at the first.
fn crashed(rt: &impl Abort, disk: &MemoryDisk, choice: &[u8]) -> Result<MemoryDisk, Refusal> {
    match disk.crash(choice) {
        Ok(left) => Ok(left),
        Err(refusal) => {
            assert!(rt; refusal == Refusal::NoMemory);
            disk.crash(choice)
        }
    }
}

/// What they read as behind a crash by a byte.
fn both_left(rt: &impl Abort, disk: &MemoryDisk, byte: u8, found: Found) -> bool {
    match crashed(rt, disk, &[byte]) {
        Ok(mut left) => both_read(rt, &mut left, found),
        Err(_) => false,
    }
}

/// The disk reads as a crash by 1 leaves it, and crashes leave these banks.
fn leaves(rt: &impl Abort, disk: &mut MemoryDisk, left: &[Found; 3]) -> bool {
    both_read(rt, disk, left[1])
        && both_left(rt, disk, 0, left[0])
        && both_left(rt, disk, 1, left[1])
        && both_left(rt, disk, 9, left[2])
}

/// The same behind so many of the calls.
fn leaves_behind(rt: &impl Abort, disk: &mut MemoryDisk, calls: usize) -> bool {
    match LEFT.get(calls) {
        Some(left) => leaves(rt, disk, left),
        None => false,
    }
}

/// Makes a call behind so many, and makes it again where it failed, which has changed nothing of the banks; and what is left
/// then.
fn is_made(rt: &impl Abort, disk: &mut MemoryDisk, calls: usize, step: Step<'_>) -> bool {
    let is_done = make(disk, step).is_ok()
        || leaves_behind(rt, disk, calls) && make(disk, step).is_ok();
    is_done && leaves_behind(rt, disk, calls.saturating_add(1))
}

/// Makes all calls.
fn are_made(rt: &impl Abort, disk: &mut MemoryDisk) -> bool {
    for (calls, step) in STEPS.iter().enumerate() {
        if !is_made(rt, disk, calls, *step) {
            return false;
        }
    }
    true
}

/// Want of memory in a call is a fault, and nothing has changed then. A second try succeeds here.
/// trials/refused_memory.py refuses each of its requests in turn.
#[test]
fn refused_memory_changes_nothing(rt: HostRuntime) {
    let mut disk = MemoryDisk::new(rt.alloc());
    assert!(rt; are_made(&rt, &mut disk));
}

/// Whether a file has a name.
fn is_named(alloc: Global, file: FileId, name: &str) -> bool {
    match file.name(alloc) {
        Ok(found) => found.as_str() == name,
        Err(_) => false,
    }
}

/// Banks and segment files have the names of docs/STORAGE.md.
#[test]
fn files_have_names(rt: HostRuntime) {
    assert!(rt; is_named(rt.alloc(), FileId::BankA, "catalogue-a.bank"));
    assert!(rt; is_named(rt.alloc(), FileId::BankB, "catalogue-b.bank"));
    assert!(rt; is_named(rt.alloc(), FILE, "7-65536.rec"));
}
