//! Hostile bytes: the worked bank and a segment file, changed and cut at each length. docs/STORAGE.md says what each is answered. A
//! refused opening leaves all files as they are, but for two syncs.

use crate::catalogues::{BANK, answer, register_in};
use crate::segments::{FIRST, is_hello_read};
use crate::vectors::HELLO_AT_0;
use disk_core::{Disk, Fault, FileId, MemoryDisk};
use frame_core::Refusal;
use std::alloc::Global;
use std::test::Fail;

/// Makes bank A of the first bytes of the worked bank, in which one is another, bank B of a closed gate, and the segment file of the
/// bank's recording; and syncs all.
fn write_files(disk: &mut MemoryDisk, length: u64, at: u64, byte: u8) -> Result<(), Fault> {
    disk.write_at(FileId::BankA, 0, &BANK)?;
    disk.write_at(FileId::BankA, at, &[byte])?;
    disk.cut(FileId::BankA, length)?;
    disk.write_at(FileId::BankB, 0, &[0])?;
    disk.write_at(FIRST, 0, HELLO_AT_0)
}

/// Such a disk.
fn with_files(alloc: Global, length: u64, at: u64, byte: u8) -> Result<MemoryDisk, Fault> {
    let mut disk = MemoryDisk::new(alloc);
    write_files(&mut disk, length, at, byte).and(Ok(disk))
}

/// The bytes of a file, of up to 200, and how many there are.
fn bytes_of(disk: &mut MemoryDisk, file: FileId) -> Result<([u8; 200], usize), Fault> {
    let mut read = [9; 200];
    let count = disk.read_at(file, 0, &mut read)?;
    Ok((read, count))
}

/// Whether each file of two disks has the same bytes.
fn are_same(one: &mut MemoryDisk, other: &mut MemoryDisk) -> Result<bool, Fault> {
    for file in [FileId::BankA, FileId::BankB, FIRST] {
        if bytes_of(one, file)? != bytes_of(other, file)? {
            return Ok(false);
        }
    }
    Ok(true)
}

/// What opening answers, and by how many changes; none if a file is another then.
fn opening(
    alloc: Global,
    length: u64,
    at: u64,
    byte: u8,
) -> Result<Option<((&'static str, i64), u64)>, Fault> {
    let mut before = with_files(alloc, length, at, byte)?;
    let mut disk = with_files(alloc, length, at, byte)?;
    let told = answer(alloc, &mut disk);
    let changes = disk.changes().wrapping_sub(before.changes());
    Ok(if are_same(&mut before, &mut disk)? {
        Some((told, changes))
    } else {
        None
    })
}

// How many bytes the bank has, the offset and value of the one that is changed, and what opening answers.
const BANKS: [(u64, u64, u8, (&str, i64)); 9] = [
    (108, 33, 99, ("Damaged", 32)),
    (108, 87, 2, ("A", 1)),
    (107, 0, 1, ("Damaged", 87)),
    (108, 107, 1, ("Damaged", 107)),
    (40, 0, 1, ("Damaged", 32)),
    (32, 0, 1, ("Damaged", 32)),
    (31, 0, 1, ("NotCatalogue", 0)),
    (108, 1, 200, ("NewerVersion", 0)),
    (108, 1, 0, ("NotCatalogue", 0)),
];

/// Opening each of nine hostile banks answers as docs/STORAGE.md says, and changes no file.
#[test]
fn an_opening_of_hostile_banks_syncs_alone(rt: HostRuntime) -> Result<(), Fail> {
    for (length, at, byte, told) in BANKS {
        assert!(rt;
            opening(rt.alloc(), length, at, byte)? == Some((told, 2)),
            "{length} {at} {byte}"
        );
    }
    Ok(())
}

/// How far the recording of a bank is recorded whose settle has another gate.
fn recorded(alloc: Global) -> Result<Option<i64>, Fail> {
    let mut disk = with_files(alloc, 108, 87, 2)?;
    let register = register_in(alloc, &mut disk)?;
    Ok(register.recording(&0).map(|found| found.recorded))
}

/// A settle whose gate has a byte other than 1 does not count.
#[test]
fn a_settle_past_another_gate_is_not_there(rt: HostRuntime) -> Result<(), Fail> {
    assert!(rt; recorded(rt.alloc())? == Some(0));
    Ok(())
}

/// What opening a bank of so many bytes answers.
fn told_of(length: u64) -> (&'static str, i64) {
    match length {
        0..=31 => ("NotCatalogue", 0),
        32..=87 => ("Damaged", 32),
        88..=107 => ("Damaged", 87),
        _ => ("A", 2),
    }
}

/// Opening a bank that is cut at any length answers as docs/STORAGE.md says, and changes no file.
#[test]
fn an_opening_of_a_cut_bank_syncs_alone(rt: HostRuntime) -> Result<(), Fail> {
    for length in 0..=108u64 {
        assert!(rt;
            opening(rt.alloc(), length, 0, 1)? == Some((told_of(length), 2)),
            "{length}"
        );
    }
    Ok(())
}

/// Makes a file of its first bytes.
fn write_cut(disk: &mut MemoryDisk, length: u64) -> Result<(), Fault> {
    disk.write_at(FIRST, 0, HELLO_AT_0)?;
    disk.write_at(FIRST, 37, &[0; 27])?;
    disk.cut(FIRST, length)
}

/// Whether the recording's first frame is read, if its file has so many bytes.
fn is_read(alloc: Global, length: u64) -> Result<bool, Refusal> {
    let mut disk = MemoryDisk::new(alloc);
    write_cut(&mut disk, length)?;
    is_hello_read(alloc, &mut disk)
}

/// Its 37 bytes are enough.
#[test]
fn a_segment_file_is_cut_at_each_length(rt: HostRuntime) -> Result<(), Fail> {
    let damaged = Refusal::Damaged {
        recording: 0,
        position: 0,
    };
    for length in 0..=64u64 {
        let answer = if length < 37 { Err(damaged) } else { Ok(true) };
        assert!(rt; is_read(rt.alloc(), length) == answer, "{length}");
    }
    Ok(())
}
