//! Checkpoints of a catalogue: byte for byte, of both versions; stops at each change of the disk, calls that fail, requests for
//! memory refused.

use crate::catalogues::BANK;
use archive_model::{BankVersion, Channel, Register, SourceIdentity, StartFields};
use catalogue_entries::laws::a_snapshot_makes_the_register;
use catalogue_log::{Bank, Entry, Log, create, open_register};
use disk_core::{Disk, Fault, FileId, MemoryDisk};
use frame_core::Refusal;
use std::alloc::{AllocError, Global};
use std::process::Abort;
use std::test::Fail;

// The bank that a checkpoint writes: version 2, the limit 100, the epoch 2; the next id 2; the recording 0, which stopped at 64
// and the time 2,000; the recording 1, stopped at 96 without a timestamp, and its extension in its session 7.
const CHECKPOINT: [u8; 207] = [
    0x01, 0x02, 0x00, 0x00, 0x64, 0x00, 0x00, 0x00, 0x02, 0x00, 0x00, 0x00, 0x00, 0x00, 0x00, 0x00,
    0x00, 0x00, 0x00, 0x00, 0x00, 0x00, 0x00, 0x00, 0x00, 0x00, 0x00, 0x00, 0x00, 0x00, 0x00, 0x00,
    0x01, 0x0a, 0x08, 0x00, 0x02, 0x00, 0x00, 0x00, 0x00, 0x00, 0x00, 0x00, 0x01, 0x09, 0x45, 0x00,
    0x00, 0x00, 0x00, 0x00, 0x00, 0x00, 0x00, 0x00, 0xe8, 0x03, 0x00, 0x00, 0x00, 0x00, 0x00, 0x00,
    0xd0, 0x07, 0x00, 0x00, 0x00, 0x00, 0x00, 0x00, 0x00, 0x00, 0x00, 0x00, 0x00, 0x00, 0x00, 0x00,
    0x40, 0x00, 0x00, 0x00, 0x00, 0x00, 0x00, 0x00, 0x2a, 0x00, 0x00, 0x00, 0x00, 0x00, 0x02, 0x00,
    0x00, 0x00, 0x01, 0x00, 0x80, 0x05, 0x00, 0x00, 0x07, 0x00, 0x00, 0x00, 0xe9, 0x03, 0x00, 0x00,
    0x01, 0x00, 0x63, 0x00, 0x00, 0x01, 0x09, 0x45, 0x00, 0x01, 0x00, 0x00, 0x00, 0x00, 0x00, 0x00,
    0x00, 0xe8, 0x03, 0x00, 0x00, 0x00, 0x00, 0x00, 0x00, 0xff, 0xff, 0xff, 0xff, 0xff, 0xff, 0xff,
    0xff, 0x00, 0x00, 0x00, 0x00, 0x00, 0x00, 0x00, 0x00, 0x60, 0x00, 0x00, 0x00, 0x00, 0x00, 0x00,
    0x00, 0x2a, 0x00, 0x00, 0x00, 0x00, 0x00, 0x02, 0x00, 0x00, 0x00, 0x01, 0x00, 0x80, 0x05, 0x00,
    0x00, 0x07, 0x00, 0x00, 0x00, 0xe9, 0x03, 0x00, 0x00, 0x01, 0x00, 0x63, 0x00, 0x00, 0x01, 0x04,
    0x0c, 0x00, 0x01, 0x00, 0x00, 0x00, 0x00, 0x00, 0x00, 0x00, 0x07, 0x00, 0x00, 0x00, 0x00,
];

/// What a recording is.
fn fields(alloc: Global) -> Result<StartFields, AllocError> {
    Ok(StartFields {
        stream_id: 1_001,
        session_id: 7,
        initial_term_id: 42,
        term_length: 65_536,
        mtu: 1_408,
        segment_length: 131_072,
        start_position: 0,
        timestamp: 1_000,
        channel: Channel::new(String::from_str(alloc, "c")?),
        source_identity: SourceIdentity::none(alloc),
    })
}

/// Adds an entry, which the bank's version has to hold.
fn add(log: &mut Log, disk: &mut MemoryDisk, entry: &Entry) -> Result<(), Refusal> {
    if !entry.is_held(log.version()) {
        return Err(Refusal::NeedCompact);
    }
    log.append(disk, entry)
}

/// Adds the start of a recording, and that it is settled at a position.
fn add_recording(
    alloc: Global,
    log: &mut Log,
    disk: &mut MemoryDisk,
    recording: i64,
    position: i64,
) -> Result<(), Refusal> {
    let fields = fields(alloc)?;
    add(log, disk, &Entry::Start { recording, fields })?;
    let settle = Entry::Settle {
        recording,
        position,
    };
    add(log, disk, &settle)
}

/// Stops the recording 0, and adds the recording 1, settled at 96.
fn add_second(alloc: Global, log: &mut Log, disk: &mut MemoryDisk) -> Result<(), Refusal> {
    let stop = Entry::Stop {
        recording: 0,
        timestamp: 2_000,
    };
    add(log, disk, &stop)?;
    add_recording(alloc, log, disk, 1, 96)
}

/// A catalogue of version 2 with both recordings, the second one active.
fn write_second_version(alloc: Global, disk: &mut MemoryDisk) -> Result<(), Refusal> {
    let mut log = create(alloc, disk, 100)?;
    add_recording(alloc, &mut log, disk, 0, 64)?;
    add_second(alloc, &mut log, disk)
}

/// The bank of docs/STORAGE.md, "Entries", with the limit 100, and the closed gate of bank B.
fn write_banks(disk: &mut MemoryDisk) -> Result<(), Fault> {
    let mut bank = BANK;
    bank[4] = 100;
    disk.write_at(FileId::BankA, 0, &bank)?;
    disk.write_at(FileId::BankB, 0, &[0])
}

/// A catalogue of version 1 with both recordings, the second one active.
fn write_first_version(alloc: Global, disk: &mut MemoryDisk) -> Result<(), Refusal> {
    if write_banks(disk).is_err() {
        return Err(Refusal::DeviceFault);
    }
    let (mut log, _) = open_register(alloc, disk)?;
    add_second(alloc, &mut log, disk)
}

/// Makes a checkpoint of the catalogue that is opened.
fn checkpoint(alloc: Global, disk: &mut MemoryDisk) -> Result<Log, Refusal> {
    let (mut log, register) = open_register(alloc, disk)?;
    a_snapshot_makes_the_register();
    log.checkpoint(alloc, disk, &register)?;
    Ok(log)
}

/// By how many changes a checkpoint is made, those of opening left out, and the log past it.
fn changes_of(alloc: Global, disk: &mut MemoryDisk) -> Result<(u64, Log), Refusal> {
    let before = disk.changes().saturating_add(2);
    let log = checkpoint(alloc, disk)?;
    Ok((disk.changes().saturating_sub(before), log))
}

/// Whether a file has these bytes and no more, of up to 300.
fn holds(disk: &mut MemoryDisk, file: FileId, bytes: &[u8]) -> Result<bool, Fault> {
    let mut read = [9; 300];
    let count = disk.read_at(file, 0, &mut read)?;
    Ok(read.get(..count) == Some(bytes))
}

/// Whether a register has both recordings, the second one active and settled at a position.
fn has_both(register: &Register, settled: i64) -> bool {
    let (Some(first), Some(second)) = (register.recording(&0), register.recording(&1)) else {
        return false;
    };
    register.next_recording() == 2
        && register.recordings().len() == 2
        && first.descriptor.stop_position == 64
        && first.descriptor.stop_timestamp == 2_000
        && second.is_active()
        && second.descriptor.session_id == 7
        && second.recorded == settled
}

/// Which bank is in use, if the catalogue has both recordings.
fn found_in(alloc: Global, disk: &mut MemoryDisk, settled: i64) -> &'static str {
    match open_register(alloc, disk) {
        Ok((log, register)) => match log.bank() {
            Bank::A if has_both(&register, settled) => "A",
            Bank::B if has_both(&register, settled) => "B",
            _ => "another state",
        },
        Err(_) => "refused",
    }
}

/// The first checkpoint goes into bank B, in version 2, and only its extension counts.
fn check_first(rt: &impl Abort, alloc: Global, disk: &mut MemoryDisk) -> Result<Log, Fail> {
    let (changes, log) = changes_of(alloc, disk)?;
    assert!(rt; changes == 5 && holds(disk, FileId::BankB, &CHECKPOINT)?);
    assert!(rt; log.bank() == Bank::B && log.version() == BankVersion::Two);
    assert!(rt; log.epoch() == 2 && log.counted() == 1 && log.limit() == 100);
    assert!(rt; log.gate() == CHECKPOINT.len() as u64 - 1);
    Ok(log)
}

/// The log goes on in bank B, and the next checkpoint goes into bank A, whose gate is closed first.
fn check_next(
    rt: &impl Abort,
    alloc: Global,
    disk: &mut MemoryDisk,
    log: &mut Log,
) -> Result<(), Fail> {
    let settle = Entry::Settle {
        recording: 1,
        position: 128,
    };
    add(log, disk, &settle)?;
    assert!(rt; log.counted() == 2 && found_in(alloc, disk, 128) == "B");
    let (changes, next) = changes_of(alloc, disk)?;
    assert!(rt; changes == 7 && next.epoch() == 3 && next.counted() == 1);
    let mut bank = CHECKPOINT;
    bank[8] = 3;
    // The position at which the recording 1 is stopped.
    bank[153] = 128;
    assert!(rt; holds(disk, FileId::BankA, &bank)? && found_in(alloc, disk, 128) == "A");
    Ok(())
}

/// Two checkpoints of a catalogue, one after another.
fn check_both(rt: &impl Abort, alloc: Global, disk: &mut MemoryDisk) -> Result<(), Fail> {
    let mut log = check_first(rt, alloc, disk)?;
    check_next(rt, alloc, disk, &mut log)
}

/// Checkpoints of a catalogue of version 2 write the other bank, byte for byte, and the next one writes the first bank
/// again.
#[test]
fn a_checkpoint_of_version_2_is_written_byte_for_byte(rt: HostRuntime) -> Result<(), Fail> {
    let mut disk = MemoryDisk::new(rt.alloc());
    write_second_version(rt.alloc(), &mut disk)?;
    check_both(&rt, rt.alloc(), &mut disk)
}

/// The checkpoint of a catalogue of version 1 writes the same bytes, in version 2.
#[test]
fn a_checkpoint_of_version_1_is_written_byte_for_byte(rt: HostRuntime) -> Result<(), Fail> {
    let mut disk = MemoryDisk::new(rt.alloc());
    write_first_version(rt.alloc(), &mut disk)?;
    check_both(&rt, rt.alloc(), &mut disk)
}

/// A disk with the catalogue of version 2, which has been checkpointed so often.
fn checkpointed(alloc: Global, times: u8) -> Result<MemoryDisk, Refusal> {
    let mut disk = MemoryDisk::new(alloc);
    write_second_version(alloc, &mut disk)?;
    for _ in 0..times {
        checkpoint(alloc, &mut disk)?;
    }
    Ok(disk)
}

/// What a crash leaves by a choice, where a checkpoint stops after so many changes of the disk, past the two of opening.
fn stopped_after(alloc: Global, times: u8, stop: u64, choice: u8) -> Result<&'static str, Fail> {
    let mut disk = checkpointed(alloc, times)?;
    disk.stop_after(stop.saturating_add(2));
    let _ = checkpoint(alloc, &mut disk);
    let mut left = disk.crash(&[choice])?;
    Ok(found_in(alloc, &mut left, 96))
}

/// If the disk stops after any change of a first checkpoint, a crash leaves the old bank or the new one, with the same
/// recordings.
#[test]
fn a_stop_at_each_change_of_a_checkpoint(rt: HostRuntime) -> Result<(), Fail> {
    // Changes before the stop, and the bank that is in use by the choices 0, 1 and 255.
    let rows = [
        (0, ["A", "A", "A"]),
        (1, ["A", "A", "A"]),
        (2, ["A", "A", "A"]),
        (3, ["A", "A", "A"]),
        (4, ["A", "B", "A"]),
        (5, ["B", "B", "B"]),
    ];
    for (stop, found) in rows {
        for (choice, bank) in [(0u8, found[0]), (1, found[1]), (255, found[2])] {
            assert!(rt; stopped_after(rt.alloc(), 0, stop, choice)? == bank);
        }
    }
    Ok(())
}

/// The same of a second checkpoint, which first closes the gate of the bank that it writes.
#[test]
fn a_stop_at_each_change_of_a_checkpoint_over_an_open_bank(rt: HostRuntime) -> Result<(), Fail> {
    let rows = [
        (0, ["B", "B", "B"]),
        (1, ["B", "B", "B"]),
        (2, ["B", "B", "B"]),
        (3, ["B", "B", "B"]),
        (4, ["B", "B", "B"]),
        (5, ["B", "B", "B"]),
        (6, ["B", "A", "B"]),
        (7, ["A", "A", "A"]),
    ];
    for (stop, found) in rows {
        for (choice, bank) in [(0u8, found[0]), (1, found[1]), (255, found[2])] {
            assert!(rt; stopped_after(rt.alloc(), 1, stop, choice)? == bank);
        }
    }
    Ok(())
}

/// Of a checkpoint whose call of this number fails: its refusal, the answer of the next one, and what the disk has then.
fn failed_at(
    alloc: Global,
    times: u8,
    call: u64,
) -> Result<(Refusal, Refusal, &'static str), Fail> {
    let mut disk = checkpointed(alloc, times)?;
    let (mut log, register) = open_register(alloc, &mut disk)?;
    a_snapshot_makes_the_register();
    disk.fail_at(call);
    let first = log.checkpoint(alloc, &mut disk, &register).err();
    let second = log.checkpoint(alloc, &mut disk, &register).err();
    let none = Refusal::BadParameter;
    Ok((
        first.unwrap_or(none),
        second.unwrap_or(none),
        found_in(alloc, &mut disk, 96),
    ))
}

/// Each call that fails breaks the log, and leaves the recordings: in the other bank once its gate was written.
#[test]
fn each_call_of_a_checkpoint_fails(rt: HostRuntime) -> Result<(), Fail> {
    // How often a checkpoint was made before, its calls, the bank in use and the other one.
    for (times, calls, old, new) in [(0u8, 5u64, "A", "B"), (1, 7, "B", "A")] {
        for call in 1..8u64 {
            if call <= calls {
                let told = failed_at(rt.alloc(), times, call)?;
                let bank = if call.saturating_add(1) < calls {
                    old
                } else {
                    new
                };
                assert!(rt; told == (Refusal::DeviceFault, Refusal::Broken, bank));
            }
        }
    }
    Ok(())
}

/// What a checkpoint is refused by where a bank has a byte at an offset, or where bank B is cut to nothing, and whether nothing
/// has changed.
fn refused_with(
    alloc: Global,
    file: FileId,
    bytes: &[u8],
    offset: u64,
) -> Result<(Option<Refusal>, bool), Fail> {
    let mut disk = checkpointed(alloc, 0)?;
    disk.cut(FileId::BankB, 0)?;
    disk.write_at(file, offset, bytes)?;
    let (mut log, register) = open_register(alloc, &mut disk)?;
    a_snapshot_makes_the_register();
    let may = log.may_checkpoint().err();
    let changes = disk.changes();
    let told = log.checkpoint(alloc, &mut disk, &register).err();
    Ok((
        told,
        told == may && disk.changes() == changes && log.epoch() != 2,
    ))
}

/// A checkpoint is refused, and changes nothing, if the other bank is missing or has an open gate without a whole header.
#[test]
fn a_checkpoint_is_refused(rt: HostRuntime) -> Result<(), Fail> {
    let rows: [(FileId, &[u8], u64, Option<Refusal>); 5] = [
        // The other bank has no byte, an open gate alone, and an open gate and 31 bytes; then a closed gate.
        (FileId::BankB, &[], 0, Some(Refusal::NotCatalogue)),
        (FileId::BankB, &[1], 0, Some(Refusal::NotCatalogue)),
        (FileId::BankB, &[1; 31], 0, Some(Refusal::NotCatalogue)),
        // The last epoch: first the other bank, then the epoch.
        (FileId::BankA, &[255; 8], 8, Some(Refusal::NotCatalogue)),
        (FileId::BankB, &[0], 0, None),
    ];
    for (file, bytes, offset, refusal) in rows {
        let (told, stays) = refused_with(rt.alloc(), file, bytes, offset)?;
        assert!(rt; told == refusal && (stays || told.is_none()));
    }
    Ok(())
}

/// What a checkpoint at the last epoch is refused by, if nothing has changed.
fn refused_at_the_end(alloc: Global) -> Result<Option<Refusal>, Fail> {
    let mut disk = checkpointed(alloc, 0)?;
    disk.write_at(FileId::BankA, 8, &[255; 8])?;
    let changes = disk.changes().saturating_add(2);
    let told = checkpoint(alloc, &mut disk).err();
    Ok(if disk.changes() == changes {
        told
    } else {
        None
    })
}

/// At the last epoch a checkpoint is refused as HistoryFull, and changes nothing.
#[test]
fn no_checkpoint_follows_the_last_epoch(rt: HostRuntime) -> Result<(), Fail> {
    assert!(rt; refused_at_the_end(rt.alloc())? == Some(Refusal::HistoryFull));
    Ok(())
}

/// A full history takes no entry that counts, and a checkpoint, past which it takes one.
fn full_history(rt: &impl Abort, alloc: Global, disk: &mut MemoryDisk) -> Result<(), Fail> {
    let mut log = create(alloc, disk, 2)?;
    add_recording(alloc, &mut log, disk, 0, 64)?;
    let settle = Entry::Settle {
        recording: 0,
        position: 96,
    };
    assert!(rt; add(&mut log, disk, &settle) == Err(Refusal::HistoryFull));
    let mut next = checkpoint(alloc, disk)?;
    assert!(rt; next.counted() == 1 && add(&mut next, disk, &settle) == Ok(()));
    assert!(rt; add(&mut next, disk, &settle) == Err(Refusal::HistoryFull));
    Ok(())
}

/// A checkpoint makes room in a full history.
#[test]
fn a_full_history_is_checkpointed(rt: HostRuntime) -> Result<(), Fail> {
    let mut disk = MemoryDisk::new(rt.alloc());
    full_history(&rt, rt.alloc(), &mut disk)
}

/// The catalogue of version 2, written again where memory is refused.
fn written_again(alloc: Global) -> Result<MemoryDisk, Refusal> {
    match checkpointed(alloc, 0) {
        Ok(disk) => Ok(disk),
        Err(_) => checkpointed(alloc, 0),
    }
}

/// Makes a checkpoint, again where memory is refused; where the disk found none, that is a fault of it.
fn checkpoint_again(
    rt: &impl Abort,
    alloc: Global,
    disk: &mut MemoryDisk,
) -> Result<&'static str, Fail> {
    if let Err(refusal) = checkpoint(alloc, disk) {
        assert!(rt; refusal == Refusal::NoMemory || refusal == Refusal::DeviceFault);
        checkpoint(alloc, disk)?;
        return Ok("again");
    }
    Ok("once")
}

/// If memory is refused once, the catalogue has its recordings, and a checkpoint of it is made then.
#[test]
fn refused_memory_leaves_what_is_checkpointed(rt: HostRuntime) -> Result<(), Fail> {
    let mut disk = written_again(rt.alloc())?;
    let made = checkpoint_again(&rt, rt.alloc(), &mut disk)?;
    let found = found_in(rt.alloc(), &mut disk, 96);
    assert!(rt;
        found == "B"
            || found == "A" && made == "again"
            || found == "refused" && found_in(rt.alloc(), &mut disk, 96) == "B"
    );
    Ok(())
}
