//! The catalogue: the bank of docs/STORAGE.md, "Entries", byte for byte, cut and changed; stops at each change of the disk;
//! requests for memory refused.

use archive_model::{BankVersion, Channel, Command, Register, SourceIdentity, StartFields};
use catalogue_log::{Bank, Entry, Log, create, open, register_from};
use disk_core::{Disk, Fault, FileId, MemoryDisk};
use frame_core::Refusal;
use std::alloc::{AllocError, Global};
use std::process::Abort;
use std::test::Fail;

/// The bank of version 1 of docs/STORAGE.md, "Entries".
pub(crate) const BANK: [u8; 108] = [
    0x01, 0x01, 0x00, 0x00, 0x03, 0x00, 0x00, 0x00, 0x01, 0x00, 0x00, 0x00, 0x00, 0x00, 0x00, 0x00,
    0x00, 0x00, 0x00, 0x00, 0x00, 0x00, 0x00, 0x00, 0x00, 0x00, 0x00, 0x00, 0x00, 0x00, 0x00, 0x00,
    0x01, 0x01, 0x33, 0x00, 0x00, 0x00, 0x00, 0x00, 0x00, 0x00, 0x00, 0x00, 0xe8, 0x03, 0x00, 0x00,
    0x00, 0x00, 0x00, 0x00, 0x00, 0x00, 0x00, 0x00, 0x00, 0x00, 0x00, 0x00, 0x2a, 0x00, 0x00, 0x00,
    0x00, 0x00, 0x02, 0x00, 0x00, 0x00, 0x01, 0x00, 0x80, 0x05, 0x00, 0x00, 0x07, 0x00, 0x00, 0x00,
    0xe9, 0x03, 0x00, 0x00, 0x01, 0x00, 0x63, 0x01, 0x02, 0x10, 0x00, 0x00, 0x00, 0x00, 0x00, 0x00,
    0x00, 0x00, 0x00, 0x40, 0x00, 0x00, 0x00, 0x00, 0x00, 0x00, 0x00, 0x00,
];

// The bank of version 2 with the same entries.
const NEW_BANK: [u8; 110] = [
    0x01, 0x02, 0x00, 0x00, 0x03, 0x00, 0x00, 0x00, 0x01, 0x00, 0x00, 0x00, 0x00, 0x00, 0x00, 0x00,
    0x00, 0x00, 0x00, 0x00, 0x00, 0x00, 0x00, 0x00, 0x00, 0x00, 0x00, 0x00, 0x00, 0x00, 0x00, 0x00,
    0x01, 0x01, 0x35, 0x00, 0x00, 0x00, 0x00, 0x00, 0x00, 0x00, 0x00, 0x00, 0xe8, 0x03, 0x00, 0x00,
    0x00, 0x00, 0x00, 0x00, 0x00, 0x00, 0x00, 0x00, 0x00, 0x00, 0x00, 0x00, 0x2a, 0x00, 0x00, 0x00,
    0x00, 0x00, 0x02, 0x00, 0x00, 0x00, 0x01, 0x00, 0x80, 0x05, 0x00, 0x00, 0x07, 0x00, 0x00, 0x00,
    0xe9, 0x03, 0x00, 0x00, 0x01, 0x00, 0x63, 0x00, 0x00, 0x01, 0x02, 0x10, 0x00, 0x00, 0x00, 0x00,
    0x00, 0x00, 0x00, 0x00, 0x00, 0x40, 0x00, 0x00, 0x00, 0x00, 0x00, 0x00, 0x00, 0x00,
];

/// What the bank's recording is.
fn fields(alloc: Global) -> Result<StartFields, AllocError> {
    Ok(StartFields {
        stream_id: 1_001,
        session_id: 7,
        initial_term_id: 42,
        term_length: 65_536,
        mtu: 1_408,
        segment_length: 131_072,
        start_position: 0,
        timestamp: 1_000,
        channel: Channel::new(String::from_str(alloc, "c")?),
        source_identity: SourceIdentity::none(alloc),
    })
}

/// The start of the bank's recording.
fn start(alloc: Global) -> Result<Entry, AllocError> {
    Ok(Entry::Start {
        recording: 0,
        fields: fields(alloc)?,
    })
}

const SETTLE: Entry = Entry::Settle {
    recording: 0,
    position: 64,
};

const STOP: Entry = Entry::Stop {
    recording: 0,
    timestamp: 2_000,
};

/// Adds an entry, which the bank's version has to hold.
fn add(log: &mut Log, disk: &mut MemoryDisk, entry: &Entry) -> Result<(), Refusal> {
    if !entry.is_held(log.version()) {
        return Err(Refusal::NeedCompact);
    }
    log.append(disk, entry)
}

/// Adds this entry and a settle.
fn add_two(log: &mut Log, disk: &mut MemoryDisk, first: &Entry) -> Result<(), Refusal> {
    add(log, disk, first)?;
    add(log, disk, &SETTLE)
}

/// A catalogue with these two.
fn bank_from(alloc: Global, disk: &mut MemoryDisk, first: &Entry) -> Result<Log, Refusal> {
    let mut log = create(alloc, disk, 3)?;
    add_two(&mut log, disk, first).and(Ok(log))
}

/// The bank after its start and its settle.
fn write_bank(alloc: Global, disk: &mut MemoryDisk) -> Result<Log, Refusal> {
    bank_from(alloc, disk, &start(alloc)?)
}

/// A catalogue with three entries, or with as many as the disk lets it have.
fn story(alloc: Global, disk: &mut MemoryDisk) -> Result<(), Refusal> {
    let mut log = write_bank(alloc, disk)?;
    add(&mut log, disk, &STOP)
}

/// What opening answers: which bank, and how many entries it has; or why not, and at which offset it is damaged.
pub(crate) fn answer(alloc: Global, disk: &mut MemoryDisk) -> (&'static str, i64) {
    match open(alloc, disk) {
        Ok((log, entries)) => {
            let name = if log.bank() == Bank::A { "A" } else { "B" };
            (name, i64::try_from(entries.len()).unwrap_or(-1))
        }
        Err(Refusal::Damaged { position, .. }) => ("Damaged", position),
        Err(Refusal::NotCatalogue) => ("NotCatalogue", 0),
        Err(Refusal::NewerVersion) => ("NewerVersion", 0),
        Err(_) => ("another refusal", 0),
    }
}

/// Whether a file has these bytes and no more, of up to 300.
pub(crate) fn holds(disk: &mut MemoryDisk, file: FileId, bytes: &[u8]) -> Result<bool, Fault> {
    let mut read = [9; 300];
    let count = disk.read_at(file, 0, &mut read)?;
    Ok(read.get(..count) == Some(bytes))
}

/// Whether bank A is the one of version 2.
fn is_bank(disk: &mut MemoryDisk) -> Result<bool, Fault> {
    holds(disk, FileId::BankA, &NEW_BANK)
}

/// Writes the bank, which is that one; bank B has its closed gate alone.
fn check_written(rt: &impl Abort, alloc: Global, disk: &mut MemoryDisk) -> Result<(), Fail> {
    write_bank(alloc, disk)?;
    assert!(rt; disk.changes() == 14 && disk.calls() == 14);
    assert!(rt; is_bank(disk)? && holds(disk, FileId::BankB, &[0])?);
    Ok(())
}

/// A new catalogue with two entries has the bytes of docs/STORAGE.md, "Entries".
#[test]
fn a_bank_is_written_byte_for_byte(rt: HostRuntime) -> Result<(), Fail> {
    let mut disk = MemoryDisk::new(rt.alloc());
    check_written(&rt, rt.alloc(), &mut disk)
}

/// A disk with a bank.
fn with_bytes(alloc: Global, bank: &[u8]) -> Result<MemoryDisk, Fault> {
    let mut disk = MemoryDisk::new(alloc);
    disk.write_at(FileId::BankA, 0, bank).and(Ok(disk))
}

/// A disk with the bank of version 1.
fn with_bank(alloc: Global) -> Result<MemoryDisk, Fault> {
    with_bytes(alloc, &BANK)
}

/// The limit, the epoch and the counted entries of the catalogue that is opened, and how many entries there are.
fn opened(alloc: Global, disk: &mut MemoryDisk) -> Result<(u32, u64, usize, usize), Refusal> {
    let (log, entries) = open(alloc, disk)?;
    Ok((log.limit(), log.epoch(), log.counted(), entries.len()))
}

/// A bank of version 1 is opened with its limit, epoch and entries, and the opening only syncs.
#[test]
fn a_bank_is_opened(rt: HostRuntime) -> Result<(), Fail> {
    let mut disk = with_bank(rt.alloc())?;
    assert!(rt; opened(rt.alloc(), &mut disk) == Ok((3, 1, 2, 2)));
    assert!(rt; disk.changes() == 3);
    Ok(())
}

/// The bank of version 1 behind an entry more: its version, and whether its bytes before the last gate are as they were.
fn gone_on(alloc: Global, disk: &mut MemoryDisk) -> Result<(BankVersion, bool), Refusal> {
    let (mut log, _) = open(alloc, disk)?;
    add(&mut log, disk, &STOP)?;
    let mut read = [9; 200];
    let count = disk.read_at(FileId::BankA, 0, &mut read).unwrap_or(0);
    Ok((
        log.version(),
        count == 128 && read.get(..107) == BANK.get(..107),
    ))
}

/// An entry is added to a bank of version 1 in that version, after the bytes that are there.
#[test]
fn a_bank_of_version_1_goes_on_in_it(rt: HostRuntime) -> Result<(), Fail> {
    let mut disk = with_bank(rt.alloc())?;
    assert!(rt; gone_on(rt.alloc(), &mut disk) == Ok((BankVersion::One, true)));
    Ok(())
}

/// The entry of the command that starts the bank's recording.
fn start_of_command(alloc: Global) -> Result<Entry, Refusal> {
    let command = Command::Start(fields(alloc)?);
    Ok(Entry::of_command(alloc, &0, &command)?)
}

/// Whether an entry begins the bank.
fn begins_bank(
    rt: &impl Abort,
    alloc: Global,
    disk: &mut MemoryDisk,
    entry: &Entry,
) -> Result<bool, Fail> {
    assert!(rt; entry.is_held(BankVersion::Two));
    bank_from(alloc, disk, entry)?;
    Ok(is_bank(disk)?)
}

/// The entry that a start command makes has the bytes of docs/STORAGE.md.
#[test]
fn a_start_is_committed_byte_for_byte(rt: HostRuntime) -> Result<(), Fail> {
    let entry = start_of_command(rt.alloc())?;
    let mut disk = MemoryDisk::new(rt.alloc());
    assert!(rt; begins_bank(&rt, rt.alloc(), &mut disk, &entry)?);
    Ok(())
}

/// The register of what is opened.
pub(crate) fn register_in(alloc: Global, disk: &mut MemoryDisk) -> Result<Register, Refusal> {
    let (_, entries) = open(alloc, disk)?;
    register_from(alloc, entries.as_slice())
}

/// The register of the bank.
pub(crate) fn register_of_bank(alloc: Global) -> Result<Register, Fail> {
    let mut disk = with_bank(alloc)?;
    Ok(register_in(alloc, &mut disk)?)
}

/// Whether a register has the bank's recording, settled at 64.
fn has_settled(register: &Register) -> bool {
    let Some(found) = register.recording(&0) else {
        return false;
    };
    found.recorded == 64 && register.next_recording() == 1 && register.active_count() == 1
}

/// The bank's entries make the register with its one recording, active and settled at 64.
#[test]
fn entries_make_a_register(rt: HostRuntime) -> Result<(), Fail> {
    assert!(rt; has_settled(&register_of_bank(rt.alloc())?));
    Ok(())
}

/// What opening the bank answers where its file is cut to a length.
fn cut_bank(alloc: Global, length: u64) -> Result<(&'static str, i64), Fault> {
    let mut disk = with_bank(alloc)?;
    disk.cut(FileId::BankA, length)
        .and(Ok(answer(alloc, &mut disk)))
}

/// A bank of version 1 that is cut at any length is refused, as no catalogue or as damaged at the entry that is cut.
#[test]
fn a_bank_is_cut_at_each_length(rt: HostRuntime) -> Result<(), Fail> {
    // Lengths from one to the next row's: the entry that the bank ends in is damaged.
    let rows = [
        (0, 32, ("NotCatalogue", 0)),
        (32, 88, ("Damaged", 32)),
        (88, 108, ("Damaged", 87)),
        (108, 109, ("A", 2)),
    ];
    for (from, to, told) in rows {
        for length in from..to {
            assert!(rt; cut_bank(rt.alloc(), length)? == told);
        }
    }
    Ok(())
}

/// What opening the bank of version 2 answers where its file is cut to a length.
fn cut_new_bank(alloc: Global, length: u64) -> Result<(&'static str, i64), Fault> {
    let mut disk = with_bytes(alloc, &NEW_BANK)?;
    disk.cut(FileId::BankA, length)
        .and(Ok(answer(alloc, &mut disk)))
}

/// A bank of version 2 that is cut at any length is refused, as no catalogue or as damaged at the entry that is cut.
#[test]
fn a_bank_of_version_2_is_cut_at_each_length(rt: HostRuntime) -> Result<(), Fail> {
    let rows = [
        (0, 32, ("NotCatalogue", 0)),
        (32, 90, ("Damaged", 32)),
        (90, 110, ("Damaged", 89)),
        (110, 111, ("A", 2)),
    ];
    for (from, to, told) in rows {
        for length in from..to {
            assert!(rt; cut_new_bank(rt.alloc(), length)? == told);
        }
    }
    Ok(())
}

/// What opening a bank answers whose version is another.
fn of_version(alloc: Global, bank: &[u8], version: u8) -> Result<(&'static str, i64), Fault> {
    let mut disk = with_bytes(alloc, bank)?;
    disk.write_at(FileId::BankA, 1, &[version])
        .and(Ok(answer(alloc, &mut disk)))
}

/// A bank is read by the version in its header: 0 is no catalogue, 3 and above are newer.
#[test]
fn banks_are_read_by_their_version(rt: HostRuntime) -> Result<(), Fail> {
    // The version, and what the banks of version 1 and 2 are answered where they have it.
    let rows = [
        (0, ("NotCatalogue", 0), ("NotCatalogue", 0)),
        (1, ("A", 2), ("Damaged", 32)),
        (2, ("Damaged", 32), ("A", 2)),
        (3, ("NewerVersion", 0), ("NewerVersion", 0)),
        (200, ("NewerVersion", 0), ("NewerVersion", 0)),
    ];
    for (version, first, second) in rows {
        assert!(rt; of_version(rt.alloc(), &BANK, version)? == first);
        assert!(rt; of_version(rt.alloc(), &NEW_BANK, version)? == second);
    }
    Ok(())
}

/// What opening the bank of version 2 answers where its start has a source of one byte.
fn with_source(alloc: Global, source: u8) -> Result<(&'static str, i64), Fault> {
    let mut disk = with_bytes(alloc, &NEW_BANK)?;
    disk.write_at(FileId::BankA, 34, &[0x36])?;
    disk.write_at(FileId::BankA, 87, &[1, 0, source])?;
    disk.write_at(FileId::BankA, 90, &NEW_BANK[89..])
        .and(Ok(answer(alloc, &mut disk)))
}

/// An entry whose source has a blank, a control character or malformed UTF-8 is damaged.
#[test]
fn a_source_is_a_text_without_blanks(rt: HostRuntime) -> Result<(), Fail> {
    let rows = [
        (0x41, ("A", 2)),
        (0x20, ("Damaged", 32)),
        (0x09, ("Damaged", 32)),
        (0x7f, ("Damaged", 32)),
        (0xff, ("Damaged", 32)),
    ];
    for (source, told) in rows {
        assert!(rt; with_source(rt.alloc(), source)? == told);
    }
    Ok(())
}

/// What opening the bank answers where a byte of it is 255.
fn changed_bank(alloc: Global, offset: u64) -> Result<(&'static str, i64), Fault> {
    let mut disk = with_bank(alloc)?;
    disk.write_at(FileId::BankA, offset, &[255])
        .and(Ok(answer(alloc, &mut disk)))
}

/// A changed byte of a bank's header is refused unless it gives another valid limit or epoch, and a changed first gate
/// hides all entries.
#[test]
fn each_byte_of_a_header_is_changed(rt: HostRuntime) -> Result<(), Fail> {
    let rows = [
        (0, 1, ("NotCatalogue", 0)),
        (1, 2, ("NewerVersion", 0)),
        (2, 4, ("NotCatalogue", 0)),
        // A limit of 255, 65,283 and 16,711,683, and one that is too high; any epoch.
        (4, 7, ("A", 2)),
        (7, 8, ("NotCatalogue", 0)),
        (8, 16, ("A", 2)),
        (16, 32, ("NotCatalogue", 0)),
        (32, 33, ("A", 0)),
    ];
    for (from, to, told) in rows {
        for offset in from..to {
            assert!(rt; changed_bank(rt.alloc(), offset)? == told);
        }
    }
    Ok(())
}

/// A changed byte of a start is damage wherever the entry is no longer valid.
#[test]
fn each_byte_of_a_start_is_changed(rt: HostRuntime) -> Result<(), Fail> {
    let rows = [
        // Kind, length and recording; the timestamp, and a negative one.
        (33, 44, ("Damaged", 32)),
        (44, 51, ("A", 2)),
        (51, 53, ("Damaged", 32)),
        // A start position that is a multiple of 32, from which the settle is no step; one past 2^31 terms.
        (53, 57, ("Damaged", 87)),
        (57, 60, ("Damaged", 32)),
        (60, 64, ("A", 2)),
        // Lengths of segments and terms, an MTU of 65,408, the other MTUs.
        (64, 73, ("Damaged", 32)),
        (73, 74, ("A", 2)),
        (74, 76, ("Damaged", 32)),
        (76, 84, ("A", 2)),
        (84, 87, ("Damaged", 32)),
    ];
    for (from, to, told) in rows {
        for offset in from..to {
            assert!(rt; changed_bank(rt.alloc(), offset)? == told);
        }
    }
    Ok(())
}

/// A changed byte of a settle is damage wherever the entry is no longer valid; a changed gate hides it.
#[test]
fn each_byte_of_a_settle_is_changed(rt: HostRuntime) -> Result<(), Fail> {
    let rows = [
        (87, 88, ("A", 1)),
        (88, 100, ("Damaged", 87)),
        // Positions that are multiples of 32, and then such past 2^31 terms.
        (100, 104, ("A", 2)),
        (104, 107, ("Damaged", 87)),
        (107, 108, ("A", 2)),
    ];
    for (from, to, told) in rows {
        for offset in from..to {
            assert!(rt; changed_bank(rt.alloc(), offset)? == told);
        }
    }
    Ok(())
}

/// What is found after a crash by a choice, where the disk stops after so many changes.
fn found_after(alloc: Global, stop: u64, choice: u8) -> Result<(&'static str, i64), Fail> {
    let mut disk = MemoryDisk::new(alloc);
    disk.stop_after(stop);
    let _ = story(alloc, &mut disk);
    let mut left = disk.crash(&[choice])?;
    Ok(answer(alloc, &mut left))
}

/// If the disk stops while a catalogue is created, a crash leaves no catalogue or an empty one.
#[test]
fn a_stop_while_it_is_created(rt: HostRuntime) -> Result<(), Fail> {
    for stop in 0..6u64 {
        for choice in [0u8, 1, 255] {
            let told = if stop == 5 && choice == 1 {
                ("A", 0)
            } else {
                ("NotCatalogue", 0)
            };
            assert!(rt; found_after(rt.alloc(), stop, choice)? == told);
        }
    }
    Ok(())
}

/// If the disk stops after any change of three appends, a crash leaves the entries that were answered, or one more.
#[test]
fn a_stop_at_each_change_of_three_appends(rt: HostRuntime) -> Result<(), Fail> {
    // Changes before the stop, and how many entries are found by the choices 0, 1 and 255.
    let rows = [
        (6, [0, 0, 0]),
        (7, [0, 0, 0]),
        (8, [0, 0, 0]),
        (9, [0, 1, 0]),
        (10, [1, 1, 1]),
        (11, [1, 1, 1]),
        (12, [1, 1, 1]),
        (13, [1, 2, 1]),
        (14, [2, 2, 2]),
        (15, [2, 2, 2]),
        (16, [2, 2, 2]),
        (17, [2, 3, 2]),
        (18, [3, 3, 3]),
    ];
    for (stop, found) in rows {
        for (choice, count) in [(0u8, found[0]), (1, found[1]), (255, found[2])] {
            assert!(rt; found_after(rt.alloc(), stop, choice)? == ("A", count));
        }
    }
    Ok(())
}

/// The start, made again where memory is refused.
fn start_again(alloc: Global) -> Result<Entry, AllocError> {
    match start(alloc) {
        Ok(entry) => Ok(entry),
        Err(_) => start(alloc),
    }
}

/// An empty catalogue, created again where memory is refused.
fn create_again(alloc: Global, disk: &mut MemoryDisk) -> Result<Log, Refusal> {
    match create(alloc, disk, 3) {
        Ok(log) => Ok(log),
        Err(_) => create(alloc, disk, 3),
    }
}

/// The log that is opened, behind an entry more where it has no more than so many.
fn add_opened(
    alloc: Global,
    disk: &mut MemoryDisk,
    entry: &Entry,
    entries: usize,
) -> Result<Log, Refusal> {
    let (mut log, found) = open(alloc, disk)?;
    let done = if found.len() == entries {
        add(&mut log, disk, entry)
    } else {
        Ok(())
    };
    done.and(Ok(log))
}

/// Adds an entry, where one request for memory is refused in the whole run: once more where the log finds none, which has
/// left the disk as it was; where the disk finds none, that is a fault of it, and the log is opened again.
fn append_again(
    rt: &impl Abort,
    alloc: Global,
    disk: &mut MemoryDisk,
    log: &mut Log,
    entry: &Entry,
) -> Result<(), Refusal> {
    let changes = disk.changes();
    let entries = log.counted();
    let told = add(log, disk, entry);
    if told == Err(Refusal::NoMemory) {
        assert!(rt; disk.changes() == changes && log.counted() == entries);
        return add(log, disk, entry);
    }
    if told.is_err() {
        *log = add_opened(alloc, disk, entry, entries)?;
    }
    Ok(())
}

/// Both entries of the bank.
fn append_two_again(
    rt: &impl Abort,
    alloc: Global,
    disk: &mut MemoryDisk,
    log: &mut Log,
    first: &Entry,
) -> Result<(), Refusal> {
    append_again(rt, alloc, disk, log, first)?;
    append_again(rt, alloc, disk, log, &SETTLE)
}

/// How many entries of the bank count, each added again where memory is refused.
fn bank_again(
    rt: &impl Abort,
    alloc: Global,
    disk: &mut MemoryDisk,
    first: &Entry,
) -> Result<usize, Refusal> {
    let mut log = create_again(alloc, disk)?;
    append_two_again(rt, alloc, disk, &mut log, first)?;
    Ok(log.counted())
}

/// How many entries are found, and how many of them count.
fn counts(alloc: Global, disk: &mut MemoryDisk) -> Result<(usize, usize), Refusal> {
    let (log, entries) = open(alloc, disk)?;
    Ok((entries.len(), log.counted()))
}

fn counts_again(alloc: Global, disk: &mut MemoryDisk) -> Result<(usize, usize), Refusal> {
    match counts(alloc, disk) {
        Ok(found) => Ok(found),
        Err(_) => counts(alloc, disk),
    }
}

/// The bank's two entries are found, and as many count as did.
fn check_again(
    rt: &impl Abort,
    alloc: Global,
    disk: &mut MemoryDisk,
    first: &Entry,
) -> Result<(), Fail> {
    let counted = bank_again(rt, alloc, disk, first)?;
    assert!(rt; counts_again(alloc, disk)? == (2, counted));
    Ok(())
}

/// An append that is refused memory changes nothing on the disk, and succeeds if it is tried again.
#[test]
fn refused_memory_leaves_the_catalogue(rt: HostRuntime) -> Result<(), Fail> {
    let first = start_again(rt.alloc())?;
    let mut disk = MemoryDisk::new(rt.alloc());
    check_again(&rt, rt.alloc(), &mut disk, &first)
}

/// Prepares a restart, again where memory is refused.
fn prepare_again(rt: &impl Abort, log: &mut Log) -> Result<(), Refusal> {
    if log.prepare(&Entry::Restart).is_err() {
        assert!(rt; log.counted() == 0);
        log.prepare(&Entry::Restart)?;
    }
    Ok(())
}

/// An entry that is refused memory can be prepared again, and a prepared one is not refused for want of memory. A disk
/// that finds none answers a fault.
#[test]
fn refused_memory_comes_before_a_prepared_entry(rt: HostRuntime) -> Result<(), Fail> {
    let mut disk = MemoryDisk::new(rt.alloc());
    let mut log = create_again(rt.alloc(), &mut disk)?;
    prepare_again(&rt, &mut log)?;
    assert!(rt; add(&mut log, &mut disk, &Entry::Restart) != Err(Refusal::NoMemory));
    Ok(())
}
