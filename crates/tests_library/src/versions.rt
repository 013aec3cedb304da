//! Banks of both versions: channels at their limits, and histories by chance, which make the same register in either version
//! and after a compaction.

use crate::catalogues::answer;
use archive_model::{BankVersion, Channel, Register, Registration, SourceIdentity, StartFields};
use catalogue_entries::{Entry, Stage, follow, may_stand, put_opened};
use catalogue_log::{compact, open_register};
use disk_core::{Disk, FileId, MemoryDisk};
use frame_core::Refusal;
use std::alloc::{AllocError, Global};
use std::test::Fail;

// A header of the longest history and the epoch 1, but for its version.
const HEADER: [u8; 32] = [
    0x01, 0x00, 0x00, 0x00, 0x00, 0x00, 0x00, 0x01, 0x01, 0x00, 0x00, 0x00, 0x00, 0x00, 0x00, 0x00,
    0x00, 0x00, 0x00, 0x00, 0x00, 0x00, 0x00, 0x00, 0x00, 0x00, 0x00, 0x00, 0x00, 0x00, 0x00, 0x00,
];

// The next id 1, behind its open gate.
const NEXT_ID: [u8; 12] = [
    0x01, 0x0a, 0x08, 0x00, 0x01, 0x00, 0x00, 0x00, 0x00, 0x00, 0x00, 0x00,
];

// The numbers of a new recording, and of one that stopped at its start.
const START: [u8; 48] = [
    0x00, 0x00, 0x00, 0x00, 0x00, 0x00, 0x00, 0x00, 0xe8, 0x03, 0x00, 0x00, 0x00, 0x00, 0x00, 0x00,
    0x00, 0x00, 0x00, 0x00, 0x00, 0x00, 0x00, 0x00, 0x2a, 0x00, 0x00, 0x00, 0x00, 0x00, 0x02, 0x00,
    0x00, 0x00, 0x01, 0x00, 0x80, 0x05, 0x00, 0x00, 0x07, 0x00, 0x00, 0x00, 0xe9, 0x03, 0x00, 0x00,
];

const WHOLE: [u8; 64] = [
    0x00, 0x00, 0x00, 0x00, 0x00, 0x00, 0x00, 0x00, 0xe8, 0x03, 0x00, 0x00, 0x00, 0x00, 0x00, 0x00,
    0xff, 0xff, 0xff, 0xff, 0xff, 0xff, 0xff, 0xff, 0x00, 0x00, 0x00, 0x00, 0x00, 0x00, 0x00, 0x00,
    0x00, 0x00, 0x00, 0x00, 0x00, 0x00, 0x00, 0x00, 0x2a, 0x00, 0x00, 0x00, 0x00, 0x00, 0x02, 0x00,
    0x00, 0x00, 0x01, 0x00, 0x80, 0x05, 0x00, 0x00, 0x07, 0x00, 0x00, 0x00, 0xe9, 0x03, 0x00, 0x00,
];

/// Puts a bank's header.
fn put_header(bytes: &mut Vec<u8>, version: u8) -> Result<(), AllocError> {
    bytes.extend_from_slice(&HEADER[..1])?;
    bytes.extend_from_slice(&[version])?;
    bytes.extend_from_slice(&HEADER[2..])
}

/// Puts a length and so many bytes of text.
fn put_text(bytes: &mut Vec<u8>, length: u16) -> Result<(), AllocError> {
    bytes.extend_from_slice(&length.to_le_bytes())?;
    for _ in 0..length {
        bytes.extend_from_slice(b"c")?;
    }
    Ok(())
}

/// Puts an open entry of a kind: its numbers, a channel so long, and in version 2 a source so long; and a closed gate.
fn put_recording(
    bytes: &mut Vec<u8>,
    (version, kind): (u8, u8),
    numbers: &[u8],
    (channel, source): (u16, u16),
) -> Result<(), AllocError> {
    let sizes = if version == 1 { 2 } else { 4 };
    let length = u16::try_from(numbers.len())
        .unwrap_or(0)
        .wrapping_add(sizes)
        .wrapping_add(channel)
        .wrapping_add(source);
    bytes.extend_from_slice(&[1, kind])?;
    bytes.extend_from_slice(&length.to_le_bytes())?;
    bytes.extend_from_slice(numbers)?;
    put_text(bytes, channel)?;
    if version == 2 {
        put_text(bytes, source)?;
    }
    bytes.extend_from_slice(&[0])
}

/// Puts a bank of a version, whose first entry is a start with texts of these lengths, or a recording that a compaction
/// kept.
fn put_bank(
    bytes: &mut Vec<u8>,
    version: u8,
    is_kept: bool,
    texts: (u16, u16),
) -> Result<(), AllocError> {
    put_header(bytes, version)?;
    if is_kept {
        bytes.extend_from_slice(&NEXT_ID)?;
        put_recording(bytes, (version, 9), &WHOLE, texts)
    } else {
        put_recording(bytes, (version, 1), &START, texts)
    }
}

/// What opening such a bank answers.
fn answer_of(
    alloc: Global,
    version: u8,
    is_kept: bool,
    texts: (u16, u16),
) -> Result<(&'static str, i64), Fail> {
    let mut bytes = Vec::new(alloc);
    put_bank(&mut bytes, version, is_kept, texts)?;
    let mut disk = MemoryDisk::new(alloc);
    disk.write_at(FileId::BankA, 0, &bytes)?;
    Ok(answer(alloc, &mut disk))
}

/// Channels and sources are read up to the limits of the bank's version, and longer or empty ones are damage.
#[test]
fn texts_of_each_version_at_their_limits(rt: HostRuntime) -> Result<(), Fail> {
    // The version, the lengths of channel and source, and whether the entry is one.
    for (version, channel, source, is_one) in [
        (1, 1, 0, true),
        (1, 512, 0, true),
        (1, 513, 0, false),
        (1, 0, 0, false),
        (2, 0, 0, false),
        (2, 1, 128, true),
        (2, 1024, 0, true),
        (2, 1024, 128, true),
        (2, 1025, 0, false),
        (2, 1, 129, false),
    ] {
        assert!(rt; is_read(rt.alloc(), version, (channel, source), is_one)?);
    }
    Ok(())
}

/// Whether an entry with texts of these lengths is one, or is damage, at the start of a bank and after a compaction.
fn is_read(alloc: Global, version: u8, texts: (u16, u16), is_one: bool) -> Result<bool, Fail> {
    let start = answer_of(alloc, version, false, texts)?;
    let whole = answer_of(alloc, version, true, texts)?;
    Ok(if is_one {
        start == ("A", 1) && whole == ("A", 2)
    } else {
        start == ("Damaged", 32) && whole == ("Damaged", 44)
    })
}

// Numbers by chance, the same in each run.
#[derive(Drop)]
struct Dice {
    thrown: u32,
}

impl Dice {
    /// A number below another.
    fn below(&mut self, count: u32) -> i64 {
        self.thrown = self
            .thrown
            .wrapping_mul(1_664_525)
            .wrapping_add(1_013_904_223);
        i64::from((self.thrown >> 8).checked_rem(count).unwrap_or(0))
    }
}

/// A start with the next id.
fn start_of(alloc: Global, recording: i64, start_position: i64) -> Result<Entry, Fail> {
    let fields = StartFields {
        stream_id: 1_001,
        session_id: 7,
        initial_term_id: 42,
        term_length: 65_536,
        mtu: 1_408,
        segment_length: 131_072,
        start_position,
        timestamp: 1_000,
        channel: Channel::new(String::from_str(alloc, "c")?),
        source_identity: SourceIdentity::none(alloc),
    };
    Ok(Entry::Start { recording, fields })
}

/// An entry, which need not be admitted.
fn entry_by_chance(alloc: Global, dice: &mut Dice, register: &Register) -> Result<Entry, Fail> {
    let recording = dice.below(8);
    let recorded = register.recording(&recording).map_or(0, |it| it.recorded);
    let position = dice.below(4096).wrapping_mul(32);
    Ok(match dice.below(12) {
        0 => start_of(alloc, register.next_recording(), position)?,
        1..=5 => Entry::Settle {
            recording,
            position: recorded.wrapping_add(dice.below(64).wrapping_mul(32)),
        },
        6 => Entry::Stop {
            recording,
            timestamp: dice.below(9),
        },
        7 => Entry::Extend {
            recording,
            session_id: 9,
        },
        8 => Entry::Truncate {
            recording,
            position,
        },
        9 => Entry::PurgeSegments {
            recording,
            position: position.wrapping_div(131_072).wrapping_mul(131_072),
        },
        10 => Entry::PurgeRecording { recording },
        _ => Entry::Restart,
    })
}

/// A register, and banks of both versions that make it.
#[derive(Drop)]
struct Banks {
    register: Register,
    one: Vec<u8>,
    two: Vec<u8>,
}

/// Follows an entry in the register and puts it into both banks, if it is admitted.
fn add(alloc: Global, banks: &mut Banks, entry: &Entry) -> Result<(), Fail> {
    let is_one = may_stand(Stage::Following, &banks.register, entry);
    if is_one && entry.is_held(BankVersion::One) && entry.is_held(BankVersion::Two) {
        follow(alloc, &mut banks.register, entry)?;
        put_opened(&mut banks.one, BankVersion::One, entry)?;
        put_opened(&mut banks.two, BankVersion::Two, entry)?;
    }
    Ok(())
}

/// Adds an entry by chance.
fn go_on(alloc: Global, dice: &mut Dice, banks: &mut Banks) -> Result<(), Fail> {
    let entry = entry_by_chance(alloc, dice, &banks.register)?;
    add(alloc, banks, &entry)
}

/// Adds 1,000 entries by chance, and a restart.
fn add_history(alloc: Global, banks: &mut Banks, seed: u32) -> Result<(), Fail> {
    let mut dice = Dice { thrown: seed };
    put_header(&mut banks.one, 1)?;
    put_header(&mut banks.two, 2)?;
    for _ in 0..1_000 {
        go_on(alloc, &mut dice, banks)?;
    }
    add(alloc, banks, &Entry::Restart)
}

/// Whether two recordings are the same.
fn is_same(one: &Registration, other: &Registration) -> bool {
    one.descriptor.recording == other.descriptor.recording
        && one.descriptor.start_position == other.descriptor.start_position
        && one.descriptor.stop_position == other.descriptor.stop_position
        && one.descriptor.stop_timestamp == other.descriptor.stop_timestamp
        && one.descriptor.session_id == other.descriptor.session_id
        && one.recorded == other.recorded
}

/// Whether two registers are the same.
fn are_same(one: &Register, other: &Register) -> bool {
    let (left, right) = (one.recordings(), other.recordings());
    if one.next_recording() != other.next_recording() || left.len() != right.len() {
        return false;
    }
    for (left, right) in left.iter().zip(right.iter()) {
        if !is_same(left, right) {
            return false;
        }
    }
    true
}

/// Whether the catalogue of a disk makes a register.
fn makes(alloc: Global, disk: &mut MemoryDisk, register: &Register) -> Result<bool, Refusal> {
    let (_, found) = open_register(alloc, disk)?;
    Ok(are_same(&found, register))
}

/// Whether a bank makes the register once it is closed by a gate, and again after a compaction.
fn makes_it_twice(alloc: Global, bank: &mut Vec<u8>, register: &Register) -> Result<bool, Fail> {
    bank.push(0)?;
    let mut disk = MemoryDisk::new(alloc);
    disk.write_at(FileId::BankA, 0, bank)?;
    disk.write_at(FileId::BankB, 0, &[0])?;
    let first = makes(alloc, &mut disk, register)?;
    compact(alloc, &mut disk)?;
    Ok(first && makes(alloc, &mut disk, register)?)
}

/// Whether 1,000 entries by chance make the same register in both versions, and after a compaction.
fn history_is_kept(alloc: Global, seed: u32) -> Result<bool, Fail> {
    let mut banks = Banks {
        register: Register::new(alloc),
        one: Vec::new(alloc),
        two: Vec::new(alloc),
    };
    add_history(alloc, &mut banks, seed)?;
    Ok(
        makes_it_twice(alloc, &mut banks.one, &banks.register)?
            && makes_it_twice(alloc, &mut banks.two, &banks.register)?,
    )
}

/// Random histories make the same recordings in both versions, and again after a compaction.
#[test]
fn histories_are_the_same_in_both_versions(rt: HostRuntime) -> Result<(), Fail> {
    for seed in [1, 2, 3] {
        assert!(rt; history_is_kept(rt.alloc(), seed)?);
    }
    Ok(())
}
