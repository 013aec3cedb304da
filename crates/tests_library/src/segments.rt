//! Segment files: docs/STORAGE.md, "Segments", by example; what a crash leaves of a torn block, and device
//! calls counted.

ghost use Rattle.std.specs.Prelude.{◌≡◌, pos};
ghost use Rattle.segment_store.specs.Layout.{IsLayout};

use crate::vectors::{HELLO_AT_0, HELLO_AT_64, HELLO_IN_NEXT_TERM, PAD_AT_TERM_END};
use disk_core::{Disk, Fault, FileId, MemoryDisk};
use frame_core::{Frame, FrameKind, Geometry, Publication, Refusal, block_end, block_of};
use segment_store::{
    Keep, Layout, base_of, is_boundary, read_frame, stale_files, sweep_one, sync_segment,
    write_block,
};
use std::alloc::{AllocError, Global};
use std::process::Abort;
use std::test::Fail;

pub(crate) const GEOMETRY: Geometry = Geometry {
    initial_term_id: 42,
    term_length: 65_536,
    mtu: 1_408,
};

pub(crate) const LAYOUT: Layout = Layout {
    recording: 0,
    stream_id: 1_001,
    start_position: 0,
    term_length: 65_536,
    segment_length: 131_072,
};

const MID_STREAM: Layout = Layout {
    recording: 0,
    stream_id: 1_001,
    start_position: 65_632,
    term_length: 65_536,
    segment_length: 131_072,
};

pub(crate) const FIRST: FileId = FileId::Segment {
    recording: 0,
    base: 0,
};

const PUBLICATION: Publication = Publication {
    session_id: 7,
    stream_id: 1_001,
};

/// Writes a block of a recording of this layout, whose terms have 65,536 bytes.
fn store_in(
    rt: &impl Abort,
    alloc: Global,
    disk: &mut MemoryDisk,
    layout: &Layout,
    bytes: &[u8],
) -> Result<(), Refusal>
    requires layout { IsLayout layout.now }
    requires term { layout.now.term_length ≡ pos 65536 }
{
    let block = block_of(alloc, &GEOMETRY, bytes)?;
    assert!(rt; block.position >= layout.start_position);
    assert!(rt; block_end(&GEOMETRY, &PUBLICATION, &block).is_some());
    write_block(disk, layout, &block)
}

/// Writes a block of the recording.
#[tactic(auto, using(crate::proofs::SegmentFacts::layout_of_the_tests))]
pub(crate) fn store(
    rt: &impl Abort,
    alloc: Global,
    disk: &mut MemoryDisk,
    bytes: &[u8],
) -> Result<(), Refusal> {
    store_in(rt, alloc, disk, &LAYOUT, bytes)
}

/// Syncs the recording's first segment.
#[tactic(auto, using(crate::proofs::SegmentFacts::layout_of_the_tests))]
fn synced(disk: &mut MemoryDisk) -> Result<(), Refusal> {
    sync_segment(disk, &LAYOUT, 0)
}

/// The frame at a position.
#[tactic(auto, using(crate::proofs::SegmentFacts::layout_of_the_tests, crate::proofs::SegmentFacts::geometry_of_the_tests))]
pub(crate) fn frame_at(
    alloc: Global,
    disk: &mut MemoryDisk,
    position: u32,
    limit: i64,
) -> Result<Frame, Refusal> {
    read_frame(alloc, disk, &LAYOUT, &GEOMETRY, i64::from(position), limit)
}

/// Whether a position is a boundary.
#[tactic(auto, using(crate::proofs::SegmentFacts::layout_of_the_tests, crate::proofs::SegmentFacts::geometry_of_the_tests))]
fn told(disk: &mut MemoryDisk, recorded: i64, position: i64) -> Result<bool, Refusal> {
    is_boundary(disk, &LAYOUT, &GEOMETRY, recorded, position)
}

/// Whether a frame that is filled up to 64 bytes with zeros stands in a file at an offset.
fn stands_at(
    disk: &mut MemoryDisk,
    file: FileId,
    offset: u64,
    frame: &[u8],
) -> Result<bool, Fault> {
    let mut read = [9; 64];
    let count = disk.read_at(file, offset, &mut read)?;
    let is_filled_up = read.iter().skip(frame.len()).all(|byte| *byte == 0);
    Ok(count == 64 && read.starts_with(frame) && is_filled_up)
}

/// Writes the blocks of a pad at a term's end and of the frame behind it, each by one call: whether both stand in the file,
/// and nothing behind them.
fn both_stand(rt: &impl Abort, alloc: Global, disk: &mut MemoryDisk) -> Result<bool, Refusal> {
    store(rt, alloc, disk, PAD_AT_TERM_END)?;
    store(rt, alloc, disk, HELLO_IN_NEXT_TERM)?;
    let is_by_two = disk.calls() == 2;
    Ok(
        is_by_two
            && stands_at(disk, FIRST, 65_472, PAD_AT_TERM_END)?
            && stands_at(disk, FIRST, 65_536, HELLO_IN_NEXT_TERM)?
            && disk.len(FIRST)? == 65_600,
    )
}

/// A pad at a term's end and the next frame are written by one disk call each, at their offsets in the same file.
#[test]
fn a_pad_at_a_terms_end_and_its_file(rt: HostRuntime) -> Result<(), Fail> {
    assert!(rt; both_stand(&rt, rt.alloc(), &mut MemoryDisk::new(rt.alloc()))?);
    Ok(())
}

/// Writes the pad at the term's end: whether it is read by one call.
fn is_pad_read(rt: &impl Abort, alloc: Global, disk: &mut MemoryDisk) -> Result<bool, Refusal> {
    store(rt, alloc, disk, PAD_AT_TERM_END)?;
    let frame = frame_at(alloc, disk, 65_472, 65_536)?;
    Ok(frame.kind == FrameKind::Pad && frame.length == 64 && disk.calls() == 2)
}

/// A frame is read by one disk call, and a boundary past a hole in the file is answered Damaged.
#[test]
fn a_frame_costs_one_call(rt: HostRuntime) -> Result<(), Fail> {
    let mut disk = MemoryDisk::new(rt.alloc());
    assert!(rt; is_pad_read(&rt, rt.alloc(), &mut disk)?);
    let damaged = Refusal::Damaged {
        recording: 0,
        position: 0,
    };
    assert!(rt; told(&mut disk, 65_536, 65_536) == Err(damaged));
    Ok(())
}

/// `hello` of 64 bytes, but for its term and its offset.
const FILLED_UP: [u8; 64] =
    *b"\x25\0\0\0\0\xc0\x01\0\0\0\0\0\x07\0\0\0\xe9\x03\0\0\0\0\0\0\0\0\0\0\0\0\0\0hello\
    \0\0\0\0\0\0\0\0\0\0\0\0\0\0\0\0\0\0\0\0\0\0\0\0\0\0\0";

/// Puts the frame of this number, of those that have 64 bytes each from the start.
fn put_frame(bytes: &mut Vec<u8>, number: i32) -> Result<(), AllocError> {
    let mut frame = FILLED_UP;
    let offset = number.wrapping_rem(1_024).wrapping_mul(64);
    frame[8..12].copy_from_slice(&offset.to_le_bytes());
    let term_id = number.wrapping_div(1_024).wrapping_add(42);
    frame[20..24].copy_from_slice(&term_id.to_le_bytes());
    bytes.extend_from_slice(&frame)
}

/// Writes 1,040 frames of 64 bytes each.
fn store_frames(alloc: Global, disk: &mut MemoryDisk) -> Result<(), Fail> {
    let mut bytes = Vec::new(alloc);
    for number in 0..1_040 {
        put_frame(&mut bytes, number)?;
    }
    Ok(disk.write_at(FIRST, 0, &bytes)?)
}

/// What a walk to a position tells, and how many calls it makes.
fn walked(disk: &mut MemoryDisk, position: i64) -> Result<(bool, Option<u64>), Refusal> {
    let before = disk.calls();
    let is_one = told(disk, 66_560, position)?;
    Ok((is_one, disk.calls().checked_sub(before)))
}

/// Two calls for each window, and not two for each frame.
#[test]
fn a_walk_reads_each_window_once(rt: HostRuntime) -> Result<(), Fail> {
    let mut disk = MemoryDisk::new(rt.alloc());
    store_frames(rt.alloc(), &mut disk)?;
    for (position, calls) in [(0, 0), (64, 2), (65_536, 2), (65_600, 4), (66_560, 4)] {
        assert!(rt;
            walked(&mut disk, position) == Ok((true, Some(calls))),
            "{position}"
        );
    }
    Ok(())
}

/// Writes and syncs a block; a second one and its sync stop after so many changes.
fn tear(rt: &impl Abort, alloc: Global, disk: &mut MemoryDisk, stop: u64) -> Result<(), Refusal> {
    store(rt, alloc, disk, HELLO_AT_0)?;
    synced(disk)?;
    disk.stop_after(stop);
    let _ = store(rt, alloc, disk, HELLO_AT_64);
    let _ = synced(disk);
    Ok(())
}

/// What a crash by a choice leaves then.
fn left_torn(rt: &impl Abort, alloc: Global, stop: u64, choice: u8) -> Result<MemoryDisk, Refusal> {
    let mut disk = MemoryDisk::new(alloc);
    tear(rt, alloc, &mut disk, stop)?;
    disk.crash(&[choice])
}

/// Whether the frame at 0 is read.
pub(crate) fn is_hello_read(alloc: Global, disk: &mut MemoryDisk) -> Result<bool, Refusal> {
    let first = frame_at(alloc, disk, 0, 64)?;
    Ok(first.payload.as_slice() == b"hello".as_slice())
}

/// Whether it is, and 64 is a boundary; and whether the second block is found.
fn found(alloc: Global, disk: &mut MemoryDisk) -> Result<(bool, bool), Refusal> {
    let is_first = is_hello_read(alloc, disk)? && told(disk, 64, 64)?;
    Ok((is_first, frame_at(alloc, disk, 64, 128).is_ok()))
}

/// Where the changes stop and what the crash's choice is, and whether the second block is found.
const TORN: [(u64, u8, bool); 9] = [
    (0, 0, false),
    (0, 1, false),
    (0, 255, false),
    (1, 0, false),
    (1, 1, true),
    (1, 255, false),
    (2, 0, true),
    (2, 1, true),
    (2, 255, true),
];

/// The first block stands, and the second where it was synced or the choice kept it.
#[test]
fn synced_frames_stand_beside_a_torn_block(rt: HostRuntime) -> Result<(), Fail> {
    for (stop, choice, is_second) in TORN {
        let mut left = left_torn(&rt, rt.alloc(), stop, choice)?;
        assert!(rt; found(rt.alloc(), &mut left) == Ok((true, is_second)));
    }
    Ok(())
}

/// What is stale where recordings from 1 on are kept.
const GONE: [Keep; 1] = [Keep::Below { next: 1 }];

/// Whether the first segment is all that is stale.
fn is_first_stale(disk: &mut MemoryDisk) -> Result<bool, Refusal> {
    Ok(stale_files(disk, &GONE)?.as_slice() == [FIRST].as_slice())
}

/// Writes a block: whether a sweep removes its file where it is stale, and not where all are kept.
fn is_swept(rt: &impl Abort, alloc: Global, disk: &mut MemoryDisk) -> Result<bool, Refusal> {
    store(rt, alloc, disk, HELLO_AT_0)?;
    let is_kept = !sweep_one(disk, &[])?;
    let is_removed = is_first_stale(disk)? && sweep_one(disk, &GONE)?;
    Ok(is_kept && is_removed && disk.len(FIRST)? == 0)
}

/// A sweep removes the first stale file, and none if no file is stale.
#[test]
fn a_sweep_removes_the_first_stale_file(rt: HostRuntime) -> Result<(), Fail> {
    assert!(rt; is_swept(&rt, rt.alloc(), &mut MemoryDisk::new(rt.alloc()))?);
    Ok(())
}

/// `hello`, term 43, offset 96: at the start of the recording that starts mid-stream, 65,632.
const AT_THE_START: &[u8] =
    b"\x25\0\0\0\0\xc0\x01\0\x60\0\0\0\x07\0\0\0\xe9\x03\0\0\x2b\0\0\0\0\0\0\0\0\0\0\0hello";

/// `hello`, term 44, offset 65,472: the last frame of the first segment, at 196,544.
const IN_THE_FIRST: &[u8] =
    b"\x25\0\0\0\0\xc0\x01\0\xc0\xff\0\0\x07\0\0\0\xe9\x03\0\0\x2c\0\0\0\0\0\0\0\0\0\0\0hello";

/// `hello`, term 45, offset 0: the first frame of the second segment, at 196,608.
const IN_THE_SECOND: &[u8] =
    b"\x25\0\0\0\0\xc0\x01\0\0\0\0\0\x07\0\0\0\xe9\x03\0\0\x2d\0\0\0\0\0\0\0\0\0\0\0hello";

/// The files of the recording that starts mid-stream.
const MID_FIRST: FileId = FileId::Segment {
    recording: 0,
    base: 65_536,
};

const MID_SECOND: FileId = FileId::Segment {
    recording: 0,
    base: 196_608,
};

/// Writes the three frames of the recording that starts mid-stream.
#[tactic(auto, using(crate::proofs::SegmentFacts::layout_from_mid_stream))]
fn store_three(rt: &impl Abort, alloc: Global, disk: &mut MemoryDisk) -> Result<(), Refusal> {
    store_in(rt, alloc, disk, &MID_STREAM, AT_THE_START)?;
    store_in(rt, alloc, disk, &MID_STREAM, IN_THE_FIRST)?;
    store_in(rt, alloc, disk, &MID_STREAM, IN_THE_SECOND)
}

/// Whether they stand in two files.
fn hold_three(disk: &mut MemoryDisk) -> Result<bool, Fail> {
    Ok(
        stands_at(disk, MID_FIRST, 96, AT_THE_START)?
            && stands_at(disk, MID_FIRST, 131_008, IN_THE_FIRST)?
            && stands_at(disk, MID_SECOND, 0, IN_THE_SECOND)?
            && disk.list()?.len() == 2,
    )
}

/// A recording that starts mid-stream has its first segment file from the start of that term on, and each frame at its
/// offset.
#[test]
fn segments_of_a_recording_that_starts_mid_stream(rt: HostRuntime) -> Result<(), Fail> {
    let mut disk = MemoryDisk::new(rt.alloc());
    store_three(&rt, rt.alloc(), &mut disk)?;
    assert!(rt; hold_three(&mut disk)?);
    Ok(())
}

/// The base of the segment file of a position changes exactly where a segment ends.
#[test]
#[tactic(auto, using(crate::proofs::SegmentFacts::layout_from_mid_stream))]
fn bases_of_a_recording_that_starts_mid_stream(rt: HostRuntime) {
    assert!(rt; base_of(&MID_STREAM, 196_607) == 65_536);
    assert!(rt; base_of(&MID_STREAM, 196_608) == 196_608);
}
