//! Polls through pages: docs/STORAGE.md, "Pages", by example.

use crate::segments::{FIRST, GEOMETRY, LAYOUT, frame_at, store};
use crate::vectors::{HELLO_AT_0, HELLO_IN_NEXT_TERM, PAD_OF_TERM};
use disk_core::{Disk, MemoryDisk};
use frame_core::{Frame, Items, Refusal, decode_front, encode_into};
use replay_core::{PageCache, Replay, Store};
use std::alloc::Global;
use std::process::Abort;
use std::test::Fail;

/// A disk, and the pages of it that are kept, each for its generation of segment files.
#[derive(Drop)]
pub(crate) struct Paged {
    pub(crate) disk: MemoryDisk,
    pages: PageCache,
    generation: u64,
}

/// A disk with no file, and room for so many pages.
pub(crate) fn with_room(alloc: Global, capacity: usize) -> Result<Paged, Refusal> {
    Ok(Paged {
        disk: MemoryDisk::new(alloc),
        pages: PageCache::new(alloc, capacity)?,
        generation: 0,
    })
}

/// Polls a replay of the recording: as many frames as there are, but no more than so many.
#[tactic(auto, using(crate::proofs::SegmentFacts::layout_of_the_tests, crate::proofs::SegmentFacts::geometry_of_the_tests))]
pub(crate) fn polled(
    rt: &impl Abort,
    alloc: Global,
    paged: &mut Paged,
    replay: &mut Replay,
    recorded: i64,
    most: usize,
) -> Result<Vec<Frame>, Refusal> {
    assert!(rt; replay.next >= 0);
    let mut store = Store {
        disk: &mut paged.disk,
        pages: &mut paged.pages,
        layout: LAYOUT,
        geometry: GEOMETRY,
        generation: paged.generation,
    };
    replay.poll(alloc, &mut store, recorded, most)
}

/// What a replay from the start gives.
fn replayed(
    rt: &impl Abort,
    alloc: Global,
    paged: &mut Paged,
    recorded: i64,
) -> Result<Vec<Frame>, Refusal> {
    polled(
        rt,
        alloc,
        paged,
        &mut Replay::new(0, 0, -1),
        recorded,
        1_000,
    )
}

/// How many frames that are, and how many calls of the disk it makes.
fn counted(
    rt: &impl Abort,
    alloc: Global,
    paged: &mut Paged,
    recorded: i64,
) -> Result<(usize, u64), Refusal> {
    let before = paged.disk.calls();
    let count = replayed(rt, alloc, paged, recorded)?.len();
    Ok((count, paged.disk.calls().wrapping_sub(before)))
}

/// The frame of this number, of those that take 96 bytes each from the start: it carries 58 times a byte.
fn frame_of(alloc: Global, number: u8, byte: u8) -> Result<Frame, Refusal> {
    let (found, _) = decode_front(HELLO_AT_0)?;
    let mut frame = found.to_frame(alloc)?;
    frame.length = 90;
    frame.term_offset = i32::from(number).wrapping_mul(96);
    frame.payload = Items::from_vec(vec![in alloc; byte; 58]?);
    Ok(frame)
}

/// Writes it.
fn put(
    rt: &impl Abort,
    alloc: Global,
    disk: &mut MemoryDisk,
    number: u8,
    byte: u8,
) -> Result<(), Refusal> {
    let frame = frame_of(alloc, number, byte)?;
    let mut bytes = [0; 96];
    assert!(rt; frame.is_encodable() && frame.encoded_length() <= bytes.len());
    encode_into(&frame, &mut bytes);
    disk.write_at(FIRST, u64::from(number).wrapping_mul(96), &bytes)?;
    Ok(())
}

/// Where the last of 130 such frames ends. 128 of them lie in three pages, two of these over the end of one.
pub(crate) const END: i64 = 12_480;

/// A disk with these, and room for so many pages.
pub(crate) fn stored(rt: &impl Abort, alloc: Global, capacity: usize) -> Result<Paged, Refusal> {
    let mut paged = with_room(alloc, capacity)?;
    for number in 0..130u8 {
        put(rt, alloc, &mut paged.disk, number, number)?;
    }
    Ok(paged)
}

/// Whether the last of two frames that a replay gives is `hello`.
fn ends_with_hello(frames: &[Frame]) -> bool {
    matches!(frames, [_, last] if last.payload.as_slice() == b"hello".as_slice())
}

/// Whether a pad of a term and the block behind it are replayed, each by a call of the disk.
fn goes_on(rt: &impl Abort, alloc: Global, paged: &mut Paged) -> Result<bool, Refusal> {
    store(rt, alloc, &mut paged.disk, PAD_OF_TERM)?;
    let is_kept = counted(rt, alloc, paged, 65_536)? == (1, 1)
        && counted(rt, alloc, paged, 65_536)? == (1, 0);
    store(rt, alloc, &mut paged.disk, HELLO_IN_NEXT_TERM)?;
    let before = paged.disk.calls();
    let is_hello = ends_with_hello(&replayed(rt, alloc, paged, 65_600)?);
    Ok(is_kept && is_hello && paged.disk.calls().wrapping_sub(before) == 1)
}

/// The pad's file has 32 bytes as its page is kept, and a block grows the file over that page's range.
#[test]
fn a_pad_of_a_term_and_the_block_behind_it(rt: HostRuntime) -> Result<(), Fail> {
    let mut paged = with_room(rt.alloc(), 256)?;
    assert!(rt; goes_on(&rt, rt.alloc(), &mut paged)?);
    Ok(())
}

/// Whether two frames are the same.
fn is_same(one: &Frame, other: &Frame) -> bool {
    one.header() == other.header() && one.payload.as_slice() == other.payload.as_slice()
}

/// Whether these are the frames that the disk has from the start on.
fn are_of_disk(alloc: Global, disk: &mut MemoryDisk, frames: &[Frame]) -> Result<bool, Refusal> {
    let mut at = 0u32;
    for frame in frames {
        if !is_same(frame, &frame_at(alloc, disk, at, END)?) {
            return Ok(false);
        }
        at = at.wrapping_add(96);
    }
    Ok(frames.len() == 130)
}

/// How many calls of the disk a replay of all makes, if it gives the disk's frames.
fn compared(rt: &impl Abort, alloc: Global, paged: &mut Paged) -> Result<u64, Refusal> {
    let before = paged.disk.calls();
    let frames = replayed(rt, alloc, paged, END)?;
    let calls = paged.disk.calls().wrapping_sub(before);
    assert!(rt; are_of_disk(alloc, &mut paged.disk, frames.as_slice())?);
    Ok(calls)
}

/// Whether a replay of all makes so many calls, and a second one so many.
fn is_read_by(
    rt: &impl Abort,
    alloc: Global,
    capacity: usize,
    calls: (u64, u64),
) -> Result<bool, Refusal> {
    let mut paged = stored(rt, alloc, capacity)?;
    Ok(
        (
            compared(rt, alloc, &mut paged)?,
            compared(rt, alloc, &mut paged)?,
        ) == calls,
    )
}

/// Three pages are read by one call, or one by one if one of them is kept. Each of the two frames after them is a call,
/// again in each replay.
#[test]
fn frames_through_pages_are_those_of_the_disk(rt: HostRuntime) -> Result<(), Fail> {
    assert!(rt; is_read_by(&rt, rt.alloc(), 256, (3, 2))?);
    assert!(rt; is_read_by(&rt, rt.alloc(), 1, (5, 5))?);
    Ok(())
}

/// How many calls a replay of all makes with the pages of each generation.
const GENERATIONS: [(u64, u64); 6] = [
    (0, 3),
    (1, 3),
    (0, 2),
    (1, 2),
    (u64::MAX, 130),
    (u64::MAX, 130),
];

/// These are made.
fn check_generations(rt: &impl Abort, alloc: Global, paged: &mut Paged) -> Result<(), Refusal> {
    for (generation, calls) in GENERATIONS {
        paged.generation = generation;
        assert!(rt;
            counted(rt, alloc, paged, END)? == (130, calls),
            "{generation}"
        );
    }
    Ok(())
}

/// Each generation has its own pages, but the last one, which keeps none.
#[test]
fn generations_of_pages(rt: HostRuntime) -> Result<(), Fail> {
    check_generations(&rt, rt.alloc(), &mut stored(&rt, rt.alloc(), 256)?)?;
    assert!(rt; PageCache::new(rt.alloc(), 0).err() == Some(Refusal::BadParameter));
    Ok(())
}

/// Writes the frame of this number and another one past it, and polls up to the first one's end: whether that alone is given.
fn follows(
    rt: &impl Abort,
    alloc: Global,
    paged: &mut Paged,
    replay: &mut Replay,
    number: u8,
) -> Result<bool, Refusal> {
    put(rt, alloc, &mut paged.disk, number, number)?;
    put(rt, alloc, &mut paged.disk, number.wrapping_add(1), 255)?;
    let recorded = i64::from(number).wrapping_add(1).wrapping_mul(96);
    let frames = polled(rt, alloc, paged, replay, recorded, 1_000)?;
    Ok(matches!(frames.as_slice(), [frame] if frame.payload.as_slice().first() == Some(&number)))
}

/// A page is kept only once it lies whole below what is recorded. So a replay that is polled after each frame gives each
/// one, though other bytes were there before.
#[test]
fn what_is_not_recorded_may_change(rt: HostRuntime) -> Result<(), Fail> {
    let mut paged = with_room(rt.alloc(), 256)?;
    let mut replay = Replay::new(0, 0, -1);
    for number in 0..100u8 {
        assert!(rt;
            follows(&rt, rt.alloc(), &mut paged, &mut replay, number)?,
            "{number}"
        );
    }
    Ok(())
}

/// How many frames a poll of all gives, once more where memory is refused, which has changed nothing.
fn polled_again(
    rt: &impl Abort,
    alloc: Global,
    paged: &mut Paged,
    replay: &mut Replay,
) -> Result<usize, Refusal> {
    match polled(rt, alloc, paged, replay, END, 1_000) {
        Ok(frames) => Ok(frames.len()),
        Err(refusal) => {
            assert!(rt; refusal == Refusal::NoMemory && replay.next == 0);
            Ok(polled(rt, alloc, paged, replay, END, 1_000)?.len())
        }
    }
}

/// If memory is refused once, a poll gives the frames, or it is NoMemory and may be made again from where it was.
#[test]
fn refused_memory_of_a_poll_through_pages(rt: HostRuntime) -> Result<(), Fail> {
    let alloc = rt.alloc();
    let mut paged = match stored(&rt, alloc, 2) {
        Err(_) => stored(&rt, alloc, 2)?,
        Ok(paged) => paged,
    };
    let mut replay = Replay::new(0, 0, -1);
    assert!(rt; polled_again(&rt, alloc, &mut paged, &mut replay)? == 130 && replay.next == END);
    Ok(())
}
