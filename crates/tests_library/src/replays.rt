//! Replays over segment files, and recorder sessions: docs/CONTROL.md, "Replays" and "Recorder sessions", by example.

use crate::pages::{Paged, polled, with_room};
use crate::segments::store;
use crate::vectors::{HELLO_AT_0, HELLO_AT_64, HELLO_AT_128};
use frame_core::Refusal;
use replay_core::Replay;
use std::alloc::Global;
use std::process::Abort;
use std::test::Fail;

/// Stores three frames of 64 bytes. No page of them lies whole below what is recorded, so a frame is a call of the disk.
fn store_three(rt: &impl Abort, alloc: Global, paged: &mut Paged) -> Result<(), Refusal> {
    store(rt, alloc, &mut paged.disk, HELLO_AT_0)?;
    store(rt, alloc, &mut paged.disk, HELLO_AT_64)?;
    store(rt, alloc, &mut paged.disk, HELLO_AT_128)
}

/// A disk with these.
fn three_hellos(rt: &impl Abort, alloc: Global) -> Result<Paged, Refusal> {
    let mut paged = with_room(alloc, 256)?;
    store_three(rt, alloc, &mut paged).and(Ok(paged))
}

/// Whether a poll gives the last two of them.
fn gives_two(
    rt: &impl Abort,
    alloc: Global,
    paged: &mut Paged,
    replay: &mut Replay,
) -> Result<bool, Refusal> {
    let frames = polled(rt, alloc, paged, replay, 192, 10)?;
    Ok(matches!(frames.as_slice(), [one, two] if one.term_offset == 64 && two.term_offset == 128))
}

/// A replay with a length ends with the frame in which its last byte is, and each frame that it gives costs one disk
/// call.
#[test]
fn bounded_part_of_a_recording(rt: HostRuntime) -> Result<(), Fail> {
    let mut paged = three_hellos(&rt, rt.alloc())?;
    let mut replay = Replay::new(0, 64, 65);
    assert!(rt; gives_two(&rt, rt.alloc(), &mut paged, &mut replay)?);
    assert!(rt; replay.is_done(192, true) && paged.disk.calls() == 5);
    Ok(())
}

/// Where the next frame begins behind each of three polls of a frame of 128 bytes that are recorded.
fn check_next(
    rt: &impl Abort,
    alloc: Global,
    paged: &mut Paged,
    replay: &mut Replay,
) -> Result<(), Refusal> {
    for next in [64, 128, 128] {
        let _ = polled(rt, alloc, paged, replay, 128, 1)?;
        assert!(rt; replay.next_position() == next);
    }
    Ok(())
}

/// A replay of an active recording stops at the recorded position, and is done once the recording is stopped.
#[test]
fn polls_up_to_the_recorded_position(rt: HostRuntime) -> Result<(), Fail> {
    let mut paged = three_hellos(&rt, rt.alloc())?;
    let mut replay = Replay::new(0, 0, -1);
    check_next(&rt, rt.alloc(), &mut paged, &mut replay)?;
    assert!(rt; !replay.is_done(128, true) && replay.is_done(128, false));
    Ok(())
}

/// Polls two frames, again where memory is refused, which has changed nothing.
fn poll_again(
    rt: &impl Abort,
    alloc: Global,
    paged: &mut Paged,
    replay: &mut Replay,
) -> Result<(), Refusal> {
    if polled(rt, alloc, paged, replay, 192, 2).is_err() {
        assert!(rt; replay.next == 0);
        let _ = polled(rt, alloc, paged, replay, 192, 2)?;
    }
    Ok(())
}

/// If memory is refused once, the replay stays where it is, and the poll may be made again.
#[test]
fn refused_memory_leaves_a_replay(rt: HostRuntime) -> Result<(), Fail> {
    let mut paged = match three_hellos(&rt, rt.alloc()) {
        Err(_) => three_hellos(&rt, rt.alloc())?,
        Ok(paged) => paged,
    };
    let mut replay = Replay::new(0, 0, -1);
    poll_again(&rt, rt.alloc(), &mut paged, &mut replay)?;
    assert!(rt; replay.next == 128);
    Ok(())
}
