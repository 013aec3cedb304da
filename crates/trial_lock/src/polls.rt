//! What polls of the engine cost: replays of the first recording of a folder, one after another.

use crate::crew::{now, since};
use crate::folder::{disk_of, opened};
use crate::text::{asked, open_replay};
use archive_model::Reply;
use control_core::Event;
use disk_core::Disk;
use engine_core::Engine;
use frame_core::Refusal;
use std::alloc::Global;
use std::rt::Clock;

/// How many frames so many replays gave from the start of the recording to its end, by polls of at most so many; and how many
/// microseconds they took.
pub(crate) fn replayed<R: Clock>(
    rt: &R,
    host: HostRuntime,
    folder: &str,
    replays: u32,
    most: u32,
) -> Result<(u64, u128), Refusal> {
    let alloc = host.alloc();
    let mut engine = opened(alloc, disk_of(host, folder)?)?;
    let begun = now(rt);
    let frames = frames_in_all(alloc, &mut engine, replays, i64::from(most));
    let took = since(rt, begun);
    drop(engine);
    Ok((frames?, took.ok_or(Refusal::DeviceFault)?))
}

/// How many frames so many replays give.
fn frames_in_all<D: Disk>(
    alloc: Global,
    engine: &mut Engine<D>,
    replays: u32,
    most: i64,
) -> Result<u64, Refusal> {
    let mut frames = 0u64;
    for _ in 0..replays {
        frames = frames.saturating_add(frames_of(alloc, engine, most)?);
    }
    Ok(frames)
}

/// How many frames a poll gives, and whether the replay is done.
fn count_of(reply: Reply) -> Result<(u64, bool), Refusal> {
    match reply {
        Reply::Polled { frames, next } => Ok((frames.as_slice().len() as u64, next.is_none())),
        _ => Err(Refusal::BadLine),
    }
}

/// How many frames a replay gives.
fn frames_of<D: Disk>(alloc: Global, engine: &mut Engine<D>, most: i64) -> Result<u64, Refusal> {
    let replay = open_replay(alloc, engine, 0)?;
    let mut count = 0u64;
    for _ in 0..u64::MAX {
        let polled = asked(alloc, engine, Event::ReplayPoll { replay, max: most });
        let (frames, is_done) = count_of(polled?)?;
        count = count.saturating_add(frames);
        if is_done {
            break;
        }
    }
    asked(alloc, engine, Event::ReplayClose { replay })?;
    Ok(count)
}
