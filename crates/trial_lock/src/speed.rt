//! What calls under a lock cost beside those of the engine alone: blocks that are each written and settled.

use crate::blocks::{LARGE_BLOCK, LONG_TERM, SMALL_BLOCK, fields, large_block, small_block};
use crate::crew::{Left, crewed, now, since};
use crate::folder::{disk_of, made};
use crate::text::{ask, asked};
use crate::work::{Plan, Work};
use archive_model::Reply;
use control_core::{Event, Request};
use disk_core::{Disk, MemoryDisk};
use engine_core::Engine;
use frame_core::{Block, Refusal};
use std::alloc::{AllocError, Global};
use std::io::Print;
use std::rt::Clock;
use std::sync::Wait;
use std::thread::Threads;

/// How many entries the history of an archive takes.
const LIMIT: u32 = 1_000_000;

/// What is written: blocks of nearly 64 KiB, or of 64 bytes, so many to a settle.
#[derive(Clone, Copy)]
pub(crate) struct Load {
    pub is_large: bool,
    pub blocks: u32,
    pub to_a_settle: u32,
}

/// Microseconds that so many blocks take: by the engine alone (`engine`), under a lock by one thread (`call`; `counted`
/// where calls are counted alone), or by four threads that each write so many (`four`). The disk is `memory` or a folder.
pub(crate) fn measured<R: Threads + Wait + Clock + Print + Sync>(
    rt: &R,
    host: HostRuntime,
    how: &str,
    disk: &str,
    load: Load,
) -> Result<u128, Refusal> {
    if disk == "memory" {
        let disk = MemoryDisk::new(host.alloc());
        return timed(rt, host.alloc(), how, disk, load);
    }
    timed(rt, host.alloc(), how, disk_of(host, disk)?, load)
}

fn timed<D: Disk + Drop + Send, R: Threads + Wait + Clock + Print + Sync>(
    rt: &R,
    alloc: Global,
    how: &str,
    disk: D,
    load: Load,
) -> Result<u128, Refusal> {
    match made(alloc, disk, LIMIT) {
        Ok(engine) => timed_on(rt, alloc, how, engine, load),
        Err(refusal) => Err(refusal),
    }
}

/// The same on a new archive.
fn timed_on<D: Disk + Drop + Send, R: Threads + Wait + Clock + Print + Sync>(
    rt: &R,
    alloc: Global,
    how: &str,
    mut engine: Engine<D>,
    load: Load,
) -> Result<u128, Refusal> {
    let (keeps, threads) = match how {
        "engine" => return alone(rt, alloc, &mut engine, load),
        "call" => (true, 1),
        "counted" => (false, 1),
        _ => (true, 4),
    };
    took_of(crewed(rt, alloc, engine, keeps, threads, Plan::Speed(load)))
}

/// How long the threads worked, where each call was answered Ok.
fn took_of<D: Disk + Drop>(left: Result<Left<D>, Refusal>) -> Result<u128, Refusal> {
    match left {
        Ok(left) if are_right(left.works.as_slice()) => left.took.ok_or(Refusal::DeviceFault),
        Ok(_) => Err(Refusal::BadLine),
        Err(refusal) => Err(refusal),
    }
}

/// Whether the calls of each were answered Ok.
fn are_right(works: &[Work]) -> bool {
    for work in works {
        if !work.is_right {
            return false;
        }
    }
    true
}

/// The block of a load that begins there.
fn block_at(alloc: Global, load: Load, index: i64) -> Result<Block, AllocError> {
    if load.is_large {
        large_block(alloc, index.wrapping_mul(LARGE_BLOCK))
    } else {
        small_block(alloc, LONG_TERM, index.wrapping_mul(SMALL_BLOCK), 0)
    }
}

/// The calls of a session.
pub(crate) fn events_of(alloc: Global, session: i64, load: Load) -> Result<Vec<Event>, AllocError> {
    let mut events = Vec::new(alloc);
    for index in 0..load.blocks {
        let block = block_at(alloc, load, i64::from(index))?;
        events.push(Event::Write { session, block })?;
        if index.wrapping_add(1).checked_rem(load.to_a_settle) == Some(0) {
            events.push(Event::Settle { session })?;
        }
    }
    Ok(events)
}

/// Asks for a recording of long terms.
pub(crate) fn start(alloc: Global) -> Result<Event, AllocError> {
    Ok(Event::Ask(Request::Start(fields(alloc, LONG_TERM)?)))
}

/// The session that a start was answered by; one that is none where it was refused.
pub(crate) fn session_of(answer: Result<Reply, Refusal>) -> i64 {
    match answer {
        Ok(Reply::Started { session, .. }) => session,
        _ => -1,
    }
}

/// The engine alone.
fn alone<D: Disk, R: Clock>(
    rt: &R,
    alloc: Global,
    engine: &mut Engine<D>,
    load: Load,
) -> Result<u128, Refusal> {
    let session = session_of(asked(alloc, engine, start(alloc)?));
    let events = events_of(alloc, session, load)?;
    let begun = now(rt);
    let is_right = are_accepted(alloc, engine, events.as_slice());
    let took = since(rt, begun);
    drop(events);
    if is_right {
        took.ok_or(Refusal::DeviceFault)
    } else {
        Err(Refusal::BadLine)
    }
}

/// Makes calls, up to the first that is not answered Ok. Whether each was.
fn are_accepted<D: Disk>(alloc: Global, engine: &mut Engine<D>, events: &[Event]) -> bool {
    for event in events {
        if ask(alloc, engine, event).is_err() {
            return false;
        }
    }
    true
}
