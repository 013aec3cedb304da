//! Turns of a bounded replayer that are refused over damage, and for want of memory: docs/ARCHITECTURE.md, "The board".

use crate::agents::block_of;
use crate::archives::{Scenario, played, played_again};
use crate::held_back::Pair;
use crate::left::Then;
use archive_lock::{Naming, SharedArchive};
use control_core::Event;
use control_lines::{Line, parse_line};
use disk_core::{Disk, FileId, MemoryDisk};
use engine_core::Engine;
use frame_core::Refusal;
use recorder_seats::Turn;
use std::alloc::Global;
use std::process::Abort;
use std::sync::Wait;
use std::test::Fail;

/// A bounded replayer's turn over a damaged frame is Damaged, each time, and each is one call.
#[test]
fn a_turn_over_damage(rt: HostRuntime) -> Result<(), Fail> {
    played(&rt, rt.alloc(), true, Scenario::DamagedTurn)
}

/// A turn that finds no memory is no call, and another one gives what it would have: `trials/refused_memory.py` refuses one
/// request of each run.
#[test]
fn refused_memory_leaves_a_turn(rt: HostRuntime) -> Result<(), Fail> {
    played_again(&rt, rt.alloc(), true, Scenario::TurnAgain)
}

/// An archive with an ended recording of two frames, which was opened again, and a replay of it. The first frame's header has
/// another term offset, if it is to be damaged.
pub(crate) fn reopened(alloc: Global, is_damaged: bool) -> Result<Engine<MemoryDisk>, Refusal> {
    let mut disk = recorded(alloc)?;
    if is_damaged && !is_turned(&mut disk) {
        return Err(Refusal::DeviceFault);
    }
    match Engine::open(alloc, disk) {
        Ok((engine, _)) => replaying(alloc, engine),
        Err(refused) => Err(refused.refusal),
    }
}

/// Whether the first frame was damaged, on the disk too.
fn is_turned(disk: &mut MemoryDisk) -> bool {
    let file = FileId::Segment {
        recording: 0,
        base: 0,
    };
    disk.write_at(file, 8, &[32]).is_ok() && disk.sync(file).is_ok()
}

fn recorded(alloc: Global) -> Result<MemoryDisk, Refusal> {
    let mut engine = match Engine::create(alloc, MemoryDisk::new(alloc), 64) {
        Ok(engine) => engine,
        Err(refused) => return Err(refused.refusal),
    };
    let done = record(alloc, &mut engine);
    done.and(Ok(engine.into_disk()))
}

fn record(alloc: Global, engine: &mut Engine<MemoryDisk>) -> Result<(), Refusal> {
    obey(alloc, engine, "start 1001 7 42 65536 1408 65536 0 1000 c")?;
    write(alloc, engine, 0)?;
    write(alloc, engine, 64)?;
    obey(alloc, engine, "settle 0")?;
    obey(alloc, engine, "stop 0 2000")
}

fn replaying(alloc: Global, engine: Engine<MemoryDisk>) -> Result<Engine<MemoryDisk>, Refusal> {
    let mut engine = engine;
    let done = obey(alloc, &mut engine, "replay 0 0 -1");
    done.and(Ok(engine))
}

fn obey(alloc: Global, engine: &mut Engine<MemoryDisk>, line: &str) -> Result<(), Refusal> {
    match parse_line(alloc, line.as_bytes())? {
        Line::Event(event) => step(alloc, engine, &event),
        _ => Err(Refusal::BadLine),
    }
}

fn write(alloc: Global, engine: &mut Engine<MemoryDisk>, offset: i32) -> Result<(), Refusal> {
    let block = block_of(alloc, 7, offset)?;
    step(alloc, engine, &Event::Write { session: 0, block })
}

fn step(alloc: Global, engine: &mut Engine<MemoryDisk>, event: &Event) -> Result<(), Refusal> {
    match engine.step(alloc, event) {
        Ok(_) => Ok(()),
        Err(refusal) => Err(refusal),
    }
}

/// Each turn over damage says so, and gains its call.
pub(crate) fn turn_over_damage<D: Disk, A: Naming, R: Wait + Abort>(
    rt: &R,
    alloc: Global,
    archive: &SharedArchive<D, A>,
    pair: &mut Pair<A>,
) -> Result<Then, Fail> {
    let damage = "Damaged { recording: 0, position: 0 }";
    pair.gives(rt, alloc, archive, 10, damage)?;
    pair.gives(rt, alloc, archive, 10, damage)?;
    Ok(Then::Calls(2))
}

/// A turn, which is made again if it finds no memory, is one call, and gives both frames.
pub(crate) fn turn_again<D: Disk, A: Naming, R: Wait + Abort>(
    rt: &R,
    alloc: Global,
    archive: &SharedArchive<D, A>,
    pair: &mut Pair<A>,
) -> Result<Then, Fail> {
    assert!(rt; is_whole(&made_again(rt, alloc, archive, pair)));
    Ok(Then::Calls(1))
}

fn made_again<D: Disk, A: Naming, R: Wait>(
    rt: &R,
    alloc: Global,
    archive: &SharedArchive<D, A>,
    pair: &mut Pair<A>,
) -> Result<Turn, Refusal> {
    match pair.take_turn(rt, alloc, archive, 10) {
        Err(Refusal::NoMemory) => pair.take_turn(rt, alloc, archive, 10),
        turn => turn,
    }
}

fn is_whole(turn: &Result<Turn, Refusal>) -> bool {
    match turn {
        Ok(turn) => turn.seen == 128 && turn.frames.len() == 2 && turn.ended,
        Err(_) => false,
    }
}
