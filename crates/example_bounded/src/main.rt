//! A log and a data archive, each under its own lock, and a replayer of the data that never runs ahead of the log. It prints
//! after each turn how far the log is durable and how many frames the turn gave.
#![tactic(auto)]

ghost use Rattle.std.specs.Prelude.{◌≡◌, ◌<◌, [], IfSome};
ghost use Rattle.call_history.specs.Passes.{new_passes};
ghost use Rattle.position_board.specs.Positions.{seen_at};
ghost use Rattle.archive_lock.specs.Held.{engine_seen, view_of};
ghost use Rattle.example_bounded.specs.Followed.{HandedOutBefore, IsDurablyFollowed};

use anyhow::{Context, Result};
use archive_lock::{Closed, Made, Naming, SharedArchive};
use archive_model::Reply;
use call_history::{Opened, Pass, Stored};
use control_core::Event;
use control_lines::{Line, parse_line};
use disk_core::{Disk, MemoryDisk};
use engine_core::Engine;
use frame_core::{Block, Frame, FrameKind, Items};
use position_board::{Board, Reader};
use recorder_seats::laws::{passes_keep_their_numbers, what_is_handed_out_is_durable};
use recorder_seats::{BoundedReplayer, RecorderSeat, Turn};
use std::alloc::{AllocError, Global};
use std::io::Print;
use std::marker::Brand;
use std::sync::Wait;

/// Begins a recording of stream 1,001, session 7, from term 42 on.
const START: &str = "start 1001 7 42 65536 1408 65536 0 1000 c";
/// Opens a replay of what is recorded from 0 to 384.
const REPLAY: &str = "replay 0 0 384";
/// Where the recorded blocks begin, each of two frames of 64 bytes of its stream.
const POSITIONS: [i64; 3] = [0, 128, 256];

/// A board, and what calls both archives: the recorder of the log, and the replayer and the recorder of the data.
#[derive(Drop)]
struct Seats {
    board: Board,
    recorder: RecorderSeat,
    replayer: BoundedReplayer,
    pass: Pass<Made>,
}

/// A recorder of the log, what the replayer's reader saw of it, and what the replayer's turns gave.
#[derive(Drop)]
struct Followed {
    recorder: RecorderSeat,
    reader: Reader,
    turns: Vec<Turn>,
}

fn main(rt: HostRuntime) -> Result<()> {
    let log = made(rt.alloc(), &[START]).context("no log was made")?;
    let archive = made(rt.alloc(), &[START, REPLAY]).context("no data archive was made")?;
    opened(&rt, rt.alloc(), log, archive).context("something was refused")
}

/// An archive in memory that has accepted these lines.
fn made(alloc: Global, lines: &[&str]) -> Option<Engine<MemoryDisk>> {
    let mut engine = Engine::create(alloc, MemoryDisk::new(alloc), 64).ok()?;
    for line in lines {
        let Ok(Line::Event(event)) = parse_line(alloc, line.as_bytes()) else {
            return None;
        };
        if engine.step(alloc, &event).is_err() {
            return None;
        }
    }
    Some(engine)
}

/// Opens a history of the calls of each archive, by which it is named.
fn opened<D: Disk + Drop, R: Wait + Print>(
    rt: &R,
    alloc: Global,
    log: Engine<D>,
    archive: Engine<D>,
) -> Option<()> {
    let of_log = Opened::new(alloc, false).ok()?;
    let of_archive = Opened::new(alloc, false).ok()?;
    shared::<D, Brand, Brand, R>(rt, alloc, of_log, log, of_archive, archive)
}

fn shared<D: Disk + Drop, L: Naming, A: Naming, R: Wait + Print>(
    rt: &R,
    alloc: Global,
    of_log: Opened<Made>,
    log: Engine<D>,
    of_archive: Opened<Made>,
    archive: Engine<D>,
) -> Option<()>
    requires log { (of_log.table ≡ L.table) × (L.passes ≡ 1) × (of_log.keeps ≡ L.keeps)
        × (engine_seen D.life (view_of log []) ≡ L.opening) }
    requires archive { (of_archive.table ≡ A.table) × (A.passes ≡ 2) × (of_archive.keeps ≡ A.keeps)
        × (engine_seen D.life (view_of archive []) ≡ A.opening) }
{
    let Ok((log, log_passes)) = SharedArchive::<D, L>::new(alloc, of_log, log, 1) else {
        return None;
    };
    let Ok((archive, passes)) = SharedArchive::<D, A>::new(alloc, of_archive, archive, 2) else {
        return None;
    };
    let Seats {
        board,
        recorder,
        replayer,
        pass,
    } = seats_of::<L, A>(alloc, log_passes, passes)?;
    record_all(rt, alloc, &archive, pass)?;
    let followed = follow(rt, alloc, &log, &archive, &board, recorder, replayer)?;
    let closed = close_log(alloc, log, &board, followed)?;
    println!(rt; "the log is closed, with {} calls", calls_in(&closed)).ok()
}

/// A board of one slot that starts at 0, and what calls both archives.
fn seats_of<L: Naming, A: Naming>(
    alloc: Global,
    mut log_passes: Vec<Pass<Made>>,
    mut passes: Vec<Pass<Made>>,
) -> Option<Seats>
    requires log { log_passes.items ≡ new_passes L.table 1 }
    requires archive { passes.items ≡ new_passes A.table 2 }
    ensures slots { IfSome result (λ seats. 0 < seats.board.words) }
    ensures recorder { IfSome result (λ seats. (seats.recorder.pass.table ≡ L.table)
        × (seats.recorder.pass.number ≡ 0)
        × (seats.recorder.writer.table ≡ seats.board) × (seats.recorder.writer.slot ≡ 0)) }
    ensures replayer { IfSome result (λ seats. (seats.replayer.pass.table ≡ A.table)
        × (seats.replayer.reader.table ≡ seats.board) × (seats.replayer.slot ≡ 0)) }
    ensures pass { IfSome result (λ seats. seats.pass.table ≡ A.table) }
{
    let Ok((board, mut writers, mut readers)) = Board::new(alloc, &[0], 1) else {
        return None;
    };
    let (Some(writer), Some(reader)) = (writers.pop(), readers.pop()) else {
        return None;
    };
    let (Some(log), Some(replay), Some(pass)) = (log_passes.pop(), passes.pop(), passes.pop())
    else {
        return None;
    };
    Some(Seats {
        board,
        recorder: RecorderSeat::new(0, log, writer),
        replayer: BoundedReplayer::new(replay, 0, reader, 0),
        pass,
    })
}

/// Records all blocks in the data archive, before the log has any of them.
fn record_all<D: Disk, A: Naming, R: Wait + Print>(
    rt: &R,
    alloc: Global,
    archive: &SharedArchive<D, A>,
    mut pass: Pass<Made>,
) -> Option<()>
    requires { pass.table ≡ A.table }
{
    for position in POSITIONS {
        let block = block_at(alloc, position).ok()?;
        let write = Event::Write { session: 0, block };
        if archive.call(rt, alloc, &mut pass, &write).is_err() {
            return None;
        }
    }
    let settle = Event::Settle { session: 0 };
    match archive.call(rt, alloc, &mut pass, &settle) {
        Ok(Reply::Settled { position }) => {
            println!(rt; "the data archive is recorded to {position}").ok()
        }
        _ => None,
    }
}

/// The block of two frames at a position.
fn block_at(alloc: Global, position: i64) -> Result<Block, AllocError> {
    let mut frames = Items::new(alloc);
    for offset in [0, 64] {
        frames.push(Frame {
            kind: FrameKind::Message,
            flags: 0xC0,
            length: 37,
            term_offset: i32::try_from(position.saturating_add(offset)).unwrap_or(0),
            session_id: 7,
            stream_id: 1_001,
            term_id: 42,
            reserved: 0,
            payload: Items::from_vec(b"hello".to_vec(alloc)?),
        })?;
    }
    Ok(Block { position, frames })
}

/// Records the log block by block, with a turn of the replayer before each block, and one after the last.
fn follow<D: Disk, L: Naming, A: Naming, R: Wait + Print>(
    rt: &R,
    alloc: Global,
    log: &SharedArchive<D, L>,
    archive: &SharedArchive<D, A>,
    board: &Board,
    mut recorder: RecorderSeat,
    mut replayer: BoundedReplayer,
) -> Option<Followed>
    requires slots { 0 < board.now.words }
    requires recorder { (recorder.pass.table ≡ L.table) × (recorder.pass.number ≡ 0)
        × (recorder.writer.table ≡ board.now) × (recorder.writer.slot ≡ 0) }
    requires replayer { (replayer.pass.table ≡ A.table) × (replayer.reader.table ≡ board.now)
        × (replayer.slot ≡ 0) }
    ensures recorder { IfSome result (λ f. (f.recorder.pass.table ≡ L.table)
        × (f.recorder.pass.number ≡ 0)
        × (f.recorder.writer.table ≡ board.now) × (f.recorder.writer.slot ≡ 0)) }
    ensures reader { IfSome result (λ f. f.reader.table ≡ board.now) }
    ensures below { IfSome result (λ f. HandedOutBefore (seen_at 0 f.reader) f.turns.items) }
{
    let mut turns = Vec::new(alloc);
    for position in POSITIONS {
        take_turn(rt, alloc, archive, board, &mut replayer, &mut turns)?;
        record(rt, alloc, log, board, &mut recorder, position)?;
    }
    take_turn(rt, alloc, archive, board, &mut replayer, &mut turns)?;
    let (_, reader) = replayer.into_parts();
    Some(Followed {
        recorder,
        reader,
        turns,
    })
}

/// Writes the block of a position to the log, and settles it, which raises the recorder's slot.
fn record<D: Disk, L: Naming, R: Wait>(
    rt: &R,
    alloc: Global,
    log: &SharedArchive<D, L>,
    board: &Board,
    recorder: &mut RecorderSeat,
    position: i64,
) -> Option<()>
    requires pass { recorder.old.pass.table ≡ L.table }
    requires writer { recorder.old.writer.table ≡ board.now }
    ensures pass { recorder.new.pass.table ≡ L.table }
    ensures number { recorder.new.pass.number ≡ recorder.old.pass.number }
    ensures writer { recorder.new.writer.table ≡ board.now }
    ensures slot { recorder.new.writer.slot ≡ recorder.old.writer.slot }
{
    let block = block_at(alloc, position).ok()?;
    if recorder.write(rt, alloc, log, block).is_err()
        || recorder.settle(rt, alloc, log, board).is_err()
    {
        return None;
    }
    Some(())
}

/// One turn of the replayer, which is printed and kept.
fn take_turn<D: Disk, A: Naming, R: Wait + Print>(
    rt: &R,
    alloc: Global,
    archive: &SharedArchive<D, A>,
    board: &Board,
    replayer: &mut BoundedReplayer,
    turns: &mut Vec<Turn>,
) -> Option<()>
    requires slot { (0 < board.now.words) × (replayer.old.slot ≡ 0) }
    requires pass { replayer.old.pass.table ≡ A.table }
    requires reader { replayer.old.reader.table ≡ board.now }
    requires below { HandedOutBefore (seen_at 0 replayer.old.reader) turns.old.items }
    ensures slot { replayer.new.slot ≡ 0 }
    ensures pass { replayer.new.pass.table ≡ A.table }
    ensures reader { replayer.new.reader.table ≡ board.now }
    ensures below { IfSome result (λ _.
        HandedOutBefore (seen_at 0 replayer.new.reader) turns.new.items) }
{
    let Ok(turn) = replayer.turn(rt, alloc, archive, board, 10) else {
        return None;
    };
    print_turn(rt, &turn)?;
    let Ok(()) = turns.push(turn) else {
        return None;
    };
    Some(())
}

/// Prints how far the log is durable, and how many frames the turn gave.
fn print_turn<R: Print>(rt: &R, turn: &Turn) -> Option<()> {
    let ending = if turn.ended {
        ", and the replay is done"
    } else {
        ""
    };
    println!(rt;
        "the log is durable to {}: {} frames{ending}",
        turn.seen,
        turn.frames.len()
    )
    .ok()
}

/// Closes the log once its writer and the replayer's reader have met, which is never refused. What was handed out is durable
/// in it. None if there is no memory for the list of its one pass.
fn close_log<D: Disk + Drop, L: Naming>(
    alloc: Global,
    log: SharedArchive<D, L>,
    board: &Board,
    followed: Followed,
) -> Option<Closed<D>>
    requires passes { L.passes ≡ 1 }
    requires recorder { (followed.recorder.pass.table ≡ L.table)
        × (followed.recorder.pass.number ≡ 0)
        × (followed.recorder.writer.table ≡ board.now) × (followed.recorder.writer.slot ≡ 0) }
    requires reader { followed.reader.table ≡ board.now }
    requires below { HandedOutBefore (seen_at 0 followed.reader) followed.turns.items }
    ensures { IfSome result (λ closed. IsDurablyFollowed L.opening
        (engine_seen D.life (view_of closed.engine [])) followed.recorder.writer
        (seen_at 0 followed.reader) followed.turns.items) }
{
    what_is_handed_out_is_durable();
    passes_keep_their_numbers();
    let Followed {
        recorder,
        mut reader,
        turns: _,
    } = followed;
    let (pass, mut writer) = recorder.into_parts();
    board.meet(&mut writer, &mut reader);
    let mut passes = Vec::new(alloc);
    let Ok(()) = passes.push(pass) else {
        return None;
    };
    match log.close(passes) {
        Ok(closed) => Some(closed),
        Err(_) => unreachable!(),
    }
}

/// How many calls a closed archive counted.
fn calls_in<D: Disk + Drop>(closed: &Closed<D>) -> u64 {
    match &closed.history {
        Stored::Counted(calls) => *calls,
        Stored::Kept(_) => 0,
    }
}
