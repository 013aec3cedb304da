//! Two recorders, each in a thread of its own; a follower, which prints how far both are as soon as it sees it, without the
//! lock; and a late replayer. Recorders go on once that is printed, so the same is printed whatever the threads do. At the end
//! the archive is closed with all passes, which is never refused.
#![tactic(auto)]

ghost use Rattle.std.specs.Prelude.{◌≡◌, ◌<◌, [], IfSome, List, map};
ghost use Rattle.call_history.specs.Passes.{AllOfTable, new_passes};
ghost use Rattle.call_history.specs.Values.{PassView};
ghost use Rattle.archive_lock.specs.declared.history.Made.{Made};
ghost use Rattle.archive_lock.specs.Closing.{ClosesWith};
ghost use Rattle.archive_lock.specs.Held.{engine_seen, view_of};
ghost use Rattle.archive_lock.specs.History.{Member};

use anyhow::{Context, Result};
use archive_lock::{Closed, Made, Naming, SharedArchive};
use archive_model::Reply;
use call_history::{Opened, Pass, Stored};
use control_lines::{Line, parse_line};
use disk_core::{Disk, MemoryDisk};
use engine_core::Engine;
use frame_core::{Block, Frame, FrameKind, Items};
use position_board::{Board, Reader};
use recorder_seats::RecorderSeat;
use recorder_seats::laws::passes_keep_their_numbers;
use std::alloc::{AllocError, Global};
use std::io::Print;
use std::marker::Brand;
use std::sync::Wait;
use std::sync::atomic::{AtomicI64, Ordering};
use std::thread::{self, Threads, join};

/// Begins a recording of stream 1,001, session 7, from term 42 on.
const START: &[u8] = b"start 1001 7 42 65536 1408 65536 0 1000 c";
/// Where the recorded blocks begin, each of 64 bytes of its stream.
const POSITIONS: [i64; 3] = [0, 64, 128];
/// How often a thread looks for what it waits for.
const MOST_LOOKS: u32 = 100_000_000;

/// A board, and who sits at it: two recorders, one that follows them, and one that replays later.
#[derive(Drop)]
struct Seats {
    board: Board,
    first: RecorderSeat,
    second: RecorderSeat,
    reader: Reader,
    late: Pass<Made>,
}

fn main(rt: HostRuntime) -> Result<()> {
    let engine = made(rt.alloc()).context("no archive was made")?;
    opened(&rt, rt.alloc(), engine).context("something was refused")
}

/// An archive with two recordings.
fn made(alloc: Global) -> Option<Engine<MemoryDisk>> {
    let mut engine = Engine::create(alloc, MemoryDisk::new(alloc), 64).ok()?;
    let begun = begin(alloc, &mut engine);
    begun.and(Some(engine))
}

/// Begins two recordings.
fn begin(alloc: Global, engine: &mut Engine<MemoryDisk>) -> Option<()> {
    let Ok(Line::Event(start)) = parse_line(alloc, START) else {
        return None;
    };
    let are_begun = engine.step(alloc, &start).is_ok() && engine.step(alloc, &start).is_ok();
    are_begun.then_some(())
}

/// Opens the history of the calls, by which the archive is named.
fn opened<D: Disk + Drop + Send, R: Threads + Wait + Print + Sync>(
    rt: &R,
    alloc: Global,
    engine: Engine<D>,
) -> Option<()> {
    let opened = Opened::new(alloc, false).ok()?;
    shared::<D, Brand, R>(rt, alloc, opened, engine)
}

fn shared<D: Disk + Drop + Send, A: Naming + Send + Sync, R: Threads + Wait + Print + Sync>(
    rt: &R,
    alloc: Global,
    opened: Opened<Made>,
    engine: Engine<D>,
) -> Option<()>
    requires named { opened.table ≡ A.table }
    requires counts { A.passes ≡ 3 }
    requires stores { opened.keeps ≡ A.keeps }
    requires opens { engine_seen D.life (view_of engine []) ≡ A.opening }
{
    let Ok((archive, passes)) = SharedArchive::<D, A>::new(alloc, opened, engine, 3) else {
        return None;
    };
    let Seats {
        board,
        first,
        second,
        reader,
        late,
    } = seats_of::<A>(alloc, passes)?;
    let (first, second) = followed(rt, alloc, &archive, &board, first, second, reader);
    let late = replay(rt, alloc, &archive, late)?;
    let passes = all_of::<A>(alloc, first, second, late)?;
    let closed = close(archive, passes);
    println!(rt; "the archive is closed, with {} calls", calls_in(&closed)).ok()
}

/// A board of two slots that start at 0, and its seats.
fn seats_of<A: Naming>(alloc: Global, mut passes: Vec<Pass<Made>>) -> Option<Seats>
    requires { passes.items ≡ new_passes A.table 3 }
    ensures first { IfSome result (λ seats. (seats.first.pass.table ≡ A.table)
        × (seats.first.pass.number ≡ 0)) }
    ensures writer { IfSome result (λ seats. seats.first.writer.table ≡ seats.board) }
    ensures second { IfSome result (λ seats. (seats.second.pass.table ≡ A.table)
        × (seats.second.pass.number ≡ 1)) }
    ensures other { IfSome result (λ seats. seats.second.writer.table ≡ seats.board) }
    ensures reader { IfSome result (λ seats. (seats.reader.table ≡ seats.board)
        × (1 < seats.board.words)) }
    ensures late { IfSome result (λ seats. (seats.late.table ≡ A.table)
        × (seats.late.number ≡ 2)) }
{
    let Ok((board, mut writers, mut readers)) = Board::new(alloc, &[0, 0], 1) else {
        return None;
    };
    let (Some(late), Some(second), Some(first)) = (passes.pop(), passes.pop(), passes.pop()) else {
        return None;
    };
    let (Some(other), Some(writer)) = (writers.pop(), writers.pop()) else {
        return None;
    };
    let reader = readers.pop()?;
    Some(Seats {
        board,
        first: RecorderSeat::new(0, first, writer),
        second: RecorderSeat::new(1, second, other),
        reader,
        late,
    })
}

/// Two threads record while this one follows. The seats come back.
fn followed<D: Disk + Drop + Send, A: Naming + Send + Sync, R: Threads + Wait + Print + Sync>(
    rt: &R,
    alloc: Global,
    archive: &SharedArchive<D, A>,
    board: &Board,
    first: RecorderSeat,
    second: RecorderSeat,
    reader: Reader,
) -> (RecorderSeat, RecorderSeat)
    requires first { (first.pass.table ≡ A.table) × (first.writer.table ≡ board.now) }
    requires second { (second.pass.table ≡ A.table) × (second.writer.table ≡ board.now) }
    requires reader { (reader.table ≡ board.now) × (1 < board.now.words) }
    ensures first { (result.0.pass.table ≡ A.table)
        × (result.0.pass.number ≡ first.pass.number) }
    ensures second { (result.1.pass.table ≡ A.table)
        × (result.1.pass.number ≡ second.pass.number) }
{
    let printed = AtomicI64::new(0);
    let printed = &printed;
    let (first, (second, _)) = join(
        rt,
        move || record(rt, alloc, archive, board, printed, first),
        move || -> (RecorderSeat, Option<()>)
            requires second { (second.pass.table ≡ A.table) × (second.writer.table ≡ board.now) }
            requires reader { (reader.table ≡ board.now) × (1 < board.now.words) }
            ensures { (result.0.pass.table ≡ A.table)
                × (result.0.pass.number ≡ second.pass.number) }
        {
            join(
                rt,
                move || record(rt, alloc, archive, board, printed, second),
                move || follow(rt, board, printed, reader),
            )
        },
    );
    (first, second)
}

/// Waits until so much was printed. Whether it was.
fn was_printed(printed: &AtomicI64, position: i64) -> bool {
    for _ in 0..MOST_LOOKS {
        if printed.load(Ordering::SeqCst) >= position {
            return true;
        }
        thread::yield_now();
    }
    false
}

/// Writes and settles block after block, each once what was recorded before was printed. The seat comes back.
fn record<D: Disk, A: Naming, R: Wait>(
    rt: &R,
    alloc: Global,
    archive: &SharedArchive<D, A>,
    board: &Board,
    printed: &AtomicI64,
    mut seat: RecorderSeat,
) -> RecorderSeat
    requires pass { seat.pass.table ≡ A.table }
    requires writer { seat.writer.table ≡ board.now }
    ensures pass { result.pass.table ≡ A.table }
    ensures number { result.pass.number ≡ seat.pass.number }
{
    for position in POSITIONS {
        let is_recorded = was_printed(printed, position)
            && record_at(rt, alloc, archive, board, &mut seat, position);
        if !is_recorded {
            break;
        }
    }
    seat
}

/// Writes the block of a position, and settles it. Whether both were answered Ok.
fn record_at<D: Disk, A: Naming, R: Wait>(
    rt: &R,
    alloc: Global,
    archive: &SharedArchive<D, A>,
    board: &Board,
    seat: &mut RecorderSeat,
    position: i64,
) -> bool
    requires pass { seat.old.pass.table ≡ A.table }
    requires writer { seat.old.writer.table ≡ board.now }
    ensures pass { seat.new.pass.table ≡ seat.old.pass.table }
    ensures writer { seat.new.writer.table ≡ seat.old.writer.table }
    ensures number { seat.new.pass.number ≡ seat.old.pass.number }
{
    let Ok(block) = block_at(alloc, position) else {
        return false;
    };
    seat.write(rt, alloc, archive, block).is_ok() && seat.settle(rt, alloc, archive, board).is_ok()
}

/// The block of one frame at a position.
fn block_at(alloc: Global, position: i64) -> Result<Block, AllocError> {
    let mut frames = Items::new(alloc);
    frames.push(Frame {
        kind: FrameKind::Message,
        flags: 0xC0,
        length: 37,
        term_offset: i32::try_from(position).unwrap_or(0),
        session_id: 7,
        stream_id: 1_001,
        term_id: 42,
        reserved: 0,
        payload: Items::from_vec(b"hello".to_vec(alloc)?),
    })?;
    Ok(Block { position, frames })
}

/// Looks at both slots, and prints their positions whenever both have risen.
fn follow<R: Print>(rt: &R, board: &Board, printed: &AtomicI64, mut reader: Reader) -> Option<()>
    requires board { reader.table ≡ board.now }
    requires slots { 1 < board.now.words }
{
    for _ in 0..MOST_LOOKS {
        let (first, second) = (board.look(&mut reader, 0), board.look(&mut reader, 1));
        if first.min(second) > printed.load(Ordering::SeqCst) {
            println!(rt; "recorded to {first} and {second}").ok()?;
            printed.store(first.min(second), Ordering::SeqCst);
        } else if first.min(second) == 192 {
            break;
        }
        thread::yield_now();
    }
    Some(())
}

/// Replays the first recording from its beginning. The pass comes back.
fn replay<D: Disk, A: Naming, R: Wait + Print>(
    rt: &R,
    alloc: Global,
    archive: &SharedArchive<D, A>,
    mut pass: Pass<Made>,
) -> Option<Pass<Made>>
    requires { pass.table ≡ A.table }
    ensures table { IfSome result (λ back. back.table ≡ A.table) }
    ensures number { IfSome result (λ back. back.number ≡ pass.number) }
{
    call(rt, alloc, archive, &mut pass, "replay 0 0 -1")?;
    let polled = call(rt, alloc, archive, &mut pass, "poll 0 10")?;
    println!(rt; "replayed {} frames", frames_in(&polled)).ok()?;
    Some(pass)
}

fn frames_in(reply: &Reply) -> usize {
    match reply {
        Reply::Polled { frames, .. } => frames.len(),
        _ => 0,
    }
}

/// Makes the call of a control line.
fn call<D: Disk, A: Naming, R: Wait>(
    rt: &R,
    alloc: Global,
    archive: &SharedArchive<D, A>,
    pass: &mut Pass<Made>,
    line: &str,
) -> Option<Reply>
    requires { pass.old.table ≡ A.table }
    ensures table { pass.new.table ≡ pass.old.table }
    ensures number { pass.new.number ≡ pass.old.number }
{
    let Ok(Line::Event(event)) = parse_line(alloc, line.as_bytes()) else {
        return None;
    };
    archive.call(rt, alloc, pass, &event).ok()
}

/// All passes of the archive, once those that called by them are done.
fn all_of<A: Naming>(
    alloc: Global,
    first: RecorderSeat,
    second: RecorderSeat,
    late: Pass<Made>,
) -> Option<Vec<Pass<Made>>>
    requires first { (first.pass.table ≡ A.table) × (first.pass.number ≡ 0) }
    requires second { (second.pass.table ≡ A.table) × (second.pass.number ≡ 1) }
    requires late { (late.table ≡ A.table) × (late.number ≡ 2) }
    ensures table { IfSome result (λ passes. AllOfTable A.table passes.items) }
    ensures numbers { IfSome result (λ passes. map (λ (p : PassView Made). p.number) passes.items
        ≡ map (λ (p : PassView Made). p.number) (new_passes A.table 3)) }
{
    let (first, _) = first.into_parts();
    let (second, _) = second.into_parts();
    vec![in alloc; first, second, late].ok()
}

/// Closes the archive with all its passes, which is never refused. Each call of its history is then one of these passes.
fn close<D: Disk + Drop, A: Naming>(
    archive: SharedArchive<D, A>,
    passes: Vec<Pass<Made>>,
) -> Closed<D>
    requires table { AllOfTable A.table passes.items }
    requires counts { A.passes ≡ 3 }
    requires numbers { map (λ (p : PassView Made). p.number) passes.items
        ≡ map (λ (p : PassView Made). p.number) (new_passes A.table 3) }
    ensures { (calls : List Member) × ClosesWith A.opening A.keeps passes.items calls
        (engine_seen D.life (view_of result.engine calls)) result.opening.state result.history }
{
    passes_keep_their_numbers();
    match archive.close(passes) {
        Ok(closed) => closed,
        Err(_) => unreachable!(),
    }
}

/// How many calls a closed archive counted.
fn calls_in<D: Disk + Drop>(closed: &Closed<D>) -> u64 {
    match &closed.history {
        Stored::Counted(calls) => *calls,
        Stored::Kept(_) => 0,
    }
}
