//! A log and data, each recorded into the archive of a folder, and a replayer that hands out the data no further than the log
//! is durable. It prints each frame, so a script that kills the process knows what the log must still have.

ghost use Rattle.std.specs.Prelude.{◌≡◌, ◌<◌, [], IfSome};
ghost use Rattle.call_history.specs.Passes.{new_passes};
ghost use Rattle.archive_lock.specs.Held.{engine_seen, view_of};

use crate::blocks::{Blocks, SHORT_TERM};
use crate::crew::{Begun, ask, begin};
use crate::folder::{engine_of, say_end, say_line};
use crate::pairs::run_one;
use archive_lock::{Made, Naming, SharedArchive};
use archive_model::{PolledFrame, Reply};
use call_history::{Opened, Pass};
use control_core::Event;
use disk_core::Disk;
use engine_core::Engine;
use frame_core::{Refusal, read_i64};
use position_board::Board;
use recorder_seats::{BoundedReplayer, RecorderSeat};
use std::alloc::Global;
use std::io::Print;
use std::marker::Brand;
use std::sync::Wait;
use std::sync::atomic::{AtomicBool, Ordering};
use std::thread::{self, Threads, join};

/// How many frames a block of the data has, and a block of the log has one: so the data is ahead.
const FRAMES_AHEAD: u32 = 8;

/// How many frames a turn takes at most.
const MOST_FRAMES: i64 = 16;

/// The folders of two archives.
#[derive(Clone, Copy)]
pub(crate) struct Folders<'a> {
    /// The log's.
    pub log: &'a str,
    /// The data's.
    pub data: &'a str,
}

/// Two archives, of the log and of the data, which is ahead: what is recorded, and the replay.
#[derive(Clone, Copy)]
struct Work {
    log: Begun,
    ahead: Begun,
    replay: i64,
    blocks: u32,
}

/// A board of two slots, the log's and the data's, with the seats that record, and a replayer that looks at the log's.
#[derive(Drop)]
struct Seats {
    board: Board,
    log: RecorderSeat,
    ahead: RecorderSeat,
    replayer: BoundedReplayer,
}

/// Records so many blocks into both archives, and hands out the data from a position on.
pub(crate) fn handed_out<R: Threads + Wait + Print + Sync>(
    rt: &R,
    host: HostRuntime,
    folders: Folders<'_>,
    blocks: u32,
    from: u32,
) -> Result<(), Refusal> {
    let alloc = host.alloc();
    let (Ok(mut log), Ok(mut ahead)) = (engine_of(host, folders.log), engine_of(host, folders.data))
    else {
        return Err(Refusal::DeviceFault);
    };
    let of_log = begin(alloc, &mut log, 0, SHORT_TERM);
    let of_ahead = begin(alloc, &mut ahead, 0, SHORT_TERM);
    let replay = open_replay(alloc, &mut ahead, i64::from(from));
    let (Ok(of_log), Ok(of_ahead), Ok(replay)) = (of_log, of_ahead, replay) else {
        return Err(Refusal::BadLine);
    };
    let work = Work {
        log: of_log,
        ahead: of_ahead,
        replay,
        blocks,
    };
    opened(rt, alloc, log, ahead, work)
}

/// Opens a replay of the first recording from a position on.
fn open_replay<D: Disk>(
    alloc: Global,
    engine: &mut Engine<D>,
    position: i64,
) -> Result<i64, Refusal> {
    let open = Event::ReplayOpen {
        recording: 0,
        position,
        length: -1,
    };
    match ask(alloc, engine, open) {
        Ok(Reply::ReplayOpened { replay }) => Ok(replay),
        Ok(_) => Err(Refusal::BadLine),
        Err(refusal) => Err(refusal),
    }
}

/// Opens a history of the calls of each archive, by which it is named.
fn opened<D: Disk + Drop + Send, R: Threads + Wait + Print + Sync>(
    rt: &R,
    alloc: Global,
    log: Engine<D>,
    ahead: Engine<D>,
    work: Work,
) -> Result<(), Refusal> {
    let (Ok(of_log), Ok(of_ahead)) = (Opened::new(alloc, false), Opened::new(alloc, false)) else {
        return Err(Refusal::NoMemory);
    };
    shared::<D, Brand, Brand, R>(rt, alloc, of_log, log, of_ahead, ahead, work)
}

fn shared<
    D: Disk + Drop + Send,
    L: Naming + Send + Sync,
    A: Naming + Send + Sync,
    R: Threads + Wait + Print + Sync,
>(
    rt: &R,
    alloc: Global,
    of_log: Opened<Made>,
    log: Engine<D>,
    of_ahead: Opened<Made>,
    ahead: Engine<D>,
    work: Work,
) -> Result<(), Refusal>
    requires log { (of_log.table ≡ L.table) × (L.passes ≡ 1) × (of_log.keeps ≡ L.keeps)
        × (engine_seen D.life (view_of log []) ≡ L.opening) }
    requires ahead { (of_ahead.table ≡ A.table) × (A.passes ≡ 2) × (of_ahead.keeps ≡ A.keeps)
        × (engine_seen D.life (view_of ahead []) ≡ A.opening) }
{
    let Ok((log, log_passes)) = SharedArchive::<D, L>::new(alloc, of_log, log, 1) else {
        return Err(Refusal::NoMemory);
    };
    let Ok((ahead, ahead_passes)) = SharedArchive::<D, A>::new(alloc, of_ahead, ahead, 2) else {
        return Err(Refusal::NoMemory);
    };
    match seats_of::<L, A>(alloc, log_passes, ahead_passes, work) {
        Some(seats) => run_all(rt, alloc, &log, &ahead, seats, work),
        None => Err(Refusal::NoMemory),
    }
}

/// The seats of both archives at a board of the positions that are recorded to.
fn seats_of<L: Naming, A: Naming>(
    alloc: Global,
    mut log_passes: Vec<Pass<Made>>,
    mut ahead_passes: Vec<Pass<Made>>,
    work: Work,
) -> Option<Seats>
    requires log { log_passes.items ≡ new_passes L.table 1 }
    requires ahead { ahead_passes.items ≡ new_passes A.table 2 }
    ensures slots { IfSome result (λ seats. 1 < seats.board.words) }
    ensures log { IfSome result (λ seats. (seats.log.pass.table ≡ L.table)
        × (seats.log.writer.table ≡ seats.board)) }
    ensures ahead { IfSome result (λ seats. (seats.ahead.pass.table ≡ A.table)
        × (seats.ahead.writer.table ≡ seats.board)) }
    ensures replayer { IfSome result (λ seats. (seats.replayer.pass.table ≡ A.table)
        × (seats.replayer.reader.table ≡ seats.board) × (seats.replayer.slot ≡ 0)) }
{
    let Ok((board, mut writers, mut readers)) = Board::new(
        alloc,
        &[work.log.position, work.ahead.position],
        1,
    ) else {
        return None;
    };
    let (Some(ahead_writer), Some(log_writer)) = (writers.pop(), writers.pop()) else {
        return None;
    };
    let (Some(replaying), Some(ahead)) = (ahead_passes.pop(), ahead_passes.pop()) else {
        return None;
    };
    let (Some(log), Some(reader)) = (log_passes.pop(), readers.pop()) else {
        return None;
    };
    Some(Seats {
        board,
        log: RecorderSeat::new(work.log.session, log, log_writer),
        ahead: RecorderSeat::new(work.ahead.session, ahead, ahead_writer),
        replayer: BoundedReplayer::new(replaying, work.replay, reader, 0),
    })
}

/// Both seats record, and another thread hands out the data.
fn run_all<
    D: Disk + Drop + Send,
    L: Naming + Send + Sync,
    A: Naming + Send + Sync,
    R: Threads + Wait + Print + Sync,
>(
    rt: &R,
    alloc: Global,
    log: &SharedArchive<D, L>,
    ahead: &SharedArchive<D, A>,
    seats: Seats,
    work: Work,
) -> Result<(), Refusal>
    requires slots { 1 < seats.board.words }
    requires log { (seats.log.pass.table ≡ L.table) × (seats.log.writer.table ≡ seats.board) }
    requires ahead { (seats.ahead.pass.table ≡ A.table) × (seats.ahead.writer.table ≡ seats.board) }
    requires replayer { (seats.replayer.pass.table ≡ A.table)
        × (seats.replayer.reader.table ≡ seats.board) × (seats.replayer.slot ≡ 0) }
{
    let Seats {
        board,
        log: log_seat,
        ahead: ahead_seat,
        replayer,
    } = seats;
    let board = &board;
    let has_ended = AtomicBool::new(false);
    let has_ended = &has_ended;
    let (outcome, handed) = join(
        rt,
        move || -> Result<(), Refusal>
            requires log { (log_seat.pass.table ≡ L.table) × (log_seat.writer.table ≡ board.now) }
            requires ahead { (ahead_seat.pass.table ≡ A.table) × (ahead_seat.writer.table ≡ board.now) }
        {
            let outcome = record(rt, alloc, log, ahead, board, log_seat, ahead_seat, work);
            has_ended.store(true, Ordering::SeqCst);
            outcome
        },
        move || hand_out(rt, alloc, ahead, board, has_ended, replayer),
    );
    outcome.and(handed)
}

/// Records the log and the data, each by a receiver and a recorder, until both have ended.
fn record<
    D: Disk + Drop + Send,
    L: Naming + Send + Sync,
    A: Naming + Send + Sync,
    R: Threads + Wait + Sync,
>(
    rt: &R,
    alloc: Global,
    log: &SharedArchive<D, L>,
    ahead: &SharedArchive<D, A>,
    board: &Board,
    log_seat: RecorderSeat,
    ahead_seat: RecorderSeat,
    work: Work,
) -> Result<(), Refusal>
    requires log { (log_seat.pass.table ≡ L.table) × (log_seat.writer.table ≡ board.now) }
    requires ahead { (ahead_seat.pass.table ≡ A.table) × (ahead_seat.writer.table ≡ board.now) }
{
    let of_log = blocks(alloc, work.log.position, 1, work.blocks);
    let of_ahead = blocks(alloc, work.ahead.position, FRAMES_AHEAD, work.blocks);
    let (outcome, other) = join(
        rt,
        move || -> Result<(), Refusal>
            requires log { (log_seat.pass.table ≡ L.table) × (log_seat.writer.table ≡ board.now) }
        { run_one(rt, alloc, log, board, of_log, log_seat) },
        move || -> Result<(), Refusal>
            requires ahead { (ahead_seat.pass.table ≡ A.table) × (ahead_seat.writer.table ≡ board.now) }
        { run_one(rt, alloc, ahead, board, of_ahead, ahead_seat) },
    );
    outcome.and(other)
}

/// Blocks of so many frames each.
fn blocks(alloc: Global, next: i64, frames: u32, left: u32) -> Blocks {
    Blocks {
        alloc,
        recording: 0,
        next,
        frames,
        left,
    }
}

/// Hands out the data until both recorders have ended and a turn gives no frame. A turn that is refused is printed too.
fn hand_out<D: Disk, A: Naming, R: Wait + Print>(
    rt: &R,
    alloc: Global,
    ahead: &SharedArchive<D, A>,
    board: &Board,
    has_ended: &AtomicBool,
    mut replayer: BoundedReplayer,
) -> Result<(), Refusal>
    requires pass { replayer.pass.table ≡ A.table }
    requires reader { replayer.reader.table ≡ board.now }
    requires slot { replayer.slot < board.now.words }
{
    for _ in rt.forever() {
        let is_last = has_ended.load(Ordering::SeqCst);
        let turn = match replayer.turn(rt, alloc, ahead, board, MOST_FRAMES) {
            Ok(turn) => turn,
            Err(refusal) => return say_refused(rt, alloc, refusal),
        };
        if is_last && turn.frames.is_empty() {
            return say_end(rt);
        }
        say_all(rt, alloc, turn.seen, turn.frames.as_slice())?;
        thread::yield_now();
    }
    unreachable!()
}

/// Prints why a turn was refused.
fn say_refused<R: Print>(rt: &R, alloc: Global, refusal: Refusal) -> Result<(), Refusal> {
    let line = format!(in alloc; "refused {refusal:?}\n")?;
    say_line(rt, line.as_bytes())?;
    Err(refusal)
}

/// Prints each frame of a turn, each by one call.
fn say_all<R: Print>(
    rt: &R,
    alloc: Global,
    seen: i64,
    frames: &[PolledFrame],
) -> Result<(), Refusal> {
    for frame in frames {
        say_one(rt, alloc, seen, frame)?;
    }
    Ok(())
}

/// Prints what was seen of the log, where a frame begins and ends, and the position that it tells.
fn say_one<R: Print>(
    rt: &R,
    alloc: Global,
    seen: i64,
    polled: &PolledFrame,
) -> Result<(), Refusal> {
    let begin = polled.position;
    let length = polled.frame.aligned_length() as i64;
    let end = begin.wrapping_add(length);
    let told = told_position(polled.frame.payload.as_slice());
    let line = format!(in alloc; "handed {seen} {begin} {end} {told}\n")?;
    say_line(rt, line.as_bytes())
}

/// The position that a payload tells: -1 if it is too short.
fn told_position(payload: &[u8]) -> i64 {
    if payload.len() < 8 {
        return -1;
    }
    read_i64(payload, 0)
}
