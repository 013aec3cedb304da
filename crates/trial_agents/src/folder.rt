//! Two recorders into the archive of a folder, and a follower that tells each position as soon as it sees it, so that whoever
//! kills the process knows what has to be there.

ghost use Rattle.std.specs.Prelude.{◌≡◌, ◌<◌, IfSome};
ghost use Rattle.agents_core.specs.Runs.{AreSeated};

use crate::blocks::{Blocks, SHORT_TERM};
use crate::crew::{Plan, begin, crewed};
use crate::pairs::run;
use agents_core::{Receiver, Recorder, RecorderSeat};
use archive_lock::{Naming, SharedArchive};
use disk_core::Disk;
use engine_core::Engine;
use frame_core::Refusal;
use host_disk::HostDisk;
use position_board::{Board, Reader};
use std::alloc::{AllocError, Global};
use std::io::Print;
use std::path::Path;
use std::rt::Clock;
use std::sync::Wait;
use std::sync::atomic::{AtomicBool, Ordering};
use std::thread::{self, Threads, join};

/// Records so many blocks into each of two recordings of the archive of a folder.
pub(crate) fn recorded<R: Threads + Wait + Clock + Print + Sync>(
    rt: &R,
    host: HostRuntime,
    folder: &str,
    blocks: u32,
) -> Result<(), Refusal> {
    let mut engine = engine_of(host, folder)?;
    let first = begin(host.alloc(), &mut engine, 0, SHORT_TERM);
    let second = begin(host.alloc(), &mut engine, 1, SHORT_TERM);
    let (Ok(first), Ok(second)) = (first, second) else {
        return Err(Refusal::BadLine);
    };
    match crewed(
        rt,
        host.alloc(),
        engine,
        [first, second],
        Plan::Follow(blocks),
    ) {
        Ok(_) => Ok(()),
        Err(refusal) => Err(refusal),
    }
}

/// The archive of a folder.
pub(crate) fn engine_of(host: HostRuntime, folder: &str) -> Result<Engine<HostDisk>, Refusal> {
    let Ok(disk) = HostDisk::open(host, host.alloc(), Path::new(folder)) else {
        return Err(Refusal::DeviceFault);
    };
    match Engine::open(host.alloc(), disk) {
        Ok((engine, _)) => Ok(engine),
        Err(refused) => Err(refused.refusal),
    }
}

/// Both seats record, and another thread follows them.
pub(crate) fn follow_all<
    D: Disk + Drop + Send,
    A: Naming + Send + Sync,
    R: Threads + Wait + Print + Sync,
>(
    rt: &R,
    alloc: Global,
    archive: &SharedArchive<D, A>,
    board: &Board,
    first: RecorderSeat,
    second: RecorderSeat,
    reader: Reader,
    starts: [i64; 2],
    blocks: u32,
) -> Result<u128, Refusal>
    requires first { (first.pass.table ≡ A.table) × (first.writer.table ≡ board.now) }
    requires second { (second.pass.table ≡ A.table) × (second.writer.table ≡ board.now) }
    requires reader { reader.table ≡ board.now }
    requires slots { 1 < board.now.words }
{
    let (Ok(receivers), Some(recorders)) = (
        receivers(alloc, starts, blocks),
        recorders::<A>(alloc, board, first, second),
    ) else {
        return Err(Refusal::NoMemory);
    };
    followed(rt, alloc, archive, board, receivers, recorders, reader)
}

/// A receiver of so many blocks for each recording.
fn receivers(
    alloc: Global,
    starts: [i64; 2],
    left: u32,
) -> Result<Vec<Receiver<Blocks>>, AllocError> {
    let mut receivers = Vec::new(alloc);
    for recording in [0, 1] {
        let source = Blocks {
            alloc,
            recording,
            next: if recording == 0 { starts[0] } else { starts[1] },
            frames: 1,
            left,
        };
        receivers.push(Receiver { source })?;
    }
    Ok(receivers)
}

fn recorders<A: Naming>(
    alloc: Global,
    board: &Board,
    first: RecorderSeat,
    second: RecorderSeat,
) -> Option<Vec<Recorder>>
    requires first { (first.pass.table ≡ A.table) × (first.writer.table ≡ board.now) }
    requires second { (second.pass.table ≡ A.table) × (second.writer.table ≡ board.now) }
    ensures { IfSome result (λ recorders. AreSeated A.table board.now recorders.items) }
{
    let _ = board;
    let first = Recorder {
        seat: first,
        refused: None,
    };
    let second = Recorder {
        seat: second,
        refused: None,
    };
    vec![in alloc; first, second].ok()
}

/// The agents run, and another thread follows them.
fn followed<D: Disk + Drop + Send, A: Naming + Send + Sync, R: Threads + Wait + Print + Sync>(
    rt: &R,
    alloc: Global,
    archive: &SharedArchive<D, A>,
    board: &Board,
    receivers: Vec<Receiver<Blocks>>,
    recorders: Vec<Recorder>,
    reader: Reader,
) -> Result<u128, Refusal>
    requires recorders { AreSeated A.table board.now recorders.items }
    requires reader { reader.table ≡ board.now }
    requires slots { 1 < board.now.words }
{
    let has_ended = AtomicBool::new(false);
    let has_ended = &has_ended;
    let (outcome, told) = join(
        rt,
        move || -> Result<(), Refusal>
            requires { AreSeated A.table board.now recorders.items }
        {
            let outcome = run(rt, alloc, archive, board, receivers, recorders);
            has_ended.store(true, Ordering::SeqCst);
            outcome
        },
        move || follow(rt, alloc, board, has_ended, reader),
    );
    outcome.and(told).and(Ok(0))
}

/// Tells each position that it sees, until the agents have ended.
fn follow<R: Wait + Print>(
    rt: &R,
    alloc: Global,
    board: &Board,
    has_ended: &AtomicBool,
    mut reader: Reader,
) -> Result<(), Refusal>
    requires reader { reader.table ≡ board.now }
    requires slots { 1 < board.now.words }
{
    let mut last = [0, 0];
    for _ in rt.forever() {
        let is_last = has_ended.load(Ordering::SeqCst);
        let seen = [board.look(&mut reader, 0), board.look(&mut reader, 1)];
        say(rt, alloc, last, seen)?;
        if is_last {
            return say_end(rt);
        }
        last = seen;
        thread::yield_now();
    }
    unreachable!()
}

pub(crate) fn say_end<R: Print>(rt: &R) -> Result<(), Refusal> {
    say_line(rt, b"ended\n")
}

/// Writes a line for each slot that has risen, by one call.
fn say<R: Print>(rt: &R, alloc: Global, last: [i64; 2], seen: [i64; 2]) -> Result<(), Refusal> {
    for slot in 0..2usize {
        if seen[slot] > last[slot] {
            say_one(rt, alloc, slot, seen[slot])?;
        }
    }
    Ok(())
}

fn say_one<R: Print>(rt: &R, alloc: Global, slot: usize, seen: i64) -> Result<(), Refusal> {
    let line = format!(in alloc; "seen {slot} {seen}\n")?;
    say_line(rt, line.as_bytes())
}

pub(crate) fn say_line<R: Print>(rt: &R, line: &[u8]) -> Result<(), Refusal> {
    match rt.write_all(line) {
        Ok(()) => Ok(()),
        Err(_) => Err(Refusal::DeviceFault),
    }
}
