//! What a look costs beside a load, and what a queue between a receiver and a recorder costs beside one thread.

ghost use Rattle.std.specs.Prelude.{◌≡◌, ◌<◌};

use crate::blocks::{LONG_TERM, SETUP, datagrams};
use crate::crew::{Plan, begin, crewed};
use crate::pairs::run_one;
use agents_core::{BlockSource, DatagramEnd, ImageSource, RecorderSeat};
use archive_lock::{Naming, SharedArchive};
use disk_core::{Disk, MemoryDisk};
use engine_core::Engine;
use frame_core::Refusal;
use image_core::Image;
use position_board::{Board, Reader};
use std::alloc::Global;
use std::io::Print;
use std::rt::Clock;
use std::sync::Wait;
use std::sync::atomic::{AtomicU64, Ordering};
use std::thread::Threads;
use std::time::Instant;

/// How many entries the history of an archive takes.
const LIMIT: u32 = 1_000_000;

fn now<R: Clock>(rt: &R) -> Option<Instant> {
    Instant::now(rt).ok()
}

/// The microseconds from a time on.
fn since<R: Clock>(rt: &R, begun: Option<Instant>) -> Option<u128> {
    let begun = begun?;
    let elapsed = begun.elapsed(rt).ok()?;
    Some(elapsed.as_micros())
}

/// Microseconds of so many looks, and of as many loads of a word.
pub(crate) fn looked<R: Clock>(rt: &R, alloc: Global, looks: u32) -> Result<(u128, u128), Refusal> {
    let Ok((board, _, mut readers)) = Board::new(alloc, &[64], 1) else {
        return Err(Refusal::NoMemory);
    };
    match readers.pop() {
        Some(reader) => compared(rt, &board, reader, looks),
        None => Err(Refusal::NoMemory),
    }
}

fn compared<R: Clock>(
    rt: &R,
    board: &Board,
    reader: Reader,
    looks: u32,
) -> Result<(u128, u128), Refusal>
    requires board { reader.table ≡ board.now }
    requires slot { 0 < board.now.words }
{
    let word = AtomicU64::new(64);
    let begun = now(rt);
    let seen = sum_of_looks(board, reader, looks);
    let of_looks = since(rt, begun);
    let begun = now(rt);
    let loaded = sum_of_loads(&word, looks);
    let of_loads = since(rt, begun);
    match (of_looks, of_loads) {
        (Some(of_looks), Some(of_loads)) if seen.unsigned_abs() == loaded => {
            Ok((of_looks, of_loads))
        }
        _ => Err(Refusal::BadPosition),
    }
}

/// The sum of the positions of so many looks.
fn sum_of_looks(board: &Board, mut reader: Reader, looks: u32) -> i64
    requires board { reader.table ≡ board.now }
    requires slot { 0 < board.now.words }
{
    let mut sum = 0i64;
    for _ in 0..looks {
        sum = sum.wrapping_add(board.look(&mut reader, 0));
    }
    sum
}

/// The sum of so many loads.
fn sum_of_loads(word: &AtomicU64, loads: u32) -> u64 {
    let mut sum = 0u64;
    for _ in 0..loads {
        sum = sum.wrapping_add(word.load(Ordering::SeqCst));
    }
    sum
}

/// Datagrams that were made before, one after another.
#[derive(Drop)]
pub(crate) struct MadeEnd {
    datagrams: Vec<Vec<u8>>,
    given: usize,
}

impl DatagramEnd for MadeEnd {
    ghost use Rattle.std.specs.Prelude.{⊤};

    ghost receives = { λ old given new. ⊤ };

    ghost sends = { λ old bytes new. ⊤ };

    fn receive(&mut self, into: &mut [u8]) -> Option<usize> {
        let datagram = self.datagrams.get(self.given)?.as_slice();
        let count = datagram.len().min(into.len());
        into[..count].copy_from_slice(&datagram[..count]);
        self.given = self.given.saturating_add(1);
        Some(count)
    }

    fn send(&mut self, nak: &[u8; 28]) {
        let _ = nak;
    }
}

/// Microseconds in which so many blocks of 46 frames come from datagrams and are recorded in memory: by a receiver and a
/// recorder, or by one thread.
pub(crate) fn measured<R: Threads + Wait + Clock + Print + Sync>(
    rt: &R,
    alloc: Global,
    has_queue: bool,
    blocks: u32,
) -> Result<u128, Refusal> {
    let end = MadeEnd {
        datagrams: datagrams(alloc, blocks)?,
        given: 0,
    };
    let plan = if has_queue {
        Plan::Queue(end)
    } else {
        Plan::Alone(end)
    };
    match Engine::create(alloc, MemoryDisk::new(alloc), LIMIT) {
        Ok(engine) => recorded(rt, alloc, engine, plan),
        Err(refused) => Err(refused.refusal),
    }
}

/// Does what is to be done with one recording, and one that nobody writes.
fn recorded<R: Threads + Wait + Clock + Print + Sync>(
    rt: &R,
    alloc: Global,
    mut engine: Engine<MemoryDisk>,
    plan: Plan,
) -> Result<u128, Refusal> {
    match begin(alloc, &mut engine, 0, LONG_TERM) {
        Ok(first) => crewed(rt, alloc, engine, [first, first], plan),
        Err(refusal) => Err(refusal),
    }
}

/// The first seat records what comes from an end.
pub(crate) fn record_all<
    D: Disk + Drop + Send,
    A: Naming + Send + Sync,
    R: Threads + Wait + Clock + Sync,
>(
    rt: &R,
    alloc: Global,
    archive: &SharedArchive<D, A>,
    board: &Board,
    seat: RecorderSeat,
    end: MadeEnd,
    has_queue: bool,
) -> Result<u128, Refusal>
    requires pass { seat.pass.table ≡ A.table }
    requires writer { seat.writer.table ≡ board.now }
{
    let Ok(image) = Image::from_setup(alloc, &SETUP) else {
        return Err(Refusal::BadParameter);
    };
    match ImageSource::new(rt, alloc, image, end) {
        Ok(source) => timed(rt, alloc, archive, board, source, seat, has_queue),
        Err(_) => Err(Refusal::NoMemory),
    }
}

fn timed<
    S: BlockSource + Drop + Send,
    D: Disk + Drop + Send,
    A: Naming + Send + Sync,
    R: Threads + Wait + Clock + Sync,
>(
    rt: &R,
    alloc: Global,
    archive: &SharedArchive<D, A>,
    board: &Board,
    source: S,
    seat: RecorderSeat,
    has_queue: bool,
) -> Result<u128, Refusal>
    requires pass { seat.pass.table ≡ A.table }
    requires writer { seat.writer.table ≡ board.now }
{
    let begun = now(rt);
    let outcome = if has_queue {
        run_one(rt, alloc, archive, board, source, seat)
    } else {
        alone(rt, alloc, archive, board, source, seat)
    };
    let took = since(rt, begun);
    outcome.and(took.ok_or(Refusal::DeviceFault))
}

/// One thread, without a queue.
fn alone<S: BlockSource + Drop, D: Disk, A: Naming, R: Wait>(
    rt: &R,
    alloc: Global,
    archive: &SharedArchive<D, A>,
    board: &Board,
    mut source: S,
    mut seat: RecorderSeat,
) -> Result<(), Refusal>
    requires pass { seat.pass.table ≡ A.table }
    requires writer { seat.writer.table ≡ board.now }
{
    for _ in rt.forever() {
        let Some(block) = source.next() else {
            return Ok(());
        };
        if seat.write(rt, alloc, archive, block).is_err()
            || seat.settle(rt, alloc, archive, board).is_err()
        {
            return Err(Refusal::BadLine);
        }
    }
    unreachable!()
}
