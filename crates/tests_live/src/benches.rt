//! Recorder sessions that a bench settles together, next to others: docs/ARCHITECTURE.md, "The board".

ghost use Rattle.std.specs.Prelude.{◌≡◌, [], IfOk, IfSome};
ghost use Rattle.std.proofs.Props.{props};
ghost use Rattle.recorder_seats.specs.Bench.{AreOfBoard, AreUnraised};
ghost use Rattle.recorder_seats.specs.Seat.{raised_positions};
ghost use Rattle.tests_live.specs.OneProof.{each_prop};

use crate::agents::block_of;
use crate::archives::{Scenario, Seats, played, played_again};
use crate::left::{Left, Then};
use crate::seat::Seat;
use archive_lock::{Naming, SharedArchive};
use archive_model::Reply;
use disk_core::Disk;
use frame_core::{Block, Items, Refusal};
use position_board::{Board, Reader, Writer};
use recorder_seats::{BenchSeat, RecorderBench};
use std::alloc::{AllocError, Global};
use std::process::Abort;
use std::sync::Wait;
use std::test::Fail;

/// Two recordings of publications of the session ids 7 and 8, by the sessions 0 and 1.
const BEGUN: &str = "\
start 1001 7 42 65536 1408 65536 0 1000 c: started 0 0
start 1001 8 42 65536 1408 65536 0 1000 c: started 1 1
";

/// A seat for each session, and one that is not there.
const CHOSEN: [usize; 3] = [0, 1, 7];

/// How many calls of the disk the settling makes: two syncs of segments, and four of the catalogue's bank.
const CALLS: u64 = 6;

/// A bench with a seat for each of two sessions, a reader of its board, who makes lines, and two seats that make no call.
#[derive(Drop)]
struct Group<A: Naming> {
    board: Board,
    reader: Reader,
    bench: RecorderBench,
    second: Seat<A>,
    third: Seat<A>,
    fourth: Seat<A>,
    ghost named: { bench.pass.table ≡ A.table },
    ghost reads: { reader.table ≡ board },
    ghost slots: { board.words ≡ 2 },
    ghost writes: { AreOfBoard board bench.seats } by { Prim.hlevel (each_prop, props) },
}

impl<A: Naming> Group<A> {
    /// Plays lines.
    fn play<D: Disk, R: Wait + Abort>(
        &mut self,
        rt: &R,
        alloc: Global,
        archive: &SharedArchive<D, A>,
        script: &str,
    ) -> Result<(), Fail> {
        self.fourth.plays(rt, alloc, archive, script)
    }

    /// Writes a block for the session of a seat.
    fn put<D: Disk, R: Wait>(
        &mut self,
        rt: &R,
        alloc: Global,
        archive: &SharedArchive<D, A>,
        seat: usize,
        block: Block,
    ) -> Result<Reply, Refusal> {
        self.bench.write(rt, alloc, archive, seat, block)
    }

    /// Writes the frame of a session id, at an offset of the term, for the session of a seat.
    fn write<D: Disk, R: Wait>(
        &mut self,
        rt: &R,
        alloc: Global,
        archive: &SharedArchive<D, A>,
        seat: usize,
        session_id: i32,
        offset: i32,
    ) -> Result<(), Refusal> {
        let block = block_of(alloc, session_id, offset)?;
        self.put(rt, alloc, archive, seat, block)?;
        Ok(())
    }

    /// Writes the frame of an offset of the term for each session.
    fn write_both<D: Disk, R: Wait>(
        &mut self,
        rt: &R,
        alloc: Global,
        archive: &SharedArchive<D, A>,
        offset: i32,
    ) -> Result<(), Refusal> {
        self.write(rt, alloc, archive, 0, 7, offset)?;
        self.write(rt, alloc, archive, 1, 8, offset)
    }

    /// Begins both recordings, and writes the first frame of each.
    fn begin<D: Disk, R: Wait + Abort>(
        &mut self,
        rt: &R,
        alloc: Global,
        archive: &SharedArchive<D, A>,
    ) -> Result<(), Fail> {
        self.play(rt, alloc, archive, BEGUN)?;
        self.write_both(rt, alloc, archive, 0)?;
        Ok(())
    }

    /// Writes the second frame of each recording, and stops the second one.
    fn go_on<D: Disk, R: Wait + Abort>(
        &mut self,
        rt: &R,
        alloc: Global,
        archive: &SharedArchive<D, A>,
    ) -> Result<(), Fail> {
        self.write_both(rt, alloc, archive, 64)?;
        self.play(rt, alloc, archive, "stop 1 2000: stopped 64\n")
    }

    /// How the settling of the chosen seats is refused; not at all if it is answered by these positions.
    fn refuses<D: Disk, R: Wait + Abort>(
        &mut self,
        rt: &R,
        alloc: Global,
        archive: &SharedArchive<D, A>,
        positions: &[Option<i64>],
    ) -> Option<Refusal> {
        let (answer, _) = self
            .bench
            .settle_all(rt, alloc, archive, &self.board, &CHOSEN);
        refusal_of(rt, &answer, positions)
    }

    /// Whether these positions are seen in the two slots.
    fn sees(&mut self, first: i64, second: i64) -> bool {
        let seen = self.board.look(&mut self.reader, 0);
        seen == first && self.board.look(&mut self.reader, 1) == second
    }

    /// The seats again.
    fn into_seats(self) -> Seats<A> {
        let Group {
            board: _,
            reader: _,
            bench,
            second,
            third,
            fourth,
        } = self;
        let (pass, _) = bench.into_parts();
        Seats {
            first: Seat::new(pass),
            second,
            third,
            fourth,
        }
    }
}

/// How a settling was refused; not at all if it was answered by these positions.
fn refusal_of(
    rt: &impl Abort,
    answer: &Result<Items<Option<i64>>, Refusal>,
    positions: &[Option<i64>],
) -> Option<Refusal> {
    match answer {
        Ok(answer) => {
            assert!(rt; answer.as_slice() == positions);
            None
        }
        Err(refusal) => Some(*refusal),
    }
}

/// Seats of the sessions 0 and 1, for two writers of a board that have raised nothing.
fn seats_of(
    alloc: Global,
    board: &Board,
    first: Writer,
    second: Writer,
) -> Result<Vec<BenchSeat>, AllocError>
    requires first { (first.table ≡ board.now) × (raised_positions first ≡ []) }
    requires second { (second.table ≡ board.now) × (raised_positions second ≡ []) }
    ensures unraised { IfOk result (λ seats. AreUnraised seats.items) }
    ensures board { IfOk result (λ seats. AreOfBoard board.now seats.items) }
{
    let _ = board;
    let first = BenchSeat {
        session: 0,
        writer: first,
    };
    let second = BenchSeat {
        session: 1,
        writer: second,
    };
    Ok(vec![in alloc; first, second]?)
}

/// A board of two slots, seats at it, and a reader.
fn boarded(alloc: Global) -> Option<(Board, Vec<BenchSeat>, Reader)>
    ensures slots { IfSome result (λ made. made.0.words ≡ 2) }
    ensures unraised { IfSome result (λ made. AreUnraised made.1.items) }
    ensures board { IfSome result (λ made. AreOfBoard made.0 made.1.items) }
    ensures reader { IfSome result (λ made. made.2.table ≡ made.0) }
{
    let Ok((board, mut writers, mut readers)) = Board::new(alloc, &[0, 0], 1) else {
        return None;
    };
    let (Some(second), Some(first), Some(reader)) = (writers.pop(), writers.pop(), readers.pop())
    else {
        return None;
    };
    match seats_of(alloc, &board, first, second) {
        Ok(seats) => Some((board, seats, reader)),
        Err(_) => None,
    }
}

/// The group.
fn group_of<A: Naming>(alloc: Global, seats: Seats<A>) -> Option<Group<A>> {
    let Some((board, at, reader)) = boarded(alloc) else {
        return None;
    };
    let Seats {
        first,
        second,
        third,
        fourth,
    } = seats;
    Some(Group {
        board,
        reader,
        bench: RecorderBench::new(first.into_pass(), at),
        second,
        third,
        fourth,
    })
}

/// What the settling is answered while both sessions are open, and once the second recording was stopped.
const BOTH_OPEN: [Option<i64>; 3] = [Some(64), Some(64), None];

const ONE_OPEN: [Option<i64>; 3] = [Some(128), None, None];

/// Both sessions settle, and then one alone.
fn settle_twice<D: Disk, A: Naming, R: Wait + Abort>(
    rt: &R,
    alloc: Global,
    archive: &SharedArchive<D, A>,
    group: &mut Group<A>,
) -> Result<Then, Fail> {
    group.begin(rt, alloc, archive)?;
    assert!(rt; group.refuses(rt, alloc, archive, &BOTH_OPEN) == None);
    assert!(rt; group.sees(64, 64));
    group.go_on(rt, alloc, archive)?;
    assert!(rt; group.refuses(rt, alloc, archive, &ONE_OPEN) == None);
    assert!(rt; group.sees(128, 64));
    Ok(Then::Calls(9))
}

/// The settling fails, or not, by the call of the disk of this number. Then no slot is raised.
fn settle_once<D: Disk, A: Naming, R: Wait + Abort>(
    rt: &R,
    alloc: Global,
    archive: &SharedArchive<D, A>,
    group: &mut Group<A>,
    call: u64,
) -> Result<Then, Fail> {
    group.begin(rt, alloc, archive)?;
    let refusal = group.refuses(rt, alloc, archive, &BOTH_OPEN);
    let has_failed = refusal == Some(Refusal::DeviceFault);
    let seen = if has_failed { 0 } else { 64 };
    assert!(rt; group.sees(seen, seen));
    Ok(Then::Group(call, has_failed))
}

/// A call of the settling fails it, and then all of it is recorded, or nothing. Another call fails after it.
pub(crate) fn check_group(rt: &impl Abort, left: Left, call: u64, has_failed: bool) {
    assert!(rt; has_failed == (call <= CALLS), "{call}");
    let recorded = (left.place.1, left.second.1);
    let is_whole = recorded == (64, 64) || (has_failed && recorded == (0, 0));
    assert!(rt; is_whole, "{call}");
}

/// How the settling is refused, once more if it found no memory. Then it has raised no slot.
fn settle_again<D: Disk, A: Naming, R: Wait + Abort>(
    rt: &R,
    alloc: Global,
    archive: &SharedArchive<D, A>,
    group: &mut Group<A>,
) -> Option<Refusal> {
    let refusal = group.refuses(rt, alloc, archive, &BOTH_OPEN);
    if refusal == Some(Refusal::NoMemory) {
        assert!(rt; group.sees(0, 0));
        return group.refuses(rt, alloc, archive, &BOTH_OPEN);
    }
    refusal
}

/// The sessions settle, if need be when they are asked again. The disk in memory may find none.
fn settle_at_last<D: Disk, A: Naming, R: Wait + Abort>(
    rt: &R,
    alloc: Global,
    archive: &SharedArchive<D, A>,
    group: &mut Group<A>,
) -> Result<Then, Fail> {
    group.begin(rt, alloc, archive)?;
    match settle_again(rt, alloc, archive, group) {
        None => assert!(rt; group.sees(64, 64)),
        Some(refusal) => assert!(rt; refusal == Refusal::DeviceFault),
    }
    Ok(Then::Calls(5))
}

/// How a group settles.
#[derive(Clone, Copy)]
pub(crate) enum Settling {
    /// Each session is answered its own position, and its slot is raised to it; a session that isn't there is answered none, and
    /// so is one whose recording was stopped before. The others settle.
    Twice,
    /// The call of the disk of this number fails: then no slot is raised, and of the group all is recorded or nothing.
    Once(u64),
    /// If it finds no memory it is no call, and settles when it is asked again.
    Again,
}

/// A group settles, and leaves its seats.
pub(crate) fn grouped<D: Disk, A: Naming, R: Wait + Abort>(
    rt: &R,
    alloc: Global,
    archive: &SharedArchive<D, A>,
    seats: Seats<A>,
    settling: Settling,
) -> Result<(Seats<A>, Then), Fail> {
    let Some(mut group) = group_of(alloc, seats) else {
        return Err(Fail::from("a board"));
    };
    let then = match settling {
        Settling::Twice => settle_twice(rt, alloc, archive, &mut group),
        Settling::Once(call) => settle_once(rt, alloc, archive, &mut group, call),
        Settling::Again => settle_at_last(rt, alloc, archive, &mut group),
    };
    match then {
        Ok(then) => Ok((group.into_seats(), then)),
        Err(fail) => Err(fail),
    }
}

/// Two sessions settle by one call: each is answered its own position, and its slot is raised to it. One that is not there, or
/// whose recording was stopped before, gets none.
#[test]
fn sessions_settle_together(rt: HostRuntime) -> Result<(), Fail> {
    played(&rt, rt.alloc(), true, Scenario::Group)
}

/// Each call of the disk fails in turn while two sessions settle: all of it is recorded, or nothing.
#[test]
fn each_call_of_a_group_fails(rt: HostRuntime) -> Result<(), Fail> {
    for call in 1..=CALLS + 1 {
        played(&rt, rt.alloc(), true, Scenario::GroupFault(call))?;
    }
    Ok(())
}

/// A group that finds no memory settles nothing, and raises no slot. If it is asked again it does: `trials/refused_memory.py tests`
/// refuses one request of each run.
#[test]
fn refused_memory_leaves_a_group(rt: HostRuntime) -> Result<(), Fail> {
    played_again(&rt, rt.alloc(), true, Scenario::GroupAgain)
}
