//! A replayer that a recorder's position holds back: docs/ARCHITECTURE.md, "The board".

ghost use Rattle.std.specs.Prelude.{◌≡◌, ◌<◌, [], IfSome};
ghost use Rattle.recorder_seats.specs.Seat.{raised_positions};

use crate::agents::block_of;
use crate::archives::{Scenario, Seats, played};
use crate::left::Then;
use crate::refused_turns::{turn_again, turn_over_damage};
use crate::seat::Seat;
use archive_lock::{Naming, SharedArchive};
use archive_model::Reply;
use control_core::Event;
use disk_core::Disk;
use frame_core::{Block, Refusal};
use position_board::{Board, Reader, Writer};
use recorder_seats::{BoundedReplayer, RecorderSeat, Turn};
use std::alloc::Global;
use std::process::Abort;
use std::sync::Wait;
use std::test::Fail;

/// A bounded replayer gives no frame past the position that it saw in its recorder's slot, and each turn is one call, also if
/// refused.
#[test]
fn a_recorder_holds_a_replayer_back(rt: HostRuntime) -> Result<(), Fail> {
    played(&rt, rt.alloc(), true, Scenario::HeldBack)
}

const BEGUN: &str = "\
start 1001 7 42 65536 1408 65536 0 1000 c: started 0 0
replay 0 0 -1: replay 0
";

/// What comes before a turn, nothing, a settling or a line; for how many frames it polls; and what it gives: the position
/// that it saw, where its frames begin, and whether its replay is done.
const TURNS: [(&str, i64, &str); 8] = [
    ("", 10, "128 [0, 64] false"),
    ("", 10, "128 [] false"),
    ("", 0, "BadParameter"),
    ("settle", 4_097, "BadParameter"),
    ("", 10, "DeviceFault"),
    ("", 10, "192 [128] false"),
    ("stop 0 2000: stopped 192\n", 10, "192 [] true"),
    ("close 0: closed\n", 10, "UnknownReplay"),
];

/// A recorder, a replayer that its slot holds back, who makes lines, and a seat that makes no call.
#[derive(Drop)]
pub(crate) struct Pair<A: Naming> {
    board: Board,
    recorder: RecorderSeat,
    replayer: BoundedReplayer,
    seat: Seat<A>,
    fourth: Seat<A>,
    ghost records: { (recorder.pass.table ≡ A.table) × (recorder.writer.table ≡ board) },
    ghost replays: { (replayer.pass.table ≡ A.table) × (replayer.reader.table ≡ board) },
    ghost slot: { replayer.slot < board.words },
}

impl<A: Naming> Pair<A> {
    fn put<D: Disk, R: Wait>(
        &mut self,
        rt: &R,
        alloc: Global,
        archive: &SharedArchive<D, A>,
        block: Block,
    ) -> Result<Reply, Refusal> {
        self.recorder.write(rt, alloc, archive, block)
    }

    fn settle<D: Disk, R: Wait>(
        &mut self,
        rt: &R,
        alloc: Global,
        archive: &SharedArchive<D, A>,
    ) -> Result<i64, Refusal> {
        self.recorder.settle(rt, alloc, archive, &self.board)
    }

    fn call<D: Disk, R: Wait>(
        &mut self,
        rt: &R,
        alloc: Global,
        archive: &SharedArchive<D, A>,
        event: &Event,
    ) -> Result<Reply, Refusal> {
        self.recorder.call(rt, alloc, archive, event)
    }

    /// Writes the block at an offset of the term.
    fn write<D: Disk, R: Wait>(
        &mut self,
        rt: &R,
        alloc: Global,
        archive: &SharedArchive<D, A>,
        offset: i32,
    ) -> Result<(), Refusal> {
        let block = block_of(alloc, 7, offset)?;
        self.put(rt, alloc, archive, block)?;
        Ok(())
    }

    /// Two blocks are settled and raised, the third is settled alone.
    fn record<D: Disk, R: Wait>(
        &mut self,
        rt: &R,
        alloc: Global,
        archive: &SharedArchive<D, A>,
    ) -> Result<(), Refusal> {
        self.write(rt, alloc, archive, 0)?;
        self.write(rt, alloc, archive, 64)?;
        self.settle(rt, alloc, archive)?;
        self.write(rt, alloc, archive, 128)?;
        self.call(rt, alloc, archive, &Event::Settle { session: 0 })?;
        Ok(())
    }

    /// What comes before a turn.
    fn prepare<D: Disk, R: Wait + Abort>(
        &mut self,
        rt: &R,
        alloc: Global,
        archive: &SharedArchive<D, A>,
        step: &str,
    ) -> Result<(), Fail> {
        match step {
            "" => Ok(()),
            "settle" => {
                self.settle(rt, alloc, archive)?;
                Ok(())
            }
            line => self.seat.plays(rt, alloc, archive, line),
        }
    }

    /// A turn.
    pub(crate) fn take_turn<D: Disk, R: Wait>(
        &mut self,
        rt: &R,
        alloc: Global,
        archive: &SharedArchive<D, A>,
        max: i64,
    ) -> Result<Turn, Refusal> {
        self.replayer.turn(rt, alloc, archive, &self.board, max)
    }

    /// A turn gives this, as text.
    pub(crate) fn gives<D: Disk, R: Wait + Abort>(
        &mut self,
        rt: &R,
        alloc: Global,
        archive: &SharedArchive<D, A>,
        max: i64,
        gives: &str,
    ) -> Result<(), Fail> {
        let turn = text_of(alloc, &self.take_turn(rt, alloc, archive, max))?;
        assert!(rt; turn.as_str() == gives, "{turn}");
        Ok(())
    }

    /// The seats again.
    fn into_seats(self) -> Seats<A> {
        let Pair {
            board: _,
            recorder,
            replayer,
            seat,
            fourth,
        } = self;
        let (first, _) = recorder.into_parts();
        let (second, _) = replayer.into_parts();
        Seats {
            first: Seat::new(first),
            second: Seat::new(second),
            third: seat,
            fourth,
        }
    }
}

fn text_of(alloc: Global, turn: &Result<Turn, Refusal>) -> Result<String, Fail> {
    match turn {
        Ok(turn) => {
            let mut positions = Vec::new(alloc);
            for frame in turn.frames.as_slice() {
                positions.push(frame.position)?;
            }
            let positions = positions.as_slice();
            Ok(format!(in alloc; "{} {:?} {}", turn.seen, positions, turn.ended)?)
        }
        Err(refusal) => Ok(format!(in alloc; "{refusal:?}")?),
    }
}

/// A replayer follows its own archive's recorder. Each turn gains one call, also if it is refused.
fn follow<D: Disk, A: Naming, R: Wait + Abort>(
    rt: &R,
    alloc: Global,
    archive: &SharedArchive<D, A>,
    pair: &mut Pair<A>,
) -> Result<Then, Fail> {
    pair.seat.plays(rt, alloc, archive, BEGUN)?;
    pair.record(rt, alloc, archive)?;
    for (step, max, gives) in TURNS {
        pair.prepare(rt, alloc, archive, step)?;
        pair.gives(rt, alloc, archive, max, gives)?;
    }
    Ok(Then::Calls(18))
}

/// What the turns of a replayer are.
#[derive(Clone, Copy)]
pub(crate) enum Turning {
    /// They are held back by the recorder's position.
    HeldBack,
    /// They are over damage.
    Damaged,
    /// The one is made again if it finds no memory.
    Again,
}

/// A pair makes turns, and leaves its seats.
pub(crate) fn paired<D: Disk, A: Naming, R: Wait + Abort>(
    rt: &R,
    alloc: Global,
    archive: &SharedArchive<D, A>,
    seats: Seats<A>,
    turning: Turning,
) -> Result<(Seats<A>, Then), Fail> {
    let start = if let Turning::HeldBack = turning {
        0
    } else {
        128
    };
    let Some(mut pair) = seated(alloc, seats, start) else {
        return Err(Fail::from("a board"));
    };
    let then = match turning {
        Turning::HeldBack => follow(rt, alloc, archive, &mut pair),
        Turning::Damaged => turn_over_damage(rt, alloc, archive, &mut pair),
        Turning::Again => turn_again(rt, alloc, archive, &mut pair),
    };
    match then {
        Ok(then) => Ok((pair.into_seats(), then)),
        Err(fail) => Err(fail),
    }
}

/// A board of one slot, its writer, and a reader.
fn boarded(alloc: Global, start: i64) -> Option<(Board, Writer, Reader)>
    ensures slot { IfSome result (λ made. made.0.words ≡ 1) }
    ensures writer { IfSome result (λ made. made.1.table ≡ made.0) }
    ensures unraised { IfSome result (λ made. raised_positions made.1 ≡ []) }
    ensures reader { IfSome result (λ made. made.2.table ≡ made.0) }
{
    let Ok((board, mut writers, mut readers)) = Board::new(alloc, &[start], 1) else {
        return None;
    };
    match (writers.pop(), readers.pop()) {
        (Some(writer), Some(reader)) => Some((board, writer, reader)),
        _ => None,
    }
}

/// A pair at a board.
fn pair_at<A: Naming>(board: Board, writer: Writer, reader: Reader, seats: Seats<A>) -> Pair<A>
    requires slot { board.words ≡ 1 }
    requires writer { (writer.table ≡ board) × (raised_positions writer ≡ []) }
    requires reader { reader.table ≡ board }
{
    let Seats {
        first,
        second,
        third,
        fourth,
    } = seats;
    Pair {
        board,
        recorder: RecorderSeat::new(0, first.into_pass(), writer),
        replayer: BoundedReplayer::new(second.into_pass(), 0, reader, 0),
        seat: third,
        fourth,
    }
}

/// A pair at such a board.
fn seated<A: Naming>(alloc: Global, seats: Seats<A>, start: i64) -> Option<Pair<A>> {
    match boarded(alloc, start) {
        Some((board, writer, reader)) => Some(pair_at(board, writer, reader, seats)),
        None => None,
    }
}
