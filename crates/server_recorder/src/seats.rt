//! The seats of the recorder sessions that images feed. docs/ARCHITECTURE.md, "The board".

ghost use Rattle.std.specs.Prelude.{◌≡◌, ◌≤◌, ◌<◌, ◌+◌, ◌∷◌, [], IfErr, IfOk, pos, vec_capacity, vec_len};
ghost use Rattle.frame_core.specs.declared.refusal.Refusal.TheVariants.{NoMemory};
ghost use Rattle.control_core.specs.declared.event.Event.{Event};
ghost use Rattle.engine_core.specs.Grouping.{segments_each};
ghost use Rattle.call_history.specs.Passes.{new_pass, new_passes};
ghost use Rattle.position_board.specs.Positions.{new_writers};
ghost use Rattle.archive_lock.specs.Several.{EndsWithAnswers};
ghost use Rattle.archive_lock.specs.Standing.{standing_of};
ghost use Rattle.recorder_seats.specs.Bench.{reseated_at};
ghost use Rattle.server_recorder.specs.Seats.{AreAllPasses, AreClientPasses, AreNewSeats, AreNewWriters, ChangesPass, IsNewWriter, MakesCall, SeesAt, SettlesGroup, SettlesSession};

use archive_lock::{Made, Naming, SharedArchive, Standing};
use archive_model::Reply;
use call_history::Pass;
use control_core::Event;
use disk_core::{Disk, FileId};
use frame_core::{Items, Refusal};
use position_board::{Board, Writer};
use recorder_seats::{BenchSeat, RecorderBench};
use std::alloc::Global;
use std::marker::{Model, PhantomData};
use std::sync::Wait;
use stream_pairs::{FED_SESSIONS, Seat};

/// A board, and a bench with a seat for each of 64 recorder sessions that images feed, by its number. To a contract it is the board
/// and the bench; its pass is the archive's first.
#[derive(Drop)]
pub struct Seats<A: Naming> {
    board: Board,
    bench: RecorderBench,
    of: PhantomData<A>,
}

impl<A: Naming> Model for Seats<A> {
    ghost use Rattle.server_recorder.specs.Seats.{IsBench, SeatsView};

    ghost Value = { SeatsView };

    ghost view = { λ s. record { board = s.board; bench = s.bench } };

    ghost invariant = { λ s. IsBench A.table s.board s.bench };
}

/// A board, and a seat for each of its slots: all that seats take memory for. To a contract it is the board.
#[derive(Drop)]
pub struct SeatRoom {
    board: Board,
    seats: Vec<BenchSeat>,
}

impl Model for SeatRoom {
    ghost use Rattle.atomic_table.specs.Seated.{TableId};
    ghost use Rattle.server_recorder.specs.Seats.{AreNewSeats};

    ghost Value = { TableId };

    ghost view = { λ b. b.board };

    ghost invariant = { λ b. AreNewSeats b.board 0 b.seats.items };
}

impl SeatRoom {
    /// Room for the sessions of the numbers 0 to 63, with slots that start at 0, and no reader. `NoMemory`.
    #[tactic(auto, using(crate::proofs::SeatLemmas::count_new))]
    pub fn new(alloc: Global) -> Result<SeatRoom, Refusal>
        ensures { IfErr result (λ refusal. refusal ≡ NoMemory) }
    {
        let starts = [0; FED_SESSIONS];
        let (board, writers, _) = Board::new(alloc, &starts, 0)?;
        let room = Vec::with_capacity(alloc, FED_SESSIONS)?;
        Ok(SeatRoom::of_board(board, writers, room, &starts))
    }

    /// Room with a new board with these starts.
    fn of_board(
        board: Board,
        writers: Vec<Writer>,
        room: Vec<BenchSeat>,
        starts: &[i64],
    ) -> SeatRoom
        requires writers { writers.items ≡ new_writers board 0 starts.now }
        requires count { vec_len writers ≡ 64 }
        requires room { (room.items ≡ []) × (64 ≤ vec_capacity room) }
    {
        let _ = starts;
        let seats = seats_of(&board, writers, room);
        SeatRoom { board, seats }
    }

    /// The seats, with a pass that has made no call. Does not allocate.
    #[tactic(auto, using(crate::proofs::SeatLemmas::are_seats, crate::proofs::SeatLemmas::are_unraised))]
    pub fn seated<A: Naming>(self, pass: Pass<Made>) -> Seats<A>
        requires { pass ≡ new_pass A.table 0 }
        ensures { result.board ≡ self }
    {
        let SeatRoom { board, seats } = self;
        Seats {
            board,
            bench: RecorderBench::new(pass, seats),
            of: PhantomData,
        }
    }
}

/// A seat for each writer of a board, by its number. Does not allocate.
fn seats_of(board: &Board, mut writers: Vec<Writer>, mut room: Vec<BenchSeat>) -> Vec<BenchSeat>
    requires writers { AreNewWriters board.now 0 writers.items }
    requires count { vec_len writers ≡ 64 }
    requires room { (room.items ≡ []) × (64 ≤ vec_capacity room) }
    ensures { AreNewSeats board.now 0 result.items }
{
    let _ = board;
    while let Some(writer) = writers.pop() {
        let session = writers.len() as i64;
        room.push_reserved(BenchSeat { session, writer });
    }
    room.reverse();
    room
}

impl<A: Naming> Seats<A> {
    /// A seat writes and settles for the session of a number from now on. One from 64 on changes nothing.
    pub fn set_session(&mut self, seat: Seat, session: i64)
        ensures { self.new ≡ record self.old {
          bench = record self.old.bench {
            seats = reseated_at seat session self.old.bench.seats;
          };
        } }
    {
        self.bench.set_session(seat, session);
    }

    /// Makes several calls under one taking of the lock, as `RecorderBench::calls`: in their order, until there is no more or one
    /// is refused.
    pub fn calls<D: Disk, R: Wait>(
        &mut self,
        rt: &R,
        alloc: Global,
        archive: &SharedArchive<D, A>,
        events: &[Event],
    ) -> Result<Vec<Result<Reply, Refusal>>, Refusal>
        ensures answers { IfOk result (λ outcomes. EndsWithAnswers D.life A.opening self.old.bench.pass
            events.now outcomes.items self.new.bench.pass) }
        ensures refused { IfErr result (λ refusal.
            (refusal ≡ NoMemory) × (self.new.bench.pass ≡ self.old.bench.pass)) }
        ensures same { ChangesPass self.old self.new }
    {
        self.bench.calls(rt, alloc, archive, events)
    }

    /// Makes another call, as `RecorderBench::call`: its answer, and where the archive stands after it.
    pub fn call<D: Disk, R: Wait>(
        &mut self,
        rt: &R,
        alloc: Global,
        archive: &SharedArchive<D, A>,
        event: &Event,
    ) -> (Result<Reply, Refusal>, Option<Standing>)
        ensures { MakesCall D.life A.opening event.now self.old result self.new }
    {
        self.bench.call(rt, alloc, archive, event)
    }

    /// Where the archive stands. Takes the lock for it.
    pub fn standing<D: Disk, R: Wait>(&mut self, rt: &R, archive: &SharedArchive<D, A>) -> Standing
        ensures { SeesAt A.opening (λ d. result ≡ standing_of d) self.old self.new }
    {
        self.bench.standing(rt, archive)
    }

    /// The segment files of what these sessions wrote and did not settle. Takes the lock for it. `NoMemory`.
    pub fn unsettled_segments<D: Disk, R: Wait>(
        &mut self,
        rt: &R,
        alloc: Global,
        archive: &SharedArchive<D, A>,
        sessions: &[i64],
    ) -> Result<Vec<FileId>, Refusal>
        ensures sees { SeesAt A.opening (λ d. IfOk result (λ files. files.items ≡ segments_each d sessions.now))
            self.old self.new }
        ensures refused { IfErr result (λ refusal. refusal ≡ NoMemory) }
    {
        self.bench.unsettled_segments(rt, alloc, archive, sessions)
    }

    /// Settles the session of a seat, and raises its slot, as `RecorderBench::settle`: the position up to which it is recorded, and
    /// where the archive stands after it. `StaleSession` where it has no seat.
    #[tactic(auto, using(crate::proofs::SeatLemmas::are_of_board))]
    pub fn settle<D: Disk, R: Wait>(
        &mut self,
        rt: &R,
        alloc: Global,
        archive: &SharedArchive<D, A>,
        seat: Seat,
    ) -> (Result<i64, Refusal>, Option<Standing>)
        ensures { SettlesSession D.life A.opening seat self.old result self.new }
    {
        self.bench.settle(rt, alloc, archive, &self.board, seat)
    }

    /// Settles the sessions of several seats together, and raises their slots, as `RecorderBench::settle_all`: the positions up to
    /// which they are recorded, and where the archive stands after it.
    #[tactic(auto, using(crate::proofs::SeatLemmas::are_of_board))]
    pub fn settle_all<D: Disk, R: Wait>(
        &mut self,
        rt: &R,
        alloc: Global,
        archive: &SharedArchive<D, A>,
        seats: &[Seat],
    ) -> (Result<Items<Option<i64>>, Refusal>, Option<Standing>)
        ensures { SettlesGroup D.life A.opening seats.now self.old result self.new }
    {
        self.bench
            .settle_all(rt, alloc, archive, &self.board, seats)
    }

    /// The passes of clients, and that of the seats: all of the archive's. Does not allocate.
    pub fn into_passes(self, mut clients: Vec<Pass<Made>>) -> Vec<Pass<Made>>
        requires clients { AreClientPasses A.table A.passes clients.items }
        requires room { 1 + vec_len clients ≤ vec_capacity clients }
        ensures { AreAllPasses A.table A.passes result.items }
    {
        let Seats {
            board: _,
            bench,
            of: _,
        } = self;
        let (pass, _) = bench.into_parts();
        clients.push_reserved(pass);
        clients
    }
}

/// The pass of the seats, and those of clients, which come from the passes of an archive. For all of them there is room next to the
/// latter.
pub fn parted<A: Naming>(
    mut passes: Vec<Pass<Made>>,
    mut room: Vec<Pass<Made>>,
) -> (Pass<Made>, Vec<Pass<Made>>)
    requires made { passes.items ≡ new_passes A.table A.passes }
    requires some { 1 ≤ A.passes }
    requires empty { room.items ≡ [] }
    requires room { A.passes ≤ vec_capacity room }
    ensures first { result.0 ≡ new_pass A.table 0 }
    ensures clients { AreClientPasses A.table A.passes result.1.items }
    ensures room { 1 + vec_len result.1 ≤ vec_capacity result.1 }
{
    while passes.len() > 1 {
        let Some(pass) = passes.pop() else {
            unreachable!();
        };
        room.push_reserved(pass);
    }
    let Some(first) = passes.pop() else {
        unreachable!();
    };
    (first, room)
}
