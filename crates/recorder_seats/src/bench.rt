//! A recorder's bench: one pass for all of a thread's sessions, with a writer for each. docs/ARCHITECTURE.md, "The board".

ghost use Rattle.std.specs.Prelude.{◌≡◌, ℤ, Err, IfErr, IfOk, IsErrOf, List, MatchOption, MatchResult, Option, Some};
ghost use Rattle.std.specs.List.{zip};
ghost use Rattle.frame_core.specs.declared.refusal.Refusal.TheVariants.{NoMemory};
ghost use Rattle.archive_model.specs.declared.reply.Reply.TheVariants.{SettledAll};
ghost use Rattle.control_core.specs.declared.event.Event.TheVariants.{Settle, SettleAll, Write};
ghost use Rattle.engine_core.specs.Grouping.{segments_each};
ghost use Rattle.archive_lock.specs.History.{EndsWithAnswer, IsNoted, LeadsToDesk, SeesDesk};
ghost use Rattle.archive_lock.specs.Several.{EndsWithAnswers};
ghost use Rattle.archive_lock.specs.Standing.{standing_of};
ghost use Rattle.recorder_seats.specs.Bench.{AllAreAmong, AreOfBoard, AreUnraised, group_outcome, raised_at, raised_each, reseated_at, seat_session, sessions_at};
ghost use Rattle.recorder_seats.specs.Seat.{raised_unless_below, settling_outcome};

use crate::seat::settled_position;
use archive_lock::{Made, Naming, SharedArchive, Standing};
use archive_model::Reply;
use call_history::Pass;
use control_core::Event;
use disk_core::{Disk, FileId};
use frame_core::{Block, Items, Refusal};
use position_board::{Board, Writer};
use std::alloc::{AllocError, Global};
use std::marker::Model;
use std::sync::Wait;

/// The number that stands for the session of a seat that is not there: no session has it.
const NO_SESSION: i64 = -1;

/// A recorder session's number, and the writer of its slot.
#[derive(Drop)]
pub struct BenchSeat {
    /// The session's number.
    pub session: i64,
    /// The writer.
    pub writer: Writer,
}

/// A pass, and seats by their indices. Each position that a writer raised was answered to a settling among the pass's calls, of
/// one session or of several.
#[derive(Drop)]
pub struct RecorderBench {
    pass: Pass<Made>,
    seats: Vec<BenchSeat>,
}

impl Model for RecorderBench {
    ghost use Rattle.recorder_seats.specs.Bench.{AllAreAmong, BenchView};

    ghost Value = { BenchView };

    ghost view = { λ b. record { pass = b.pass; seats = b.seats.items } };

    ghost invariant = { λ b. AllAreAmong b.pass b.seats.items };
}

impl RecorderBench {
    /// A bench whose writers have raised nothing.
    #[tactic(auto, using(crate::proofs::BenchLemmas::none_raised))]
    pub fn new(pass: Pass<Made>, seats: Vec<BenchSeat>) -> RecorderBench
        requires { AreUnraised seats.items }
        ensures { result ≡ record { pass = pass; seats = seats.items } }
    {
        RecorderBench { pass, seats }
    }

    /// The pass and the seats. Each position that a writer raised was answered to a settling among the pass's calls.
    pub fn into_parts(self) -> (Pass<Made>, Vec<BenchSeat>)
        ensures pass { result.0 ≡ self.pass }
        ensures seats { result.1.items ≡ self.seats }
        ensures settled { AllAreAmong result.0 result.1.items }
    {
        let RecorderBench { pass, seats } = self;
        (pass, seats)
    }

    /// The seat at an index writes and settles for another session from now on. Where there is none, nothing changes.
    pub fn set_session(&mut self, seat: usize, session: i64)
        ensures { self.new ≡ record self.old { seats = reseated_at seat session self.old.seats } }
    {
        if let Some(seat) = self.seats.get_mut(seat) {
            seat.session = session;
        }
    }

    /// Writes a block for the session of a seat: one call, whose answer it gives. Where that is `NoMemory` the bench is as it was.
    /// Costs what the writing costs, and waits for those that hold the lock. docs/CONTROL.md, "Control state".
    pub fn write<D: Disk, A: Naming, R: Wait>(
        &mut self,
        rt: &R,
        alloc: Global,
        archive: &SharedArchive<D, A>,
        seat: usize,
        block: Block,
    ) -> Result<Reply, Refusal>
        requires { self.old.pass.table ≡ A.table }
        ensures answers { IsNoted result → EndsWithAnswer D.life A.opening self.old.pass
            (Write (seat_session self.old.seats seat) block) result self.new.pass }
        ensures unnoted { IsErrOf result NoMemory → self.new.pass ≡ self.old.pass }
        ensures pass { (self.new.pass.table ≡ self.old.pass.table) × (self.new.pass.number ≡ self.old.pass.number) }
        ensures same { self.new ≡ record self.old { pass = self.new.pass } }
    {
        let session = seat_session(self.seats.as_slice(), seat);
        archive.call(rt, alloc, &mut self.pass, &Event::Write { session, block })
    }

    /// Makes several calls under one taking of the lock, in their order, until there is no more or one is refused: what each was
    /// answered. The slots stay, also if one settles. `NoMemory` where there is none for the answers: then none was made. Costs
    /// what the calls cost, and waits for those that hold the lock. docs/CONTROL.md, "Histories of calls".
    pub fn calls<D: Disk, A: Naming, R: Wait>(
        &mut self,
        rt: &R,
        alloc: Global,
        archive: &SharedArchive<D, A>,
        events: &[Event],
    ) -> Result<Vec<Result<Reply, Refusal>>, Refusal>
        requires { self.old.pass.table ≡ A.table }
        ensures answers { IfOk result (λ outcomes. EndsWithAnswers D.life A.opening self.old.pass
            events.now outcomes.items self.new.pass) }
        ensures refused { IfErr result (λ refusal. (refusal ≡ NoMemory) × (self.new.pass ≡ self.old.pass)) }
        ensures pass { (self.new.pass.table ≡ self.old.pass.table) × (self.new.pass.number ≡ self.old.pass.number) }
        ensures same { self.new ≡ record self.old { pass = self.new.pass } }
    {
        archive.calls(rt, alloc, &mut self.pass, events)
    }

    /// Makes another call by the pass: its answer, and where the archive stands then. The slots stay, also if it settles. The lock
    /// is taken once. Where the answer is `NoMemory` the bench is as it was, and there is no standing. docs/CONTROL.md, "Control
    /// state".
    pub fn call<D: Disk, A: Naming, R: Wait>(
        &mut self,
        rt: &R,
        alloc: Global,
        archive: &SharedArchive<D, A>,
        event: &Event,
    ) -> (Result<Reply, Refusal>, Option<Standing>)
        requires { self.old.pass.table ≡ A.table }
        ensures answers { IsNoted result.0 → EndsWithAnswer D.life A.opening self.old.pass event.now result.0 self.new.pass }
        ensures unnoted { IsErrOf result.0 NoMemory → self.new.pass ≡ self.old.pass }
        ensures pass { (self.new.pass.table ≡ self.old.pass.table) × (self.new.pass.number ≡ self.old.pass.number) }
        ensures same { self.new ≡ record self.old { pass = self.new.pass } }
        // It stands so by all that the pass then has seen, the call included.
        ensures standing { MatchOption result.1 (result.0 ≡ Err NoMemory) (λ standing.
            IsNoted result.0 × LeadsToDesk A.opening self.new.pass.seen (λ d. standing ≡ standing_of d)) }
    {
        archive.call_with_standing(rt, alloc, &mut self.pass, event)
    }

    /// Where the archive stands, for which it takes the lock: the pass sees all calls so far, and makes none.
    pub fn standing<D: Disk, A: Naming, R: Wait>(
        &mut self,
        rt: &R,
        archive: &SharedArchive<D, A>,
    ) -> Standing
        requires { self.old.pass.table ≡ A.table }
        ensures sees { SeesDesk A.opening self.old.pass (λ d. result ≡ standing_of d) self.new.pass }
        ensures same { self.new ≡ record self.old { pass = self.new.pass } }
    {
        archive.standing(rt, &mut self.pass)
    }

    /// The segment files of what these sessions wrote and did not settle, for which it takes the lock: the pass sees all calls so
    /// far, and makes none. `NoMemory`. docs/STORAGE.md, "Segments".
    pub fn unsettled_segments<D: Disk, A: Naming, R: Wait>(
        &mut self,
        rt: &R,
        alloc: Global,
        archive: &SharedArchive<D, A>,
        sessions: &[i64],
    ) -> Result<Vec<FileId>, Refusal>
        requires { self.old.pass.table ≡ A.table }
        ensures sees { SeesDesk A.opening self.old.pass
            (λ d. IfOk result (λ files. files.items ≡ segments_each d sessions.now)) self.new.pass }
        ensures refused { IfErr result (λ refusal. refusal ≡ NoMemory) }
        ensures same { self.new ≡ record self.old { pass = self.new.pass } }
    {
        archive.unsettled_segments(rt, alloc, &mut self.pass, sessions)
    }

    /// Settles the session of a seat: one call, whose answer it gives, the position up to which the recording is then recorded, in
    /// bytes of the stream, and where the archive stands then. It raises the seat's slot to that position, unless this is below
    /// the slot's last; at a refusal it raises nothing. Where the answer is `NoMemory` the bench is as it was. docs/CONTROL.md,
    /// "Control state"; docs/ARCHITECTURE.md, "The board".
    pub fn settle<D: Disk, A: Naming, R: Wait>(
        &mut self,
        rt: &R,
        alloc: Global,
        archive: &SharedArchive<D, A>,
        board: &Board,
        seat: usize,
    ) -> (Result<i64, Refusal>, Option<Standing>)
        requires pass { self.old.pass.table ≡ A.table }
        requires writers { AreOfBoard board.now self.old.seats }
        ensures answers { IsNoted (settling_outcome result.0) → EndsWithAnswer D.life A.opening self.old.pass
            (Settle (seat_session self.old.seats seat)) (settling_outcome result.0) self.new.pass }
        ensures unnoted { IsErrOf result.0 NoMemory → self.new.pass ≡ self.old.pass }
        ensures raised { MatchResult result.0
            (λ position. self.new.seats ≡ raised_at seat (Some position) self.old.seats)
            (λ _. self.new.seats ≡ self.old.seats) }
        ensures writers { AreOfBoard board.now self.new.seats }
        ensures pass { (self.new.pass.table ≡ self.old.pass.table) × (self.new.pass.number ≡ self.old.pass.number) }
        // It stands so by all that the pass then has seen, the settling included.
        ensures standing { MatchOption result.1 (result.0 ≡ Err NoMemory) (λ standing.
            IsNoted (settling_outcome result.0)
            × LeadsToDesk A.opening self.new.pass.seen (λ d. standing ≡ standing_of d)) }
    {
        let session = seat_session(self.seats.as_slice(), seat);
        let (outcome, standing) = archive.call_with_standing(
            rt,
            alloc,
            &mut self.pass,
            &Event::Settle { session },
        );
        let answer = settled_position(outcome);
        raise_answered(&mut self.seats, board, seat, answer);
        (answer, standing)
    }

    /// Settles the sessions of several seats together: one call, whose answer it gives, for each of them in their order the position
    /// up to which its recording is then recorded, or none where its session is not open. It raises the slot of each to its own
    /// position, unless this is below the slot's last; at a refusal it raises nothing. Where the answer is `NoMemory` the bench is
    /// as it was. docs/CONTROL.md, "Control state"; docs/ARCHITECTURE.md, "The board".
    pub fn settle_all<D: Disk, A: Naming, R: Wait>(
        &mut self,
        rt: &R,
        alloc: Global,
        archive: &SharedArchive<D, A>,
        board: &Board,
        seats: &[usize],
    ) -> (Result<Items<Option<i64>>, Refusal>, Option<Standing>)
        requires pass { self.old.pass.table ≡ A.table }
        requires writers { AreOfBoard board.now self.old.seats }
        ensures answers { IsNoted (group_outcome result.0) → EndsWithAnswer D.life A.opening self.old.pass
            (SettleAll (sessions_at seats.now self.old.seats)) (group_outcome result.0) self.new.pass }
        ensures unnoted { IsErrOf result.0 NoMemory → self.new.pass ≡ self.old.pass }
        ensures raised { MatchResult result.0
            (λ positions. self.new.seats ≡ raised_each (zip seats.now positions) self.old.seats)
            (λ _. self.new.seats ≡ self.old.seats) }
        ensures writers { AreOfBoard board.now self.new.seats }
        ensures pass { (self.new.pass.table ≡ self.old.pass.table) × (self.new.pass.number ≡ self.old.pass.number) }
        ensures standing { MatchOption result.1 (result.0 ≡ Err NoMemory) (λ standing.
            IsNoted (group_outcome result.0)
            × LeadsToDesk A.opening self.new.pass.seen (λ d. standing ≡ standing_of d)) }
    {
        let Ok(sessions) = sessions_at(alloc, self.seats.as_slice(), seats) else {
            return (Err(Refusal::NoMemory), None);
        };
        let (outcome, standing) = archive.call_with_standing(
            rt,
            alloc,
            &mut self.pass,
            &Event::SettleAll { sessions },
        );
        let answer = settled_positions(outcome);
        raise_all_answered(&mut self.seats, board, seats, &answer);
        (answer, standing)
    }
}

/// The session of the seat at an index. A number that no session has where there is none.
fn seat_session(seats: &[BenchSeat], index: usize) -> i64
    ensures { result ≡ seat_session seats.now index }
{
    match seats.get(index) {
        Some(seat) => seat.session,
        None => NO_SESSION,
    }
}

/// The sessions of the seats at some indices, in their order.
#[tactic(auto, using(crate::proofs::BenchLemmas::sessions_next))]
fn sessions_at(
    alloc: Global,
    seats: &[BenchSeat],
    indices: &[usize],
) -> Result<Items<i64>, AllocError>
    ensures { IfOk result (λ sessions. sessions ≡ sessions_at indices.now seats.now) }
{
    let mut sessions = Items::new(alloc);
    for index in indices {
        sessions.push(seat_session(seats, *index))?;
    }
    Ok(sessions)
}

/// Raises the slot of the seat at an index to the position that a settling was answered, if there are both.
fn raise_answered(
    seats: &mut Vec<BenchSeat>,
    board: &Board,
    index: usize,
    answer: Result<i64, Refusal>,
)
    requires { AreOfBoard board.now seats.old.items }
    ensures raised { MatchResult answer
        (λ position. seats.new.items ≡ raised_at index (Some position) seats.old.items)
        (λ _. seats.new.items ≡ seats.old.items) }
    ensures board { AreOfBoard board.now seats.new.items }
{
    if let Ok(position) = answer {
        raise_to(seats, board, index, &position);
    }
}

/// Raises the slots of the seats at some indices to the positions that a settling was answered, each to its own.
fn raise_all_answered(
    seats: &mut Vec<BenchSeat>,
    board: &Board,
    indices: &[usize],
    answer: &Result<Items<Option<i64>>, Refusal>,
)
    requires { AreOfBoard board.now seats.old.items }
    ensures raised { MatchResult answer.now
        (λ positions. seats.new.items ≡ raised_each (zip indices.now positions) seats.old.items)
        (λ _. seats.new.items ≡ seats.old.items) }
    ensures board { AreOfBoard board.now seats.new.items }
{
    if let Ok(positions) = answer {
        raise_each(seats, board, indices, positions.as_slice());
    }
}

/// Raises the slots of the seats at some indices, each to its own position, if there is one.
fn raise_each(
    seats: &mut Vec<BenchSeat>,
    board: &Board,
    indices: &[usize],
    positions: &[Option<i64>],
)
    requires { AreOfBoard board.now seats.old.items }
    ensures raised { seats.new.items ≡ raised_each (zip indices.now positions.now) seats.old.items }
    ensures board { AreOfBoard board.now seats.new.items }
{
    for (index, position) in indices.iter().zip(positions) {
        raise_at(seats, board, *index, *position);
    }
}

/// Raises the slot of the seat at an index to a position, if there are both.
fn raise_at(seats: &mut Vec<BenchSeat>, board: &Board, index: usize, position: Option<i64>)
    requires { AreOfBoard board.now seats.old.items }
    ensures raised { seats.new.items ≡ raised_at index position seats.old.items }
    ensures board { AreOfBoard board.now seats.new.items }
{
    if let Some(position) = position {
        raise_to(seats, board, index, &position);
    }
}

/// Raises the slot of the seat at an index to a position, if there is such a seat.
#[tactic(auto, using(crate::proofs::BenchLemmas::board_raised))]
fn raise_to(seats: &mut Vec<BenchSeat>, board: &Board, index: usize, position: &i64)
    requires { AreOfBoard board.now seats.old.items }
    ensures raised { seats.new.items ≡ raised_at index (Some position.now) seats.old.items }
    ensures board { AreOfBoard board.now seats.new.items }
{
    if let Some(seat) = seats.get_mut(index) {
        raise(&mut seat.writer, board, *position);
    }
}

/// Raises a slot to a position, unless that is below its last.
fn raise(writer: &mut Writer, board: &Board, position: i64)
    requires { writer.old.table ≡ board.now }
    ensures { writer.new ≡ raised_unless_below position writer.old }
{
    if position >= writer.last() {
        board.raise(writer, position);
    }
}

/// The positions that a settling of several sessions was answered.
fn settled_positions(outcome: Result<Reply, Refusal>) -> Result<Items<Option<i64>>, Refusal>
    requires { IfOk outcome (λ reply. (positions : List (Option ℤ)) × (reply ≡ SettledAll positions)) }
    ensures { group_outcome result ≡ outcome }
{
    match outcome {
        Ok(Reply::SettledAll { positions }) => Ok(positions),
        Ok(_) => unreachable!(),
        Err(refusal) => Err(refusal),
    }
}
