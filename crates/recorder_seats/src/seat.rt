//! A recorder's seat: a session, and a pass and a writer that belong together. docs/ARCHITECTURE.md, "The board".

ghost use Rattle.std.specs.Prelude.{◌≡◌, [], ℤ, Err, IfOk, IfErr, IsErrOf, MatchOption};
ghost use Rattle.frame_core.specs.declared.refusal.Refusal.TheVariants.{NoMemory};
ghost use Rattle.archive_model.specs.declared.reply.Reply.TheVariants.{Settled};
ghost use Rattle.control_core.specs.declared.event.Event.TheVariants.{Settle, Write};
ghost use Rattle.archive_lock.specs.History.{EndsWithAnswer, IsNoted, LeadsToDesk, SeesDesk};
ghost use Rattle.archive_lock.specs.Standing.{standing_of};
ghost use Rattle.recorder_seats.specs.Seat.{RaisedAreSettled, raised_positions, raised_unless_below, settling_outcome};

use archive_lock::{Made, Naming, SharedArchive, Standing};
use archive_model::Reply;
use call_history::Pass;
use control_core::Event;
use disk_core::Disk;
use frame_core::{Block, Refusal};
use position_board::{Board, Writer};
use std::alloc::Global;
use std::marker::Model;
use std::sync::Wait;

/// A recorder session's number, a pass and a writer. Each position that the writer raised was answered to a settling among
/// the pass's calls.
#[derive(Drop)]
pub struct RecorderSeat {
    session: i64,
    pass: Pass<Made>,
    writer: Writer,
}

impl Model for RecorderSeat {
    ghost use Rattle.recorder_seats.specs.Seat.{RaisedAreSettled, SeatView};

    ghost Value = { SeatView };

    ghost view = { λ s. record { session = s.session; pass = s.pass; writer = s.writer } };

    ghost invariant = { λ s. RaisedAreSettled s.pass s.writer };
}

impl RecorderSeat {
    /// A seat with a writer that has raised nothing.
    pub fn new(session: i64, pass: Pass<Made>, writer: Writer) -> RecorderSeat
        requires { raised_positions writer ≡ [] }
        ensures { result ≡ record { session = session; pass = pass; writer = writer } }
    {
        RecorderSeat {
            session,
            pass,
            writer,
        }
    }

    /// Writes and settles for another session from now on.
    pub fn set_session(&mut self, session: i64)
        ensures { self.new ≡ record self.old { session = session } }
    {
        self.session = session;
    }

    /// The pass and the writer. Each position that the writer raised was answered to a settling among the pass's calls.
    pub fn into_parts(self) -> (Pass<Made>, Writer)
        ensures pass { result.0 ≡ self.pass }
        ensures writer { result.1 ≡ self.writer }
        ensures settled { RaisedAreSettled result.0 result.1 }
    {
        let RecorderSeat {
            session: _,
            pass,
            writer,
        } = self;
        (pass, writer)
    }

    /// Writes a block for the session: one call, whose answer it gives. Where that is `NoMemory` the seat is as it was.
    /// Costs what the writing costs, and waits for those that hold the lock. docs/CONTROL.md, "Control state".
    pub fn write<D: Disk, A: Naming, R: Wait>(
        &mut self,
        rt: &R,
        alloc: Global,
        archive: &SharedArchive<D, A>,
        block: Block,
    ) -> Result<Reply, Refusal>
        requires { self.old.pass.table ≡ A.table }
        ensures answers { IsNoted result → EndsWithAnswer D.life A.opening self.old.pass
            (Write self.old.session block) result self.new.pass }
        ensures unnoted { IsErrOf result NoMemory → self.new.pass ≡ self.old.pass }
        ensures pass { self.new.pass.table ≡ self.old.pass.table }
        ensures number { self.new.pass.number ≡ self.old.pass.number }
        ensures same { self.new ≡ record self.old { pass = self.new.pass } }
    {
        let session = self.session;
        archive.call(rt, alloc, &mut self.pass, &Event::Write { session, block })
    }

    /// Makes another call by the pass: one call, whose answer it gives. The slot stays, also if it settles. Where the answer is
    /// `NoMemory` the seat is as it was. Costs what the call costs, and waits for those that hold the lock. docs/CONTROL.md,
    /// "Control state".
    pub fn call<D: Disk, A: Naming, R: Wait>(
        &mut self,
        rt: &R,
        alloc: Global,
        archive: &SharedArchive<D, A>,
        event: &Event,
    ) -> Result<Reply, Refusal>
        requires { self.old.pass.table ≡ A.table }
        ensures answers { IsNoted result → EndsWithAnswer D.life A.opening self.old.pass event.now result self.new.pass }
        ensures unnoted { IsErrOf result NoMemory → self.new.pass ≡ self.old.pass }
        ensures pass { self.new.pass.table ≡ self.old.pass.table }
        ensures number { self.new.pass.number ≡ self.old.pass.number }
        ensures same { self.new ≡ record self.old { pass = self.new.pass } }
    {
        archive.call(rt, alloc, &mut self.pass, event)
    }

    /// The same, and where the archive stands then: the lock is taken once. None where the answer is `NoMemory`.
    pub fn call_with_standing<D: Disk, A: Naming, R: Wait>(
        &mut self,
        rt: &R,
        alloc: Global,
        archive: &SharedArchive<D, A>,
        event: &Event,
    ) -> (Result<Reply, Refusal>, Option<Standing>)
        requires { self.old.pass.table ≡ A.table }
        ensures answers { IsNoted result.0 → EndsWithAnswer D.life A.opening self.old.pass event.now result.0 self.new.pass }
        ensures unnoted { IsErrOf result.0 NoMemory → self.new.pass ≡ self.old.pass }
        ensures pass { self.new.pass.table ≡ self.old.pass.table }
        ensures number { self.new.pass.number ≡ self.old.pass.number }
        ensures same { self.new ≡ record self.old { pass = self.new.pass } }
        // It stands so by all that the pass then has seen, the call included.
        ensures standing { MatchOption result.1 (result.0 ≡ Err NoMemory) (λ standing.
            IsNoted result.0 × LeadsToDesk A.opening self.new.pass.seen (λ d. standing ≡ standing_of d)) }
    {
        archive.call_with_standing(rt, alloc, &mut self.pass, event)
    }

    /// Where the archive stands, for which it takes the lock: the pass sees all calls so far, and makes none.
    pub fn standing<D: Disk, A: Naming, R: Wait>(
        &mut self,
        rt: &R,
        archive: &SharedArchive<D, A>,
    ) -> Standing
        requires { self.old.pass.table ≡ A.table }
        ensures sees { SeesDesk A.opening self.old.pass (λ d. result ≡ standing_of d) self.new.pass }
        ensures same { self.new ≡ record self.old { pass = self.new.pass } }
    {
        archive.standing(rt, &mut self.pass)
    }

    /// Settles the session: one call, whose answer it gives, the position up to which the recording is then recorded, in
    /// bytes of the stream. Then it raises its slot to that position, unless this is below the slot's last; at a refusal it
    /// raises nothing. Where the answer is `NoMemory` the seat is as it was. Costs what the settling costs, and waits for
    /// those that hold the lock. docs/CONTROL.md, "Control state"; docs/ARCHITECTURE.md, "The board".
    pub fn settle<D: Disk, A: Naming, R: Wait>(
        &mut self,
        rt: &R,
        alloc: Global,
        archive: &SharedArchive<D, A>,
        board: &Board,
    ) -> Result<i64, Refusal>
        requires pass { self.old.pass.table ≡ A.table }
        requires writer { self.old.writer.table ≡ board.now }
        ensures answers { IsNoted (settling_outcome result) → EndsWithAnswer D.life A.opening self.old.pass
            (Settle self.old.session) (settling_outcome result) self.new.pass }
        ensures unnoted { IsErrOf result NoMemory → self.new.pass ≡ self.old.pass }
        ensures raised { IfOk result (λ position.
            self.new.writer ≡ raised_unless_below position self.old.writer) }
        ensures refused { IfErr result (λ _. self.new.writer ≡ self.old.writer) }
        ensures pass { self.new.pass.table ≡ self.old.pass.table }
        ensures number { self.new.pass.number ≡ self.old.pass.number }
        ensures session { self.new.session ≡ self.old.session }
    {
        let (answer, _) = self.settle_with_standing(rt, alloc, archive, board);
        answer
    }

    /// The same, and where the archive stands then: the lock is taken once. None where the answer is `NoMemory`.
    pub fn settle_with_standing<D: Disk, A: Naming, R: Wait>(
        &mut self,
        rt: &R,
        alloc: Global,
        archive: &SharedArchive<D, A>,
        board: &Board,
    ) -> (Result<i64, Refusal>, Option<Standing>)
        requires pass { self.old.pass.table ≡ A.table }
        requires writer { self.old.writer.table ≡ board.now }
        ensures answers { IsNoted (settling_outcome result.0) → EndsWithAnswer D.life A.opening self.old.pass
            (Settle self.old.session) (settling_outcome result.0) self.new.pass }
        ensures unnoted { IsErrOf result.0 NoMemory → self.new.pass ≡ self.old.pass }
        ensures raised { IfOk result.0 (λ position.
            self.new.writer ≡ raised_unless_below position self.old.writer) }
        ensures refused { IfErr result.0 (λ _. self.new.writer ≡ self.old.writer) }
        ensures pass { self.new.pass.table ≡ self.old.pass.table }
        ensures number { self.new.pass.number ≡ self.old.pass.number }
        ensures session { self.new.session ≡ self.old.session }
        // It stands so by all that the pass then has seen, the settling included.
        ensures standing { MatchOption result.1 (result.0 ≡ Err NoMemory) (λ standing.
            IsNoted (settling_outcome result.0)
            × LeadsToDesk A.opening self.new.pass.seen (λ d. standing ≡ standing_of d)) }
    {
        let session = self.session;
        let (outcome, standing) = archive.call_with_standing(
            rt,
            alloc,
            &mut self.pass,
            &Event::Settle { session },
        );
        let answer = settled_position(outcome);
        if let Ok(position) = answer {
            if position >= self.writer.last() {
                board.raise(&mut self.writer, position);
            }
        }
        (answer, standing)
    }
}

/// The position that a settling was answered.
pub(crate) fn settled_position(outcome: Result<Reply, Refusal>) -> Result<i64, Refusal>
    requires { IfOk outcome (λ reply. (position : ℤ) × (reply ≡ Settled position)) }
    ensures { settling_outcome result ≡ outcome }
{
    match outcome {
        Ok(Reply::Settled { position }) => Ok(position),
        Ok(_) => unreachable!(),
        Err(refusal) => Err(refusal),
    }
}
