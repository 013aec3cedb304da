//! A replayer that another recorder's position holds back. docs/ARCHITECTURE.md, "The board".

ghost use Rattle.std.specs.Prelude.{◌≡◌, ◌<◌, ◌<ℤ◌, ◌≤ℤ◌, IfOk, IsErrOf, Result};
ghost use Rattle.frame_core.specs.declared.refusal.Refusal.{Refusal};
ghost use Rattle.frame_core.specs.declared.refusal.Refusal.TheVariants.{NoMemory};
ghost use Rattle.archive_model.specs.Keyed.{Each};
ghost use Rattle.archive_model.specs.declared.reply.Reply.{Reply};
ghost use Rattle.control_core.specs.declared.event.Event.TheVariants.{ReplayPollTo};
ghost use Rattle.position_board.specs.Positions.{having_seen, seen_at};
ghost use Rattle.archive_lock.specs.History.{EndsWithAnswer, IsNoted};
ghost use Rattle.recorder_seats.specs.Bounded.{IsTurnOf};

use crate::poll::polled;
use archive_lock::{Made, Naming, SharedArchive};
use archive_model::PolledFrame;
use call_history::Pass;
use control_core::Event;
use disk_core::Disk;
use frame_core::{Items, Refusal};
use position_board::{Board, Reader};
use std::alloc::Global;
use std::marker::Model;
use std::sync::Wait;

/// A replayer whose frames begin before the position that its reader sees in its slot.
#[derive(Drop)]
pub struct BoundedReplayer {
    pass: Pass<Made>,
    replay: i64,
    reader: Reader,
    slot: usize,
}

impl Model for BoundedReplayer {
    ghost use Rattle.recorder_seats.specs.Bounded.{BoundedView};

    ghost Value = { BoundedView };

    ghost view = { λ b. record { pass = b.pass; replay = b.replay; reader = b.reader; slot = b.slot } };
}

/// What a turn gave.
#[derive(Drop)]
pub struct Turn {
    /// The position that the turn's look saw, in bytes of the stream.
    pub seen: i64,
    /// The frames of the turn's poll: each begins before that position.
    pub frames: Items<PolledFrame>,
    /// Whether the replay is done. A replay that is only held back is not.
    pub ended: bool,
}

impl BoundedReplayer {
    /// A replayer that polls a replay by a pass, and looks at a slot by a reader.
    pub fn new(pass: Pass<Made>, replay: i64, reader: Reader, slot: usize) -> BoundedReplayer
        ensures { result ≡ record {
          pass = pass;
          replay = replay;
          reader = reader;
          slot = slot;
        } }
    {
        BoundedReplayer {
            pass,
            replay,
            reader,
            slot,
        }
    }

    /// The pass and the reader.
    pub fn into_parts(self) -> (Pass<Made>, Reader)
        ensures pass { result.0 ≡ self.pass }
        ensures reader { result.1 ≡ self.reader }
    {
        let BoundedReplayer {
            pass,
            replay: _,
            reader,
            slot: _,
        } = self;
        (pass, reader)
    }

    /// One turn: one look at the slot, then one poll for at most `max` frames that begin before the position seen.
    ///
    /// If the poll is refused, the turn is refused so: `BadParameter` if `max` is not 1 to 4,096, `UnknownReplay`,
    /// `Damaged`, `DeviceFault`, `NoMemory`. The replay then stays where it is, and the reader keeps what it saw. The pass
    /// gains the refused call, but none for `NoMemory`. Costs one load and the poll, and waits for those that hold the
    /// lock. docs/CONTROL.md, "Replays".
    pub fn turn<D: Disk, A: Naming, R: Wait>(
        &mut self,
        rt: &R,
        alloc: Global,
        archive: &SharedArchive<D, A>,
        board: &Board,
        max: i64,
    ) -> Result<Turn, Refusal>
        requires pass { self.old.pass.table ≡ A.table }
        requires reader { self.old.reader.table ≡ board.now }
        requires slot { self.old.slot < board.now.words }
        // The reader has seen the slot's position, also if the turn is refused.
        ensures looked { self.new.reader
            ≡ having_seen self.old.slot (seen_at self.old.slot self.new.reader) self.old.reader }
        ensures rises { seen_at self.old.slot self.old.reader
            ≤ℤ seen_at self.old.slot self.new.reader }
        ensures seen { IfOk result (λ turn. turn.seen ≡ seen_at self.old.slot self.new.reader) }
        // One poll by that position, whose answer the turn gives.
        ensures answers { (outcome : Result Reply Refusal) × IsTurnOf outcome result
            × (IsNoted outcome → EndsWithAnswer D.life A.opening self.old.pass
            (ReplayPollTo self.old.replay max (seen_at self.old.slot self.new.reader)) outcome
            self.new.pass) × (IsErrOf outcome NoMemory → self.new.pass ≡ self.old.pass) }
        ensures before { IfOk result (λ turn. Each (λ f. f.position <ℤ turn.seen) turn.frames) }
        ensures pass { self.new.pass.table ≡ self.old.pass.table }
        ensures number { self.new.pass.number ≡ self.old.pass.number }
        ensures same { self.new
            ≡ record self.old { pass = self.new.pass; reader = self.new.reader } }
    {
        let seen = board.look(&mut self.reader, self.slot);
        let event = Event::ReplayPollTo {
            replay: self.replay,
            max,
            limit: seen,
        };
        let (frames, ended) = polled(archive.call(rt, alloc, &mut self.pass, &event)?);
        Ok(Turn {
            seen,
            frames,
            ended,
        })
    }
}
