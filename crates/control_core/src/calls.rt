//! What a call that is no request makes of the desk. docs/CONTROL.md, "Control state".

ghost use Rattle.std.specs.Prelude.{◌≡◌, ◌<◌, ◌≤ℤ◌, IfErr, IsSomeAnd, OnOk};
ghost use Rattle.frame_core.specs.declared.refusal.Refusal.TheVariants.{NoMemory};
ghost use Rattle.archive_model.specs.Numbered.{IsIndexOf};
ghost use Rattle.control_core.specs.Callers.{replay_number, session_number};
ghost use Rattle.control_core.specs.Changes.{after_close, after_open, after_poll, after_write, broken_desk, checkpointed, settled, with_block};
ghost use Rattle.archive_model.specs.Register.{registration_in};
ghost use Rattle.control_core.specs.Orderly.{BeginsBy, LiesBehind};
ghost use Rattle.control_core.specs.Seats.{IsFoundSession};
ghost use Rattle.control_core.specs.Turns.{MayOpen, open_replay_in, session_in};

use crate::callers::{FoundSession, Written};
use crate::desk::Desk;
use crate::turns::Opening;
use archive_model::{BankVersion, Change};
use frame_core::Refusal;

impl Desk {
    /// The session of a number wrote a block, which lies from its first to its last position; the session stands at an
    /// index. In constant time; does not allocate.
    pub fn note_written(&mut self, session: &i64, index: usize, block: &Written)
        requires stands { IsIndexOf session_number session.now self.old.state.callers.sessions index }
        requires behind { IsSomeAnd (session_in self.old.state session.now) (λ s.
            IsSomeAnd (registration_in self.old.state.register s.recording)
            (LiesBehind (with_block block.now s.written))) }
        ensures { self.new.state ≡ after_write session.now block.now self.old.state }
    {
        self.sessions.add_written(session, index, block);
    }

    /// What the session of a number wrote is recorded, as one entry of the history; nothing changes where it wrote nothing.
    /// The session was found. In constant time; does not allocate.
    pub fn settle(&mut self, session: &i64, found: &FoundSession)
        requires room { self.old.state.counted < self.old.state.limit }
        requires found { IsFoundSession session.now self.old.state.callers.sessions found.now }
        ensures { self.new.state ≡ settled (session_in self.old.state session.now) self.old.state }
    {
        let Some(written) = found.session.written else {
            return;
        };
        let end = Change::Settle {
            position: written.last,
        };
        self.register.change(&found.session.recording, &end);
        self.sessions.set_written(session, found.index, None);
        self.counted += 1;
    }

    /// Takes the memory for one more replay, so that opening it takes none. `NoMemory` leaves the desk as it was.
    pub fn reserve_replay(&mut self) -> Result<(), Refusal>
        ensures ok { OnOk result (0 < self.new.replays) }
        ensures state { self.new.state ≡ self.old.state }
        ensures err { IfErr result (λ refusal. refusal ≡ NoMemory) }
    {
        self.replays.reserve()
    }

    /// A replay is open, and has the next number. Does not allocate.
    pub fn open_replay(&mut self, opening: &Opening)
        requires room { 0 < self.old.replays }
        requires allowed { MayOpen self.old.state opening.now }
        requires from_start { BeginsBy opening.now.next self.old.state.register opening.now.recording }
        ensures { self.new.state
            ≡ after_open opening.now.recording opening.now.next opening.now.bound self.old.state }
    {
        self.replays
            .open(&opening.recording, &opening.next, &opening.bound);
    }

    /// The replay of a number goes on from a position; it stands at an index. In constant time; does not allocate.
    pub fn move_replay(&mut self, replay: &i64, index: usize, next: &i64)
        requires stands { IsIndexOf replay_number replay.now self.old.state.callers.replays index }
        requires further { IsSomeAnd (open_replay_in self.old.state replay.now)
            (λ it. it.next ≤ℤ next.now) }
        ensures { self.new.state ≡ after_poll replay.now next.now self.old.state }
    {
        self.replays.set_next(replay, index, next);
    }

    /// The replay of a number is closed; it stands at an index. Costs the open replays; does not allocate.
    pub fn close_replay(&mut self, replay: &i64, index: usize)
        requires { IsIndexOf replay_number replay.now self.old.state.callers.replays index }
        ensures { self.new.state ≡ after_close replay.now self.old.state }
    {
        self.replays.close(replay, index);
    }

    /// A checkpoint wrote the catalogue anew: an entry counts for each active recording, and its bank is of version 2. Costs a
    /// lookup at each recording; does not allocate.
    pub fn note_checkpoint(&mut self)
        ensures { self.new.state ≡ checkpointed self.old.state }
    {
        self.counted = self.register.active_count() as u64;
        self.version = BankVersion::Two;
    }

    /// A write has failed: no further call writes.
    pub fn break_down(&mut self)
        ensures { self.new.state ≡ broken_desk self.old.state }
    {
        self.is_broken = true;
    }
}
