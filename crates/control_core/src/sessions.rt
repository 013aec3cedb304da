//! The recorder sessions that are open. docs/CONTROL.md, "Recorder sessions".

ghost use Rattle.std.specs.Prelude.{◌≡◌, ◌+ℤ◌, ◌++◌, ◌∷◌, [], ◌<◌, ◌≢◌, not, pos, filter, IfErr, IfOk, OnOk, MatchOption, None, Some};
ghost use Rattle.frame_core.specs.declared.refusal.Refusal.TheVariants.{NoMemory};
ghost use Rattle.archive_model.specs.Keyed.{find, change};
ghost use Rattle.archive_model.specs.Numbered.{IsIndexOf};
ghost use Rattle.control_core.specs.Callers.{last_number, session_number, with_written};
ghost use Rattle.control_core.specs.Changes.{begun_session, is_session_of, with_block, written_of};
ghost use Rattle.control_core.specs.Seats.{IsFoundSession};

use crate::callers::{FoundSession, RecorderSession, Written};
use archive_model::index_of;
use frame_core::Refusal;
use std::alloc::Global;
use std::marker::Model;

/// The open sessions, by rising number. To a contract it is these, the next number, and beside them how many more
/// sessions it can take without memory.
#[derive(Drop)]
pub struct Sessions {
    values: Vec<RecorderSession>,
    next: i64,
}

impl Model for Sessions {
    ghost use Rattle.std.specs.Prelude.{◌-◌};
    ghost use Rattle.std.specs.Vec.{vec_capacity, vec_len};
    ghost use Rattle.control_core.specs.Seats.{SessionsView};

    ghost Value = { SessionsView };

    ghost view = { λ s. record {
      values = s.values.items;
      next = s.next;
      room = vec_capacity s.values - vec_len s.values;
    } };
}

impl Sessions {
    /// None. Does not allocate.
    pub fn new(alloc: Global) -> Sessions
        ensures values { result.values ≡ [] }
        ensures next { result.next ≡ pos 0 }
    {
        Sessions {
            values: Vec::new(alloc),
            next: 0,
        }
    }

    /// A copy. Costs the sessions that are open. `NoMemory`.
    pub fn copy(&self, alloc: Global) -> Result<Sessions, Refusal>
        ensures values { IfOk result (λ copy. copy.values ≡ self.now.values) }
        ensures next { IfOk result (λ copy. copy.next ≡ self.now.next) }
        ensures memory { IfErr result (λ refusal. refusal ≡ NoMemory) }
    {
        Ok(Sessions {
            values: self.values.as_slice().to_vec(alloc)?,
            next: self.next,
        })
    }

    /// The session of a number. Costs the sessions that are open.
    pub fn get(&self, number: &i64) -> Option<FoundSession>
        ensures { MatchOption result (find session_number number.now self.now.values ≡ None)
            (IsFoundSession number.now self.now.values) }
    {
        let index = index_of(self.values.as_slice(), number)?;
        let session = self.values[index];
        Some(FoundSession { index, session })
    }

    /// The first session that writes a recording. Costs the sessions that are open.
    pub fn writer(&self, recording: &i64) -> Option<RecorderSession>
        ensures { result ≡ find (λ s. s.recording) recording.now self.now.values }
    {
        for session in &self.values {
            if session.recording == *recording {
                return Some(*session);
            }
        }
        None
    }

    /// The number that the next session gets.
    pub fn next(&self) -> i64
        ensures { result ≡ self.now.next }
    {
        self.next
    }

    /// Takes memory for one more session. `NoMemory` leaves the sessions as they were.
    pub fn reserve(&mut self) -> Result<(), Refusal>
        ensures ok { OnOk result (0 < self.new.room) }
        ensures values { self.new.values ≡ self.old.values }
        ensures next { self.new.next ≡ self.old.next }
        ensures err { IfErr result (λ refusal. refusal ≡ NoMemory) }
    {
        self.values.reserve(1)?;
        Ok(())
    }

    /// A new session of a recording, which has the next number. Does not allocate.
    pub fn open(&mut self, recording: &i64)
        requires room { 0 < self.old.room }
        requires more { self.old.next ≢ last_number }
        ensures values { self.new.values
            ≡ self.old.values ++ begun_session self.old.next recording.now ∷ [] }
        ensures next { self.new.next ≡ self.old.next +ℤ pos 1 }
    {
        let _ = self.values.push(RecorderSession {
            number: self.next,
            recording: *recording,
            written: None,
        });
        self.next += 1;
    }

    /// What the session of a number has written and not settled, which stands at an index. In constant time.
    pub fn set_written(&mut self, number: &i64, index: usize, written: Option<Written>)
        requires { IsIndexOf session_number number.now self.old.values index }
        ensures values { self.new.values ≡ change session_number number.now
            (with_written written) self.old.values }
        ensures next { self.new.next ≡ self.old.next }
    {
        self.values[index].written = written;
    }

    /// The session of a number, which stands at an index, has written a block more, from its first to its last position. In
    /// constant time.
    pub fn add_written(&mut self, number: &i64, index: usize, block: &Written)
        requires { IsIndexOf session_number number.now self.old.values index }
        ensures values { self.new.values ≡ change session_number number.now (with_written (Some
            (with_block block.now (written_of (find session_number number.now self.old.values))))) self.old.values }
        ensures next { self.new.next ≡ self.old.next }
    {
        let first = match self.values[index].written {
            Some(written) => written.first,
            None => block.first,
        };
        let written = Written {
            first,
            last: block.last,
        };
        self.set_written(number, index, Some(written));
    }

    /// The session of a number has nothing to settle. Costs the sessions that are open.
    pub fn clear_written(&mut self, number: &i64)
        ensures values { self.new.values ≡ change session_number number.now
            (with_written None) self.old.values }
        ensures next { self.new.next ≡ self.old.next }
    {
        let Some(index) = index_of(self.values.as_slice(), number) else {
            return;
        };
        self.set_written(number, index, None);
    }

    /// The sessions of a recording are gone. Costs the sessions that are open.
    pub fn end(&mut self, recording: &i64)
        ensures values { self.new.values ≡ filter (λ s. not
            (is_session_of recording.now s)) self.old.values }
        ensures next { self.new.next ≡ self.old.next }
    {
        self.values
            .retain(|session| session.recording != *recording);
    }

    /// None, and numbers begin again. Costs nothing that depends on how many were open.
    pub fn clear(&mut self)
        ensures values { self.new.values ≡ [] }
        ensures next { self.new.next ≡ pos 0 }
    {
        self.values.clear();
        self.next = 0;
    }
}
