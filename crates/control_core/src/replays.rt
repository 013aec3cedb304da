//! The replays that are open. docs/CONTROL.md, "Replays".

ghost use Rattle.std.specs.Prelude.{◌≡◌, ◌+ℤ◌, ◌++◌, ◌∷◌, [], ◌<◌, ◌≢◌, not, pos, filter, length, IfErr, IfOk, OnOk, MatchOption, None};
ghost use Rattle.std.specs.List.{list_any};
ghost use Rattle.frame_core.specs.declared.refusal.Refusal.TheVariants.{NoMemory};
ghost use Rattle.archive_model.specs.Keyed.{find, change, without, Rise};
ghost use Rattle.archive_model.specs.Numbered.{IsIndexOf};
ghost use Rattle.control_core.specs.Callers.{last_number, moved_to, replay_number};
ghost use Rattle.control_core.specs.Desk.{is_replay_of, is_replay_before};
ghost use Rattle.control_core.specs.Seats.{IsFoundReplay};

use crate::callers::{FoundReplay, OpenReplay};
use archive_model::index_of;
use frame_core::Refusal;
use std::alloc::Global;
use std::marker::Model;

/// The open replays, by rising number. To a contract it is these, the next number, and beside them how many more replays
/// it can take without memory.
#[derive(Drop)]
pub struct Replays {
    values: Vec<OpenReplay>,
    next: i64,
}

impl Model for Replays {
    ghost use Rattle.std.specs.Prelude.{◌-◌};
    ghost use Rattle.std.specs.Vec.{vec_capacity, vec_len};
    ghost use Rattle.control_core.specs.Seats.{ReplaysView};

    ghost Value = { ReplaysView };

    ghost view = { λ r. record {
      values = r.values.items;
      next = r.next;
      room = vec_capacity r.values - vec_len r.values;
    } };
}

impl Replays {
    /// None. Does not allocate.
    pub fn new(alloc: Global) -> Replays
        ensures values { result.values ≡ [] }
        ensures next { result.next ≡ pos 0 }
    {
        Replays {
            values: Vec::new(alloc),
            next: 0,
        }
    }

    /// A copy. Costs the replays that are open. `NoMemory`.
    pub fn copy(&self, alloc: Global) -> Result<Replays, Refusal>
        ensures values { IfOk result (λ copy. copy.values ≡ self.now.values) }
        ensures next { IfOk result (λ copy. copy.next ≡ self.now.next) }
        ensures memory { IfErr result (λ refusal. refusal ≡ NoMemory) }
    {
        Ok(Replays {
            values: self.values.as_slice().to_vec(alloc)?,
            next: self.next,
        })
    }

    /// The open replay of a number. Costs the replays that are open.
    pub fn get(&self, number: &i64) -> Option<FoundReplay>
        ensures { MatchOption result (find replay_number number.now self.now.values ≡ None)
            (IsFoundReplay number.now self.now.values) }
    {
        let index = index_of(self.values.as_slice(), number)?;
        let replay = self.values[index];
        Some(FoundReplay { index, replay })
    }

    /// How many replays are open.
    pub fn len(&self) -> usize
        ensures { result ≡ length self.now.values }
    {
        self.values.len()
    }

    /// The number that the next replay gets.
    pub fn next(&self) -> i64
        ensures { result ≡ self.now.next }
    {
        self.next
    }

    /// Whether a replay of a recording is open. Costs the replays that are open.
    #[tactic(auto, unfolding(crate::specs::Desk::is_replay_of))]
    pub fn is_replayed(&self, recording: &i64) -> bool
        ensures { result ≡ list_any (is_replay_of recording.now) self.now.values }
    {
        self.values
            .iter()
            .any(|replay| replay.recording == *recording)
    }

    /// Whether an open replay of a recording goes on below a position. Costs the replays that are open.
    pub fn is_replayed_below(&self, recording: &i64, position: &i64) -> bool
        ensures { result ≡ list_any (is_replay_before recording.now position.now) self.now.values }
    {
        self.values
            .iter()
            .any(|replay| replay.is_before(recording, position))
    }

    /// Takes memory for one more replay. `NoMemory` leaves the replays as they were.
    pub fn reserve(&mut self) -> Result<(), Refusal>
        ensures ok { OnOk result (0 < self.new.room) }
        ensures values { self.new.values ≡ self.old.values }
        ensures next { self.new.next ≡ self.old.next }
        ensures err { IfErr result (λ refusal. refusal ≡ NoMemory) }
    {
        self.values.reserve(1)?;
        Ok(())
    }

    /// A new replay, which has the next number. Does not allocate.
    pub fn open(&mut self, recording: &i64, next: &i64, bound: &i64)
        requires room { 0 < self.old.room }
        requires more { self.old.next ≢ last_number }
        ensures values { self.new.values ≡ self.old.values ++ record {
          number = self.old.next;
          recording = recording.now;
          next = next.now;
          bound = bound.now;
        } ∷ [] }
        ensures next { self.new.next ≡ self.old.next +ℤ pos 1 }
    {
        let _ = self.values.push(OpenReplay {
            number: self.next,
            recording: *recording,
            next: *next,
            bound: *bound,
        });
        self.next += 1;
    }

    /// Where the replay of a number goes on, which stands at an index. In constant time.
    pub fn set_next(&mut self, number: &i64, index: usize, next: &i64)
        requires { IsIndexOf replay_number number.now self.old.values index }
        ensures values { self.new.values ≡ change replay_number number.now
            (moved_to next.now) self.old.values }
        ensures next { self.new.next ≡ self.old.next }
    {
        let replay = &mut self.values[index];
        replay.move_to(next);
    }

    /// The replay of a number is gone, which stands at an index. Costs the replays that are open.
    pub fn close(&mut self, number: &i64, index: usize)
        requires stands { IsIndexOf replay_number number.now self.old.values index }
        requires rising { Rise replay_number (pos 0) self.old.values self.old.next }
        ensures values { self.new.values ≡ without replay_number number.now self.old.values }
        ensures next { self.new.next ≡ self.old.next }
    {
        let _ = self.values.remove(index);
    }

    /// The replays of a recording are gone. Costs the replays that are open.
    pub fn end(&mut self, recording: &i64)
        ensures values { self.new.values ≡ filter (λ r. not
            (is_replay_of recording.now r)) self.old.values }
        ensures next { self.new.next ≡ self.old.next }
    {
        self.values.retain(|replay| replay.recording != *recording);
    }

    /// None, and numbers begin again. Costs nothing that depends on how many were open.
    pub fn clear(&mut self)
        ensures values { self.new.values ≡ [] }
        ensures next { self.new.next ≡ pos 0 }
    {
        self.values.clear();
        self.next = 0;
    }
}
