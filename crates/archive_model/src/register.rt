//! The recordings of an archive without their frames, by rising id. docs/CONTROL.md, "Recordings".

ghost use Rattle.std.specs.Prelude.{◌≡◌, ◌<◌, ◌<ℤ◌, ◌≤ℤ◌, ◌^◌, ℤ, pos, length, IfOk, IfSome, IsOk, IfErr, OnOk, OnErr, MatchOption, count_by, int_lt, IsTrue};
ghost use Rattle.std.specs.List.{list_all};
ghost use Rattle.std.specs.Option.{option_copied};
ghost use Rattle.frame_core.specs.declared.refusal.Refusal.TheVariants.{NoMemory};
ghost use Rattle.archive_model.specs.Keyed.{Rise};
ghost use Rattle.archive_model.specs.Numbered.{IsNone, IsIndexOf};
ghost use Rattle.archive_model.specs.Register.{HasLayout, active_count, all_stopped, changed, id_of, is_active, is_behind, may_begin, may_record, no_recordings, registration_in, restored, with_next, with_one, with_out};

use crate::registration::{Change, Registration};
use frame_core::Refusal;
use frame_core::limits::{LAST_NUMBER, MAX_ACTIVE_RECORDERS, MAX_RECORDINGS};
use indexmap::IndexMap;
use std::alloc::Global;
use std::marker::Model;

/// The recordings that an archive knows, by rising id, and the next id. To a contract it is these, and beside them how
/// many more recordings it can take without memory.
#[derive(Drop)]
pub struct Register {
    map: IndexMap<i64, Registration>,
    next: i64,
}

impl Model for Register {
    ghost use Rattle.std.specs.HashMap.{spare};
    ghost use Rattle.std.specs.Map.{values_of};
    ghost use Rattle.archive_model.specs.Registered.{RegisterView, KeepsRegister};

    ghost Value = { RegisterView };

    ghost view = { λ r. record { state = record { recordings = values_of r.map.entries; next = r.next }; room = spare r.map } };

    ghost invariant = { λ r. KeepsRegister r.map.entries r.next };
}

impl Register {
    /// No recordings. Does not allocate.
    pub fn new(alloc: Global) -> Register
        ensures { result.state ≡ no_recordings }
    {
        Register {
            map: IndexMap::new(alloc),
            next: 0,
        }
    }

    /// No recordings, and this id for the next, as an archive kept it. Does not allocate. docs/STORAGE.md, "Compaction".
    pub fn with_next(alloc: Global, next: i64) -> Register
        requires { pos 0 ≤ℤ next }
        ensures { result.state ≡ with_next next }
    {
        Register {
            map: IndexMap::new(alloc),
            next,
        }
    }

    /// The recordings, by rising id.
    pub fn recordings(&self) -> &[Registration]
        ensures all { result.now ≡ self.now.state.recordings }
        ensures rising { Rise id_of (pos 0) self.now.state.recordings self.now.state.next }
    {
        self.map.values().as_slice()
    }

    /// The id that the next recording gets.
    pub fn next_recording(&self) -> i64
        ensures { result ≡ self.now.state.next }
    {
        self.next
    }

    /// The recording of an id. In constant time.
    pub fn recording(&self, id: &i64) -> Option<&Registration>
        ensures found { option_copied result ≡ registration_in self.now.state id.now }
        ensures layout { IfSome result (λ r. HasLayout r.now.descriptor) }
    {
        let index = self.index_of(id)?;
        Some(&self.map[index])
    }

    /// At which index the recording of an id stands.
    fn index_of(&self, id: &i64) -> Option<usize>
        ensures { MatchOption result (IsNone id_of id.now self.now.state.recordings)
            (IsIndexOf id_of id.now self.now.state.recordings) }
    {
        self.map.get_index_of(id)
    }

    /// Whether a recording of this id may stand behind the others: its id is from 0, and above each of theirs. Costs a lookup
    /// at each recording.
    pub fn is_behind(&self, id: &i64) -> bool
        ensures { result ≡ is_behind self.now.state.recordings id.now }
    {
        *id >= 0 && are_below(self.recordings(), id)
    }

    /// Whether one more recording may begin: there are fewer than 1,024, and there is an id for it.
    pub fn may_begin(&self) -> bool
        ensures { result ≡ may_begin self.now.state }
    {
        self.map.len() < MAX_RECORDINGS && self.next != LAST_NUMBER
    }

    /// Whether one more recording may be active: fewer than 64 are. Costs a lookup at each recording.
    pub fn may_record(&self) -> bool
        ensures { result ≡ may_record self.now.state }
    {
        count_active(self.recordings()) < MAX_ACTIVE_RECORDERS
    }

    /// How many recordings are active: fewer than there are ids. Costs a lookup at each recording.
    pub fn active_count(&self) -> usize
        ensures count { result ≡ active_count self.now.state }
        ensures few { result < 2 ^ 63 }
    {
        count_active(self.map.values().as_slice())
    }
}

/// Whether an id is above those of these recordings.
fn are_below(recordings: &[Registration], id: &i64) -> bool
    ensures { result ≡ list_all (λ r. int_lt (id_of r) id.now) recordings.now }
{
    recordings.iter().all(|r| r.descriptor.recording < *id)
}

/// How many recordings are active.
fn count_active(recordings: &[Registration]) -> usize
    ensures { result ≡ count_by is_active recordings.now }
{
    recordings.iter().filter(|r| r.is_active()).count()
}

impl Register {
    /// Takes memory for one more recording, if there is none at hand: `add` then does not fail. `NoMemory` leaves the
    /// register as it was.
    pub fn reserve(&mut self) -> Result<(), Refusal>
        ensures ok { OnOk result (0 < self.new.room) }
        ensures same { self.new.state ≡ self.old.state }
        ensures err { IfErr result (λ refusal. refusal ≡ NoMemory) }
    {
        self.map.reserve(1)?;
        Ok(())
    }

    /// A new recording, which has the next id. It fails only where there is no room: `NoMemory` leaves the register as
    /// it was.
    pub fn add(&mut self, begun: Registration) -> Result<(), Refusal>
        requires id { id_of begun ≡ self.old.state.next }
        requires more { self.old.state.next <ℤ pos 9223372036854775807 }
        requires layout { HasLayout begun.descriptor }
        ensures ok { OnOk result (self.new.state ≡ with_one begun self.old.state) }
        ensures succeeds { 0 < self.old.room → IsOk result }
        ensures same { OnErr result (self.new.state ≡ self.old.state) }
        ensures err { IfErr result (λ refusal. refusal ≡ NoMemory) }
    {
        self.map.insert(self.next, begun)?;
        self.next += 1;
        Ok(())
    }

    /// One recording more behind the others, as an archive kept it; the next id stays. `NoMemory` leaves the register as it
    /// was. docs/STORAGE.md, "Compaction".
    pub fn restore(&mut self, kept: Registration) -> Result<(), Refusal>
        requires behind { IsTrue (is_behind self.old.state.recordings (id_of kept)) }
        requires below { id_of kept <ℤ self.old.state.next }
        requires layout { HasLayout kept.descriptor }
        ensures ok { OnOk result (self.new.state ≡ restored kept self.old.state) }
        ensures same { OnErr result (self.new.state ≡ self.old.state) }
        ensures err { IfErr result (λ refusal. refusal ≡ NoMemory) }
    {
        self.map.insert(kept.descriptor.recording, kept)?;
        Ok(())
    }

    /// Changes the recording of an id, if there is one. In constant time; does not allocate.
    pub fn change(&mut self, id: &i64, change: &Change)
        ensures state { self.new.state ≡ changed id.now change.now self.old.state }
        ensures room { self.new.room ≡ self.old.room }
    {
        let Some(index) = self.index_of(id) else {
            return;
        };
        let recording = &mut self.map[index];
        recording.change(change);
    }

    /// Removes the recording of an id, if there is one. Costs a move of each recording behind it; does not allocate.
    pub fn remove(&mut self, id: &i64)
        ensures { self.new.state ≡ with_out id.now self.old.state }
    {
        let Some(index) = self.index_of(id) else {
            return;
        };
        let _ = self.map.shift_remove_index(index);
    }

    /// Each active recording stops where it is recorded to, without a timestamp. Does not allocate.
    pub fn restart(&mut self)
        ensures { self.new.state ≡ all_stopped self.old.state }
    {
        for index in 0..self.map.len() {
            let recording = &mut self.map[index];
            recording.restart();
        }
    }
}

impl Register {
    /// A copy: the same recordings and the same next id. `NoMemory` where there is none for them. Costs the
    /// channels' and sources' lengths.
    pub fn copy(&self, alloc: Global) -> Result<Register, Refusal>
        ensures same { IfOk result (λ copy. copy.state ≡ self.now.state) }
        ensures err { IfErr result (λ refusal. refusal ≡ NoMemory) }
    {
        let next = self.next_recording();
        let mut copy = Register::new(alloc);
        for recording in self.map.values().as_slice() {
            let known = recording.copy(alloc)?;
            copy.skip_to(&known.descriptor.recording);
            copy.add(known)?;
        }
        copy.skip_to(&next);
        Ok(copy)
    }

    /// Leaves ids out, up to the next one.
    fn skip_to(&mut self, next: &i64)
        requires { self.old.state.next ≤ℤ next.now }
        ensures { self.new.state ≡ record { recordings = self.old.state.recordings; next = next.now } }
    {
        self.next = *next;
    }
}
