//! All that an archive knows but its frames. docs/CONTROL.md, "Control state".

ghost use Rattle.std.specs.Prelude.{◌≡◌, ◌<◌, ◌^◌, length, option_copied, IfSome, MatchOption, None, true, ◌&&◌};
ghost use Rattle.std.specs.List.{list_all, list_any};
ghost use Rattle.archive_model.specs.Register.{HasLayout, active_count, may_begin, may_record, registration_in, no_recordings};
ghost use Rattle.archive_model.specs.Version.{holds};
ghost use Rattle.archive_model.specs.declared.version.BankVersion.TheVariants.{Two};
ghost use Rattle.control_core.specs.Callers.{no_callers};
ghost use Rattle.control_core.specs.Changes.{next_position, recorded_of};
ghost use Rattle.control_core.specs.Turns.{open_replay_in, session_in};
ghost use Rattle.control_core.specs.Orderly.{KeepsDesk};
ghost use Rattle.control_core.specs.Seats.{IsReader, IsWriter};
ghost use Rattle.control_core.specs.Desk.{new_desk, has_room, has_room_for, has_session_number, is_replayed, is_replay_before};

use crate::callers::{Reader, RecorderSession, Writer};
use crate::replays::Replays;
use crate::sessions::Sessions;
use archive_model::{BankVersion, Register, Registration};
use frame_core::limits::LAST_NUMBER;
use std::alloc::Global;
use std::marker::Model;

/// The recordings without their frames, the recorder sessions and open replays, how many entries of the history count and
/// may, the version of the catalogue's bank, and whether a write has failed. To a contract it is these, and beside them how
/// many more recordings, sessions and replays it can take without memory.
#[derive(Drop)]
pub struct Desk {
    pub(crate) register: Register,
    pub(crate) sessions: Sessions,
    pub(crate) replays: Replays,
    pub(crate) counted: u64,
    pub(crate) limit: u32,
    pub(crate) version: BankVersion,
    pub(crate) is_broken: bool,
}

impl Model for Desk {
    ghost use Rattle.control_core.specs.Callers.{CallersState};
    ghost use Rattle.control_core.specs.Orderly.{KeepsDesk};
    ghost use Rattle.control_core.specs.Seats.{DeskView};

    ghost Value = { DeskView };

    ghost view = { λ d. record {
      state = record {
        register = d.register.state;
        callers = record {
          sessions = d.sessions.values;
          replays = d.replays.values;
          next_session = d.sessions.next;
          next_replay = d.replays.next;
        };
        counted = d.counted;
        limit = d.limit;
        version = d.version;
        is_broken = d.is_broken;
      };
      recordings = d.register.room;
      sessions = d.sessions.room;
      replays = d.replays.room;
    } };

    ghost invariant = { λ d. KeepsDesk d.register.state (record {
      sessions = d.sessions.values;
      replays = d.replays.values;
      next_session = d.sessions.next;
      next_replay = d.replays.next;
    }) };
}

impl Desk {
    /// The desk of an archive without recordings, whose history may have so many entries: its catalogue is in version 2.
    /// Does not allocate.
    pub fn new(alloc: Global, limit: u32) -> Desk
        ensures { result.state ≡ new_desk limit }
    {
        Desk {
            register: Register::new(alloc),
            sessions: Sessions::new(alloc),
            replays: Replays::new(alloc),
            counted: 0,
            limit,
            version: BankVersion::Two,
            is_broken: false,
        }
    }

    /// The recordings without their frames, as a checkpoint writes them: each fits into a bank of version 2.
    #[tactic(auto, using(crate::proofs::LaidLemmas::laid_held))]
    pub fn register(&self) -> &Register
        ensures same { result.now.state ≡ self.now.state.register }
        ensures held { list_all (λ r. holds Two r.descriptor.channel r.descriptor.source_identity)
            result.now.state.recordings ≡ true }
    {
        &self.register
    }

    /// The recording of an id. In constant time.
    pub fn recording(&self, id: &i64) -> Option<&Registration>
        ensures found { option_copied result ≡ registration_in self.now.state.register id.now }
        ensures layout { IfSome result (λ r. HasLayout r.now.descriptor) }
        ensures keeps { KeepsDesk self.now.state.register self.now.state.callers }
    {
        self.register.recording(id)
    }

    /// The id that the next recording gets.
    pub fn next_recording(&self) -> i64
        ensures { result ≡ self.now.state.register.next }
    {
        self.register.next_recording()
    }

    /// The recordings, by rising id.
    pub fn recordings(&self) -> &[Registration]
        ensures all { result.now ≡ self.now.state.register.recordings }
        ensures keeps { KeepsDesk self.now.state.register self.now.state.callers }
    {
        self.register.recordings()
    }

    /// Whether a write has failed.
    pub fn is_broken(&self) -> bool
        ensures broken { result ≡ self.now.state.is_broken }
        ensures keeps { KeepsDesk self.now.state.register self.now.state.callers }
    {
        self.is_broken
    }

    /// How many entries of the history count.
    pub fn counted(&self) -> u64
        ensures { result ≡ self.now.state.counted }
    {
        self.counted
    }

    /// How many entries of the history may count.
    pub fn limit(&self) -> u32
        ensures { result ≡ self.now.state.limit }
    {
        self.limit
    }

    /// The version of the catalogue's bank, which tells what it can hold.
    pub fn version(&self) -> BankVersion
        ensures { result ≡ self.now.state.version }
    {
        self.version
    }

    /// Whether the history has room for one more entry.
    pub fn has_room(&self) -> bool
        ensures { result ≡ has_room self.now.state }
    {
        self.counted < u64::from(self.limit)
    }

    /// Whether the history has room for so many more entries, or there are none.
    pub(crate) fn has_room_for(&self, entries: usize) -> bool
        ensures { result ≡ has_room_for entries self.now.state }
    {
        entries == 0 || u64::from(self.limit).saturating_sub(self.counted) >= entries as u64
    }

    /// Whether one more recording may begin: there are fewer than 1,024, and there is an id for it.
    pub fn may_begin(&self) -> bool
        ensures { result ≡ may_begin self.now.state.register }
    {
        self.register.may_begin()
    }

    /// Whether one more recorder session may open: fewer than 64 recordings are active, and there is a number for it.
    /// Costs a lookup at each recording.
    pub fn may_record(&self) -> bool
        ensures { result ≡ (may_record self.now.state.register && has_session_number self.now.state) }
    {
        self.register.may_record() && self.sessions.next() != LAST_NUMBER
    }

    /// How many recordings are active: fewer than there are ids. Costs a lookup at each recording.
    pub fn active_count(&self) -> usize
        ensures count { result ≡ active_count self.now.state.register }
        ensures few { result < 2 ^ 63 }
        ensures keeps { KeepsDesk self.now.state.register self.now.state.callers }
    {
        self.register.active_count()
    }

    /// Whether a replay of a recording is open. Costs a lookup at each open replay.
    pub fn is_replayed(&self, recording: &i64) -> bool
        ensures { result ≡ is_replayed self.now.state recording.now }
    {
        self.replays.is_replayed(recording)
    }

    /// Whether an open replay of a recording goes on below a position. Costs a lookup at each open replay.
    pub fn is_replayed_below(&self, recording: &i64, position: &i64) -> bool
        ensures { result ≡ list_any
            (is_replay_before recording.now position.now) self.now.state.callers.replays }
    {
        self.replays.is_replayed_below(recording, position)
    }

    /// The recorder session of a number, with its recording. Costs the sessions that are open.
    #[tactic(auto, using(crate::proofs::ThereLemmas::writes_there))]
    pub fn session(&self, number: &i64) -> Option<Writer<'_>>
        ensures found { MatchOption result (session_in self.now.state number.now ≡ None)
            (IsWriter number.now self.now.state) }
        ensures keeps { KeepsDesk self.now.state.register self.now.state.callers }
    {
        let Some(found) = self.sessions.get(number) else {
            return None;
        };
        let Some(known) = self.register.recording(&found.session.recording) else {
            unreachable!()
        };
        Some(Writer { found, known })
    }

    /// The open replay of a number, with its recording. Costs the replays that are open.
    #[tactic(auto, using(crate::proofs::ThereLemmas::reads_there))]
    pub fn replay(&self, number: &i64) -> Option<Reader<'_>>
        ensures found { MatchOption result (open_replay_in self.now.state number.now ≡ None)
            (IsReader number.now self.now.state) }
        ensures keeps { KeepsDesk self.now.state.register self.now.state.callers }
    {
        let Some(found) = self.replays.get(number) else {
            return None;
        };
        let Some(known) = self.register.recording(&found.replay.recording) else {
            unreachable!()
        };
        Some(Reader { found, known })
    }

    /// Where a session's next block begins, in bytes of the stream: at the end of what it wrote, or at the recorded
    /// position.
    pub(crate) fn next_position(&self, session: &RecorderSession) -> i64
        ensures { result ≡ next_position self.now.state session.now }
    {
        if let Some(written) = session.written {
            return written.last;
        }
        self.recorded_position(&session.recording)
    }

    /// How far a recording is recorded, in bytes of the stream; 0 where it is not there.
    pub fn recorded_position(&self, recording: &i64) -> i64
        ensures { result ≡ recorded_of (registration_in self.now.state.register recording.now) }
    {
        match self.recording(recording) {
            Some(known) => known.recorded,
            None => 0,
        }
    }

    /// How many replays are open.
    pub fn open_replays(&self) -> usize
        ensures { result ≡ length self.now.state.callers.replays }
    {
        self.replays.len()
    }

    /// The number that the next replay gets.
    pub fn next_replay(&self) -> i64
        ensures { result ≡ self.now.state.callers.next_replay }
    {
        self.replays.next()
    }
}
