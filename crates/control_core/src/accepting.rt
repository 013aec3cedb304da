//! What an accepted command makes of the desk, and answers. docs/CONTROL.md, "Requests".

ghost use Rattle.std.specs.Prelude.{◌≡◌, ◌<◌, Some, OnOk, IfErr, IsTrue};
ghost use Rattle.frame_core.specs.declared.refusal.Refusal.TheVariants.{NoMemory};
ghost use Rattle.archive_model.specs.Checks.{is_of};
ghost use Rattle.archive_model.specs.Register.{is_later_base, registration_in};
ghost use Rattle.control_core.specs.Changes.{desk_after, reply_after, segments_of, settled, settled_position, writer_in};
ghost use Rattle.control_core.specs.Decisions.{Allows};
ghost use Rattle.control_core.specs.Orderly.{KeepsDesk};
ghost use Rattle.control_core.specs.Seats.{HasRoomFor};

use crate::callers::RecorderSession;
use crate::desk::Desk;
use archive_model::{Change, Command, ExtendFields, Registration, Reply, StartFields};
use frame_core::Refusal;

impl Desk {
    /// Takes the memory that a command's recording and recorder session need, so that accepting it takes none. `NoMemory`
    /// leaves the desk as it was.
    pub fn reserve(&mut self, command: &Command) -> Result<(), Refusal>
        ensures ok { OnOk result (HasRoomFor command.now self.new) }
        ensures state { self.new.state ≡ self.old.state }
        ensures err { IfErr result (λ refusal. refusal ≡ NoMemory) }
    {
        match command {
            Command::Start(_) => {
                self.register.reserve()?;
                self.sessions.reserve()
            }
            Command::Extend(_) => self.sessions.reserve(),
            _ => Ok(()),
        }
    }

    /// What an accepted command answers, by the desk before it. Costs a lookup; of an append the open sessions, of a
    /// restart a lookup at each recording.
    pub fn reply(&self, command: &Command) -> Reply
        requires { Allows self.now.state command.now }
        ensures reply { result ≡ reply_after self.now.state command.now }
        ensures keeps { KeepsDesk self.now.state.register self.now.state.callers }
    {
        match command {
            Command::Start(_) => Reply::Started {
                recording: self.register.next_recording(),
                session: self.sessions.next(),
            },
            Command::Append { recording, .. } => Reply::Settled {
                position: self.settled_position(recording),
            },
            Command::Stop { recording, .. } => Reply::Stopped {
                position: self.recorded_position(recording),
            },
            Command::Extend(_) => Reply::Extended {
                session: self.sessions.next(),
            },
            Command::Truncate { position, .. } => Reply::Truncated {
                position: *position,
            },
            Command::PurgeSegments {
                recording,
                position,
            } => Reply::Purged {
                segments: self.segments_before(recording, position),
            },
            Command::PurgeRecording { .. } => Reply::PurgedRecording,
            Command::Restart => Reply::Reopened {
                recordings: self.active_count() as i64,
            },
        }
    }

    /// Up to where a recording is recorded once what its session wrote is; 0 where it has none.
    fn settled_position(&self, recording: &i64) -> i64
        ensures { result ≡ settled_position self.now.state
            (writer_in self.now.state recording.now) }
    {
        match self.sessions.writer(recording) {
            Some(session) => self.next_position(&session),
            None => 0,
        }
    }

    /// How many segments of a recording lie before a position where a later one begins.
    fn segments_before(&self, recording: &i64, position: &i64) -> i64
        requires { IsTrue (is_of (registration_in self.now.state.register recording.now)
            (is_later_base position.now)) }
        ensures { result ≡ segments_of
            (registration_in self.now.state.register recording.now) position.now }
    {
        match self.recording(recording) {
            Some(known) => known.segments_before(position),
            None => 0,
        }
    }

    /// The desk after an accepted command, exactly. Takes no memory, since that was reserved: a start's channel is moved.
    /// Costs a lookup at each recording, session and replay at most.
    pub fn accept(&mut self, command: Command)
        requires room { HasRoomFor command self.old }
        requires allowed { Allows self.old.state command }
        ensures { self.new.state ≡ desk_after self.old.state command }
    {
        match command {
            Command::Start(fields) => self.begin(fields),
            Command::Append { recording, .. } => self.append(&recording),
            Command::Stop {
                recording,
                timestamp,
            } => self.stop(&recording, timestamp),
            Command::Extend(fields) => self.extend(&fields),
            Command::Truncate {
                recording,
                position,
            } => self.truncate(&recording, position),
            Command::PurgeSegments {
                recording,
                position,
            } => self.purge_segments(&recording, position),
            Command::PurgeRecording { recording } => self.remove(&recording),
            Command::Restart => self.restart(),
        }
    }

    fn begin(&mut self, fields: StartFields)
        requires room { HasRoomFor (Command.Start fields) self.old }
        requires allowed { Allows self.old.state (Command.Start fields) }
        ensures { self.new.state ≡ desk_after self.old.state (Command.Start fields) }
    {
        let id = self.register.next_recording();
        let _ = self.register.add(Registration::begun_with(&id, fields));
        self.sessions.open(&id);
        self.counted += 1;
    }

    fn append(&mut self, recording: &i64)
        requires room { self.old.state.counted < self.old.state.limit }
        ensures { self.new.state ≡ settled (writer_in self.old.state recording.now) self.old.state }
    {
        let Some(session) = self.sessions.writer(recording) else {
            return;
        };
        self.settle_session(&session);
    }

    /// What a session wrote is recorded.
    fn settle_session(&mut self, session: &RecorderSession)
        requires room { self.old.state.counted < self.old.state.limit }
        requires writer { writer_in self.old.state session.now.recording ≡ Some session.now }
        ensures { self.new.state ≡ settled (Some session.now) self.old.state }
    {
        let Some(written) = session.written else {
            return;
        };
        let end = Change::Settle {
            position: written.last,
        };
        self.register.change(&session.recording, &end);
        self.sessions.clear_written(&session.number);
        self.counted += 1;
    }

    fn stop(&mut self, recording: &i64, timestamp: i64)
        requires room { self.old.state.counted < self.old.state.limit }
        ensures { self.new.state ≡ desk_after self.old.state
            (Command.Stop recording.now timestamp) }
    {
        self.register.change(recording, &Change::Stop { timestamp });
        self.sessions.end(recording);
        self.counted += 1;
    }

    fn extend(&mut self, fields: &ExtendFields)
        requires room { HasRoomFor (Command.Extend fields.now) self.old }
        requires allowed { Allows self.old.state (Command.Extend fields.now) }
        ensures { self.new.state ≡ desk_after self.old.state (Command.Extend fields.now) }
    {
        let again = Change::Extend {
            session_id: fields.session_id,
        };
        self.register.change(&fields.recording, &again);
        self.sessions.open(&fields.recording);
        self.counted += 1;
    }

    fn truncate(&mut self, recording: &i64, position: i64)
        requires { Allows self.old.state (Command.Truncate recording.now position) }
        ensures { self.new.state ≡ desk_after self.old.state
            (Command.Truncate recording.now position) }
    {
        self.register
            .change(recording, &Change::Truncate { position });
        self.sessions.end(recording);
        self.counted += 1;
    }

    fn purge_segments(&mut self, recording: &i64, position: i64)
        requires { Allows self.old.state (Command.PurgeSegments recording.now position) }
        ensures { self.new.state ≡ desk_after self.old.state
            (Command.PurgeSegments recording.now position) }
    {
        self.register
            .change(recording, &Change::PurgeSegments { position });
        self.counted += 1;
    }

    fn remove(&mut self, recording: &i64)
        requires room { self.old.state.counted < self.old.state.limit }
        ensures { self.new.state ≡ desk_after self.old.state
            (Command.PurgeRecording recording.now) }
    {
        self.register.remove(recording);
        self.sessions.end(recording);
        self.replays.end(recording);
        self.counted += 1;
    }

    fn restart(&mut self)
        ensures { self.new.state ≡ desk_after self.old.state Command.Restart }
    {
        self.register.restart();
        self.sessions.clear();
        self.replays.clear();
    }
}
