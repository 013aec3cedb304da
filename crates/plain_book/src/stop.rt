//! Recordings that stop and go on. docs/CONTROL.md, "Requests".

ghost use Rattle.std.specs.Prelude.{◌≡◌, Ok, OnOk, OnErr, true};
ghost use Rattle.archive_model.specs.Acceptance.{book_after};
ghost use Rattle.archive_model.specs.Accepting.{tests_of};
ghost use Rattle.archive_model.specs.Checks.{checked, checks};
ghost use Rattle.archive_model.specs.Commands.{reply_to};

use crate::book::Book;
use archive_model::{Change, Command, ExtendFields, Reply};
use frame_core::Refusal;

impl Book {
    /// An active recording stops where it is recorded to.
    pub(crate) fn stop(&mut self, id: &i64, timestamp: &i64) -> Result<Reply, Refusal>
        ensures answer { result ≡ checked (tests_of self.old true (Command.Stop id.now timestamp.now)) checks
            (Ok (reply_to self.old.state (Command.Stop id.now timestamp.now))) }
        ensures ok { OnOk result (self.new ≡ book_after self.old (Command.Stop id.now timestamp.now)) }
        ensures err { OnErr result (self.new ≡ self.old) }
    {
        if *timestamp < 0 {
            return Err(Refusal::BadParameter);
        }
        let Some(found) = self.recording(id) else {
            return Err(Refusal::UnknownRecording);
        };
        if !found.is_active() {
            return Err(Refusal::NotActive);
        }
        if !self.has_room() {
            return Err(Refusal::HistoryFull);
        }
        let position = found.recorded_position();
        self.change(
            id,
            &Change::Stop {
                timestamp: *timestamp,
            },
        );
        Ok(Reply::Stopped { position })
    }

    /// A stopped recording goes on where it stopped.
    pub(crate) fn extend(&mut self, fields: &ExtendFields) -> Result<Reply, Refusal>
        ensures answer { result ≡ checked (tests_of self.old true (Command.Extend fields.now)) checks
            (Ok (reply_to self.old.state (Command.Extend fields.now))) }
        ensures ok { OnOk result (self.new ≡ book_after self.old (Command.Extend fields.now)) }
        ensures err { OnErr result (self.new ≡ self.old) }
    {
        let Some(found) = self.recording(&fields.recording) else {
            return Err(Refusal::UnknownRecording);
        };
        if found.is_active() {
            return Err(Refusal::ActiveRecording);
        }
        if !found.registration().extends(fields) {
            return Err(Refusal::BadExtension);
        }
        if !self.may_record() {
            return Err(Refusal::MaxRecordings);
        }
        if !self.has_room() {
            return Err(Refusal::HistoryFull);
        }
        self.change(
            &fields.recording,
            &Change::Extend {
                session_id: fields.session_id,
            },
        );
        Ok(Reply::Extended { session: 0 })
    }

    /// Each active recording stops where it is recorded to, without a timestamp.
    pub(crate) fn restart(&mut self) -> Reply
        ensures reply { result ≡ reply_to self.old.state Command.Restart }
        ensures after { self.new ≡ book_after self.old Command.Restart }
    {
        Reply::Reopened {
            recordings: self.stop_all(),
        }
    }
}
