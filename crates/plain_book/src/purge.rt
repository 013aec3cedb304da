//! Recordings that lose their first segments, or go. docs/CONTROL.md, "Requests".

ghost use Rattle.std.specs.Prelude.{◌≡◌, Ok, OnOk, OnErr, true};
ghost use Rattle.archive_model.specs.Acceptance.{book_after};
ghost use Rattle.archive_model.specs.Accepting.{tests_of};
ghost use Rattle.archive_model.specs.Checks.{checked, checks};
ghost use Rattle.archive_model.specs.Commands.{reply_to};

use crate::book::Book;
use archive_model::{Change, Command, Reply};
use frame_core::Refusal;

impl Book {
    /// A recording loses its first segments.
    pub(crate) fn purge_segments(&mut self, id: &i64, position: &i64) -> Result<Reply, Refusal>
        ensures answer { result ≡ checked (tests_of self.old true (Command.PurgeSegments id.now position.now)) checks
            (Ok (reply_to self.old.state (Command.PurgeSegments id.now position.now))) }
        ensures ok { OnOk result (self.new ≡ book_after self.old (Command.PurgeSegments id.now position.now)) }
        ensures err { OnErr result (self.new ≡ self.old) }
    {
        let Some(found) = self.recording(id) else {
            return Err(Refusal::UnknownRecording);
        };
        let known = found.registration();
        if !known.is_later_base(position) {
            return Err(Refusal::BadPosition);
        }
        if !self.has_room() {
            return Err(Refusal::HistoryFull);
        }
        let segments = known.segments_before(position);
        self.change(
            id,
            &Change::PurgeSegments {
                position: *position,
            },
        );
        Ok(Reply::Purged { segments })
    }

    /// A stopped recording is gone.
    pub(crate) fn purge_recording(&mut self, id: &i64) -> Result<Reply, Refusal>
        ensures answer { result ≡ checked (tests_of self.old true (Command.PurgeRecording id.now)) checks
            (Ok (reply_to self.old.state (Command.PurgeRecording id.now))) }
        ensures ok { OnOk result (self.new ≡ book_after self.old (Command.PurgeRecording id.now)) }
        ensures err { OnErr result (self.new ≡ self.old) }
    {
        let Some(found) = self.recording(id) else {
            return Err(Refusal::UnknownRecording);
        };
        if found.is_active() {
            return Err(Refusal::ActiveRecording);
        }
        if !self.has_room() {
            return Err(Refusal::HistoryFull);
        }
        self.remove(id);
        Ok(Reply::PurgedRecording)
    }
}
