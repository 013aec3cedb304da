//! Recordings that lose frames behind a position. docs/CONTROL.md, "Requests".

ghost use Rattle.std.specs.Prelude.{◌≡◌, Ok, OnOk, OnErr, true};
ghost use Rattle.archive_model.specs.Acceptance.{book_after};
ghost use Rattle.archive_model.specs.Accepting.{tests_of};
ghost use Rattle.archive_model.specs.Checks.{checked, checks};
ghost use Rattle.archive_model.specs.Commands.{reply_to};
ghost use Rattle.archive_model.specs.Accepting.{begins_in};
ghost use Rattle.archive_model.specs.Keyed.{find};
ghost use Rattle.archive_model.specs.State.{id_of};

use crate::book::Book;
use archive_model::{Change, Command, Reply};
use frame_core::Refusal;

impl Book {
    /// A stopped recording loses what lies behind a position.
    pub(crate) fn truncate(&mut self, id: &i64, position: &i64) -> Result<Reply, Refusal>
        ensures answer { result ≡ checked (tests_of self.old (begins_in (find id_of id.now self.old.state.recordings) position.now) (Command.Truncate id.now position.now)) checks
            (Ok (reply_to self.old.state (Command.Truncate id.now position.now))) }
        ensures ok { OnOk result (self.new ≡ book_after self.old (Command.Truncate id.now position.now)) }
        ensures err { OnErr result (self.new ≡ self.old) }
    {
        let Some(found) = self.recording(id) else {
            return Err(Refusal::UnknownRecording);
        };
        if found.is_active() {
            return Err(Refusal::ActiveRecording);
        }
        if !found.registration().is_within(position) {
            return Err(Refusal::BadPosition);
        }
        if !found.is_boundary(position) {
            return Err(Refusal::BadPosition);
        }
        if !self.has_room() {
            return Err(Refusal::HistoryFull);
        }
        self.change(
            id,
            &Change::Truncate {
                position: *position,
            },
        );
        Ok(Reply::Truncated {
            position: *position,
        })
    }
}
