//! What is decided on a request. docs/CONTROL.md, "Requests".

use archive_model::{Command, Registration, Reply};
use frame_core::Refusal;

/// What is decided on a request to the catalogue, before any frame is read.
#[derive(Debug, Drop)]
pub enum Decision<'a> {
    /// It is refused.
    Refused(Refusal),
    /// It is answered, and changes nothing.
    Answered(Reply),
    /// It is this command.
    Accepted(Command),
    /// It depends on whether a frame begins at a position strictly inside a recording: `BadPosition` where none does.
    IfBoundary {
        /// The recording.
        known: &'a Registration,
        /// The position, in bytes of the stream.
        position: i64,
        /// What is decided where one does.
        decided: Result<Command, Refusal>,
    },
}
