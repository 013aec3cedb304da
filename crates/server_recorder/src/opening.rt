//! What is done for an image that waits to be recorded. docs/SERVING.md, "Recording without being asked".

ghost use Rattle.std.specs.Prelude.{◌≡◌};
ghost use Rattle.server_recorder.specs.Opening.{beginning_for, is_left_empty, opening_for};

use crate::streams::Finding;
use archive_model::Reply;
use frame_core::Refusal;
use server_state::Stand;

/// What is done for an image that waits to be recorded.
#[derive(Clone, Copy, Debug, PartialEq, Eq)]
pub(crate) enum Opening {
    /// A recording is extended.
    GoesOn(i64),
    /// The image is to begin anew where a recording stands.
    ResumesAt(Stand),
    /// A recording is to begin with its first block, which has not come.
    AwaitsBlock,
    /// A recording is to begin, but as many have begun as may within a short time.
    IsLate,
    /// A recording begins.
    Starts,
}

/// What is done for an image by what was found for it: whether it has a block, and whether a recording may begin.
pub(crate) fn opening_for(finding: Finding, has_block: bool, may_begin: bool) -> Opening
    ensures { result ≡ opening_for finding has_block may_begin }
{
    match finding {
        Finding::Extends(recording) => Opening::GoesOn(recording),
        Finding::StandsBefore(stand) => Opening::ResumesAt(stand),
        Finding::Begins => beginning_for(has_block, may_begin),
    }
}

fn beginning_for(has_block: bool, may_begin: bool) -> Opening
    ensures { result ≡ beginning_for has_block may_begin }
{
    if !has_block {
        Opening::AwaitsBlock
    } else if may_begin {
        Opening::Starts
    } else {
        Opening::IsLate
    }
}

/// A recording that the server writes for an image.
#[derive(Clone, Copy, Debug, PartialEq, Eq)]
pub(crate) struct OwnRecording {
    /// Its id.
    pub recording: i64,
    /// Where the server began it, in bytes of the stream. None if it was there, and goes on.
    pub begun_at: Option<i64>,
}

/// Whether nothing was recorded by a recording that the server began, by how its `stop` was answered.
pub(crate) fn is_left_empty(own: &OwnRecording, outcome: &Result<Reply, Refusal>) -> bool
    ensures { result ≡ is_left_empty own.now outcome.now }
{
    match (own.begun_at, outcome) {
        (Some(begun), Ok(Reply::Stopped { position })) => begun == *position,
        _ => false,
    }
}
