//! What changes an archive. docs/CONTROL.md, "Requests".

ghost use Rattle.std.specs.Prelude.{◌≡◌, IfOk};

use crate::channel::Channel;
use crate::source::SourceIdentity;
use frame_core::{Block, Items};
use std::alloc::{AllocError, Global};

/// What a new recording is to be.
#[derive(Debug, Drop)]
pub struct StartFields {
    /// The stream that is recorded.
    pub stream_id: i32,
    /// The session that is recorded.
    pub session_id: i32,
    /// The id of the stream's first term.
    pub initial_term_id: i32,
    /// Bytes of a term.
    pub term_length: i32,
    /// Bytes that a data frame has at most, header included.
    pub mtu: i32,
    /// Bytes of a segment file.
    pub segment_length: i32,
    /// Where it begins, in bytes of the stream.
    pub start_position: i64,
    /// When it starts, in milliseconds as the caller counts them.
    pub timestamp: i64,
    /// Where the stream comes from.
    pub channel: Channel,
    /// Who sends it, or the empty source.
    pub source_identity: SourceIdentity,
}

impl StartFields {
    /// A copy. Costs the lengths of its channel and source.
    pub fn copy(&self, alloc: Global) -> Result<StartFields, AllocError>
        ensures { IfOk result (λ copy. copy ≡ self.now) }
    {
        Ok(StartFields {
            stream_id: self.stream_id,
            session_id: self.session_id,
            initial_term_id: self.initial_term_id,
            term_length: self.term_length,
            mtu: self.mtu,
            segment_length: self.segment_length,
            start_position: self.start_position,
            timestamp: self.timestamp,
            channel: self.channel.copy(alloc)?,
            source_identity: self.source_identity.copy(alloc)?,
        })
    }
}

/// How a stopped recording goes on.
#[derive(Clone, Copy, Debug)]
pub struct ExtendFields {
    /// The recording's id.
    pub recording: i64,
    /// The stream that is recorded.
    pub stream_id: i32,
    /// The session that is recorded from now on.
    pub session_id: i32,
    /// The id of the stream's first term.
    pub initial_term_id: i32,
    /// Bytes of a term.
    pub term_length: i32,
    /// Bytes that a data frame has at most, header included.
    pub mtu: i32,
    /// Where it goes on, in bytes of the stream.
    pub join_position: i64,
}

/// A change of the archive's state.
#[derive(Debug, Drop)]
pub enum Command {
    /// A new recording, active and empty.
    Start(StartFields),
    /// Blocks join the end of an active recording.
    Append {
        /// The recording's id.
        recording: i64,
        /// The blocks, in order.
        blocks: Items<Block>,
    },
    /// A recording stops where it is recorded to.
    Stop {
        /// The recording's id.
        recording: i64,
        /// When it stops, in milliseconds as the caller counts them.
        timestamp: i64,
    },
    /// A stopped recording goes on where it stopped.
    Extend(ExtendFields),
    /// A stopped recording loses what lies behind a position.
    Truncate {
        /// The recording's id.
        recording: i64,
        /// Where it then ends, in bytes of the stream.
        position: i64,
    },
    /// A recording loses its first segments.
    PurgeSegments {
        /// The recording's id.
        recording: i64,
        /// Where it then begins, in bytes of the stream.
        position: i64,
    },
    /// A stopped recording is gone.
    PurgeRecording {
        /// The recording's id.
        recording: i64,
    },
    /// Each active recording stops where it is recorded to.
    Restart,
}
