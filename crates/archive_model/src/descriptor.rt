//! What an archive knows of a recording.

ghost use Rattle.std.specs.Prelude.{◌≡◌, IfOk};

use crate::channel::Channel;
use crate::source::SourceIdentity;
use std::alloc::{AllocError, Global};

/// A recording's descriptor: Aeron Archive documentation, "Recording descriptor"; docs/CONTROL.md, "Recordings".
#[derive(Debug, Drop)]
pub struct Descriptor {
    /// The recording's id, from 0.
    pub recording: i64,
    /// When it was started, in milliseconds as the caller counts them.
    pub start_timestamp: i64,
    /// When it was stopped, in milliseconds as the caller counts them, or -1.
    pub stop_timestamp: i64,
    /// Where it begins, in bytes of the stream.
    pub start_position: i64,
    /// Where it ends, in bytes of the stream, or -1 while it is active.
    pub stop_position: i64,
    /// The id of the stream's first term.
    pub initial_term_id: i32,
    /// Bytes of a segment file.
    pub segment_length: i32,
    /// Bytes of a term.
    pub term_length: i32,
    /// Bytes that a data frame has at most, header included.
    pub mtu: i32,
    /// The session that is, or was last, recorded.
    pub session_id: i32,
    /// The stream that is recorded.
    pub stream_id: i32,
    /// Where the stream comes from.
    pub channel: Channel,
    /// Who sends it, or the empty source.
    pub source_identity: SourceIdentity,
}

impl Descriptor {
    /// A copy. Costs the lengths of its channel and source.
    pub fn copy(&self, alloc: Global) -> Result<Descriptor, AllocError>
        ensures { IfOk result (λ copy. copy ≡ self.now) }
    {
        Ok(Descriptor {
            recording: self.recording,
            start_timestamp: self.start_timestamp,
            stop_timestamp: self.stop_timestamp,
            start_position: self.start_position,
            stop_position: self.stop_position,
            initial_term_id: self.initial_term_id,
            segment_length: self.segment_length,
            term_length: self.term_length,
            mtu: self.mtu,
            session_id: self.session_id,
            stream_id: self.stream_id,
            channel: self.channel.copy(alloc)?,
            source_identity: self.source_identity.copy(alloc)?,
        })
    }
}
