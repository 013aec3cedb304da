//! What is asked of an archive's catalogue. docs/CONTROL.md, "Requests".

use archive_model::{Channel, ExtendFields, StartFields};

/// Which recording is looked for.
#[derive(Debug, Drop)]
pub struct FindFields {
    /// The least recording id that will do.
    pub least: i64,
    /// The stream that is recorded.
    pub stream_id: i32,
    /// The session that is, or was last, recorded.
    pub session_id: i32,
    /// A text that stands somewhere in the recording's channel; at least one byte.
    pub fragment: Channel,
}

/// A request to an archive's catalogue.
#[derive(Debug, Drop)]
pub enum Request {
    /// Begin a new recording.
    Start(StartFields),
    /// Stop an active recording where it is recorded to.
    Stop {
        /// The recording's id.
        recording: i64,
        /// When it stops, in milliseconds as the caller counts them.
        timestamp: i64,
    },
    /// Go on with a stopped recording where it stopped.
    Extend(ExtendFields),
    /// Cut off what lies behind a position of a stopped recording.
    Truncate {
        /// The recording's id.
        recording: i64,
        /// Where it then ends, in bytes of the stream.
        position: i64,
    },
    /// Drop a recording's first segments.
    PurgeSegments {
        /// The recording's id.
        recording: i64,
        /// Where it then begins, in bytes of the stream.
        position: i64,
    },
    /// Drop a stopped recording.
    PurgeRecording {
        /// The recording's id.
        recording: i64,
    },
    /// Tell the descriptors of recordings, by rising id.
    List {
        /// The least id that is told.
        from: i64,
        /// How many are told at most.
        count: i64,
    },
    /// Tell the last recording of a stream and session whose channel has a text in it.
    Find(FindFields),
    /// Tell where a recording begins, is recorded to and ends.
    Positions {
        /// The recording's id.
        recording: i64,
    },
    /// Tell who sends a recording's stream.
    Source {
        /// The recording's id.
        recording: i64,
    },
}
