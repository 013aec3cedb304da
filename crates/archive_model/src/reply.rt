//! What the archive answers to an accepted call. docs/CONTROL.md, "Lines".

use crate::descriptor::Descriptor;
use crate::source::SourceIdentity;
use frame_core::{Frame, Items};

/// A frame that a replay gives, and where it lies.
#[derive(Debug, Drop)]
pub struct PolledFrame {
    /// Where it begins, in bytes of the stream.
    pub position: i64,
    /// The frame.
    pub frame: Frame,
}

/// A reply, one variant for each reply line.
#[derive(Debug, Drop)]
pub enum Reply {
    /// A recording began.
    Started {
        /// Its id.
        recording: i64,
        /// The recorder session that writes it.
        session: i64,
    },
    /// A recording goes on.
    Extended {
        /// The recorder session that writes it.
        session: i64,
    },
    /// A block is written, and not settled.
    Written {
        /// Where it ends, in bytes of the stream.
        position: i64,
    },
    /// All written blocks are recorded.
    Settled {
        /// The recorded position, in bytes of the stream.
        position: i64,
    },
    /// All blocks that several recorder sessions wrote are recorded.
    SettledAll {
        /// The recorded position of each session's recording, in bytes of the stream, in the order of the sessions that were
        /// named. None for a number that no open session has.
        positions: Items<Option<i64>>,
    },
    /// A recording stopped.
    Stopped {
        /// Its stop position, in bytes of the stream.
        position: i64,
    },
    /// A recording was cut.
    Truncated {
        /// Its stop position, in bytes of the stream.
        position: i64,
    },
    /// A recording lost its first segments.
    Purged {
        /// How many.
        segments: i64,
    },
    /// A recording is gone.
    PurgedRecording,
    /// The descriptors asked for, by rising id.
    Recordings(Items<Descriptor>),
    /// The recording that was looked for.
    Found {
        /// Its id, or -1 where there is none.
        recording: i64,
    },
    /// Where a recording begins and ends, in bytes of the stream.
    Positions {
        /// Its start position.
        start: i64,
        /// Its recorded position.
        recorded: i64,
        /// Its stop position, or -1 while it is active.
        stop: i64,
    },
    /// Who sends a recording's stream.
    Source(SourceIdentity),
    /// A replay is open.
    ReplayOpened {
        /// Its number.
        replay: i64,
    },
    /// The frames of a poll.
    Polled {
        /// The frames, in order.
        frames: Items<PolledFrame>,
        /// The replay's next position in bytes of the stream, or none where it is done.
        next: Option<i64>,
    },
    /// A replay is closed.
    Closed,
    /// The archive looked for a file that no recording needs.
    Swept {
        /// Whether one was removed.
        removed: bool,
    },
    /// Each recorded frame of a recording was read.
    Verified {
        /// How many.
        frames: i64,
    },
    /// The archive was closed and opened again.
    Reopened {
        /// How many active recordings that stopped.
        recordings: i64,
    },
    /// The catalogue was written anew.
    Compacted,
    /// The catalogue was written anew in its other bank, and recording goes on.
    Checkpointed,
    /// A merge began.
    MergeOpened {
        /// Where, in bytes of the stream.
        position: i64,
    },
    /// The merge holds the offered frame.
    Held,
    /// The merge does not need the offered frame.
    Ignored,
    /// The merge holds as many frames as it may.
    Full,
    /// The merge's next frame, if it has it.
    Taken(Option<PolledFrame>),
    /// How far the merge is.
    MergeState {
        /// Whether it follows the live stream.
        is_merged: bool,
        /// Where its next frame begins, in bytes of the stream.
        cursor: i64,
    },
    /// No further line is read.
    Bye,
}
