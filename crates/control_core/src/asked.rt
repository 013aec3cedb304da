//! What is asked of an archive and answered, without frames: what a history of calls keeps. docs/CONTROL.md, "Control
//! state".

use crate::callers::Written;
use crate::request::Request;
use archive_model::Reply;
use frame_core::Items;

/// A call on an archive, a block by its first and last position.
#[derive(Debug, Drop)]
pub enum Asked {
    /// A request to its catalogue.
    Ask(Request),
    /// Write a block behind what a recorder session wrote before.
    Write {
        /// The recorder session's number.
        session: i64,
        /// Where the block lies.
        block: Written,
    },
    /// Record what a recorder session wrote.
    Settle {
        /// The recorder session's number.
        session: i64,
    },
    /// Record what several recorder sessions wrote, together: all of it, or nothing.
    SettleAll {
        /// The recorder sessions' numbers, each once, at most 64. A number that no open session has refuses nothing.
        sessions: Items<i64>,
    },
    /// Open a replay of a range of a recording.
    ReplayOpen {
        /// The recording's id.
        recording: i64,
        /// Where the replay begins, in bytes of the stream; -1 for the start.
        position: i64,
        /// How far it goes, in bytes of the stream; -1 for all that is recorded.
        length: i64,
    },
    /// Take the next frames of a replay.
    ReplayPoll {
        /// The replay's number.
        replay: i64,
        /// How many frames are taken at most.
        max: i64,
        /// The limit, a position in bytes of the stream: only frames that begin before it are given. None for a poll without
        /// a limit.
        limit: Option<i64>,
    },
    /// Close a replay.
    ReplayClose {
        /// The replay's number.
        replay: i64,
    },
    /// Remove one file that no recording needs.
    Sweep,
    /// Read each recorded frame of a recording.
    Verify {
        /// The recording's id.
        recording: i64,
    },
    /// Write the catalogue anew in its other bank, while recordings go on.
    Checkpoint,
}

/// What an archive answered, a poll's frames by their first and last position.
#[derive(Debug, Drop)]
pub enum Told {
    /// A reply without frames.
    Reply(Reply),
    /// The frames of a poll.
    Polled {
        /// Where they lie: the last position is the first where there is none.
        frames: Written,
        /// Whether the replay is done.
        is_done: bool,
    },
}
