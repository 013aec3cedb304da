//! A control line as a value. docs/CONTROL.md, "Lines".

use crate::merge_line::MergeLine;
use control_core::Event;
use frame_core::Items;

/// Which frames a follower is sent. docs/CONTROL.md, "Replays".
#[derive(Clone, Copy, Debug, PartialEq, Eq)]
pub struct FollowFields {
    /// The recording's id.
    pub recording: i64,
    /// Where the first of them begins, in bytes of the stream; -1 for the start.
    pub position: i64,
    /// How far they go, in bytes of the stream; -1 for all that is recorded, now and later.
    pub length: i64,
}

/// What a control line asks for.
#[derive(Debug, Drop)]
pub enum Line {
    /// A call on the archive.
    Event(Event),
    /// Write the bytes of a block.
    Write {
        /// The recorder session's number.
        session: i64,
        /// The block as bytes; at least one.
        bytes: Items<u8>,
    },
    /// Write the bytes of a block, and settle it.
    Block {
        /// The recorder session's number.
        session: i64,
        /// The block as bytes; at least one.
        bytes: Items<u8>,
    },
    /// Send this connection the frames of a replay, and no replies any more.
    Follow(FollowFields),
    /// Close the archive and open it again.
    Reopen,
    /// Close the archive, write its history anew, and open it again.
    Compact,
    /// A line to the merge of a replay and the live stream.
    Merge(MergeLine),
    /// Read no further line.
    Quit,
}
