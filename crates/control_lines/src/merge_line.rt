//! Lines to the merge of a replay and the live stream. docs/CONTROL.md, "Lines".

use frame_core::Items;

/// What is asked of a merge of a replay and the live stream, which is no part of an archive.
#[derive(Debug, Drop)]
pub enum MergeLine {
    /// Begin a merge anew.
    Open {
        /// The id of the stream's first term.
        initial_term_id: i32,
        /// Bytes of each of its terms.
        term_length: i32,
        /// Where the output begins, in bytes of the stream.
        position: i64,
    },
    /// Offer a frame of the replay, as the bytes of its datagram; at least one.
    Replay(Items<u8>),
    /// Offer a frame of the live stream, as the bytes of its datagram; at least one.
    Live(Items<u8>),
    /// Take the next frame of the output.
    Take,
    /// Tell how far the output is.
    State,
}
